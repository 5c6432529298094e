//! Texts that are no document, or too long.
use super::{reason_of, repeated, told};
use plan_read::{PlanFault, PlanFaultKind};
use plan_reasons::{Found, Wanted};
use std::alloc::{AllocError, Global};
use std::process::Abort;
use std::test::Fail;

/// Tables that `tell_table` reads.
pub const TABLES: &str = "\
    no documents | version = 2 / \n\
    p:2:4: no TOML document; invalid value, expected a string, number, boolean, date-time, array or inline table | x =\n\
    p:2:9: no TOML document; unclosed array table, expected `]]` | [[block] / at = 1\n\
    p:4:1: no TOML document; duplicate key | [[block]] / at = 1 / at = 2\n\
    p:2:10: no TOML document; invalid string | x = \"open\n\
    p:3:5: no TOML document; number out of range | # / x = 99999999999999999999\n\
    p:2:7: no TOML document; unexpected key or value, expected newline, `#` | x = 1 y = 2";

/// What the crate `toml` would print of a text which is no document, by the line, the column and the reason that are told of it.
fn told_of_document(alloc: Global, text: &[u8]) -> Result<Option<String>, AllocError> {
    let Some(reason) = reason_of(alloc, text) else {
        return Ok(None);
    };
    if reason.fault.kind != PlanFaultKind::Toml {
        return Ok(None);
    }
    let (Some(line), Some(column)) = (reason.line, reason.column) else {
        return Ok(None);
    };
    match &reason.wanted {
        Wanted::Document(why) => Ok(Some(format!(in alloc;
            "TOML parse error at line {line}, column {column}\n{why}\n"
        )?)),
        _ => Ok(None),
    }
}

/// What the crate `toml` prints of a text which is no document.
fn printed_of_document(alloc: Global, text: &[u8]) -> Result<Option<String>, AllocError> {
    match toml::table_from_slice(alloc, text) {
        Ok(_) => Ok(None),
        Err(error) => Ok(Some(error.to_string(alloc)?)),
    }
}

/// Whether the line and the column of a text which is no document are those that the crate prints.
fn is_placed_as_the_crate_says(alloc: Global, text: &[u8]) -> Result<bool, AllocError> {
    let told = told_of_document(alloc, text)?;
    let printed = printed_of_document(alloc, text)?;
    match (&told, &printed) {
        (Some(told), Some(printed)) => Ok(told.as_str() == printed.as_str()),
        _ => Ok(false),
    }
}

/// Texts that are no documents.
const NO_DOCUMENTS: &[&[u8]] = &[
    b"version =",
    b"version = 2\n[[block]\n",
    b"version = 2\n\n  \xC3\xA4\xC3\xB6 = 1\n",
    b"version = 2\nx = 'a\n",
    b"version = 2\nversion = 2\n",
    b"version = 2\r\n\tx = [1,,2]\r\n",
    b"version = 2\nx = \"\xFF\"\n",
];

#[test]
fn places_are_those_of_the_crate(rt: HostRuntime) -> Result<(), Fail> {
    for text in NO_DOCUMENTS {
        let is_placed = is_placed_as_the_crate_says(rt.alloc(), text)?;
        assert!(rt; is_placed, "{text:?}");
    }
    Ok(())
}

/// Numbers of blanks, and what is told of a text of so many.
const BLANKS: &[(usize, &str)] = &[
    (1_048_576, "p: version: missing; one of 1, 2"),
    (1_048_577, "p: too long; at most 1048576 bytes"),
    (2_000_000, "p: too long; at most 1048576 bytes"),
];

#[test]
fn too_long_texts(rt: HostRuntime) -> Result<(), Fail> {
    for (count, wanted) in BLANKS {
        let text = repeated(rt.alloc(), "", " ", *count)?;
        let told = told(rt.alloc(), text.as_str())?;
        assert!(rt; told.as_str() == *wanted, "{told}");
    }
    Ok(())
}

#[test]
fn a_reason_is_a_value(rt: HostRuntime) -> Result<(), Fail> {
    let text = b"version = 2\n[[block]]\ntimes = 0\n";
    let Some(reason) = reason_of(rt.alloc(), text) else {
        return Err(Fail::from("a plan"));
    };
    let fault = PlanFault {
        kind: PlanFaultKind::BadTimes,
        block: 1,
        call: 0,
    };
    assert!(rt; reason.fault == fault);
    assert!(rt; reason.line == Some(3) && reason.column.is_none());
    let key = reason.key.as_ref();
    assert!(rt; key.is_some_and(|key| key.as_str() == "times"));
    assert!(rt; matches!(reason.found, Found::Integer(0)));
    let wanted = &reason.wanted;
    assert!(rt;
        matches!(
            wanted,
            Wanted::Number {
                least: Some(1),
                most: 65_536,
                unit: None
            }
        )
    );
    Ok(())
}
