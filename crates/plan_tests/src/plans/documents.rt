//! Texts that are a TOML document, version 1.1, and texts that are none: what is told of each is by the words of TOML.
use super::*;

/// Texts that are no TOML document, and one of no bytes.
const REFUSES_AT_THE_TEXT: &str = r#"Toml block 0 call 0 | version = 3 / =
Toml block 0 call 0 | version = 1 / version = 1
Toml block 0 call 0 | version = 1 / x = 9223372036854775808
Toml block 0 call 0 | version = 1 / [[block]] / at = 9223372036854775808
Version block 0 call 0 | "#;

/// Keys and tables that a text defines twice, and some that it may name again.
const REFUSES_WHAT_STANDS_TWICE: &str = r#"Toml block 0 call 0 | "version" = 1
Toml block 0 call 0 | version.x = 1
Toml block 0 call 0 | [version]
Toml block 0 call 0 | x = 1 / x.y = 1
Toml block 0 call 0 | x.y = 1 / [x]
Toml block 0 call 0 | x = {} / [x]
Toml block 0 call 0 | [x] / [x]
Toml block 0 call 0 | block = [] / [[block]]
Toml block 0 call 0 | [block] / [[block]]
Toml block 0 call 0 | [[block]] / [block]
Toml block 0 call 0 | [[block]] / at = 1 / at = 1
Toml block 0 call 0 | [[block]] / call = [] / [[block.call]]
Toml block 0 call 0 | [[block]] / [[block.call]] / [block.call]
Toml block 0 call 0 | [[block]] / [[block.call]] / op = "ask" / op = "ask"
Toml block 0 call 0 | [[block]] / call = [{ op = "ask", op = "ask" }]
UnknownKey block 0 call 0 | x.y = 1 / x.z = 1
UnknownKey block 0 call 0 | [x] / [x.y]
UnknownKey block 0 call 0 | [x.y] / [x]
WrongType block 0 call 0 | block.call = 1
WrongType block 1 call 0 | [[block]] / [block.call]
UnknownKey block 1 call 0 | [[block]] / [block.x]"#;

/// Lines and line ends, and a byte order mark.
const TAKES_LINE_ENDS_AND_A_BYTE_ORDER_MARK: &str = r#"plan | version = 1␍⏎
plan | version = 1 # one␍⏎␍⏎[[block]]␍⏎at = 0
Toml block 0 call 0 | version = 1␍
Toml block 0 call 0 | version = 1␍[[block]]
Toml block 0 call 0 | version = 1⏎␍[[block]]
Toml block 0 call 0 | version = 1 [[block]]
Toml block 0 call 0 | version⏎= 1
Toml block 0 call 0 | version =⏎1
Toml block 0 call 0 | [[block]⏎]⏎version = 1
plan | ⊕version = 1
Version block 0 call 0 | ⊕
Toml block 0 call 0 | ⊕⊕version = 1
Toml block 0 call 0 |  ⊕version = 1
Toml block 0 call 0 | version = 1⏎⊕
UnknownKey block 0 call 0 | version = 1 # ⊕⏎x = '⊕'"#;

/// What TOML has since version 1.1: times without seconds, lines and a last comma in an inline table, and two escapes.
const TAKES_WHAT_TOML_HAS_SINCE_VERSION_1_1: &str = r#"WrongType block 1 call 0 | at = 07:32
WrongType block 1 call 0 | at = 1979-05-27T07:32Z
plan | call = [{ / op = "schedule", # runs once / name = "a", / delay = 1, / }]
plan | call = [{ op = "schedule", name = "\x61", delay = 1 }]
BadName block 1 call 1 | call = [{ op = "schedule", name = "\e", delay = 1 }]
Toml block 0 call 0 | call = [{ op = "schedule", name = "\xg1", delay = 1 }]
Toml block 0 call 0 | call = [{ op = "ask",, at = 1 }]
Toml block 0 call 0 | call = [{ , op = "ask" }]"#;

/// Bytes behind the sign of a comment, and whether they are UTF-8.
const COMMENTS: &[(&[u8], bool)] = &[
    (b"\xff", false),
    (b"\xfe", false),
    (b"\x80", false),
    (b"\xc3", false),
    (b"\xc3(", false),
    (b"\xc0\x80", false),
    (b"\xe0\x80\x80", false),
    (b"\xed\xa0\x80", false),
    (b"\xf4\x90\x80\x80", false),
    (b"\xf8\x88\x80\x80\x80", false),
    (b"\xef\xbb", false),
    (b"\xc2\x80", true),
    (b"\xed\x9f\xbf", true),
    (b"\xef\xbf\xbf", true),
    (b"\xf4\x8f\xbf\xbf", true),
];

/// The fault of a text that is no TOML document.
const TOML: PlanFault = PlanFault {
    kind: PlanFaultKind::Toml,
    block: 0,
    call: 0,
};

/// The fault of a text that has these bytes in a comment.
fn fault_of_comment(alloc: Global, bytes: &[u8]) -> Result<Option<PlanFault>, AllocError> {
    let text = [b"version = 1 #".as_slice(), bytes].concat(alloc)?;
    Ok(read(alloc, &text).err())
}

#[test]
fn refuses_bytes_that_are_not_utf_8(rt: HostRuntime) -> Result<(), Fail> {
    assert!(rt; read(rt.alloc(), b"\xff").err() == Some(TOML));
    for (bytes, is_utf_8) in COMMENTS {
        let fault = fault_of_comment(rt.alloc(), bytes)?;
        let expected = if *is_utf_8 { None } else { Some(TOML) };
        assert!(rt; fault == expected, "{bytes:?}");
    }
    Ok(())
}

#[test]
fn tells_documents(rt: HostRuntime) -> Result<(), Fail> {
    tells_each(&rt, "", REFUSES_AT_THE_TEXT)?;
    tells_each(&rt, "", TAKES_LINE_ENDS_AND_A_BYTE_ORDER_MARK)?;
    tells_each(&rt, "version = 1\n", REFUSES_WHAT_STANDS_TWICE)?;
    tells_each(&rt, HEADER, TAKES_WHAT_TOML_HAS_SINCE_VERSION_1_1)
}
