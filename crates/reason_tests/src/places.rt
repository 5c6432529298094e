//! Tests of lines, of columns, and of the page's lines.
mod forms;
mod spellings;

use plan_lines::{Place, column_after, line_after, line_of};
use std::process::Abort;
use std::test::Fail;

/// A text, and its places.
#[derive(Clone, Copy)]
struct Places {
    name: &'static str,
    text: &'static str,
    /// Each row is a line, or `-` where none is to be told, then ` | ` and a place: `BLOCK CALL` or `BLOCK CALL KEY`.
    rows: &'static str,
}

/// A place that is written `BLOCK CALL` or `BLOCK CALL KEY`.
fn place_of(words: &str) -> Option<Place<'_>> {
    let (block, rest) = words.split_once(' ')?;
    let (call, key) = match rest.split_once(' ') {
        Some((call, key)) => (call, Some(key)),
        None => (rest, None),
    };
    Some(Place {
        block: block.parse::<usize>().ok()?,
        call: call.parse::<usize>().ok()?,
        key,
    })
}

/// Whether a text has the place of a row in the line of the row.
fn is_told(text: &str, row: &str) -> bool {
    let Some((line, words)) = row.split_once(" | ") else {
        return false;
    };
    let Some(place) = place_of(words) else {
        return false;
    };
    match line_of(text.as_bytes(), place) {
        Some(found) => line.parse::<usize>() == Ok(found),
        None => line == "-",
    }
}

/// Looks each place of a text up.
fn look_up(rt: &impl Abort, places: Places) {
    assert!(rt; !places.rows.is_empty());
    for row in places.rows.lines() {
        assert!(rt; is_told(places.text, row), "{}: {row}", places.name);
    }
}

#[test]
fn each_place_is_looked_up(rt: HostRuntime) {
    for texts in [forms::TEXTS, spellings::TEXTS, NOTHING_THERE] {
        for places in texts {
            look_up(&rt, *places);
        }
    }
}

/// Nothing is told of what is not there.
const NOTHING_THERE: &[Places] = &[
    Places {
        name: "an empty text",
        text: "",
        rows: "- | 0 0\n- | 0 0 version\n- | 1 0\n- | 1 1 op",
    },
    Places {
        name: "a text without these places",
        text: "version = 2\n[[block]]\n[[block.call]]\nop = \"ask\"\n",
        rows: "- | 0 0\n- | 0 0 block.call\n- | 0 1 op\n- | 1 0 op\n- | 2 0\n- | 1 2\n- | 2 1 op\n- | 0 0 op",
    },
];

#[test]
fn the_page_is_run(rt: HostRuntime) {
    // example: plan_lines
    let text = b"version = 2\n\n[[block]]\n\n[[block.call]]\nop = \"ask\"\n";
    let line = |block, call, key| line_of(text, Place { block, call, key });
    assert_eq!(rt; line(0, 0, Some("version")), Some(1));
    assert_eq!(rt; line(1, 0, None), Some(3)); // where the first block begins
    assert_eq!(rt; line(1, 1, Some("op")), Some(6));
    assert_eq!(rt; line(1, 1, Some("at")), None);
    assert_eq!(rt; (line_after(b"a\nb"), column_after(b"a\nb")), (2, 2)); // of what follows the `b`
    // end of example
}

/// Texts with the line and the column of what follows them.
const ENDS: &[(&str, usize, usize)] = &[
    ("", 1, 1),
    ("a", 1, 2),
    ("\n", 2, 1),
    ("a\r\nbc", 2, 3),
    ("\n\n\n", 4, 1),
    ("äö\u{1F600}", 1, 4),
    ("a\n\u{20AC}", 2, 2),
];

#[test]
fn lines_and_columns_count_from_1(rt: HostRuntime) {
    for (text, line, column) in ENDS {
        let before = text.as_bytes();
        assert!(rt;
            line_after(before) == *line && column_after(before) == *column,
            "{text}"
        );
    }
}
