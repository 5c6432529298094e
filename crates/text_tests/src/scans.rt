//! Words and numbers at the front of some bytes, with a byte changed at each place of a word and with a byte too few.
ghost use Rattle.std.specs.Prelude.{◌≤◌};

use std::process::Abort;
use trace_text::{code_before, number_before, strip_word};

mod in_lines;

/// A text, and what follows a word at its front.
type Row = (&'static str, Option<&'static [u8]>);

/// Texts by what follows ` finish ` at their front.
const EIGHT: &[Row] = &[
    (" finish 0 task", Some(b"0 task")),
    (" finish ", Some(b"")),
    (" finish", None),
    (" fin", None),
    ("", None),
    ("_finish 0", None),
    (" _inish 0", None),
    (" f_nish 0", None),
    (" fi_ish 0", None),
    (" fin_sh 0", None),
    (" fini_h 0", None),
    (" finis_ 0", None),
    (" finish_0", None),
    ("  finish 0", None),
];

/// Texts by what follows ` run ` at their front.
const FIVE: &[Row] = &[
    (" run 5", Some(b"5")),
    (" run ", Some(b"")),
    (" run", None),
    ("_run 5", None),
    (" _un 5", None),
    (" r_n 5", None),
    (" ru_ 5", None),
    (" run_5", None),
];

/// Texts by what follows `due ` at their front.
const FOUR: &[Row] = &[
    ("due 5", Some(b"5")),
    ("due", None),
    ("_ue 5", None),
    ("d_e 5", None),
    ("du_ 5", None),
    ("due_5", None),
];

/// Texts by the number, and what follows ` run ` behind it.
const NUMBERS: &[(&str, Option<(u64, &[u8])>)] = &[
    ("4294967296 run 3", Some((4_294_967_296, b"3"))),
    ("05 run 3", None),
    (" run 3", None),
    ("5 run_3", None),
];

/// Texts by the code, and what follows ` run ` behind it.
const CODES: &[(&str, Option<(u32, &[u8])>)] = &[
    ("4294967295 run 3", Some((u32::MAX, b"3"))),
    ("4294967296 run 3", None),
    ("5 run_3", None),
];

/// Checks what is found behind a word at the front of each text.
fn strips_each<const N: usize>(rt: &impl Abort, word: [u8; N], rows: &[Row])
    requires { 4 ≤ N }
{
    for (text, wanted) in rows {
        assert!(rt; strip_word(text.as_bytes(), word) == *wanted, "{text}");
    }
}

#[test]
fn short_words(rt: HostRuntime) {
    strips_each(&rt, *b" finish ", EIGHT);
    strips_each(&rt, *b" run ", FIVE);
    strips_each(&rt, *b"due ", FOUR);
}

#[test]
fn a_word_of_thirteen_bytes(rt: HostRuntime) {
    let text = b"schedule due 5";
    assert!(rt; strip_word(text, *b"schedule due ") == Some(b"5".as_slice()));
    assert!(rt; strip_word(text, *b"schedule_due ").is_none());
    assert!(rt; strip_word(text, *b"schedule due 5 ").is_none());
}

#[test]
fn numbers_before_a_word(rt: HostRuntime) {
    for (text, wanted) in NUMBERS {
        assert!(rt;
            number_before(text.as_bytes(), b" run ") == *wanted,
            "{text}"
        );
    }
}

#[test]
fn codes_before_a_word(rt: HostRuntime) {
    for (text, wanted) in CODES {
        assert!(rt; code_before(text.as_bytes(), b" run ") == *wanted, "{text}");
    }
}
