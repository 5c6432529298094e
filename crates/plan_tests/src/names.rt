//! Which texts are names, and what a name tells.

use plan_read::task_names::{Name, is_name};

#[test]
fn the_page_is_run(rt: HostRuntime) {
    // example: plan_read::task_names
    let text = "backup";
    assert!(rt; is_name(text));
    let name = Name::new(text); // a copy of it
    assert_eq!(rt; name.as_str(), "backup");
    assert!(rt; !is_name("back up"));
    // end of example
}

/// Texts, and whether they are names.
const TEXTS: &[(&str, bool)] = &[
    ("a", true),
    ("Z", true),
    ("back-up_7", true),
    ("0123456789abcdefghijklmnopqrstuv", true),
    ("", false),
    (" ", false),
    ("a b", false),
    ("a.b", false),
    ("\u{e9}", false),
    ("0123456789abcdefghijklmnopqrstuvw", false),
];

#[test]
fn a_name_keeps_its_text_and_other_texts_are_none(rt: HostRuntime) {
    for (text, is_one) in TEXTS {
        let keeps = is_name(text) && Name::new(text).as_str() == *text;
        assert!(rt; keeps == *is_one, "{text}");
    }
}
