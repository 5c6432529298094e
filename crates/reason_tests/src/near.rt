//! Tests of words and of escapes.
mod usage;

use near_words::{FileName, is_unseen};
use refusing_allocator::Refusing;
use std::alloc::{AllocError, Allocator, Global};
use std::process::Abort;
use std::test::Fail;

/// A word, other words with spaces between them, and those of them that may be meant.
const WORDS: &[(&str, &str, &str)] = &[
    ("clok", "clock start finish", "clock"),
    ("stop", "clock start finish", ""),
    ("cancle", "clock cancel", "cancel"),
    ("", "clock", ""),
    ("x", "y", ""),
    ("xy", "y xyz yx", "y xyz"),
    ("ab", "ac ad ae af", "ac ad ae"),
    ("abcd", "abxx abxd", "abxd"),
    ("abcd", "ab abcdefg", "ab"),
    ("cl\u{F6}ck:", "clock start", "clock"),
    (
        "CLOCK",
        "clocks clock Clock cloCK ClOcK",
        "clock Clock cloCK",
    ),
    ("Ok", "pk ok", "ok"),
];

/// A name of a file, and how it is told.
const NAMES: &[(&str, &str)] = &[
    ("a/b \"c\".txt", "a/b \"c\".txt"),
    (
        "a\nb\r\t\u{1B}\0\u{7F}\u{85}",
        "a\\nb\\r\\t\\u001B\\u0000\\u007F\\u0085",
    ),
    (
        "\u{AD}\u{200B}\u{A0}\u{202E}\u{2066}\u{FEFF}",
        "\\u00AD\\u200B\\u00A0\\u202E\\u2066\\uFEFF",
    ),
    ("\u{E4}\u{20AC}\u{1F600}", "\u{E4}\u{20AC}\u{1F600}"),
];

/// That of the crate, of which no more is known here than what it answers.
fn near<'w, A: Allocator + Copy>(
    alloc: A,
    word: &str,
    words: &[&'w str],
) -> Result<Vec<&'w str, A>, AllocError> {
    near_words::near(alloc, word, words)
}

/// The words of a text, which has spaces between them.
fn words_of(alloc: Global, text: &str) -> Result<Vec<&str>, AllocError> {
    let mut words = Vec::new(alloc);
    for word in text.split(' ') {
        words.push(word)?;
    }
    Ok(words)
}

/// The words that may be meant by another one, with spaces between them.
fn told(alloc: Global, word: &str, words: &str) -> Result<String, AllocError> {
    let words = words_of(alloc, words)?;
    let mut told = String::new(alloc);
    for other in near(alloc, word, words.as_slice())?.as_slice() {
        if !told.is_empty() {
            told.push(' ')?;
        }
        told.push_str(other)?;
    }
    Ok(told)
}

#[test]
fn words_that_may_be_meant(rt: HostRuntime) -> Result<(), Fail> {
    for (word, words, wanted) in WORDS {
        let told = told(rt.alloc(), word, words)?;
        assert!(rt; told.as_str() == *wanted, "{word}: {told}");
    }
    Ok(())
}

#[test]
fn characters_that_cannot_be_seen(rt: HostRuntime) -> Result<(), Fail> {
    for (name, wanted) in NAMES {
        let told = FileName(name).to_string(rt.alloc())?;
        assert!(rt; told.as_str() == *wanted, "{told}");
    }
    assert!(rt; is_unseen('\u{2003}') && !is_unseen(' ') && !is_unseen('\\'));
    Ok(())
}

/// Looks for words where the growth of this number is refused, and tells whether it was. There is no answer then, or the one word
/// that may be meant.
fn is_refused_at(rt: &(impl AllocGlobal + Abort), number: u64) -> bool {
    let heap = Refusing::new(rt.alloc());
    heap.refuse(number);
    match near(&heap, "clok", &["start", "clock"]) {
        Ok(those) => assert!(rt; those.len() == 1 && those[0] == "clock"),
        Err(_) => assert!(rt; heap.has_refused()),
    }
    heap.has_refused()
}

#[test]
fn each_growth_refused_in_turn(rt: HostRuntime) {
    let mut refused = 0u32;
    for number in 1..30 {
        if is_refused_at(&rt, number) {
            refused = refused.saturating_add(1);
        }
    }
    assert!(rt; refused > 1 && refused < 20, "{refused}");
}
