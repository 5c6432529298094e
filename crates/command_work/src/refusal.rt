//! A line that says why a file is refused, or what is odd of it.

ghost use Rattle.std.specs.Prelude.{◌≡◌, ◌≤◌, IfOk, length, string_bytes};
ghost use Rattle.std.specs.List.{position_or_len};
ghost use Rattle.command_work.specs.Refusals.{IsOneLine, front_line};
ghost use Rattle.trace_reasons.specs.Standing.{is_newline};

use memchr::memchr;
use std::alloc::{AllocError, Global};
use std::fmt::Display;

/// Why a file is refused, or what is odd of it: one line for standard error, with its newline.
#[derive(Debug, Drop)]
pub struct Refusal {
    line: Vec<u8>,
    ghost one: { IsOneLine line.items },
}

impl Refusal {
    ghost use Rattle.command_work.specs.RefusalTexts.{text_of};

    /// What prints as one line, with a newline behind it. Where it prints as more lines, the first of them. `Err` is want of memory.
    pub(crate) fn of<D: Display>(heap: Global, told: &D) -> Result<Refusal, AllocError> {
        Refusal::new(heap, format!(in heap; "{told}")?.as_str())
    }

    /// The first line of a text, with a newline behind it. `Err` is want of memory.
    pub fn new(heap: Global, text: &str) -> Result<Refusal, AllocError>
        ensures { IfOk result (λ refusal. text_of refusal ≡ front_line text.now) }
    {
        let text = text.as_bytes();
        let end = end_of_line(text);
        let mut line = Vec::new(heap);
        line.extend_from_slice(&text[..end])?;
        line.push(b'\n')?;
        Ok(Refusal { line })
    }

    /// The line, with its newline.
    pub fn line(&self) -> &[u8]
        ensures text { result.now ≡ text_of self.now }
        ensures one { IsOneLine (text_of self.now) }
    {
        self.line.as_slice()
    }
}

/// How many bytes of a text stand before its first newline: all of them where it has none.
fn end_of_line(text: &[u8]) -> usize
    ensures end { result ≡ position_or_len is_newline text.now }
    ensures within { result ≤ length text.now }
{
    memchr(b'\n', text).unwrap_or(text.len())
}
