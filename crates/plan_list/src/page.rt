//! The text of lines, until it is written.

ghost use Rattle.std.specs.Prelude.{◌≡◌, ℕ, ◌+◌, ◌≤◌, ◌↔◌, [], ◌++◌, length, IfOk, IsTrue};
ghost use Rattle.std.specs.Fmt.{decimal};
ghost use Rattle.plan_list.specs.Lines.{due_text, submission_line};

use itoa::Buffer;
use plan_compile::Submission;
use std::alloc::{AllocError, Allocator};
use std::marker::Model;
use trace_text::kind_word;

/// How many bytes a page has room for.
pub const PAGE: usize = 65_536;

/// How many bytes are room enough for any line. The longest has 104, with its newline.
pub const TASK_LINE_ROOM: usize = 128;

/// A text of lines. It has room for [`PAGE`] bytes, and takes no memory once it is made. Contracts see the text.
#[derive(Drop)]
pub struct Page<A: Allocator> {
    bytes: Vec<u8, A>,
}

impl<A: Allocator> Model for Page<A> {
    ghost use Rattle.std.specs.Prelude.{◌≤◌, List, ℕ, vec_capacity};
    ghost use Rattle.plan_list.specs.declared.page.TheConstants.{PAGE};

    ghost Value = { List ℕ };

    ghost view = { λ p. p.bytes.items };

    ghost invariant = { λ p. PAGE ≤ vec_capacity p.bytes };
}

impl<A: Allocator> Page<A> {
    /// No text.
    pub fn new(alloc: A) -> Result<Page<A>, AllocError>
        ensures { IfOk result (λ p. p ≡ []) }
    {
        Ok(Page {
            bytes: Vec::with_capacity(alloc, PAGE)?,
        })
    }

    /// The text.
    pub fn bytes(&self) -> &[u8]
        ensures { result.now ≡ self.now }
    {
        self.bytes.as_slice()
    }

    /// Whether there is room for [`TASK_LINE_ROOM`] bytes, and so for any line.
    pub fn has_room(&self) -> bool
        ensures { IsTrue result ↔ (length self.now + TASK_LINE_ROOM ≤ PAGE) }
    {
        self.bytes.len() + TASK_LINE_ROOM <= PAGE
    }

    /// Lets go of the text.
    pub fn clear(&mut self)
        ensures { self.new ≡ [] }
    {
        self.bytes.clear();
    }

    /// Appends the line of a submission, with its newline.
    pub fn put_line(&mut self, submission: &Submission<'_>)
        requires { length self.old + TASK_LINE_ROOM ≤ PAGE }
        ensures { self.new ≡ self.old ++ submission_line submission.now }
    {
        self.put_number(u64::from(submission.task));
        self.put(b" ");
        self.put(submission.name.as_str().as_bytes());
        self.put(b" ");
        self.put(kind_word(submission.kind).as_bytes());
        self.put(b" submitted ");
        self.put_number(submission.moment);
        self.put(b" ");
        self.put_due(submission.due);
        self.put(b"\n");
    }

    /// Appends the words of when a first run is due.
    fn put_due(&mut self, due: Option<u64>)
        requires { length self.old + 24 ≤ PAGE }
        ensures text { self.new ≡ self.old ++ due_text due }
        ensures short { length self.new ≤ length self.old + 24 }
    {
        match due {
            Some(moment) => {
                self.put(b"due ");
                self.put_number(moment);
            }
            None => self.put(b"refused illegal"),
        }
    }

    /// Appends the digits of a number, at most 20.
    fn put_number(&mut self, n: u64)
        requires { length self.old + 20 ≤ PAGE }
        ensures text { self.new ≡ self.old ++ decimal n }
        ensures short { length self.new ≤ length self.old + 20 }
    {
        self.put(Buffer::new().format(n).as_bytes());
    }

    /// Appends bytes.
    fn put(&mut self, bytes: &[u8])
        requires { length self.old + length bytes.now ≤ PAGE }
        ensures { self.new ≡ self.old ++ bytes.now }
    {
        let Ok(()) = self.bytes.extend_from_slice(bytes) else {
            unreachable!();
        };
    }
}
