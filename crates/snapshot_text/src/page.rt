//! The text of a snapshot, until it is written.

ghost use Rattle.std.specs.Prelude.{◌≡◌, ◌+◌, ◌≤◌, ◌↔◌, Bool, [], ◌++◌, codes, length, IfOk, IsTrue};
ghost use Rattle.std.specs.Fmt.{decimal};
ghost use Rattle.sched_time.specs.Policies.{truth_text};
ghost use Rattle.snapshot_text.specs.Spelling.{flag_text, two_text};
ghost use Rattle.snapshot_text.specs.Sums.{sum_from};
ghost use Rattle.snapshot_text.specs.own.Pages.{HasRoom};

use crate::sum::{FIRST, add_to_sum};
use itoa::Buffer;
use std::alloc::{AllocError, Allocator};
use std::marker::Model;

/// How many bytes a page has room for.
pub const PAGE: usize = 65_536;

/// How many bytes are room enough for any line but those at the front. The longest, of a task, has 167.
pub const LINE_ROOM: usize = 256;

/// A text of lines, with the sum of what was given out before it. It has room for [`PAGE`] bytes, and takes no memory once it is
/// made. Contracts see the text and that sum.
#[derive(Drop)]
pub struct Page<A: Allocator> {
    bytes: Vec<u8, A>,
    sum: u64,
}

impl<A: Allocator> Model for Page<A> {
    ghost use Rattle.std.specs.Prelude.{◌≤◌, vec_capacity};
    ghost use Rattle.snapshot_text.specs.declared.page.TheConstants.{PAGE};
    ghost use Rattle.snapshot_text.specs.own.Pages.{PageView};

    ghost Value = { PageView };

    ghost view = { λ p. record { text = p.bytes.items; sum = p.sum } };

    ghost invariant = { λ p. PAGE ≤ vec_capacity p.bytes };
}

impl<A: Allocator> Page<A> {
    /// No text.
    pub fn new(alloc: A) -> Result<Page<A>, AllocError>
        ensures { IfOk result (λ p. p ≡ record { text = []; sum = 1 }) }
    {
        Ok(Page {
            bytes: Vec::with_capacity(alloc, PAGE)?,
            sum: FIRST,
        })
    }

    /// The text.
    pub fn bytes(&self) -> &[u8]
        ensures { result.now ≡ self.now.text }
    {
        self.bytes.as_slice()
    }

    /// The sum of what was given out and of the text.
    pub fn sum(&self) -> u64
        ensures { result ≡ sum_from self.now.sum self.now.text }
    {
        add_to_sum(self.sum, &self.bytes)
    }

    /// Whether there is room for [`LINE_ROOM`] bytes, and so for any line but those at the front.
    pub fn has_room(&self) -> bool
        ensures { IsTrue result ↔ HasRoom self.now }
    {
        self.bytes.len() + LINE_ROOM <= PAGE
    }

    /// Lets go of the text, which was given out.
    pub fn clear(&mut self)
        ensures { self.new ≡ record { text = []; sum = sum_from self.old.sum self.old.text } }
    {
        self.sum = add_to_sum(self.sum, &self.bytes);
        self.bytes.clear();
    }

    /// Appends two numbers, each behind its word, and a word behind them.
    pub fn put_two(&mut self, one: &[u8], first: u64, other: &[u8], second: u64, last: &[u8])
        requires { length self.old.text + length one.now + length other.now + length last.now + 40
            ≤ PAGE }
        ensures text { self.new
            ≡ record { text = self.old.text ++ two_text one.now other.now last.now (first, second); sum = self.old.sum } }
        ensures short { length self.new.text
            ≤ length self.old.text + length one.now + length other.now + length last.now + 40 }
    {
        self.put(one);
        self.put_number(first);
        self.put(other);
        self.put_number(second);
        self.put(last);
    }

    /// Appends whether something is so, behind its word, and the newline.
    pub fn put_flag(&mut self, word: &[u8], value: bool)
        requires { length self.old.text + length word.now + 6 ≤ PAGE }
        ensures text { self.new
            ≡ record { text = self.old.text ++ flag_text word.now value; sum = self.old.sum } }
        ensures short { length self.new.text ≤ length self.old.text + length word.now + 6 }
    {
        self.put(word);
        if value {
            self.put(b"true\n");
        } else {
            self.put(b"false\n");
        }
    }

    /// Appends the digits of a number, at most 20.
    pub fn put_number(&mut self, n: u64)
        requires { length self.old.text + 20 ≤ PAGE }
        ensures text { self.new
            ≡ record { text = self.old.text ++ decimal n; sum = self.old.sum } }
        ensures short { length self.new.text ≤ length self.old.text + 20 }
    {
        self.put(Buffer::new().format(n).as_bytes());
    }

    /// Appends bytes.
    pub fn put(&mut self, bytes: &[u8])
        requires { length self.old.text + length bytes.now ≤ PAGE }
        ensures { self.new
            ≡ record { text = self.old.text ++ bytes.now; sum = self.old.sum } }
    {
        let Ok(()) = self.bytes.extend_from_slice(bytes) else {
            unreachable!();
        };
    }
}
