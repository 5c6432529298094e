//! Lines that are copied one at a time.
ghost use Rattle.std.specs.Prelude.{◌≡◌, ℕ, ◌+◌, ◌≤◌, ◌↔◌, List, IsTrue, Some, false, length, slice_get};
ghost use Rattle.executor_model.specs.declared.types.Line.{Line};
ghost use Rattle.trace_text.specs.declared.line_text.TheConstants.{LINE_ROOM};
ghost use Rattle.line_copy.specs.Copying.{HoldsFirst};

use crate::copied::Copied;
use executor_model::Line;
use std::marker::Model;
use trace_text::{LINE_ROOM, Stamp, put_line};

/// A copying that goes on: how much is copied so far. Contracts see that.
#[derive(Drop)]
pub struct LineCopy {
    copied: Copied,
    /// Of the moment of the last line.
    stamp: Stamp,
}

impl Model for LineCopy {
    ghost use Rattle.std.specs.Prelude.{◌≤◌};
    ghost use Rattle.line_copy.specs.declared.copied.Copied.{Copied};

    ghost Value = { Copied };

    ghost view = { λ c. c.copied };

    // Each line has a byte at least, so that the number of lines never overflows.
    ghost invariant = { λ c. c.copied.lines ≤ c.copied.bytes };
}

impl LineCopy {
    /// Nothing is copied yet.
    pub fn new() -> LineCopy
        ensures none { result ≡ record { lines = 0; bytes = 0 } }
        ensures first { (all : List Line) (out : List ℕ) → HoldsFirst all out out result }
    {
        LineCopy {
            copied: Copied::none(),
            stamp: Stamp::new(0),
        }
    }

    /// How much is copied so far.
    pub fn copied(&self) -> Copied
        ensures { result ≡ self.now }
    {
        self.copied
    }

    /// Puts one more line behind those that are copied, into the same buffer. `false` exactly when there is no room for
    /// [`LINE_ROOM`] bytes; nothing changes then. What stands in the buffer behind the text is lost.
    #[inline]
    pub fn put(&mut self, out: &mut [u8], line: &Line) -> bool
        requires { self.old.bytes ≤ length out.old }
        ensures room { IsTrue result ↔ (self.old.bytes + LINE_ROOM ≤ length out.old) }
        ensures kept { result ≡ false → (self.new ≡ self.old) × (out.new ≡ out.old) }
        ensures lines { IsTrue result → self.new.lines ≡ self.old.lines + 1 }
        ensures bytes { self.new.bytes ≤ length out.new }
        // Of whatever lines the buffer has the first, it has one more of them, where this line is the next.
        ensures first { IsTrue result → (all : List Line) (before : List ℕ)
            → HoldsFirst all before out.old self.old
            → slice_get all self.old.lines ≡ Some line.now
            → HoldsFirst all before out.new self.new }
    {
        if out.len() - self.copied.bytes < LINE_ROOM {
            return false;
        }
        self.copied.bytes = put_line(out, self.copied.bytes, &mut self.stamp, line);
        self.copied.lines += 1;
        true
    }
}
