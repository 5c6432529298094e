//! One of the two files: a snapshot, and the lines behind it.
ghost use Rattle.std.specs.Prelude.{◌≡◌, ◌+◌, ◌-◌, ◌^◌, min};

use crate::head::{FRONT, Head};
use crate::zone::Groups;

/// A snapshot, and the groups of lines behind it.
#[derive(Clone, Copy, Debug, PartialEq, Eq)]
pub struct Half {
    pub head: Head,
    pub groups: Groups,
}

impl Half {
    ghost use Rattle.line_journal.specs.Halves.{IsInFile};

    /// How many lines there are up to the last one of this file.
    pub fn lines(&self) -> u64
        ensures { result ≡ min (self.now.head.covers + self.now.groups.lines) (2 ^ 64 - 1) }
    {
        self.head.covers.saturating_add(self.groups.lines)
    }

    /// Where its groups begin.
    pub fn start(&self) -> usize
        requires { IsInFile self.now }
        ensures { result ≡ FRONT + self.now.head.text }
    {
        FRONT + self.head.text
    }
}
