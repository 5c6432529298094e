ghost use Rattle.std.specs.Prelude.{◌≡◌, ◌≤◌, max, IfOk};
ghost use Rattle.std.specs.Io.{ReadsAtMost};
ghost use Rattle.std.specs.Io.KnownBytes.{ReadConsumes};
ghost use Rattle.byte_ends.specs.Ends.{CountsRead};

use crate::ends::Source;
use std::io;
use std::marker::Model;

/// A source over bytes in memory that gives a few of them a read. Contracts
/// see the bytes that are left, and how many a read gives at most.
#[derive(Drop)]
pub struct Pieces<'a> {
    rest: &'a [u8],
    most: usize,
}

impl<'a> Model for Pieces<'a> {
    ghost use Rattle.byte_ends.specs.Ends.{Supply};

    ghost Value = { Supply };

    ghost view = { λ s. record { left = s.rest.now; most = s.most } };
}

impl<'a> Pieces<'a> {
    /// A source of these bytes that gives at most `most` of them a read, and at
    /// least one where it has one: 0 counts as 1.
    pub fn new(bytes: &'a [u8], most: usize) -> Pieces<'a>
        ensures { result ≡ record { left = bytes.now; most = most } }
    {
        Pieces { rest: bytes, most }
    }
}

impl<'a> Source for Pieces<'a> {
    ghost use Rattle.std.specs.Prelude.{Some};

    ghost remaining = { λ s. Some s.left };

    ghost failed = { λ _. 0 };

    ghost fruitless = { λ _. 0 };

    fn read(&mut self, buf: &mut [u8]) -> io::Result<usize>
        ensures bound { ReadsAtMost result buf.new }
        ensures bytes { ReadConsumes (Some self.old.left) (Some self.new.left) result buf.new }
        ensures counts { CountsRead result 0 0 0 0 }
        ensures few { IfOk result (λ n. n ≤ max 1 self.old.most) }
        ensures most { self.new.most ≡ self.old.most }
    {
        let n = self.rest.len().min(buf.len()).min(self.most.max(1));
        let (front, rest) = self.rest.split_at(n);
        buf[..n].copy_from_slice(front);
        self.rest = rest;
        Ok(n)
    }
}
