ghost use Rattle.std.specs.Prelude.{◌≡◌, ◌<◌, ◌≤◌, [], length, drop, IfOk};
ghost use Rattle.byte_ends.specs.Refills.{Fills, CountsFill};

use crate::ends::{Source, read_some};
use std::alloc::{AllocError, Allocator};
use std::marker::Model;

/// How many bytes are held at most, and read at once: 64 KiB.
pub const PIECE: usize = 65_536;

/// What a refill brought.
#[derive(Clone, Copy, Debug, PartialEq, Eq)]
pub enum Filled {
    /// More bytes, one at least.
    More,
    /// No byte is left.
    End,
    /// The source was at fault.
    Fault,
}

/// The bytes of a source that were read and not taken yet, at most [`PIECE`].
/// Contracts see the list of them.
#[derive(Drop)]
pub struct HeldBytes<A: Allocator> {
    buffer: Vec<u8, A>,
    from: usize,
    to: usize,
}

impl<A: Allocator> Model for HeldBytes<A> {
    ghost use Rattle.std.specs.Prelude.{◌≡◌, ◌≤◌, List, ℕ, slice_range, vec_len};
    ghost use Rattle.byte_ends.specs.declared.held.TheConstants.{PIECE};

    ghost Value = { List ℕ };

    ghost view = { λ h. slice_range h.buffer.items h.from h.to };

    ghost invariant = { λ h. (h.from ≤ h.to) × (h.to ≤ vec_len h.buffer) × (vec_len h.buffer ≡ PIECE) };
}

impl<A: Allocator> HeldBytes<A> {
    /// Holds nothing yet.
    pub fn new(alloc: A) -> Result<HeldBytes<A>, AllocError>
        ensures { IfOk result (λ h. h ≡ []) }
    {
        Ok(HeldBytes {
            buffer: Vec::from_elem(alloc, 0u8, PIECE)?,
            from: 0,
            to: 0,
        })
    }

    /// The bytes that are held, the oldest first.
    pub fn bytes(&self) -> &[u8]
        ensures bytes { result.now ≡ self.now }
        ensures few { length self.now ≤ PIECE }
    {
        &self.buffer[self.from..self.to]
    }

    /// Lets go of the first `n` bytes.
    pub fn skip(&mut self, n: usize)
        requires { n ≤ length self.old }
        ensures { self.new ≡ drop n self.old }
    {
        self.from += n;
    }

    /// Reads once, by [`read_some`], behind what is held. A fault changes nothing.
    pub fn fill<S: Source>(&mut self, source: &mut S) -> Filled
        requires { length self.old < PIECE }
        ensures bytes { Fills result (S.remaining source.old) (S.remaining source.new) self.old
            self.new }
        ensures few { length self.new ≤ PIECE }
        ensures counts { CountsFill result (S.failed source.old) (S.fruitless source.old)
            (S.failed source.new) (S.fruitless source.new) }
    {
        self.buffer.copy_within(self.from..self.to, 0);
        self.to -= self.from;
        self.from = 0;
        match read_some(source, &mut self.buffer[self.to..]) {
            Some(0) => Filled::End,
            Some(n) => {
                self.to += n;
                Filled::More
            }
            None => Filled::Fault,
        }
    }
}
