ghost use Rattle.std.specs.Prelude.{◌≡◌, ◌+◌, ◌-◌, ◌<◌, Some, length, slice_get};
ghost use Rattle.queue_code.specs.Calls.{IsPlanned, Planned};
ghost use Rattle.queue_code.specs.Codes.{calls_of};

use crate::call::CodeCall;
use crate::code::Code;
use crate::cursor::Cursor;
use std::alloc::Allocator;
use std::marker::Model;

/// The calls of a code as they are made one after the other: it keeps the code and its place in it, and no list of calls.
#[derive(Drop)]
pub struct Agenda<A: Allocator> {
    code: Code<A>,
    /// Behind the next call.
    cursor: Cursor,
    /// The next call with its moment.
    next: Option<(u64, CodeCall)>,
    /// How many calls are left, the next one among them.
    left: usize,
}

impl<A: Allocator> Model for Agenda<A> {
    ghost use Rattle.queue_code.specs.Agendas.{Course};
    ghost use Rattle.queue_code.specs.own.Agendas.{course_of, IsAhead};

    ghost Value = { Course };

    ghost view = { λ a. course_of a.code a.left };

    ghost invariant = { λ a. IsAhead a.code a.cursor a.next a.left };
}

impl<A: Allocator> Agenda<A> {
    /// The calls of a code, of which none was made.
    pub fn new(code: Code<A>) -> Agenda<A>
        ensures start { result ≡ record { items = calls_of code; made = 0 } }
        ensures orderly { IsPlanned (calls_of code) }
    {
        let left = code.calls() as usize;
        let mut cursor = Cursor::new(&code);
        let next = cursor.fetch(&code);
        Agenda {
            code,
            cursor,
            next,
            left,
        }
    }

    /// The next call with its moment, in nanoseconds, and none after the last.
    pub fn next(&self) -> Option<(u64, CodeCall)>
        ensures { result ≡ slice_get self.now.items self.now.made }
    {
        self.next
    }

    /// How many calls are left.
    pub fn left(&self) -> usize
        ensures { result ≡ length self.now.items - self.now.made }
    {
        self.left
    }

    /// Goes past the next call; the answer is its moment, in nanoseconds.
    ///
    /// A call has to be left.
    pub fn pass(&mut self) -> u64
        requires left { self.old.made < length self.old.items }
        ensures passed { self.new ≡ record self.old { made = self.old.made + 1 } }
        ensures moment { (call : Planned) → slice_get self.old.items self.old.made ≡ Some call
            → result ≡ call.0 }
    {
        let Some((at, _)) = self.next else {
            unreachable!()
        };
        self.next = self.cursor.fetch(&self.code);
        self.left -= 1;
        at
    }
}
