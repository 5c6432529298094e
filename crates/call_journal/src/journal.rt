//! The calls that were made.

ghost use Rattle.std.specs.Prelude.{◌≡◌, ◌⊎◌, ◌*◌, ◌<◌, ◌≤◌, [], false, length, IsOk, OnOk, OnErr};
ghost use Rattle.call_journal.specs.Journals.{noted, keeps_more, HasRoom};
ghost use Rattle.plan_read.specs.Plans.{most_calls};

use crate::limits::MOST_CALLS;
use call_text::CallLine;
use std::alloc::{AllocError, Allocator};
use std::marker::Model;

/// A call that was made, and its moment in nanoseconds, 0 to 2^62.
#[derive(Clone, Copy, Debug, PartialEq, Eq)]
pub struct MadeCall {
    pub moment: u64,
    pub call: CallLine,
}

/// The calls that were made, up to 65,536 of them, where they are wanted.
///
/// A contract sees it as a [`JournalView`](../../specs/Journals.antt): the calls, whether they are wanted, whether there were more,
/// and how many calls there is room for.
#[derive(Drop)]
pub struct Journal<A: Allocator> {
    calls: Vec<MadeCall, A>,
    is_wanted: bool,
    is_over: bool,
}

impl<A: Allocator> Model for Journal<A> {
    ghost use Rattle.std.specs.Prelude.{vec_capacity};
    ghost use Rattle.call_journal.specs.Journals.{JournalView, IsJournal};

    ghost Value = { JournalView };

    ghost view = { λ j. record { calls = j.calls.items; is_wanted = j.is_wanted; is_over = j.is_over; room = vec_capacity j.calls } };

    ghost invariant = { λ j. IsJournal (record { calls = j.calls.items; is_wanted = j.is_wanted; is_over = j.is_over; room = vec_capacity j.calls }) };
}

impl<A: Allocator> Journal<A> {
    /// A journal of no call, without room. `is_wanted` tells whether calls are to be kept.
    pub fn new(alloc: A, is_wanted: bool) -> Journal<A>
        ensures { result ≡ record { calls = []; is_wanted = is_wanted; is_over = false; room = 0 } }
    {
        Journal {
            calls: Vec::new(alloc),
            is_wanted,
            is_over: false,
        }
    }

    /// Makes room to note one more call, before it is made. No call is noted or lost, and no memory is asked for where there is
    /// room, where calls are not wanted, or where 65,536 are kept.
    ///
    /// # Errors
    ///
    /// `AllocError` where the memory is refused. The journal is as it was then.
    pub fn make_room(&mut self) -> Result<(), AllocError>
        ensures same { self.new ≡ record self.old { room = self.new.room } }
        ensures room { OnOk result (HasRoom self.new) }
        ensures grows { self.old.room ≤ self.new.room }
        ensures needless { HasRoom self.old → IsOk result × (self.new ≡ self.old) }
        ensures doubles { OnOk result
            (HasRoom self.old ⊎ (2 * length self.old.calls < self.new.room)) }
        ensures failed { OnErr result (self.new ≡ self.old) }
    {
        if !self.keeps_more() || self.calls.len() < self.calls.capacity() {
            return Ok(());
        }
        self.calls.reserve(self.calls.len() + 1)
    }

    /// Notes a call that was made. Behind 65,536 calls it only notes that there were more, and where calls are not wanted it does
    /// nothing. It asks for no memory.
    pub fn note(&mut self, call: MadeCall)
        requires { HasRoom self.old }
        ensures { self.new ≡ noted self.old call }
    {
        if self.keeps_more() {
            self.calls.push_reserved(call);
        } else if self.is_wanted {
            self.is_over = true;
        }
    }

    /// The calls in the order in which they were made, at most 65,536.
    pub fn calls(&self) -> &[MadeCall]
        ensures calls { result.now ≡ self.now.calls }
        ensures few { length self.now.calls ≤ most_calls }
    {
        self.calls.as_slice()
    }

    /// Whether calls are kept.
    pub fn is_wanted(&self) -> bool
        ensures { result ≡ self.now.is_wanted }
    {
        self.is_wanted
    }

    /// Whether there were more calls than are kept.
    pub fn is_over(&self) -> bool
        ensures { result ≡ self.now.is_over }
    {
        self.is_over
    }

    /// Whether one more call would be kept.
    fn keeps_more(&self) -> bool
        ensures { result ≡ keeps_more self.now }
    {
        self.is_wanted && self.calls.len() < MOST_CALLS
    }
}
