//! Calls of a queue and what is answered to them, of each kind of queue alike, so that one table of rows serves them all.

use std::process::Abort;

/// A call of a queue. A queue without ranks does not look at them.
#[derive(Clone, Copy)]
pub(crate) enum Call {
    /// Inserts the entry of a moment, a rank and a slot.
    Insert(u64, u64, u32),
    Poll(u64),
    Remove(u32),
    /// Makes room for so many slots.
    Reserve(u32),
    Peek,
    DueOf(u32),
    Contains(u32),
    IsEmpty,
    Len,
    Slots,
    Touched,
}

/// What is answered to a call. An insertion is not made, and answered by `No`, where its slot has no room or an entry.
#[derive(Clone, Copy, PartialEq, Eq)]
pub(crate) enum Told {
    No,
    Yes,
    /// A moment, a rank and a slot; the rank is 0 where there are none.
    Entry(u64, u64, u32),
    Moment(u64),
    Count(u64),
}

impl Told {
    pub(crate) fn truth(is_so: bool) -> Told {
        if is_so { Told::Yes } else { Told::No }
    }

    pub(crate) fn moment(due: Option<u64>) -> Told {
        match due {
            Some(due) => Told::Moment(due),
            None => Told::No,
        }
    }

    pub(crate) fn count(many: usize) -> Told {
        Told::Count(many as u64)
    }
}

/// A queue that answers calls.
pub(crate) trait Answers {
    fn answer(&mut self, call: &Call) -> Told;
}

/// A call, and what is answered.
pub(crate) type Row = (Call, Told);

/// Makes the calls of a queue, one after the other, and checks what it answers to each.
pub(crate) fn follow(rt: &impl Abort, queue: &mut impl Answers, rows: &[Row]) {
    let mut place = 0u32;
    for (call, told) in rows {
        assert!(rt; queue.answer(call) == *told, "row {place}");
        place = place.wrapping_add(1);
    }
}
