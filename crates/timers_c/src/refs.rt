//! What names a task at C, and a task that is gone.
ghost use Rattle.std.specs.Prelude.{◌≡◌};
ghost use Rattle.timers_c.specs.Calls.{no_gone, no_ref, ref_of, ref_of_submitted};

use live_core::{Submitted, TaskRef};

/// A task: the number of its submission, and the slot that it has while something may come of it.
#[repr(C)]
#[derive(Clone, Copy, Debug, PartialEq, Eq)]
pub struct Ref {
    pub number: u64,
    pub slot: u32,
}

impl Ref {
    /// That of no task.
    pub fn none() -> Ref
        ensures { result ≡ no_ref }
    {
        Ref { number: 0, slot: 0 }
    }

    /// That of a task.
    pub fn of(task: TaskRef) -> Ref
        ensures { result ≡ ref_of task }
    {
        Ref {
            number: task.number,
            slot: task.slot,
        }
    }

    /// That of a submission: where it is rejected its number, and a slot that no task has.
    pub fn of_submitted(submitted: Submitted) -> Ref
        ensures { result ≡ ref_of_submitted submitted }
    {
        match submitted {
            Submitted::Accepted { task, .. } => Ref::of(task),
            Submitted::Rejected { number } => Ref {
                number,
                slot: u32::MAX,
            },
        }
    }

    /// The task.
    pub fn task(self) -> TaskRef
        ensures { ref_of result ≡ self }
    {
        TaskRef {
            number: self.number,
            slot: self.slot,
        }
    }
}

/// A task that the last call ended.
#[repr(C)]
#[derive(Clone, Copy, Debug, PartialEq, Eq)]
pub struct Gone {
    pub task: Ref,
    /// What was given with its submission.
    pub user_data: u64,
}

impl Gone {
    /// No task.
    pub fn none() -> Gone
        ensures { result ≡ no_gone }
    {
        Gone {
            task: Ref::none(),
            user_data: 0,
        }
    }
}
