//! An entry, as C sees it.
ghost use Rattle.std.specs.Prelude.{◌≡◌};

use delay_queue::Entry;

/// An entry, as C sees it.
#[repr(C)]
#[derive(Clone, Copy)]
pub struct DqEntry {
    /// When the task is due, in nanoseconds.
    pub due: u64,
    /// The task's number.
    pub task: u32,
}

impl DqEntry {
    /// The same entry for C.
    pub(crate) fn of(entry: Entry) -> DqEntry
        ensures due { result.due ≡ entry.due }
        ensures task { result.task ≡ entry.task }
    {
        DqEntry {
            due: entry.due,
            task: entry.task,
        }
    }
}
