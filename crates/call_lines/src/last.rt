//! What is noted of the last call, to tell its lines.
use crate::said::Said;

/// The last call that was taken. The line of an answer, and those of the tasks that the call ended, are said at the moment that it is
/// now, which no other call changes.
#[derive(Clone, Copy, Debug)]
pub enum Last {
    /// No call was made.
    Nothing,
    /// The clock showed a moment, and no answer came.
    Clock { moment: u64 },
    /// A call was answered so.
    Call { said: Said },
    /// The clock showed a moment, and then a worker was answered so.
    Event { moment: u64, said: Said },
}
