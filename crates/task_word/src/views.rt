use crate::values::Word;
use std::collections::LinkedList;

/// What the core's seat knows. No value of it is made.
pub struct CoreSeatView {
    /// The word of each task as the core knows it.
    pub entries: LinkedList<Word>,
    /// The tasks that the core cancelled.
    pub own: LinkedList<u64>,
    /// The tasks that the joined handles cancelled.
    pub joined: LinkedList<u64>,
    /// For each task the greatest rank that a joined handle met.
    pub ranks: LinkedList<u64>,
    /// The number of handles that are out.
    pub out: u64,
}

/// What a handle's seat knows. No value of it is made.
pub struct HandleSeatView {
    /// The tasks that the handle cancelled.
    pub won: LinkedList<u64>,
    /// For each task the greatest rank that the handle met.
    pub ranks: LinkedList<u64>,
    /// For each task whether the handle met it cancelled.
    pub seen: LinkedList<bool>,
    /// The task of the last step, and the word that the step met.
    pub last: (u64, Word),
}

/// What a seat knows: the core's, a handle's, or one that was joined and is gone. No value of it is made.
pub enum View {
    Core(CoreSeatView),
    Handle(HandleSeatView),
    Spent,
}
