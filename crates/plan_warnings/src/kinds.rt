//! Why a call is odd.

/// Why a call of a plan is odd.
#[derive(Clone, Copy, Debug)]
pub enum WarningKind {
    /// A submission whose `period`, or whose `delay` of `fixed`, is zero or negative. It is refused each time that it is made:
    /// `refuse K illegal`.
    Illegal,
    /// A submission that is not illegal, and before which a shutdown stands in the plan. It is refused each time that it is made:
    /// `refuse K rejected`.
    Rejected,
    /// A submission that is not illegal, and before which no shutdown stands, in a block that is made more than once and has a
    /// shutdown. It is refused from the second iteration on: `refuse K rejected`.
    RejectedAgain,
    /// A cancel of a submission that is refused each time: it has no effect, `cancel K none`.
    NothingToCancel,
    /// A `period`, or a `delay` of `fixed`, of 1 to 999 nanoseconds, of which no unit stands in the text.
    ShortPeriod,
    /// A submission that no cancel names, in a plan that has a cancel.
    UnusedName,
}

/// All kinds, in the order in which those of one call are told.
pub const ALL_KINDS: &[WarningKind] = &[
    WarningKind::Illegal,
    WarningKind::Rejected,
    WarningKind::RejectedAgain,
    WarningKind::NothingToCancel,
    WarningKind::ShortPeriod,
    WarningKind::UnusedName,
];

/// A call of a plan that is odd.
#[derive(Clone, Copy, Debug)]
pub struct OddCall {
    /// Its block, numbered from 1.
    pub block: usize,
    /// The call in its block, numbered from 1.
    pub call: usize,
    pub kind: WarningKind,
}
