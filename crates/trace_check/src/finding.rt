/// What a check of a text finds.
#[derive(Clone, Copy, Debug, PartialEq, Eq)]
pub enum Finding {
    /// The text is a whole trace of the plan.
    Conforms,
    /// The text begins with fewer lines of a trace than this, and is no whole trace: the number of the line, counted from 1,
    /// at which it breaks.
    Breaks(u64),
}
