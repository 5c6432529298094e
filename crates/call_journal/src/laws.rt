//! What holds of the plan of each journal's calls, in a function that does nothing.

ghost use Rattle.call_journal.specs.MadeCalls.{TreesMakeTheCalls};

/// The tree of calls which a plan may make writes a plan, and the calls of that plan are exactly these, each at its moment.
///
/// A plan may make calls that are at most 65,536, whose moments do not fall and are at most 2^62, whose spans are in their ranges,
/// and whose cancels name tasks submitted before them.
pub fn trees_make_the_calls()
    ensures { TreesMakeTheCalls }
{}
