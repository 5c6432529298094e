//! What holds of a history where calls are added behind the ones that it means, as while the executor runs.
ghost use Rattle.executor_laws.specs.Additions.{CallsMayBeAdded, ManyCallsMayBeAdded};

/// A history of some calls is one of those and one call more, with the same lines, and leads to the same state and moment:
/// where the calls are in order with it, each accepted clock was before its moment, and each cancel from outside named a
/// task that the calls submit, or a number that no call ever has.
pub fn calls_may_be_added()
    ensures { CallsMayBeAdded }
{}

/// A history of some calls is one of those and many calls more, where each of them may be added.
pub fn many_calls_may_be_added()
    ensures { ManyCallsMayBeAdded }
{}
