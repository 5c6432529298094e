//! What holds of the calls that a run notes, in a function that does nothing.

ghost use Rattle.live_engine.specs.JournalLaws.{NotedMayBePlanned};

/// A plan may make the calls that a run noted in an empty journal, also where the run ended at a fault: so the text that
/// [`plan_text`](call_journal::plan_text) prints of them writes a plan that makes exactly these calls.
pub fn noted_calls_may_be_planned()
    ensures { NotedMayBePlanned }
{}
