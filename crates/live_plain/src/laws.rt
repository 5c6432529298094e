//! What holds of a live executor beside the core of a plan, in a function that does nothing: it ensures a law.
ghost use Rattle.std.specs.Prelude.{List};
ghost use Rattle.queue_code.specs.Calls.{Planned};
ghost use Rattle.executor_model.specs.Histories.{HistoryEntry};
ghost use Rattle.live_core.specs.Lives.{LiveView};
ghost use Rattle.executor_core.specs.CoreView.{CoreView};
ghost use Rattle.live_plain.specs.SameLines.{HadTheSame, ToldTheSame};

/// A live executor and a core with the same calls, some of which may come later, give the same lines wherever the same happened to
/// both: each happening has one answer and ends the same tasks, and both are in one state then. A cancel from outside of a number
/// that was not given out yet is not the same to both, as it names a task of the plan.
pub fn a_live_executor_gives_the_lines_of_a_plan()
    ensures { (live : LiveView) (core : CoreView) (calls later : List Planned)
        (past theirs : List HistoryEntry) → HadTheSame live core calls later past theirs
        → ToldTheSame live core calls past theirs }
{}
