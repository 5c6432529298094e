//! What is so of the comparisons here, and of a core beside a live table, in functions that do nothing: each ensures a law.
ghost use Rattle.std.specs.Prelude.{◌≡◌, ◌↔◌, List, true};
ghost use Rattle.executor_model.specs.declared.types.Happening.{Happening};
ghost use Rattle.executor_model.specs.declared.types.Line.{Line};
ghost use Rattle.executor_model.specs.Answers.{Reply};
ghost use Rattle.executor_model.specs.Histories.{HistoryEntry};
ghost use Rattle.task_table.specs.Tables.{TableView};
ghost use Rattle.executor_core.specs.Alike.{StandAlike, BothTake, AnswerAlike};
ghost use Rattle.executor_core.specs.CoreView.{CoreView};

use crate::error::CoreError;

/// Two errors of a core compare as equal exactly when they are the same.
pub fn core_error_equality_tells()
    ensures { (a b : CoreError) → (⟦<CoreError as PartialEq>⟧.eq a b ≡ true) ↔ (a ≡ b) }
{}

/// A table of tasks, to which calls are told while it runs, and a core of a plan with these calls give the same lines for the same
/// call or event: wherever both stand at one history, what comes next has one reply and the same lines, and both stand at one
/// history again. (The law `a_live_executor_gives_the_lines_of_a_plan` of `live_plain` says it of an executor and all that happened.)
pub fn live_and_plan_give_the_same_lines()
    ensures { (table new : TableView) (core next : CoreView) (past : List HistoryEntry)
        (before lines : List Line) (y : Happening) (r : Reply) → StandAlike table core past
        → BothTake table new core next past before lines y r
        → AnswerAlike new core next past before lines y r }
{}
