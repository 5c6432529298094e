//! The lines of what happened last.
ghost use Rattle.std.specs.Prelude.{◌≡◌, ◌+◌, ◌≤◌, ◌++◌, true, map, length, vec_capacity, OnOk, OnErr, IfErr};
ghost use Rattle.executor_model.specs.Flows.{end_line, lines_at};
ghost use Rattle.task_table.specs.Endings.{numbers_of};
ghost use Rattle.live_core.specs.Lined as lined;

use crate::error::LinesError;
use crate::executor::ScheduledExecutor;
use executor_model::{Answer, Line, Message};
use std::alloc::Allocator;
use task_table::TaskRef;

impl<A: Allocator> ScheduledExecutor<A> {
    ghost use Rattle.live_core.specs.Said.{ending};

    /// Adds the lines of what happened last, which has this answer: that of the answer, and one of each task that it ended. The
    /// caller hands in the answer that what happened last was given; of a number of 2^32 or more there is none.
    ///
    /// # Errors
    ///
    /// [`LinesError::Number`] where a task that was ended has a number of 2^32 or more, and else [`LinesError::Memory`] where
    /// memory is refused: the lines are then as they were.
    pub fn add_lines<B: Allocator>(
        &self,
        answer: Answer,
        lines: &mut Vec<Line, B>,
    ) -> Result<(), LinesError>
        ensures added { OnOk result
            (lines.new.items
            ≡ lines.old.items ++ lines_at self.now.table.moment (ending answer self.now.ended)) }
        ensures spelled { OnOk result (lined.are_spelled self.now.ended ≡ true) }
        ensures refused { OnErr result (lines.new.items ≡ lines.old.items) }
        ensures failed { IfErr result (λ error. lined.IsLinesError self.now.ended error) }
    {
        let ended = self.ended();
        if !are_spelled(ended) {
            return Err(LinesError::Number);
        }
        if lines.reserve(ended.len() + 1).is_err() {
            return Err(LinesError::Memory);
        }
        let moment = self.now();
        let message = Message::Answer(answer);
        lines.push_reserved(Line::new(moment, message));
        push_ends(ended, moment, lines);
        Ok(())
    }
}

/// Adds a line for each of some tasks that were ended, for which there is room.
fn push_ends<B: Allocator>(ended: &[TaskRef], moment: u64, lines: &mut Vec<Line, B>)
    requires spelled { lined.are_spelled ended.now ≡ true }
    requires room { length lines.old.items + length ended.now ≤ vec_capacity lines.old }
    ensures { lines.new.items ≡ lines.old.items ++ map (end_line moment) (numbers_of ended.now) }
{
    for task in ended {
        let message = Message::End(task.number as u32);
        lines.push_reserved(Line::new(moment, message));
    }
}

/// Whether lines can spell the numbers of these tasks.
fn are_spelled(tasks: &[TaskRef]) -> bool
    ensures { result ≡ lined.are_spelled tasks.now }
{
    tasks.iter().all(|task| is_spelled(*task))
}

/// Whether a line can spell the number of a task.
fn is_spelled(task: TaskRef) -> bool
    ensures { result ≡ lined.is_spelled task }
{
    task.number < 1 << 32
}
