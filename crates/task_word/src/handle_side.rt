ghost use Rattle.std.specs.Prelude.{◌≡◌, ◌<◌, ◌≤◌};
ghost use Rattle.task_word.specs.Views.{times, and_if};
ghost use Rattle.task_word.specs.Answers.{is_handle_win, HandleCancels, HandleLooks};
ghost use Rattle.task_word.specs.declared.answers.CancelAnswer.TheVariants as cancel;
ghost use Rattle.task_word.specs.declared.answers.TaskState.TheVariants as state;

use crate::answers::{CancelAnswer, TaskState};
use crate::plays;
use crate::table::TaskWords;
use crate::values::{BIT, Word};
use crate::views::View;
use atomic_table::Seat;
use std::alloc::Allocator;
use std::marker::Model;

/// A seat of a table that cancels tasks and reads their states, in any thread and without a lock.
///
/// It knows the tasks that it cancelled, and of each task the greatest rank that it met and whether it
/// met it cancelled. One that is dropped counts as out for good, and what it cancelled is in no list of the
/// core's seat.
#[derive(Drop)]
pub struct HandleSeat {
    pub(crate) seat: Seat<(), View>,
}

impl Model for HandleSeat {
    ghost use Rattle.std.specs.Prelude.{◌≡◌, ◌+◌, [], length};
    ghost use Rattle.task_word.specs.declared.views.View.TheVariants.{Handle};
    ghost use Rattle.task_word.specs.own.Views.{handle_of};
    ghost use Rattle.task_word.specs.Answers.{HandleKnows};

    ghost Value = { HandleKnows };

    ghost view = { λ s. record { table = s.seat.table_id; view = handle_of s.seat.me.0 } };

    ghost invariant = { λ s. (s.seat.me.0 ≡ Handle (handle_of s.seat.me.0)) × (s.seat.me.1 ≡ []) × (length (handle_of s.seat.me.0).ranks + 1 ≡ s.seat.table_id.words) × (length (handle_of s.seat.me.0).seen + 1 ≡ s.seat.table_id.words) };
}

impl HandleSeat {
    /// Sets the bit of the task's word, and answers by the word that it met, in one atomic step.
    ///
    /// That word has no lower rank than this handle met of the task before. Where the handle met it
    /// cancelled, or cancelled it, it is cancelled, and has the very rank met then. Where the handle's last
    /// step met it ended, it has the phase and the run met then. Past the table it answers
    /// [`CancelAnswer::NoTask`], and nothing is touched.
    ///
    /// ```rust
    /// let (words, mut core) = TaskWords::new(alloc, 2)?;
    /// core.submit(&words, 0);
    /// let mut handle = core.split(&words)?;
    /// assert!(rt; handle.cancel(&words, 0) == CancelAnswer::Yes);
    /// assert!(rt; handle.cancel(&words, 0) == CancelAnswer::No); // it was cancelled before
    /// assert!(rt; handle.cancel(&words, 1) == CancelAnswer::Absent); // it is not submitted
    /// assert!(rt; core.start(&words, 0) == Moved::Cancelled);
    /// ```
    pub fn cancel<A: Allocator>(&mut self, words: &TaskWords<A>, k: u32) -> CancelAnswer
        requires table { self.old.table ≡ words.now.table }
        ensures table { self.new.table ≡ self.old.table }
        ensures past { words.now.tasks ≤ k → (result ≡ cancel.NoTask) × (self.new ≡ self.old) }
        ensures met { k < words.now.tasks → HandleCancels self.old.view k result self.new.view }
        ensures won { self.new.view.won ≡ and_if (is_handle_win result) k self.old.view.won }
    {
        if k >= words.tasks {
            return CancelAnswer::NoTask;
        }
        let found = words
            .table
            .shared
            .fetch_or::<plays::HandleCancels>(&mut self.seat, k as usize + 1, BIT);
        CancelAnswer::of_word(Word::of_value(found))
    }

    /// The state that the task's word shows, by one atomic load.
    ///
    /// It is no earlier one than this handle met of the task before, and [`TaskState::Cancelled`] where the
    /// handle cancelled the task. Where the handle's last step met the task ended, it is the end met then.
    /// Past the table it answers [`TaskState::NoTask`], and nothing is touched.
    pub fn state<A: Allocator>(&mut self, words: &TaskWords<A>, k: u32) -> TaskState
        requires table { self.old.table ≡ words.now.table }
        ensures table { self.new.table ≡ self.old.table }
        ensures past { words.now.tasks ≤ k → (result ≡ state.NoTask) × (self.new ≡ self.old) }
        ensures met { k < words.now.tasks → HandleLooks self.old.view k result self.new.view }
        ensures won { k < words.now.tasks → 0 < times k self.old.view.won
            → result ≡ state.Cancelled }
    {
        if k >= words.tasks {
            return TaskState::NoTask;
        }
        let found = words
            .table
            .shared
            .load::<plays::HandleLooks>(&mut self.seat, k as usize + 1);
        TaskState::of_word(Word::of_value(found))
    }
}
