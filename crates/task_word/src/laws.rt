//! What is so of all words and tables, in functions that do nothing: each ensures one law.
ghost use Rattle.std.specs.Prelude.{◌≡◌, ◌↔◌, true};
ghost use Rattle.task_word.specs.Views.{most_handles};
ghost use Rattle.task_word.specs.Laws.{OneWinner, MovesAreWrites, NoWriteLowersRank, MovesRaiseRank, CancelledWordStands, EndedWordStands};

use crate::answers::{CancelAnswer, CoreCancel, Moved, TaskState};
use crate::fault::WordError;
use crate::limits::MOST_HANDLES;
use crate::phases::Phase;
use crate::values::Word;

/// Over all seats of a table, a task has exactly one winner if its word is cancelled, and else none.
pub fn one_winner()
    ensures { OneWinner }
{}

/// Each move of a [`Word`], and its bit, is the kind of write that has its name.
pub fn moves_are_writes()
    ensures { MovesAreWrites }
{}

/// No write of a word lowers its rank.
pub fn no_write_lowers_the_rank()
    ensures { NoWriteLowersRank }
{}

/// Each write of a word but a cancel raises its rank.
pub fn moves_raise_the_rank()
    ensures { MovesRaiseRank }
{}

/// No write changes a cancelled word.
pub fn a_cancelled_word_stands()
    ensures { CancelledWordStands }
{}

/// No write changes the phase or the run of an ended word.
pub fn an_ended_word_stands()
    ensures { EndedWordStands }
{}

/// [`MOST_HANDLES`](crate::MOST_HANDLES) is the number of handles of which the contracts speak.
pub fn most_handles_is_the_limit()
    ensures { MOST_HANDLES ≡ most_handles }
{}

/// Two words compare as equal exactly when they are the same.
pub fn word_equality_tells()
    ensures { (a b : Word) → (⟦<Word as PartialEq>⟧.eq a b ≡ true) ↔ (a ≡ b) }
{}

/// Two phases compare as equal exactly when they are the same.
pub fn phase_equality_tells()
    ensures { (a b : Phase) → (⟦<Phase as PartialEq>⟧.eq a b ≡ true) ↔ (a ≡ b) }
{}

/// Two answers of a move compare as equal exactly when they are the same.
pub fn moved_equality_tells()
    ensures { (a b : Moved) → (⟦<Moved as PartialEq>⟧.eq a b ≡ true) ↔ (a ≡ b) }
{}

/// Two answers of the core's cancel compare as equal exactly when they are the same.
pub fn core_cancel_equality_tells()
    ensures { (a b : CoreCancel) → (⟦<CoreCancel as PartialEq>⟧.eq a b ≡ true) ↔ (a ≡ b) }
{}

/// Two answers of a handle's cancel compare as equal exactly when they are the same.
pub fn cancel_answer_equality_tells()
    ensures { (a b : CancelAnswer) → (⟦<CancelAnswer as PartialEq>⟧.eq a b ≡ true) ↔ (a ≡ b) }
{}

/// Two states compare as equal exactly when they are the same.
pub fn task_state_equality_tells()
    ensures { (a b : TaskState) → (⟦<TaskState as PartialEq>⟧.eq a b ≡ true) ↔ (a ≡ b) }
{}

/// Two errors compare as equal exactly when they are the same.
pub fn word_error_equality_tells()
    ensures { (a b : WordError) → (⟦<WordError as PartialEq>⟧.eq a b ≡ true) ↔ (a ≡ b) }
{}
