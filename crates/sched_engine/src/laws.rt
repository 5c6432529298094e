//! What holds of each input and of each comparison, over the definitions alone.
ghost use Rattle.std.specs.Prelude.{◌≡◌, ◌↔◌, true};
ghost use Rattle.sched_engine.specs.Inputs.{EventsAreOne, FrontIsOne};

use crate::answering::{Answered, PieceEnd};
use crate::report::{Report, RunError};

/// A text is the lines of one list of events and of no other.
pub fn events_are_one()
    ensures { EventsAreOne }
{}

/// Bytes are in one way the lines of some events and a rest that does not begin
/// with one. So which events a run takes, and at which line it ends, is fixed by
/// its input.
pub fn front_is_one()
    ensures { FrontIsOne }
{}

/// Two reports compare as equal exactly when they are the same.
pub fn report_equality_tells()
    ensures { (a b : Report) → (⟦<Report as PartialEq>⟧.eq a b ≡ true) ↔ (a ≡ b) }
{}

/// Two errors of a run compare as equal exactly when they are the same.
pub fn run_error_equality_tells()
    ensures { (a b : RunError) → (⟦<RunError as PartialEq>⟧.eq a b ≡ true) ↔ (a ≡ b) }
{}

/// Two ends of pieces compare as equal exactly when they are the same.
pub fn piece_end_equality_tells()
    ensures { (a b : PieceEnd) → (⟦<PieceEnd as PartialEq>⟧.eq a b ≡ true) ↔ (a ≡ b) }
{}

/// What was answered of two pieces compares as equal exactly when it is the same.
pub fn answered_equality_tells()
    ensures { (a b : Answered) → (⟦<Answered as PartialEq>⟧.eq a b ≡ true) ↔ (a ≡ b) }
{}
