//! What is so of the types here, in functions that do nothing: each ensures one law.
ghost use Rattle.std.specs.Prelude.{◌≡◌, ◌↔◌, ℕ, ◌+◌, true, Option, None, Some};
ghost use Rattle.sched_time.specs.Times.{longest};
ghost use Rattle.sched_time.specs.Dues.{next_due, due_of_run};

use crate::error::TimeError;
use crate::limits::LONGEST;
use crate::policies::{Policies, Which};
use crate::spans::Span;
use crate::timing::{Ending, Timing};
use crate::unit::Unit;

/// [`LONGEST`](crate::LONGEST) is the limit of which the contracts speak.
pub fn longest_is_the_limit()
    ensures { LONGEST ≡ longest }
{}

/// When a run is due after one is what the equation of the due moments says: [`next_due`](crate::next_due) of the due
/// moment of run n, and of the moment at which that run ended, is the due moment of run n + 1. A task with one run has no
/// run after it. Run 0 is due at the first due moment.
pub fn next_due_is_the_due_moment_of_the_next_run()
    ensures first { (timing : Timing) (first : ℕ) → due_of_run timing first 0 None ≡ first }
    ensures once { (first n finished : ℕ) (last : Option ℕ)
        → next_due Timing.Once (due_of_run Timing.Once first n last) finished ≡ None }
    ensures rate { (period first n finished : ℕ) (last : Option ℕ)
        → next_due (Timing.Rate period) (due_of_run (Timing.Rate period) first n last) finished
        ≡ Some (due_of_run (Timing.Rate period) first (n + 1) (Some finished)) }
    ensures fixed { (delay first n finished : ℕ) (last : Option ℕ)
        → next_due (Timing.Fixed delay) (due_of_run (Timing.Fixed delay) first n last) finished
        ≡ Some (due_of_run (Timing.Fixed delay) first (n + 1) (Some finished)) }
{}

/// Two spans compare as equal exactly when they are the same.
pub fn span_equality_tells()
    ensures { (a b : Span) → (⟦<Span as PartialEq>⟧.eq a b ≡ true) ↔ (a ≡ b) }
{}

/// Two units compare as equal exactly when they are the same.
pub fn unit_equality_tells()
    ensures { (a b : Unit) → (⟦<Unit as PartialEq>⟧.eq a b ≡ true) ↔ (a ≡ b) }
{}

/// Two timings compare as equal exactly when they are the same.
pub fn timing_equality_tells()
    ensures { (a b : Timing) → (⟦<Timing as PartialEq>⟧.eq a b ≡ true) ↔ (a ≡ b) }
{}

/// Two endings compare as equal exactly when they are the same.
pub fn ending_equality_tells()
    ensures { (a b : Ending) → (⟦<Ending as PartialEq>⟧.eq a b ≡ true) ↔ (a ≡ b) }
{}

/// Two policies compare as equal exactly when they are the same.
pub fn which_equality_tells()
    ensures { (a b : Which) → (⟦<Which as PartialEq>⟧.eq a b ≡ true) ↔ (a ≡ b) }
{}

/// Two errors compare as equal exactly when they are the same.
pub fn time_error_equality_tells()
    ensures { (a b : TimeError) → (⟦<TimeError as PartialEq>⟧.eq a b ≡ true) ↔ (a ≡ b) }
{}

/// Two values of the policies compare as equal exactly when they are the same.
pub fn policies_equality_tells()
    ensures { (a b : Policies) → (⟦<Policies as PartialEq>⟧.eq a b ≡ true) ↔ (a ≡ b) }
{}
