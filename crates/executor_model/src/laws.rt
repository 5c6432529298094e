//! What is so of the limits and the comparisons here, in functions that do nothing: each ensures a law.
ghost use Rattle.std.specs.Prelude.{◌≡◌, ◌↔◌, true};
ghost use Rattle.executor_model.specs.Counts.{most_workers};

use crate::limits::MOST_WORKERS;
use crate::said::said_equality_tells;
use crate::types::Line;

/// [`MOST_WORKERS`](crate::MOST_WORKERS) is the limit of which the contracts speak.
pub fn most_workers_is_the_limit()
    ensures { MOST_WORKERS ≡ most_workers }
{}

/// Two lines compare as equal exactly when they are the same.
pub fn line_equality_tells()
    ensures { (a b : Line) → (⟦<Line as PartialEq>⟧.eq a b ≡ true) ↔ (a ≡ b) }
{
    said_equality_tells();
}
