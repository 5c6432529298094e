//! What is so of all verdicts, in a function that does nothing: it ensures one law.
ghost use Rattle.std.specs.Prelude.{◌≡◌, ◌↔◌, true};
ghost use Rattle.result_cell.specs.declared.verdict.Verdict.{Verdict};

use crate::verdict::Verdict;

/// Two verdicts compare as equal exactly when they are the same.
pub fn verdict_equality_tells()
    ensures { (a b : Verdict) → (⟦<Verdict as PartialEq>⟧.eq a b ≡ true) ↔ (a ≡ b) }
{}
