//! Laws of the lines that go, and of what is found of a text. The functions do nothing: what they ensure is the law.
ghost use Rattle.trace_check.specs.Laws.{GoesLineByLine, GoesOnlyOneWay, FrontsGo, TracesGo, TracesConform, HistoriesFit, HistoriesConform, FindingsAreOne, BreaksOrConforms};
ghost use Rattle.trace_check.specs.Standing.{most_bytes};
ghost use Rattle.std.specs.Prelude.{◌≡◌, ◌↔◌, true};

use crate::checking::MOST_BYTES;
use crate::error::CheckError;
use crate::finding::Finding;

/// After lines that go, exactly the lines that stand next may follow.
pub fn goes_line_by_line()
    ensures { GoesLineByLine }
{}

/// Lines go in one way at most.
pub fn goes_only_one_way()
    ensures { GoesOnlyOneWay }
{}

/// Where lines go, those before the last one go.
pub fn fronts_go()
    ensures { FrontsGo }
{}

/// The lines of each history go, and are whole.
pub fn traces_go()
    ensures { TracesGo }
{}

/// A text conforms exactly where it is that of a history, whose lines can be spelled.
pub fn traces_conform()
    ensures { TracesConform }
{}

/// Each line of a history can be spelled, where the value or the code of each ending in it can: all other numbers that a line
/// shows are in range.
pub fn histories_fit()
    ensures { HistoriesFit }
{}

/// The text of such a history conforms.
pub fn histories_conform()
    ensures { HistoriesConform }
{}

/// Of a text one thing is found at most.
pub fn findings_are_one()
    ensures { FindingsAreOne }
{}

/// A text that breaks does not conform.
pub fn breaks_or_conforms()
    ensures { BreaksOrConforms }
{}

/// Two findings compare as equal exactly when they are the same.
pub fn finding_equality_tells()
    ensures { (a b : Finding) → (⟦<Finding as PartialEq>⟧.eq a b ≡ true) ↔ (a ≡ b) }
{}

/// Two errors compare as equal exactly when they are the same.
pub fn check_error_equality_tells()
    ensures { (a b : CheckError) → (⟦<CheckError as PartialEq>⟧.eq a b ≡ true) ↔ (a ≡ b) }
{}

/// [`MOST_BYTES`](crate::MOST_BYTES) is the limit of which the contract of `check` speaks.
pub fn most_bytes_is_the_limit()
    ensures { MOST_BYTES ≡ most_bytes }
{}
