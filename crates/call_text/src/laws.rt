//! Laws of the spellings, and of what compares equal. The functions do nothing: what they ensure is the law.
ghost use Rattle.std.specs.Prelude.{◌≡◌, ◌↔◌, true};
ghost use Rattle.call_text.specs.Reading.{CallLinesAreOne, LiveFrontsAreOne, LiveFrontsStay};

use crate::call::CallLine;
use crate::live::LiveFront;

/// One text spells one call, and no call's line is the front of another's: where the lines of two calls stand at the front of the
/// same bytes, the calls are one, and what follows is the same.
pub fn call_lines_are_one()
    ensures { CallLinesAreOne }
{}

/// One front alone is so of some bytes: a part of a line is not refused, neither begins with a line of an event or of a call, and
/// no bytes begin with both.
pub fn live_fronts_are_one()
    ensures { LiveFrontsAreOne }
{}

/// Bytes that begin with the line of an event or of a call, or are refused, do so whatever follows them.
pub fn live_fronts_stay()
    ensures { LiveFrontsStay }
{}

/// Two calls compare as equal exactly when they are the same.
pub fn call_equality_tells()
    ensures { (a b : CallLine) → (⟦<CallLine as PartialEq>⟧.eq a b ≡ true) ↔ (a ≡ b) }
{}

/// Two fronts compare as equal exactly when they are the same.
pub fn live_front_equality_tells()
    ensures { (a b : LiveFront) → (⟦<LiveFront as PartialEq>⟧.eq a b ≡ true) ↔ (a ≡ b) }
{}
