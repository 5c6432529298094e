//! What holds of each comparison, and of each constant, over the definitions alone.
ghost use Rattle.std.specs.Prelude.{◌≡◌, ◌↔◌, true};
ghost use Rattle.byte_ends.specs.Ends.{most_fruitless};
ghost use Rattle.byte_ends.specs.Refills.{piece};

use crate::ends::MOST_FRUITLESS;
use crate::held::{Filled, PIECE};

/// The size of a piece is the limit of which the contracts speak.
pub(crate) fn piece_is_the_limit()
    ensures { PIECE ≡ piece }
{}

/// That many fruitless calls in a row are the limit of which the contracts speak.
pub(crate) fn most_fruitless_is_the_limit()
    ensures { MOST_FRUITLESS ≡ most_fruitless }
{}

/// What two refills brought compares as equal exactly when it is the same.
pub fn filled_equality_tells()
    ensures { (a b : Filled) → (⟦<Filled as PartialEq>⟧.eq a b ≡ true) ↔ (a ≡ b) }
{}
