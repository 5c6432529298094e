//! Laws of the program's types.

ghost use Rattle.std.specs.Prelude.{◌≡◌, ◌↔◌, true};

use crate::error::ProgramError;

/// Two errors compare as equal exactly when they are the same.
pub fn program_error_equality_tells()
    ensures { (a b : ProgramError) → (⟦<ProgramError as PartialEq>⟧.eq a b ≡ true) ↔ (a ≡ b) }
{}
