//! What compares equal. The function does nothing: what it ensures is the law.
ghost use Rattle.std.specs.Prelude.{◌≡◌, ◌↔◌, true};

use crate::copied::Copied;

/// Two results of a copying compare as equal exactly when they are the same.
pub fn copied_equality_tells()
    ensures { (a b : Copied) → (⟦<Copied as PartialEq>⟧.eq a b ≡ true) ↔ (a ≡ b) }
{}
