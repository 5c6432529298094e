//! That `==` tells whether two values are one. The functions do nothing: what they ensure is the law.
ghost use Rattle.std.specs.Prelude.{◌≡◌, ◌↔◌, true};

use crate::bars::{Bar, Finish};
use crate::error::PictureError;
use crate::ticks::Tick;
use crate::window::Window;

/// Two windows compare as equal exactly when they are the same.
pub fn window_equality_tells()
    ensures { (a b : Window) → (⟦<Window as PartialEq>⟧.eq a b ≡ true) ↔ (a ≡ b) }
{}

/// Two finishes compare as equal exactly when they are the same.
pub fn finish_equality_tells()
    ensures { (a b : Finish) → (⟦<Finish as PartialEq>⟧.eq a b ≡ true) ↔ (a ≡ b) }
{}

/// Two bars compare as equal exactly when they are the same.
pub fn bar_equality_tells()
    ensures { (a b : Bar) → (⟦<Bar as PartialEq>⟧.eq a b ≡ true) ↔ (a ≡ b) }
{}

/// Two ticks compare as equal exactly when they are the same.
pub fn tick_equality_tells()
    ensures { (a b : Tick) → (⟦<Tick as PartialEq>⟧.eq a b ≡ true) ↔ (a ≡ b) }
{}

/// Two errors of a picture compare as equal exactly when they are the same.
pub fn picture_error_equality_tells()
    ensures { (a b : PictureError) → (⟦<PictureError as PartialEq>⟧.eq a b ≡ true) ↔ (a ≡ b) }
{}
