//! A law of errors. The function does nothing: what it ensures is the law.
ghost use Rattle.std.specs.Prelude.{◌≡◌, ◌↔◌, true};

use crate::error::AuditError;

/// Two errors compare as equal exactly when they are the same.
pub fn audit_error_equality_tells()
    ensures { (a b : AuditError) → (⟦<AuditError as PartialEq>⟧.eq a b ≡ true) ↔ (a ≡ b) }
{}
