//! What is so of all codes and faults, in functions that do nothing: each ensures a law.
ghost use Rattle.std.specs.Prelude.{◌≡◌, ◌↔◌, true};
ghost use Rattle.queue_code.specs.declared.fault.CodeFault.{CodeFault};
ghost use Rattle.queue_code.specs.declared.instr.Instr.{Instr};
ghost use Rattle.queue_code.specs.Calls.{most_calls_of_code};
ghost use Rattle.queue_code.specs.CodeLaws.{LeastIndex, NothingWrong, CodesAreOrderly, AcceptedExactly, ZeroNeverWaits};

use crate::call::CodeCall;
use crate::fault::CodeFault;
use crate::instr::Instr;
use crate::limits::MOST_CALLS;

/// [`MOST_CALLS`](crate::MOST_CALLS) is the limit of which the contracts speak.
pub fn most_calls_is_the_limit()
    ensures { MOST_CALLS ≡ most_calls_of_code }
{}

/// Two instructions compare as equal exactly when they are the same.
pub fn instr_equality_tells()
    ensures { (a b : Instr) → (⟦<Instr as PartialEq>⟧.eq a b ≡ true) ↔ (a ≡ b) }
{}

/// Two calls compare as equal exactly when they are the same.
pub fn code_call_equality_tells()
    ensures { (a b : CodeCall) → (⟦<CodeCall as PartialEq>⟧.eq a b ≡ true) ↔ (a ≡ b) }
{}

/// Two faults compare as equal exactly when they are the same.
pub fn code_fault_equality_tells()
    ensures { (a b : CodeFault) → (⟦<CodeFault as PartialEq>⟧.eq a b ≡ true) ↔ (a ≡ b) }
{}

/// The fault of a list of instructions is that of the least index at which a check fails, and where it has none no
/// check fails at any index.
pub fn faults_are_the_first()
    ensures least { LeastIndex }
    ensures none { NothingWrong }
{}

/// The calls of a list of instructions without a fault are few enough, and in order.
pub fn codes_are_orderly()
    ensures { CodesAreOrderly }
{}

/// A list of instructions is accepted exactly where it has the shape of a code, and its calls, with each loop written
/// out, are few enough, and in order: nothing else is refused.
pub fn codes_are_accepted_exactly()
    ensures { AcceptedExactly }
{}

/// A run after a period of 0, which no check refuses, is due at the very moment at which the one before was due, and
/// after a fixed delay of 0 at the very moment at which that one ended.
pub fn a_period_of_zero_never_waits()
    ensures { ZeroNeverWaits }
{}
