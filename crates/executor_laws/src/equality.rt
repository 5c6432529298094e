//! What the comparisons of the executor's types say: `==` is true of a value and itself, and leaves no field out. That of lines is
//! [`line_equality_tells`](executor_model::line_equality_tells).
ghost use Rattle.std.specs.Prelude.{◌≡◌, ◌↔◌, true};

use executor_model::{
    Answer, CancelEffect, Event, EventError, Happening, Kind, Message, Need, Outcome, Refusal,
    Stage, Task,
};

/// Two stages compare as equal exactly when they are the same.
pub fn stage_equality_tells()
    ensures { (a b : Stage) → (⟦<Stage as PartialEq>⟧.eq a b ≡ true) ↔ (a ≡ b) }
{}

/// Two tasks compare as equal exactly when they are the same.
pub fn task_equality_tells()
    ensures { (a b : Task) → (⟦<Task as PartialEq>⟧.eq a b ≡ true) ↔ (a ≡ b) }
{}

/// Two events compare as equal exactly when they are the same.
pub fn event_equality_tells()
    ensures { (a b : Event) → (⟦<Event as PartialEq>⟧.eq a b ≡ true) ↔ (a ≡ b) }
{}

/// Two happenings compare as equal exactly when they are the same.
pub fn happening_equality_tells()
    ensures { (a b : Happening) → (⟦<Happening as PartialEq>⟧.eq a b ≡ true) ↔ (a ≡ b) }
{}

/// Two kinds compare as equal exactly when they are the same.
pub fn kind_equality_tells()
    ensures { (a b : Kind) → (⟦<Kind as PartialEq>⟧.eq a b ≡ true) ↔ (a ≡ b) }
{}

/// Two refusals compare as equal exactly when they are the same.
pub fn refusal_equality_tells()
    ensures { (a b : Refusal) → (⟦<Refusal as PartialEq>⟧.eq a b ≡ true) ↔ (a ≡ b) }
{}

/// Two errors of events compare as equal exactly when they are the same.
pub fn event_error_equality_tells()
    ensures { (a b : EventError) → (⟦<EventError as PartialEq>⟧.eq a b ≡ true) ↔ (a ≡ b) }
{}

/// Two effects of cancels compare as equal exactly when they are the same.
pub fn cancel_effect_equality_tells()
    ensures { (a b : CancelEffect) → (⟦<CancelEffect as PartialEq>⟧.eq a b ≡ true) ↔ (a ≡ b) }
{}

/// Two needs compare as equal exactly when they are the same.
pub fn need_equality_tells()
    ensures { (a b : Need) → (⟦<Need as PartialEq>⟧.eq a b ≡ true) ↔ (a ≡ b) }
{}

/// Two outcomes compare as equal exactly when they are the same.
pub fn outcome_equality_tells()
    ensures { (a b : Outcome) → (⟦<Outcome as PartialEq>⟧.eq a b ≡ true) ↔ (a ≡ b) }
{}

/// Two answers compare as equal exactly when they are the same.
pub fn answer_equality_tells()
    ensures { (a b : Answer) → (⟦<Answer as PartialEq>⟧.eq a b ≡ true) ↔ (a ≡ b) }
{}

/// Two messages compare as equal exactly when they are the same.
pub fn message_equality_tells()
    ensures { (a b : Message) → (⟦<Message as PartialEq>⟧.eq a b ≡ true) ↔ (a ≡ b) }
{}
