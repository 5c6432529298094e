//! The moves of words that a need names.
ghost use Rattle.std.specs.Prelude.{◌≡◌, true, None, IfSome};
ghost use Rattle.executor_laws.specs.Cancels.{is_needed};
ghost use Rattle.worker_pool.specs.own.Moves.{CanMove, WasMet, moves_made};

use executor_model::Need;
use std::alloc::Allocator;
use task_word::{CoreCancel, CoreSeat, Moved, TaskWords};

/// Makes the moves of a need; those of a sweep are made one by one, and not here. Where the word was met cancelled nothing
/// moved, and its task is answered, which the need names.
#[inline(always)]
pub fn move_word<A: Allocator>(
    seat: &mut CoreSeat<A>,
    words: &TaskWords<A>,
    need: Need,
) -> Option<u32>
    requires table { seat.old.table ≡ words.now.table }
    requires can { CanMove words.now.tasks seat.old.view need }
    ensures table { seat.new.table ≡ seat.old.table }
    ensures moved { result ≡ None → seat.new.view ≡ moves_made seat.old.view need }
    ensures met { IfSome result (λ k. WasMet words.now.tasks seat.old.view seat.new.view k) }
    ensures named { IfSome result (λ k. is_needed k need ≡ true) }
{
    match need {
        Need::Nothing | Need::Sweep => None,
        Need::Submit(task) => {
            seat.submit(words, task);
            None
        }
        Need::Start(task) => unless_moved(task, seat.start(words, task)),
        Need::Done(task) => unless_moved(task, seat.done(words, task)),
        Need::Fail(task) => unless_moved(task, seat.fail(words, task)),
        Need::Rearm(task) => unless_moved(task, seat.rearm(words, task)),
        Need::Cancel(task) => match seat.cancel(words, task) {
            CoreCancel::Late => Some(task),
            CoreCancel::Won | CoreCancel::Over | CoreCancel::Vacant => None,
        },
    }
}

/// The task, where its move met a cancel.
fn unless_moved(task: u32, moved: Moved) -> Option<u32>
    ensures yes { result ≡ None → moved ≡ Moved.Yes }
    ensures met { IfSome result (λ k. (k ≡ task) × (moved ≡ Moved.Cancelled)) }
{
    match moved {
        Moved::Yes => None,
        Moved::Cancelled => Some(task),
    }
}
