//! Moves of the core's seat, each behind a look at the task that shows that it may be made.
ghost use Rattle.std.specs.Prelude.{◌≡◌, ◌<◌};

use std::alloc::Allocator;
use task_word::*;

/// A move of a task that was submitted.
#[derive(Clone, Copy)]
pub enum Move {
    Start,
    Rearm,
    Done,
    Fail,
}

/// Submits a task, if it is vacant. Whether it was.
pub fn submit_vacant<A: Allocator>(words: &TaskWords<A>, core: &mut CoreSeat<A>, task: u32) -> bool
    requires { (core.old.table ≡ words.now.table) × (task < words.now.tasks) }
    ensures { core.new.table ≡ core.old.table }
{
    let is_vacant = core.look(words, task).phase() == Phase::Vacant;
    if is_vacant {
        core.submit(words, task);
    }
    is_vacant
}

/// Moves a task, if it is in the phase that the move leaves and is not cancelled, and below run 1,000.
pub fn moved<A: Allocator>(
    words: &TaskWords<A>,
    core: &mut CoreSeat<A>,
    task: u32,
    how: Move,
) -> Option<Moved>
    requires { (core.old.table ≡ words.now.table) × (task < words.now.tasks) }
    ensures { core.new.table ≡ core.old.table }
{
    let word = core.look(words, task);
    if word.is_cancelled() || word.run() >= 1_000 {
        return None;
    }
    match (word.phase(), how) {
        (Phase::New, Move::Start) => Some(core.start(words, task)),
        (Phase::Running, Move::Rearm) => Some(core.rearm(words, task)),
        (Phase::Running, Move::Done) => Some(core.done(words, task)),
        (Phase::Running, Move::Fail) => Some(core.fail(words, task)),
        _ => None,
    }
}

/// Does so, and says whether the task moved.
pub fn is_moved<A: Allocator>(
    words: &TaskWords<A>,
    core: &mut CoreSeat<A>,
    task: u32,
    how: Move,
) -> bool
    requires { (core.old.table ≡ words.now.table) × (task < words.now.tasks) }
    ensures { core.new.table ≡ core.old.table }
{
    moved(words, core, task, how) == Some(Moved::Yes)
}

/// Cuts off so many handles more than are out, and drops them. Whether each came and was counted.
pub fn cut_off<A: Allocator>(words: &TaskWords<A>, core: &mut CoreSeat<A>, count: u8) -> bool
    requires { core.old.table ≡ words.now.table }
    ensures { core.new.table ≡ core.old.table }
{
    for _ in 0..count {
        let before = core.handles();
        if core.split(words).is_err() || core.handles() != before.saturating_add(1) {
            return false;
        }
    }
    true
}
