//! One event: the calls of the plan that it reaches, and then the event itself, each with its lines given out before the next
//! happens.
ghost use Rattle.std.specs.Prelude.{◌≡◌, ◌+◌, ◌<◌, ◌≤◌, [], ◌∷◌, true, IfNone, IfSome, vec_capacity};
ghost use Rattle.queue_code.specs.Calls.{IsOrderly};
ghost use Rattle.executor_model.specs.Flows.{part_of};
ghost use Rattle.executor_model.specs.Histories.{MayFrom, is_call};
ghost use Rattle.executor_core.specs.CoreView.{IsCounted, Steps, room_of};
ghost use Rattle.sched_engine.specs.own.Pieces.{CountsLines};
ghost use Rattle.sched_engine.specs.own.Turns.{CutsSteps, GivesSteps, TakesEvent, answers_to};

use crate::draft::Draft;
use byte_ends::Sink;
use executor_core::Core;
use executor_model::{Event, Happening, Line};
use std::alloc::Allocator;

/// Takes an event and gives out the text of its lines: first, for a clock, that of each call that it reaches. So no more lines
/// stand in memory at once than one happening has.
///
/// The answer is the number of the lines. `None` is a fault of the sink, after a front of that text was written, and
/// leaves the core somewhere on the way. `lines` is empty, and has room for the lines of the event; it is used again
/// for each happening, and keeps its capacity.
#[inline(always)]
pub fn answer_event<A: Allocator, W: Sink>(
    core: &mut Core<A>,
    event: Event,
    lines: &mut Vec<Line, A>,
    draft: &mut Draft<A>,
    writer: &mut W,
) -> Option<u64>
    requires orderly { IsOrderly core.old.calls }
    requires below { core.old.taken < core.old.limit }
    requires clear { lines.old.items ≡ [] }
    requires room { room_of core.old ≤ vec_capacity lines.old }
    ensures takes { IfSome result
        (λ count. TakesEvent core.old core.new event
        (record { contents = W.contents writer.old; text = draft.old })
        (record { contents = W.contents writer.new; text = draft.new }) count) }
    ensures cut { IfNone result
        (CutsSteps core.old (part_of core.old.calls core.old.made core.old.moment event)
        (record { contents = W.contents writer.old; text = draft.old }) (W.contents writer.new)) }
    ensures capacity { vec_capacity lines.new ≡ vec_capacity lines.old }
    ensures counts { CountsLines result (W.failed writer.old) (W.fruitless writer.old)
        (W.failed writer.new) (W.fruitless writer.new) }
{
    core.count();
    let mut count = 0;
    while core.reaches_call(event) {
        count += give(core, Happening::Call, lines, draft, writer)?;
    }
    let own = give(core, event.happening(), lines, draft, writer)?;
    Some(count + own)
}

/// A happening comes, and the text of its lines is given out. The answer is the number of the lines. `None` is a fault of the
/// sink, after a front of that text was written.
#[inline(always)]
fn give<A: Allocator, W: Sink>(
    core: &mut Core<A>,
    happening: Happening,
    lines: &mut Vec<Line, A>,
    draft: &mut Draft<A>,
    writer: &mut W,
) -> Option<u64>
    requires comes { MayFrom core.old.calls core.old.made core.old.moment happening }
    requires counted { IsCounted core.old }
    requires clear { lines.old.items ≡ [] }
    requires room { room_of core.old ≤ vec_capacity lines.old }
    ensures steps { Steps core.old core.new [] (answers_to core.old (happening ∷ []))
        (happening ∷ []) }
    ensures gives { IfSome result
        (λ count. GivesSteps core.old core.new (happening ∷ [])
        (record { contents = W.contents writer.old; text = draft.old })
        (record { contents = W.contents writer.new; text = draft.new }) count) }
    ensures cut { IfNone result
        (CutsSteps core.old (happening ∷ [])
        (record { contents = W.contents writer.old; text = draft.old }) (W.contents writer.new)) }
    ensures room { IfSome result
        (λ count. is_call happening ≡ true → count + room_of core.new ≤ room_of core.old) }
    ensures few { IfSome result (λ count. count ≤ room_of core.old) }
    ensures counted { is_call happening ≡ true → IsCounted core.new }
    ensures taken { core.new.taken ≡ core.old.taken }
    ensures clear { IfSome result (λ _. lines.new.items ≡ []) }
    ensures capacity { vec_capacity lines.new ≡ vec_capacity lines.old }
    ensures counts { CountsLines result (W.failed writer.old) (W.fruitless writer.old)
        (W.failed writer.new) (W.fruitless writer.new) }
{
    core.happen(happening, lines);
    if !draft.give_lines(lines, writer) {
        return None;
    }
    let count = lines.len() as u64;
    lines.clear();
    Some(count)
}
