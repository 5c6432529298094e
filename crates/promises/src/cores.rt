//! What a core promises.
ghost use Rattle.std.specs.Prelude.{◌≡◌, ◌+◌, ◌<◌, ◌≤◌, ◌↔◌, ◌⊎◌, List, OnOk, OnErr, IsOk, IfErr, IsErrOf, vec_len, vec_capacity, IsTrue, false, ℕ, [], ◌∷◌, true};
ghost use Rattle.executor_model.specs.Flows.{part_of};
ghost use Rattle.executor_core.specs.CoreView.{workers_of, room_of, Steps, Stands, Continues, ErrorOnlyCounts, ContinuesAny, Leaves, GivesRoom, IsCounted, comes_before_event, state_of, RunsBelowTaken};
ghost use Rattle.executor_model.specs.Histories.{MayFrom, is_call};
ghost use Rattle.executor_model.specs.Needs.{need_of};
ghost use Rattle.executor_model.specs.State.{reply_of};
ghost use Rattle.executor_model.specs.Histories as histories;
ghost use Rattle.executor_model.specs.declared.types.Answer.TheVariants as answer;
ghost use Rattle.executor_model.specs.declared.types.CancelEffect.TheVariants as effect;
ghost use Rattle.executor_model.specs.declared.types.Happening.TheVariants as h;

use executor_core::{Core, CoreError, Event, Happening, Line};
use std::alloc::Allocator;

/// [`Core::event`].
pub fn event<A: Allocator, B: Allocator>(
    core: &mut Core<A>,
    event: Event,
    out: &mut Vec<Line, B>,
) -> Result<(), CoreError>
    ensures full { IsErrOf result CoreError.Full ↔ (core.old.taken ≡ core.old.limit) }
    ensures others { IfErr result (λ e. (e ≡ CoreError.Full) ⊎ (e ≡ CoreError.Memory)) }
    ensures room { vec_len out.old + room_of core.old ≤ vec_capacity out.old
        → core.old.taken < core.old.limit → IsOk result }
    ensures capacity { vec_len out.old + room_of core.old ≤ vec_capacity out.old
        → vec_capacity out.new ≡ vec_capacity out.old }
    ensures keeps { vec_capacity out.old ≤ vec_capacity out.new }
    ensures shrinks { room_of core.new ≤ room_of core.old }
    ensures few { vec_len out.new ≤ vec_len out.old + room_of core.old }
    ensures refused { OnErr result
        ((core.new ≡ core.old) × (out.new.items ≡ out.old.items)
        × (vec_capacity out.new ≡ vec_capacity out.old)) }
    ensures taken { OnOk result (core.new.taken ≡ core.old.taken + 1) }
    ensures steps { OnOk result
        (Steps core.old core.new out.old.items out.new.items
        (part_of core.old.calls core.old.made core.old.moment event)) }
    ensures errors { OnOk result
        (ErrorOnlyCounts core.old core.new out.old.items out.new.items event) }
    ensures history { OnOk result
        ((past : List histories.HistoryEntry)
        → histories.IsHistoryOf core.old.calls (workers_of core.old) past
        → Stands core.old past
        → Continues core.old core.new out.old.items out.new.items event past) }
{
    core.event(event, out)
}

/// [`Core::full`].
pub fn full<A: Allocator>(core: &Core<A>) -> bool
    ensures full { IsTrue result ↔ (core.now.taken ≡ core.now.limit) }
    ensures room { result ≡ false → core.now.taken < core.now.limit }
{
    core.full()
}

/// [`Core::happen`].
pub fn happen<A: Allocator, B: Allocator>(
    core: &mut Core<A>,
    happening: Happening,
    out: &mut Vec<Line, B>,
)
    requires comes { MayFrom core.old.calls core.old.made core.old.moment happening }
    requires counted { RunsBelowTaken core.old
        (need_of core.old.calls (workers_of core.old) (state_of core.old) happening) }
    requires room { vec_len out.old + room_of core.old ≤ vec_capacity out.old }
    ensures steps { Steps core.old core.new out.old.items out.new.items (happening ∷ []) }
    ensures history { ContinuesAny core.old core.new out.old.items out.new.items happening }
    ensures leaves { Leaves core.old core.new (vec_len out.old) (vec_len out.new) }
    ensures call { is_call happening ≡ true
        → GivesRoom core.old core.new (vec_len out.old) (vec_len out.new) }
    ensures effective { (task : ℕ) → happening ≡ h.Cancel task
        → (reply_of core.old.calls (workers_of core.old) (state_of core.old) happening).answer
        ≡ answer.Outside task effect.Yes
        → GivesRoom core.old core.new (vec_len out.old) (vec_len out.new) }
    ensures counted { comes_before_event happening ≡ true → IsCounted core.old
        → IsCounted core.new }
    ensures capacity { vec_capacity out.new ≡ vec_capacity out.old }
{
    core.happen(happening, out);
}
