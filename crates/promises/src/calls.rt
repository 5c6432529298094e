//! What a core promises that makes its next call.
ghost use Rattle.std.specs.Prelude.{◌≡◌, ◌+◌, ◌<◌, ◌≤◌, [], ◌∷◌, length, vec_len, vec_capacity};
ghost use Rattle.executor_model.specs.declared.types.Happening.TheVariants as happening;
ghost use Rattle.executor_core.specs.CoreView.{Steps, ContinuesAny, Leaves, GivesRoom, IsCounted, room_of};

use executor_core::{Core, Line};
use std::alloc::Allocator;

/// [`Core::make_call`].
pub fn make_call<A: Allocator, B: Allocator>(core: &mut Core<A>, out: &mut Vec<Line, B>)
    requires left { core.old.made < length core.old.calls }
    requires room { vec_len out.old + room_of core.old ≤ vec_capacity out.old }
    ensures steps { Steps core.old core.new out.old.items out.new.items (happening.Call ∷ []) }
    ensures history { ContinuesAny core.old core.new out.old.items out.new.items
        happening.Call }
    ensures made { core.new.made ≡ core.old.made + 1 }
    ensures leaves { Leaves core.old core.new (vec_len out.old) (vec_len out.new) }
    ensures room { GivesRoom core.old core.new (vec_len out.old) (vec_len out.new) }
    ensures counted { IsCounted core.old → IsCounted core.new }
    ensures capacity { vec_capacity out.new ≡ vec_capacity out.old }
{
    core.make_call(out);
}
