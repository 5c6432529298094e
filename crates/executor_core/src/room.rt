//! Room for what an event adds to a list.
ghost use Rattle.std.specs.Prelude.{◌≡◌, ◌+◌, ◌≤◌, IsOk, OnOk, OnErr, vec_len, vec_capacity};

use std::alloc::{AllocError, Allocator};

/// Makes room for `more` further items in a list, where there is less. The items stay.
///
/// So an event asks for no memory once the room has grown. Where there is room enough, nothing changes; where memory is refused,
/// neither. This project's rule.
#[inline(always)]
pub fn make_room<T, A: Allocator>(list: &mut Vec<T, A>, more: usize) -> Result<(), AllocError>
    ensures items { list.new.items ≡ list.old.items }
    ensures len { vec_len list.new ≡ vec_len list.old }
    ensures room { OnOk result (vec_len list.new + more ≤ vec_capacity list.new) }
    ensures keeps { vec_capacity list.old ≤ vec_capacity list.new }
    ensures enough { vec_len list.old + more ≤ vec_capacity list.old
        → IsOk result × (vec_capacity list.new ≡ vec_capacity list.old) }
    ensures refused { OnErr result (vec_capacity list.new ≡ vec_capacity list.old) }
{
    if more <= list.capacity() - list.len() {
        return Ok(());
    }
    list.reserve(more)
}
