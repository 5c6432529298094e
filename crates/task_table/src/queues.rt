//! What a table keeps in order: the tasks that wait, and those that are kept.
ghost use Rattle.std.specs.Prelude.{◌≡◌, ℕ, ◌<◌, Bool, true, Option, Some, None, is_some, IfSome, IfNone};
ghost use Rattle.std.specs.List.{range_with_len};
ghost use Rattle.queue_code.specs.Calls.{how_many};
ghost use Rattle.task_table.specs.Orders.{with_key, IsLeastKey};

/// An entry of a queue: a task by its slot and its number, and the due moment for which it stands there.
#[derive(Clone, Copy, Debug)]
pub struct Entry {
    /// In nanoseconds, at most 2^63.
    pub due: u64,
    pub number: u64,
    pub slot: u32,
}

/// The entries of slots, at most one for each slot that there is room for. The first one is that which is due first, and of those
/// due at one moment the one whose task has the lowest number.
pub trait TaskQueue {
    /// The due moment and the number of the entry of a slot, where it has one.
    ghost keys: { Self → ℕ → Option (ℕ × ℕ) };

    /// How many slots there is room for.
    ghost room: { Self → ℕ };

    /// Whether a slot may have an entry of a number: the slot, and the number.
    ghost admits: { ℕ → ℕ → Bool };

    /// Adds an entry of a slot for which there is room, which has none yet and may have one of this number.
    fn insert(&mut self, entry: Entry)
        requires known { entry.slot < room self.old }
        requires absent { keys self.old entry.slot ≡ None }
        requires admits { admits entry.slot entry.number ≡ true }
        ensures inserted { (i : ℕ)
            → with_key (keys self.old) entry.slot (Some (entry.due, entry.number)) i
            ≡ keys self.new i }
        ensures room { room self.new ≡ room self.old };

    /// The first entry, due or not, or `None` where there is none. The entry stays.
    fn first(&self) -> Option<Entry>
        ensures least { IfSome result (λ e. IsLeastKey (keys self.now) e.slot e.due e.number) }
        ensures empty { IfNone result ((i : ℕ) → keys self.now i ≡ None) };

    /// Takes out the entry of a slot, if it has one.
    fn remove(&mut self, slot: u32)
        requires known { slot < room self.old }
        ensures removed { (i : ℕ) → with_key (keys self.old) slot None i ≡ keys self.new i }
        ensures room { room self.new ≡ room self.old };

    /// How many entries there are.
    fn len(&self) -> usize
        ensures { result
            ≡ how_many (λ i. is_some (keys self.now i)) (range_with_len 0 (room self.now)) };
}
