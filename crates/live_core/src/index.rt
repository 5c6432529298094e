//! Which slot each number has.
ghost use Rattle.std.specs.Prelude.{◌≡◌, ℕ, ◌+◌, ◌<◌, ◌≤◌, ◌++◌, [], ◌∷◌, length, take, drop, true, false, Some, slice_get, IfSome, IfNone, IfOk, OnOk, OnErr};
ghost use Rattle.std.specs.List.{filter};
ghost use Rattle.task_table.specs.declared.seat.Seat as seats;
ghost use Rattle.task_table.specs.Images.{IsImageIn, AreImages};
ghost use Rattle.task_table.specs.Seats.{slot_of};
ghost use Rattle.live_core.specs.Said.{tasks_in};
ghost use Rattle.live_core.specs.Empties.{held_numbers};
ghost use Rattle.live_core.specs.own.Slots.{IsBelow, HasEntry, HasNone, IsIndex, Rises, entries_of, is_held};

use std::alloc::{AllocError, Allocator};
use std::marker::Model;
use task_table::{Image, Seat, TaskRef, TaskTable, each_table_is_formed};

/// The slots of tasks by their numbers. An entry whose slot holds another task by now, or none, is stale.
///
/// The numbers stand in one list, and their slots beside them in another one: so an entry takes 12 bytes.
///
/// A contract sees it as its entries, which ascend by number, and how many it has room for.
#[derive(Drop)]
pub(crate) struct NumberIndex<A: Allocator> {
    numbers: Vec<u64, A>,
    slots: Vec<u32, A>,
}

impl<A: Allocator> Model for NumberIndex<A> {
    ghost use Rattle.std.specs.Prelude.{min, vec_capacity};
    ghost use Rattle.live_core.specs.own.Slots.{IndexView, ArePaired, entries_of};

    ghost Value = { IndexView };

    ghost view = { λ x. record { entries = entries_of x.numbers.items x.slots.items; room = min (vec_capacity x.numbers) (vec_capacity x.slots) } };

    ghost invariant = { λ x. ArePaired x.numbers.items x.slots.items };
}

impl<A: Allocator> NumberIndex<A> {
    /// An index of no task, without room.
    pub(crate) fn new(alloc: A) -> NumberIndex<A>
    where
        A: Copy,
        ensures { result.entries ≡ [] }
    {
        NumberIndex {
            numbers: Vec::new(alloc),
            slots: Vec::new(alloc),
        }
    }

    /// The slot in the entry of a number, and `None` where there is no such entry.
    pub(crate) fn find(&self, number: u64) -> Option<u32>
        ensures found { IfSome result (λ slot. HasEntry self.now.entries number slot) }
        ensures none { IfNone result (HasNone self.now.entries number) }
    {
        match place_of(&self.numbers, number) {
            Some(place) => Some(self.slots[place]),
            None => None,
        }
    }

    /// What is written of the tasks of this table, of which there are at most so many, ascending by number.
    ///
    /// # Errors
    ///
    /// `AllocError` where the memory for it is refused.
    pub(crate) fn images<B: Allocator, C: Allocator>(
        &self,
        table: &TaskTable<B>,
        tasks: usize,
        alloc: C,
    ) -> Result<Vec<Image, C>, AllocError>
        requires { (count : ℕ) × IsIndex (held_numbers table.now.slots) self.now.entries count }
        ensures { IfOk result (λ v. AreImages table.now v.items) }
    {
        images_of(&self.numbers, &self.slots, table, tasks, alloc)
    }

    /// Drops the entries whose slot in this table holds another task by now, or none. At most so many tasks have a slot.
    #[cold]
    #[inline(never)]
    pub(crate) fn compact<B: Allocator>(&mut self, table: &TaskTable<B>, tasks: usize)
        requires { tasks_in table.now.slots ≤ tasks }
        ensures left { self.new
            ≡ record self.old
            { entries = filter (is_held (held_numbers table.now.slots)) self.old.entries } }
        ensures few { length self.new.entries ≤ tasks_in table.now.slots }
    {
        let kept = keep_held(&mut self.numbers, &mut self.slots, table.seats(), tasks);
        self.numbers.truncate(kept);
        self.slots.truncate(kept);
    }

    /// Makes room for so many entries in all.
    ///
    /// # Errors
    ///
    /// `AllocError` where the memory for them is refused.
    pub(crate) fn reserve(&mut self, entries: usize) -> Result<(), AllocError>
        ensures room { OnOk result (entries ≤ self.new.room) }
        ensures grows { self.old.room ≤ self.new.room }
        ensures entries { self.new.entries ≡ self.old.entries }
    {
        let more = entries.saturating_sub(self.numbers.len());
        self.numbers.reserve(more)?;
        self.slots.reserve(more)
    }

    /// Whether there is no room for one more entry.
    pub(crate) fn is_full(&self) -> bool
        ensures room { result ≡ false → length self.now.entries < self.now.room }
        ensures full { result ≡ true → self.now.room ≤ length self.now.entries }
    {
        let entries = self.numbers.len();
        entries >= self.numbers.capacity() || entries >= self.slots.capacity()
    }

    /// Adds the task of a number that is above all others.
    pub(crate) fn add(&mut self, task: TaskRef)
        requires above { IsBelow self.old.entries (length self.old.entries) task.number }
        requires room { length self.old.entries < self.old.room }
        ensures { self.new
            ≡ record { entries = self.old.entries ++ task ∷ []; room = self.old.room } }
    {
        self.numbers.push_reserved(task.number);
        self.slots.push_reserved(task.slot);
    }
}

/// Where a number stands among numbers that ascend, and `None` where it does not.
fn place_of(numbers: &[u64], number: u64) -> Option<usize>
    requires { Rises numbers.now }
    ensures found { IfSome result (λ place. slice_get numbers.now place ≡ Some number) }
    ensures none { IfNone result ((i : ℕ) → slice_get numbers.now i ≡ Some number → ⊥) }
{
    let mut low = 0;
    let mut high = numbers.len();
    while low < high {
        let middle = low + (high - low) / 2;
        let here = numbers[middle];
        if here == number {
            return Some(middle);
        }
        if here < number {
            low = middle + 1;
        } else {
            high = middle;
        }
    }
    None
}

/// Moves the entries whose slot holds their task to the front, in their order, and says how many there are: at most so many.
fn keep_held(numbers: &mut [u64], slots: &mut [u32], seats: &[Option<Seat>], tasks: usize) -> usize
    requires pairs { length numbers.old ≡ length slots.old }
    requires few { length (filter (is_held (held_numbers seats.now)) (entries_of numbers.old slots.old))
        ≤ tasks }
    ensures kept { take result (entries_of numbers.new slots.new)
        ≡ filter (is_held (held_numbers seats.now)) (entries_of numbers.old slots.old) }
    ensures numbers { length numbers.new ≡ length numbers.old }
    ensures slots { length slots.new ≡ length slots.old }
{
    let from = gather_held(numbers, slots, seats, tasks);
    let kept = numbers.len() - from;
    numbers.copy_within(from.., 0);
    slots.copy_within(from.., 0);
    kept
}

/// Moves them to the end, and says from where on they stand. The newest ones come first: once all are found, the older ones, which
/// are stale, are not looked at.
fn gather_held(
    numbers: &mut [u64],
    slots: &mut [u32],
    seats: &[Option<Seat>],
    tasks: usize,
) -> usize
    requires pairs { length numbers.old ≡ length slots.old }
    requires few { length (filter (is_held (held_numbers seats.now)) (entries_of numbers.old slots.old))
        ≤ tasks }
    ensures held { drop result (entries_of numbers.new slots.new)
        ≡ filter (is_held (held_numbers seats.now)) (entries_of numbers.old slots.old) }
    ensures within { result ≤ length numbers.new }
    ensures numbers { length numbers.new ≡ length numbers.old }
    ensures slots { length slots.new ≡ length slots.old }
{
    let all = numbers.len();
    let first = all.saturating_sub(tasks);
    let mut from = all;
    let mut i = all;
    while i > 0 {
        i -= 1;
        let number = numbers[i];
        let slot = slots[i];
        if is_held_in(seats, TaskRef { number, slot }) {
            from -= 1;
            numbers[from] = number;
            slots[from] = slot;
            if from == first {
                return from;
            }
        }
    }
    from
}

/// What is written of the tasks of a table, of which there are at most so many, where these are the entries of its index.
///
/// # Errors
///
/// `AllocError` where the memory for it is refused.
fn images_of<A: Allocator, B: Allocator>(
    numbers: &[u64],
    slots: &[u32],
    table: &TaskTable<A>,
    tasks: usize,
    alloc: B,
) -> Result<Vec<Image, B>, AllocError>
    requires pairs { length numbers.now ≡ length slots.now }
    requires index { (count : ℕ)
        × IsIndex (held_numbers table.now.slots) (entries_of numbers.now slots.now) count }
    ensures { IfOk result (λ v. AreImages table.now v.items) }
{
    each_table_is_formed(table);
    let mut images = Vec::with_capacity(alloc, tasks)?;
    for place in 0..numbers.len() {
        let number = numbers[place];
        let slot = slots[place];
        if let Some(image) = image_of(table, TaskRef { number, slot }) {
            images.push(image)?;
        }
    }
    Ok(images)
}

/// What is written of a task, and `None` where its slot holds another one, or none.
fn image_of<A: Allocator>(table: &TaskTable<A>, task: TaskRef) -> Option<Image>
    ensures slot { IfSome result (λ r. r.slot ≡ task.slot) }
    ensures number { IfSome result (λ r. r.seat.number ≡ task.number) }
    ensures is { IfSome result (λ r. IsImageIn table.now r) }
    ensures none { IfNone result ((x : seats.Seat) → slot_of table.now.slots task.slot ≡ Some x
        → x.number ≡ task.number → ⊥) }
{
    let image = table.image(task.slot)?;
    if image.seat.number != task.number {
        return None;
    }
    Some(image)
}

/// Whether the slot of a task holds it.
pub(crate) fn holds<A: Allocator>(table: &TaskTable<A>, task: TaskRef) -> bool
    ensures { result ≡ is_held (held_numbers table.now.slots) task }
{
    is_held_in(table.seats(), task)
}

/// The same for what the slots hold.
fn is_held_in(slots: &[Option<Seat>], task: TaskRef) -> bool
    ensures { result ≡ is_held (held_numbers slots.now) task }
{
    match slots.get(task.slot as usize) {
        Some(Some(seat)) => seat.number == task.number,
        _ => false,
    }
}
