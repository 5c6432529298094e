ghost use Rattle.std.specs.Prelude.{◌≡◌, IfOk, IfErr, vec_len};
ghost use Rattle.std.specs.Vec.{vec_capacity};
ghost use Rattle.task_word.specs.Answers.{Closes};
ghost use Rattle.task_word.specs.Views.{new_core};
ghost use Rattle.task_word.specs.declared.fault.WordError.TheVariants.{Memory};

use crate::core_side::CoreSeat;
use crate::fault::WordError;
use crate::rule::WordRule;
use crate::values::Word;
use crate::views::View;
use atomic_table::Table;
use std::alloc::Allocator;
use std::marker::Model;

/// The words of the tasks 0, 1, .., which threads share by `&`.
///
/// Each word changes in single atomic steps, which the core's seat and the handles make.
#[derive(Drop)]
pub struct TaskWords<A: Allocator> {
    pub(crate) table: Table<(), View, u32, WordRule, A>,
    pub(crate) tasks: u32,
}

impl<A: Allocator> Model for TaskWords<A> {
    ghost use Rattle.std.specs.Prelude.{◌≡◌, ◌+◌};
    ghost use Rattle.task_word.specs.Answers.{TableOf};

    ghost Value = { TableOf };

    ghost view = { λ w. record { table = w.table.shared.table_id; tasks = w.tasks } };

    ghost invariant = { λ w. (w.table.shared.key ≡ w.tasks) × (w.table.shared.table_id.words ≡ w.tasks + 1) × (w.table.shared.table_id.slots ≡ 0) };
}

impl<A: Allocator + Copy> TaskWords<A> {
    /// The words of `tasks` tasks, all vacant, and the one seat that moves them. No handle is out.
    ///
    /// The error is [`WordError::Memory`], where the allocator refused; then nothing is held.
    pub fn new(alloc: A, tasks: u32) -> Result<(TaskWords<A>, CoreSeat<A>), WordError>
        ensures ok { IfOk result
            (λ r. (r.0.tasks ≡ tasks) × (r.1.table ≡ r.0.table) × (r.1.view ≡ new_core tasks)) }
        ensures err { IfErr result (λ e. e ≡ Memory) }
    {
        let words = Vec::from_elem(alloc, 0u64, tasks as usize + 1)?;
        let entries = Vec::from_elem(alloc, Word::vacant(), tasks as usize)?;
        let (table, seat) = Table::of_words(alloc, words.as_slice(), &tasks)?;
        let core = CoreSeat {
            seat,
            entries,
            out: 0,
        };
        Ok((TaskWords { table, tasks }, core))
    }
}

impl<A: Allocator> TaskWords<A> {
    /// The words of the tasks as numbers ([`Word::value`](crate::Word::value)), as they are once all threads have
    /// returned, in the allocator given, with no room for more: each is the word that the core's seat knows, or that
    /// one with the bit of a cancel.
    ///
    /// The error is [`WordError::Memory`], where the allocator refused; then nothing comes back, and the table is
    /// dropped.
    pub fn close<B: Allocator>(self, alloc: B, core: CoreSeat<A>) -> Result<Vec<u64, B>, WordError>
        requires table { core.table ≡ self.table }
        ensures ok { IfOk result
            (λ v. (vec_len v ≡ self.tasks) × (vec_capacity v ≡ self.tasks)
            × Closes self.tasks core.view v.items) }
        ensures err { IfErr result (λ e. e ≡ Memory) }
    {
        let mut words = Vec::with_capacity(alloc, self.tasks as usize)?;
        let TaskWords { table, tasks } = self;
        let CoreSeat {
            seat,
            entries: _,
            out: _,
        } = core;
        let closed = table.close_with(seat);
        for k in 0..tasks {
            words.push_reserved(closed.word(k as usize + 1));
        }
        closed.free();
        Ok(words)
    }
}
