//! What threads share: the words of the tasks, and a cell for the result of each.
ghost use Rattle.std.specs.Prelude.{◌≡◌, IfOk, IfErr, length};
ghost use Rattle.task_word.specs.Views.{new_core};

use crate::error::PoolError;
use heap_allocator::HeapAllocator;
use result_cell::ResultCell;
use std::alloc::Allocator;
use std::marker::Model;
use task_word::{CoreSeat, TaskWords};

/// The words and the cells of the tasks 0, 1, .., which threads share by `&`.
#[derive(Drop)]
pub struct Shared<A: Allocator> {
    pub(crate) words: TaskWords<A>,
    pub(crate) cells: Vec<ResultCell, A>,
}

impl<A: Allocator> Model for Shared<A> {
    ghost use Rattle.std.specs.Prelude.{◌≡◌, length};
    ghost use Rattle.worker_pool.specs.Shares.{SharedView};

    ghost Value = { SharedView };

    ghost view = { λ s. record { table = s.words.table; tasks = s.words.tasks; cells = s.cells.items } };

    ghost invariant = { λ s. length s.cells.items ≡ s.words.tasks };
}

impl<A: HeapAllocator> Shared<A> {
    /// The words of `tasks` tasks, all vacant, an empty cell for each, and the one seat that moves the words, for the book.
    ///
    /// # Errors
    ///
    /// [`PoolError::Memory`], where the allocator refused; then nothing is held.
    pub fn new(alloc: A, tasks: u32) -> Result<(Shared<A>, CoreSeat<A>), PoolError>
        ensures ok { IfOk result
            (λ r. (r.0.tasks ≡ tasks) × (length r.0.cells ≡ tasks) × (r.1.table ≡ r.0.table)
            × (r.1.view ≡ new_core tasks)) }
        ensures err { IfErr result (λ e. e ≡ PoolError.Memory) }
    {
        let Ok((words, seat)) = TaskWords::new(alloc, tasks) else {
            return Err(PoolError::Memory);
        };
        let Ok(mut cells) = Vec::with_capacity(alloc, tasks as usize) else {
            return Err(PoolError::Memory);
        };
        for _task in 0..tasks {
            cells.push_reserved(ResultCell::new(alloc.heap()));
        }
        Ok((Shared { words, cells }, seat))
    }
}
