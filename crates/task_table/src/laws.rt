//! What is so of each table, in functions that do nothing: each ensures a law.
ghost use Rattle.std.specs.Prelude.{◌≡◌, List};
ghost use Rattle.executor_model.specs.State.{State};
ghost use Rattle.task_table.specs.declared.image.Frame as frames;
ghost use Rattle.task_table.specs.declared.image.Image as pictures;
ghost use Rattle.task_table.specs.Formed.{IsFormed};
ghost use Rattle.task_table.specs.Images as images;
ghost use Rattle.task_table.specs.Tables.{TableView, Shows};

use crate::table::TaskTable;
use std::alloc::Allocator;

/// Each table is well formed, whatever led to it.
pub fn each_table_is_formed<A: Allocator>(table: &TaskTable<A>)
    ensures { IsFormed table.now }
{
    let _ = &table.moment;
}

/// A table that is well formed shows a state, also where no calls and history lead to it.
pub fn each_table_shows_a_state()
    ensures { (m : TableView) → IsFormed m → (s : State) × Shows m s }
{}

/// What is written of a table is written of no other one: so all that a contract says of the one is said of the other.
pub fn what_is_written_is_of_one_table()
    ensures { (m n : TableView) (frame : frames.Frame) (written : List pictures.Image)
        → images.IsWritten m frame written → images.IsWritten n frame written → m ≡ n }
{}
