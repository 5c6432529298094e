//! The cell, and what its notes know.
ghost use Rattle.std.specs.Prelude.{◌≡◌, Some, None, IsSome, IfNone, OnOk, IfErr};
ghost use Rattle.result_cell.specs.Cells.{StaysKnown, KnowTheSame};

use crate::verdict::Verdict;
use once_cell::race::{Note, OnceBox};
use std::alloc::Global;
use std::marker::Model;

/// A verdict that is set at most once, and which threads share by `&`.
///
/// A contract sees a cell as its name, which tells it from other cells, and never what it holds: that is in what
/// notes know.
#[derive(Drop)]
pub struct ResultCell {
    verdict: OnceBox<Verdict>,
}

impl Model for ResultCell {
    ghost use Rattle.std.specs.Prelude.{ℕ};
    ghost use Rattle.once_cell.specs.Once.{cell_name};

    ghost Value = { ℕ };

    ghost view = { λ c. cell_name c.verdict };
}

impl ResultCell {
    /// An empty cell. This takes no memory: `alloc` is only where the box that sets the cell is given back, once the cell
    /// is dropped.
    pub fn new(alloc: Global) -> ResultCell {
        ResultCell {
            verdict: OnceBox::new(alloc),
        }
    }

    /// A note of this cell that knows nothing yet.
    pub fn note(&self) -> Note<Verdict>
        ensures cell { result.cell ≡ self.now }
        ensures knows_nothing { result.known ≡ None }
    {
        self.verdict.note()
    }

    /// Sets the cell, if it is empty. Either way the note then knows the verdict that stands in the cell. With a note
    /// that knew one before, the answer is an error.
    ///
    /// # Errors
    ///
    /// The box comes back with what it held, where the cell was set before. The cell is unchanged, and the note
    /// knows the verdict that stands in it. That the first `put` on a cell is not refused, and that no `put` takes memory,
    /// is in no clause: a contract does not see what a cell holds.
    pub fn put(&self, note: &mut Note<Verdict>, verdict: Box<Verdict>) -> Result<(), Box<Verdict>>
        requires cell { note.old.cell ≡ self.now }
        ensures cell { note.new.cell ≡ note.old.cell }
        ensures accepted { OnOk result
            ((note.old.known ≡ None) × (note.new.known ≡ Some verdict.value)) }
        ensures refused { IfErr result (λ back. back.value ≡ verdict.value) }
        ensures knows { IsSome note.new.known }
        ensures keeps { StaysKnown note.old.known note.new.known }
    {
        self.verdict.set_as(verdict, note)
    }

    /// The verdict that the cell holds, or `None` while it is empty. What is answered is what the note then knows, so a
    /// note that knows a verdict gets that one again.
    #[tactic(auto, using(crate::proofs::Notes::know_nothing))]
    pub fn read(&self, note: &mut Note<Verdict>) -> Option<Verdict>
        requires cell { note.old.cell ≡ self.now }
        ensures cell { note.new.cell ≡ note.old.cell }
        ensures known { result ≡ note.new.known }
        ensures keeps { StaysKnown note.old.known note.new.known }
        ensures unchanged { IfNone result (note.new ≡ note.old) }
    {
        self.verdict.get_as(note).copied()
    }
}

/// Shows that two notes of one cell that know a verdict know the same one. It does nothing when it runs: what it is for
/// is its contract.
pub fn same(one: &mut Note<Verdict>, other: &mut Note<Verdict>)
    requires one_cell { one.old.cell ≡ other.old.cell }
    ensures agree { KnowTheSame one.old.known other.old.known }
    ensures unchanged { (one.new ≡ one.old) × (other.new ≡ other.old) }
{
    one.compare(other.again());
}
