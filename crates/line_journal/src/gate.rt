//! The gate of a file: its first byte, which says whether the file counts. Whatever else changes, it is shut then.
ghost use Rattle.std.specs.Prelude.{◌≡◌, ◌⊎◌, ℕ, ◌+◌, ◌≤◌, List, [], ◌∷◌, length, IfOk, OnOk, IsTrue};
ghost use Rattle.sqlite_disk.specs.Disk.{Holds, Torn, Mixed, Only};
ghost use Rattle.line_journal.specs.Fronts.{FitsFront, IsShut};
ghost use Rattle.line_journal.specs.Gates.{IsClosed, StaysClosed, IsReady};
ghost use Rattle.line_journal.specs.Halves.{IsInFile};
ghost use Rattle.line_journal.specs.Parts.{Has, IsOlder, snapshot_of};
ghost use Rattle.line_journal.specs.Resting.{IsAtRest, IsThere, Mixes};

use crate::calls::{cut, sync};
use crate::error::JournalError;
use crate::half::Half;
use crate::head::{FRONT, Head, MOST_FILE, OPEN, put_told};
use crate::tail::{AHEAD, put_piece, put_zeros};
use crate::zone::Groups;
use sqlite_disk::Disk;

/// Makes a file one that does not count, durably, and lets go of what it has.
pub fn shut<D: Disk>(disk: &mut D) -> Result<(), JournalError>
    requires { IsTrue (D.Disk.is_usable disk.old) }
    ensures usable { OnOk result (IsTrue (D.Disk.is_usable disk.new)) }
    ensures clean { D.Disk.is_clean disk.new ≡ D.Disk.is_clean disk.old }
    ensures closed { OnOk result (StaysClosed D.Disk.seen D.Disk.may_leave disk.new) }
    ensures crash { Mixes D.Disk.is_mixing → (turn : ℕ) → ((c : List ℕ) → D.Disk.may_leave disk.old c → IsOlder c turn)
        → (c : List ℕ) → D.Disk.may_leave disk.new c → IsOlder c turn }
{
    put_piece(disk, 0, &[0])?;
    sync(disk)?;
    cut(disk, 1)
}

/// Makes a file count, durably: one that is shut, and has a snapshot's text behind its front. No line stands behind it then.
pub fn unshut<D: Disk>(disk: &mut D, head: &Head) -> Result<Half, JournalError>
    requires usable { IsTrue (D.Disk.is_usable disk.old) }
    requires text { head.now.text ≤ MOST_FILE }
    requires fits { FitsFront head.now }
    ensures half { IfOk result (λ half. (half.head ≡ head.now) × (half.groups.end ≡ 64 + head.now.text) × (half.groups.lines ≡ 0)) }
    ensures clean { D.Disk.is_clean disk.new ≡ D.Disk.is_clean disk.old }
    ensures has { OnOk result (StaysClosed D.Disk.seen D.Disk.may_leave disk.old → (text : List ℕ) → length text ≡ head.now.text → IsThere (D.Disk.seen disk.old) 64 text
        → Has (D.Disk.seen disk.new) (snapshot_of head.now text) × IsAtRest D.Disk.seen D.Disk.may_leave disk.new (64 + head.now.text) [] (64 + head.now.text) (64 + head.now.text + 131072)) }
    ensures crash { Mixes D.Disk.is_mixing → StaysClosed D.Disk.seen D.Disk.may_leave disk.old → (text : List ℕ) → length text ≡ head.now.text → IsThere (D.Disk.seen disk.old) 64 text
        → (c : List ℕ) → D.Disk.may_leave disk.new c → IsShut c ⊎ Has c (snapshot_of head.now text) }
{
    fill(disk, head)?;
    open_gate(disk)?;
    Ok(Half {
        head: *head,
        groups: Groups {
            end: FRONT + head.text,
            lines: 0,
        },
    })
}

/// Puts all but the gate into a file that is shut: its front, and zeros behind its text. Durably.
fn fill<D: Disk>(disk: &mut D, head: &Head) -> Result<(), JournalError>
    requires usable { IsTrue (D.Disk.is_usable disk.old) }
    requires text { head.now.text ≤ MOST_FILE }
    ensures usable { OnOk result (IsTrue (D.Disk.is_usable disk.new)) }
    ensures clean { D.Disk.is_clean disk.new ≡ D.Disk.is_clean disk.old }
    ensures durable { OnOk result (Only (D.Disk.seen disk.new) (D.Disk.may_leave disk.new)) }
    ensures ready { OnOk result (StaysClosed D.Disk.seen D.Disk.may_leave disk.old → (text : List ℕ) → length text ≡ head.now.text → IsThere (D.Disk.seen disk.old) 64 text
        → IsReady (D.Disk.seen disk.new) head.now text) }
    ensures crash { StaysClosed D.Disk.seen D.Disk.may_leave disk.old → (c : List ℕ) → D.Disk.may_leave disk.new c → IsClosed c }
{
    let end = FRONT + head.text;
    let mut front = [0; 63];
    put_told(&mut front, head);
    put_zeros(disk, end, end + AHEAD)?;
    put_piece(disk, 1, &front)?;
    sync(disk)
}

/// Opens the gate of a file, durably.
fn open_gate<D: Disk>(disk: &mut D) -> Result<(), JournalError>
    requires { IsTrue (D.Disk.is_usable disk.old) }
    ensures clean { D.Disk.is_clean disk.new ≡ D.Disk.is_clean disk.old }
    ensures opened { OnOk result (Mixed 0 (1 ∷ []) (D.Disk.seen disk.old) (D.Disk.seen disk.new) × Holds (D.Disk.seen disk.new) 0 (1 ∷ [])) }
    ensures durable { OnOk result (Only (D.Disk.seen disk.new) (D.Disk.may_leave disk.new)) }
    ensures crash { Mixes D.Disk.is_mixing → Only (D.Disk.seen disk.old) (D.Disk.may_leave disk.old) → (c : List ℕ) → D.Disk.may_leave disk.new c → Mixed 0 (1 ∷ []) (D.Disk.seen disk.old) c }
{
    put_piece(disk, 0, &[OPEN])?;
    sync(disk)
}
