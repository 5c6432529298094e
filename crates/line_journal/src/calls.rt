//! The calls of a disk, with what they meet as an error of the journal.
ghost use Rattle.std.specs.Prelude.{◌≡◌, ℕ, ◌<◌, false, List, length, is_ok, IsErrOf, IfOk, OnOk, IsTrue};
ghost use Rattle.sqlite_disk.specs.Disk.{Holds, Cut, Follows, Only};
ghost use Rattle.sqlite_disk.specs.Refusal.{finds_no_room};
ghost use Rattle.line_journal.specs.declared.error.JournalError.TheVariants.{DiskFull, NotWritten};

use crate::error::JournalError;
use sqlite_disk::{Disk, is_no_room};
use std::io;

/// How many bytes the file has.
pub fn length<D: Disk>(disk: &mut D) -> Result<usize, JournalError>
    ensures len { IfOk result (λ n. IsTrue (D.Disk.is_clean disk.new) → n ≡ length (D.Disk.seen disk.old)) }
    ensures seen { D.Disk.seen disk.new ≡ D.Disk.seen disk.old }
    ensures clean { IsTrue (D.Disk.is_clean disk.new) → IsTrue (D.Disk.is_clean disk.old) }
    ensures leaves { (c : List ℕ) → D.Disk.may_leave disk.new c → D.Disk.may_leave disk.old c }
{
    if !disk.may_be_used() {
        return Err(JournalError::NotRead);
    }
    match disk.len() {
        Ok(n) => Ok(n),
        Err(_) => Err(JournalError::NotRead),
    }
}

/// Fills a buffer with the bytes from a place on.
pub fn read<D: Disk>(disk: &mut D, at: usize, buffer: &mut [u8]) -> Result<(), JournalError>
    ensures read { OnOk result (IsTrue (D.Disk.is_clean disk.new) → 0 < length buffer.old → Holds (D.Disk.seen disk.old) at buffer.new) }
    ensures seen { D.Disk.seen disk.new ≡ D.Disk.seen disk.old }
    ensures clean { IsTrue (D.Disk.is_clean disk.new) → IsTrue (D.Disk.is_clean disk.old) }
    ensures leaves { (c : List ℕ) → D.Disk.may_leave disk.new c → D.Disk.may_leave disk.old c }
{
    if !disk.may_be_used() {
        return Err(JournalError::NotRead);
    }
    match disk.read_at(at, buffer) {
        Ok(()) => Ok(()),
        Err(_) => Err(JournalError::NotRead),
    }
}

/// Makes durable what was written.
pub fn sync<D: Disk>(disk: &mut D) -> Result<(), JournalError>
    requires { IsTrue (D.Disk.is_usable disk.old) }
    ensures durable { OnOk result (Only (D.Disk.seen disk.old) (D.Disk.may_leave disk.new)) }
    ensures usable { OnOk result (IsTrue (D.Disk.is_usable disk.new)) }
    ensures seen { D.Disk.seen disk.new ≡ D.Disk.seen disk.old }
    ensures clean { D.Disk.is_clean disk.new ≡ D.Disk.is_clean disk.old }
    ensures leaves { (c : List ℕ) → D.Disk.may_leave disk.new c → D.Disk.may_leave disk.old c }
{
    told(disk.sync())
}

/// Cuts the file to a length.
pub fn cut<D: Disk>(disk: &mut D, len: usize) -> Result<(), JournalError>
    requires { IsTrue (D.Disk.is_usable disk.old) }
    ensures len { OnOk result (length (D.Disk.seen disk.new) ≡ len) }
    ensures others { Cut len (D.Disk.seen disk.old) (D.Disk.seen disk.new) }
    ensures crash { Follows (Cut len) (D.Disk.may_leave disk.old) (D.Disk.may_leave disk.new) }
    ensures usable { IsTrue (D.Disk.is_usable disk.new) }
    ensures clean { D.Disk.is_clean disk.new ≡ D.Disk.is_clean disk.old }
{
    told(disk.set_len(len))
}

/// What a call that writes met.
pub fn told(outcome: io::Result<()>) -> Result<(), JournalError>
    ensures same { is_ok result ≡ is_ok outcome }
    ensures full { IsErrOf result DiskFull → IsTrue (finds_no_room outcome) }
    ensures other { IsErrOf result NotWritten → finds_no_room outcome ≡ false }
{
    match outcome {
        Ok(()) => Ok(()),
        Err(error) => Err(if is_no_room(&error) {
            JournalError::DiskFull
        } else {
            JournalError::NotWritten
        }),
    }
}
