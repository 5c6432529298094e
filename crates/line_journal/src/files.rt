//! A file as a whole, read from end to end.
ghost use Rattle.std.specs.Prelude.{◌≡◌, ℕ, ◌+◌, ◌≤◌, List, Some, length, IfOk, IfSome, IsTrue};
ghost use Rattle.sqlite_disk.specs.Disk.{Holds};
ghost use Rattle.line_journal.specs.Fronts.{front_bytes, FitsFront};
ghost use Rattle.line_journal.specs.Halves.{IsInFile, IsReadAs};

use crate::calls::{length, read};
use crate::error::JournalError;
use crate::half::Half;
use crate::head::{FRONT, Front, Head, MOST_FILE, read_front};
use crate::zone::{has_group_behind, scan};
use sqlite_disk::Disk;
use std::hash::{DefaultHasher, Hasher};

/// Reads a file from end to end. `None` if it does not count.
pub fn read_half<D: Disk>(disk: &mut D, buffer: &mut [u8]) -> Result<Option<Half>, JournalError>
    ensures within { IfOk result (λ found. IfSome found IsInFile) }
    ensures found { IfOk result (λ found. IsTrue (D.Disk.is_clean disk.new) → IsReadAs (D.Disk.seen disk.old) found) }
    ensures seen { D.Disk.seen disk.new ≡ D.Disk.seen disk.old }
    ensures clean { IsTrue (D.Disk.is_clean disk.new) → IsTrue (D.Disk.is_clean disk.old) }
    ensures leaves { (c : List ℕ) → D.Disk.may_leave disk.new c → D.Disk.may_leave disk.old c }
{
    let len = length(disk)?;
    if len > MOST_FILE {
        return Err(JournalError::Broken(0));
    }
    match read_front(disk, len)? {
        Front::Shut => Ok(None),
        Front::Open(head) => Ok(Some(read_groups(disk, &head, len, buffer)?)),
        Front::OtherVersion => Err(JournalError::OtherVersion),
        Front::Broken => Err(JournalError::Broken(0)),
    }
}

fn read_groups<D: Disk>(
    disk: &mut D,
    head: &Head,
    len: usize,
    buffer: &mut [u8],
) -> Result<Half, JournalError>
    requires text { FRONT + head.now.text ≤ len }
    requires len { len ≤ MOST_FILE }
    ensures within { IfOk result IsInFile }
    ensures found { IfOk result (λ half. IsTrue (D.Disk.is_clean disk.new) → len ≡ length (D.Disk.seen disk.old) → Holds (D.Disk.seen disk.old) 0 (front_bytes head.now) → FitsFront head.now → IsReadAs (D.Disk.seen disk.old) (Some half)) }
    ensures seen { D.Disk.seen disk.new ≡ D.Disk.seen disk.old }
    ensures clean { IsTrue (D.Disk.is_clean disk.new) → IsTrue (D.Disk.is_clean disk.old) }
    ensures leaves { (c : List ℕ) → D.Disk.may_leave disk.new c → D.Disk.may_leave disk.old c }
{
    if sum_of_text(disk, head.text, buffer)? != head.sum {
        return Err(JournalError::Broken(head.covers));
    }
    match scan(disk, FRONT + head.text, len, buffer)? {
        Ok(groups) => {
            let half = Half {
                head: *head,
                groups,
            };
            if has_group_behind(disk, groups.end, len, buffer)? {
                Err(JournalError::Broken(half.lines()))
            } else {
                Ok(half)
            }
        }
        Err(lines) => Err(JournalError::Broken(head.covers.saturating_add(lines))),
    }
}

/// The sum of the first bytes behind a file's front.
fn sum_of_text<D: Disk>(disk: &mut D, bytes: usize, buffer: &mut [u8]) -> Result<u64, JournalError>
    requires { bytes ≤ MOST_FILE }
    ensures seen { D.Disk.seen disk.new ≡ D.Disk.seen disk.old }
    ensures clean { IsTrue (D.Disk.is_clean disk.new) → IsTrue (D.Disk.is_clean disk.old) }
    ensures leaves { (c : List ℕ) → D.Disk.may_leave disk.new c → D.Disk.may_leave disk.old c }
{
    let mut sum = DefaultHasher::new();
    let mut at = 0;
    'pieces: while at < bytes {
        let n = (bytes - at).min(buffer.len()).max(1);
        let Some(piece) = buffer.get_mut(..n) else {
            return Err(JournalError::Memory);
        };
        read(disk, FRONT + at, piece)?;
        sum.write(piece);
        at += n;
    }
    Ok(sum.finish())
}
