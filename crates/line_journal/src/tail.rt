//! What is written behind the groups of a file: zeros, and the next group into them.
ghost use Rattle.std.specs.Prelude.{◌≡◌, ◌⊎◌, ℕ, ◌+◌, ◌<◌, ◌≤◌, ◌^◌, List, [], ◌∷◌, ◌++◌, length, IfOk, OnOk, IsTrue};
ghost use Rattle.sqlite_disk.specs.Disk.{Holds, Torn, Mixed, Only, Follows};
ghost use Rattle.line_journal.specs.Groups.{frame, frames, Keeps, IsGroup};
ghost use Rattle.line_journal.specs.Parts.{Part, Has};
ghost use Rattle.line_journal.specs.Resting.{IsAtRest, IsBlank, Blanks, KeepsBelow, Mixes};

use crate::calls::{cut, sync, told};
use crate::error::JournalError;
use crate::group::{HEAD, MOST_GROUP, put_head};
use sqlite_disk::Disk;

/// How many zeros stand behind the lines of a file that is opened, or begins: 128 KiB.
pub const AHEAD: usize = 131_072;

/// How many more are written where no more than the longest group would have room: 1 MiB.
const FURTHER: usize = 1_048_576;

/// Writes a group into the zeros that go from `end` to `limit`, durably, and tells where they end then: there is room for the
/// longest group behind this one. A crash leaves all of it, or none.
pub fn append_group<D: Disk>(
    disk: &mut D,
    end: usize,
    limit: usize,
    group: &[u8],
    buffer: &mut [u8],
) -> Result<usize, JournalError>
    requires usable { IsTrue (D.Disk.is_usable disk.old) }
    requires room { HEAD + MOST_GROUP ≤ length buffer.old }
    requires zeros { end + 65549 < limit }
    requires small { limit < 2 ^ 40 }
    requires group { IsGroup group.now }
    ensures room { IfOk result (λ to. (end + (13 + length group.now) + 65549 < to) × (to ≤ 2 ^ 41)) }
    ensures kept { IfOk result (λ to. (start : ℕ) (groups : List (List ℕ)) → IsAtRest D.Disk.seen D.Disk.may_leave disk.old start groups end limit
        → IsAtRest D.Disk.seen D.Disk.may_leave disk.new start (groups ++ group.now ∷ []) (end + (13 + length group.now)) to) }
    ensures crash { IsTrue (D.Disk.is_mixing disk.old) → (start : ℕ) (groups : List (List ℕ)) → IsAtRest D.Disk.seen D.Disk.may_leave disk.old start groups end limit
        → (c : List ℕ) → D.Disk.may_leave disk.new c → Keeps c start groups ⊎ Keeps c start (groups ++ group.now ∷ []) }
    ensures front { KeepsBelow end (D.Disk.seen disk.old) (D.Disk.seen disk.new) }
    ensures fronts { Follows (KeepsBelow end) (D.Disk.may_leave disk.old) (D.Disk.may_leave disk.new) }
    ensures clean { D.Disk.is_clean disk.new ≡ D.Disk.is_clean disk.old }
{
    if limit - (end + (HEAD + group.len())) > HEAD + MOST_GROUP {
        append_here(disk, end, limit, group, buffer)
    } else {
        append_further(disk, end, limit, group, buffer)
    }
}

/// The same, where the zeros go on far enough behind the group.
fn append_here<D: Disk>(
    disk: &mut D,
    end: usize,
    limit: usize,
    group: &[u8],
    buffer: &mut [u8],
) -> Result<usize, JournalError>
    requires usable { IsTrue (D.Disk.is_usable disk.old) }
    requires room { HEAD + MOST_GROUP ≤ length buffer.old }
    requires zeros { end + 65549 < limit }
    requires small { limit < 2 ^ 40 }
    requires group { IsGroup group.now }
    ensures same { IfOk result (λ to. to ≡ limit) }
    ensures kept { IfOk result (λ to. (start : ℕ) (groups : List (List ℕ)) → IsAtRest D.Disk.seen D.Disk.may_leave disk.old start groups end limit
        → IsAtRest D.Disk.seen D.Disk.may_leave disk.new start (groups ++ group.now ∷ []) (end + (13 + length group.now)) to) }
    ensures crash { IsTrue (D.Disk.is_mixing disk.old) → (start : ℕ) (groups : List (List ℕ)) → IsAtRest D.Disk.seen D.Disk.may_leave disk.old start groups end limit
        → (c : List ℕ) → D.Disk.may_leave disk.new c → Keeps c start groups ⊎ Keeps c start (groups ++ group.now ∷ []) }
    ensures front { KeepsBelow end (D.Disk.seen disk.old) (D.Disk.seen disk.new) }
    ensures fronts { Follows (KeepsBelow end) (D.Disk.may_leave disk.old) (D.Disk.may_leave disk.new) }
    ensures clean { D.Disk.is_clean disk.new ≡ D.Disk.is_clean disk.old }
{
    put_group(disk, end, group, buffer)?;
    Ok(limit)
}

/// The same, where more zeros are wanted behind the group. They have to be durable before a group is written into them: the sync of
/// this group serves those of the next one.
fn append_further<D: Disk>(
    disk: &mut D,
    end: usize,
    limit: usize,
    group: &[u8],
    buffer: &mut [u8],
) -> Result<usize, JournalError>
    requires usable { IsTrue (D.Disk.is_usable disk.old) }
    requires room { HEAD + MOST_GROUP ≤ length buffer.old }
    requires zeros { end + 65549 < limit }
    requires small { limit < 2 ^ 40 }
    requires group { IsGroup group.now }
    ensures more { IfOk result (λ to. to ≡ limit + FURTHER) }
    ensures kept { IfOk result (λ to. (start : ℕ) (groups : List (List ℕ)) → IsAtRest D.Disk.seen D.Disk.may_leave disk.old start groups end limit
        → IsAtRest D.Disk.seen D.Disk.may_leave disk.new start (groups ++ group.now ∷ []) (end + (13 + length group.now)) to) }
    ensures crash { IsTrue (D.Disk.is_mixing disk.old) → (start : ℕ) (groups : List (List ℕ)) → IsAtRest D.Disk.seen D.Disk.may_leave disk.old start groups end limit
        → (c : List ℕ) → D.Disk.may_leave disk.new c → Keeps c start groups ⊎ Keeps c start (groups ++ group.now ∷ []) }
    ensures front { KeepsBelow end (D.Disk.seen disk.old) (D.Disk.seen disk.new) }
    ensures fronts { Follows (KeepsBelow end) (D.Disk.may_leave disk.old) (D.Disk.may_leave disk.new) }
    ensures clean { D.Disk.is_clean disk.new ≡ D.Disk.is_clean disk.old }
{
    put_zeros(disk, limit, limit + FURTHER)?;
    put_group(disk, end, group, buffer)?;
    Ok(limit + FURTHER)
}

/// Writes zeros from one place to another.
pub fn put_zeros<D: Disk>(disk: &mut D, from: usize, to: usize) -> Result<(), JournalError>
    requires { IsTrue (D.Disk.is_usable disk.old) }
    ensures usable { IsTrue (D.Disk.is_usable disk.new) }
    ensures mixing { D.Disk.is_mixing disk.new ≡ D.Disk.is_mixing disk.old }
    ensures below { KeepsBelow from (D.Disk.seen disk.old) (D.Disk.seen disk.new) }
    ensures crash { Follows (KeepsBelow from) (D.Disk.may_leave disk.old) (D.Disk.may_leave disk.new) }
    ensures blank { OnOk result (IsBlank (D.Disk.seen disk.new) from to) }
    ensures blanks { Mixes D.Disk.is_mixing → Follows (Blanks from) (D.Disk.may_leave disk.old) (D.Disk.may_leave disk.new) }
    ensures clean { D.Disk.is_clean disk.new ≡ D.Disk.is_clean disk.old }
{
    let zeros = [0; 8192];
    let mut at = from;
    'pieces: while at < to {
        let n = (to - at).min(8192);
        put_piece(disk, at, &zeros[..n])?;
        at += n;
    }
    Ok(())
}

/// Writes some bytes at a place.
pub fn put_piece<D: Disk>(disk: &mut D, at: usize, bytes: &[u8]) -> Result<(), JournalError>
    requires { IsTrue (D.Disk.is_usable disk.old) }
    ensures usable { IsTrue (D.Disk.is_usable disk.new) }
    ensures mixing { D.Disk.is_mixing disk.new ≡ D.Disk.is_mixing disk.old }
    ensures written { OnOk result (0 < length bytes.now → Holds (D.Disk.seen disk.new) at bytes.now) }
    ensures others { Torn at (length bytes.now) (D.Disk.seen disk.old) (D.Disk.seen disk.new) }
    ensures crash { Follows (Torn at (length bytes.now)) (D.Disk.may_leave disk.old) (D.Disk.may_leave disk.new) }
    ensures mixed { IsTrue (D.Disk.is_mixing disk.old) → at + length bytes.now < 2 ^ 64 → Follows (Mixed at bytes.now) (D.Disk.may_leave disk.old) (D.Disk.may_leave disk.new) }
    ensures clean { D.Disk.is_clean disk.new ≡ D.Disk.is_clean disk.old }
{
    told(disk.write_at(at, bytes))
}

/// Writes a group at a place, durably.
fn put_group<D: Disk>(
    disk: &mut D,
    at: usize,
    group: &[u8],
    buffer: &mut [u8],
) -> Result<(), JournalError>
    requires usable { IsTrue (D.Disk.is_usable disk.old) }
    requires room { HEAD + length group.now ≤ length buffer.old }
    requires place { at + (HEAD + length group.now) < 2 ^ 64 }
    ensures written { OnOk result (Holds (D.Disk.seen disk.new) at (frame group.now)) }
    ensures others { Torn at (length (frame group.now)) (D.Disk.seen disk.old) (D.Disk.seen disk.new) }
    ensures durable { OnOk result (Only (D.Disk.seen disk.new) (D.Disk.may_leave disk.new)) }
    ensures crash { IsTrue (D.Disk.is_mixing disk.old) → Follows (Mixed at (frame group.now)) (D.Disk.may_leave disk.old) (D.Disk.may_leave disk.new) }
    ensures torn { Follows (Torn at (length (frame group.now))) (D.Disk.may_leave disk.old) (D.Disk.may_leave disk.new) }
    ensures clean { D.Disk.is_clean disk.new ≡ D.Disk.is_clean disk.old }
{
    let bytes = framed(group, buffer);
    put_piece(disk, at, bytes)?;
    told(disk.sync())
}

/// A group behind its head, in the front of a buffer.
fn framed<'a>(group: &[u8], buffer: &'a mut [u8]) -> &'a [u8]
    requires { HEAD + length group.now ≤ length buffer.old }
    ensures { result.now ≡ frame group.now }
{
    let whole = &mut buffer[..HEAD + group.len()];
    put_head(&mut whole[..HEAD], group);
    whole[HEAD..].copy_from_slice(group);
    whole
}

/// Writes zeros behind the groups and cuts what is behind them, durably.
pub fn clear_behind<D: Disk>(disk: &mut D, end: usize) -> Result<(), JournalError>
    requires small { end < 2 ^ 63 }
    ensures rests { OnOk result ((part : Part) → Has (D.Disk.seen disk.old) part → end ≡ 64 + part.head.text + length (frames part.groups)
        → Has (D.Disk.seen disk.new) part × IsAtRest D.Disk.seen D.Disk.may_leave disk.new (64 + part.head.text) part.groups end (end + 131072)) }
    ensures crash { Mixes D.Disk.is_mixing → Only (D.Disk.seen disk.old) (D.Disk.may_leave disk.old) → (part : Part) → Has (D.Disk.seen disk.old) part → end ≡ 64 + part.head.text + length (frames part.groups)
        → (c : List ℕ) → D.Disk.may_leave disk.new c → Has c part }
    ensures clean { D.Disk.is_clean disk.new ≡ D.Disk.is_clean disk.old }
{
    if !disk.may_be_used() {
        return Err(JournalError::NotWritten);
    }
    put_zeros(disk, end, end + AHEAD)?;
    cut(disk, end + AHEAD)?;
    sync(disk)
}
