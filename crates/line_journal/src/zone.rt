//! The groups of a file: what stands at a place, and how far they go.
ghost use Rattle.std.specs.Prelude.{◌≡◌, ℕ, ◌<◌, ◌≤◌, List, length, IfOk, IsTrue};
ghost use Rattle.line_journal.specs.Finding.{FoundWithin, IsFoundIn, IsEnded, IsJudged, HasAll};

use crate::calls::read;
use crate::error::JournalError;
use crate::group::{HEAD, MOST_GROUP, has_zero, is_group, is_head, length_in, lines_in};
use sqlite_disk::Disk;

/// The groups of a file from a place on.
#[derive(Clone, Copy, Debug, PartialEq, Eq)]
pub struct Groups {
    /// Where they end.
    pub end: usize,
    /// How many lines they have.
    pub lines: u64,
}

/// What stands at a place.
#[derive(Clone, Copy, Debug, PartialEq, Eq)]
pub enum Found {
    /// A whole group of so many bytes, which the buffer begins with.
    Group(usize),
    /// None that is whole: there is a zero in it.
    End,
    /// None that a journal wrote.
    Broken,
}

/// Reads the group at a place, in a file of `len` bytes.
pub fn read_group<D: Disk>(
    disk: &mut D,
    at: usize,
    len: usize,
    buffer: &mut [u8],
) -> Result<Found, JournalError>
    ensures within { IfOk result (FoundWithin at len (length buffer.old)) }
    ensures found { IfOk result (λ found. IsTrue (D.Disk.is_clean disk.new) → IsFoundIn (D.Disk.seen disk.old) at buffer.new found) }
    ensures seen { D.Disk.seen disk.new ≡ D.Disk.seen disk.old }
    ensures clean { IsTrue (D.Disk.is_clean disk.new) → IsTrue (D.Disk.is_clean disk.old) }
    ensures leaves { (c : List ℕ) → D.Disk.may_leave disk.new c → D.Disk.may_leave disk.old c }
{
    if at >= len {
        return Ok(Found::Broken);
    }
    if len - at < HEAD {
        return read_end(disk, at, len - at);
    }
    let mut head = [0; HEAD];
    read(disk, at, &mut head)?;
    if has_zero(&head) {
        return Ok(Found::End);
    }
    let n = length_in(&head);
    if n == 0 || n > MOST_GROUP || n > buffer.len() || n > len - at - HEAD {
        return Ok(Found::Broken);
    }
    let body = &mut buffer[..n];
    read(disk, at + HEAD, body)?;
    Ok(judged(&head, body))
}

/// What stands at a place where a file ends before a head would.
fn read_end<D: Disk>(disk: &mut D, at: usize, there: usize) -> Result<Found, JournalError>
    requires some { 0 < there }
    requires few { there < HEAD }
    ensures within { IfOk result (λ found. (len room : ℕ) → FoundWithin at len room found) }
    ensures found { IfOk result (λ found. IsTrue (D.Disk.is_clean disk.new) → (buffer : List ℕ) → IsFoundIn (D.Disk.seen disk.old) at buffer found) }
    ensures seen { D.Disk.seen disk.new ≡ D.Disk.seen disk.old }
    ensures clean { IsTrue (D.Disk.is_clean disk.new) → IsTrue (D.Disk.is_clean disk.old) }
    ensures leaves { (c : List ℕ) → D.Disk.may_leave disk.new c → D.Disk.may_leave disk.old c }
{
    let mut rest = [0; HEAD];
    let part = &mut rest[..there];
    read(disk, at, part)?;
    Ok(ended(part))
}

/// What the last bytes of a file are, fewer than a head has.
fn ended(part: &[u8]) -> Found
    ensures { IsEnded part.now result }
{
    if has_zero(part) {
        Found::End
    } else {
        Found::Broken
    }
}

/// What a head and the bytes behind it are, as many as it tells.
fn judged(head: &[u8], body: &[u8]) -> Found
    requires { length head.now ≡ HEAD }
    ensures { IsJudged head.now body.now result }
{
    if has_zero(body) {
        return Found::End;
    }
    if is_group(body) && is_head(head, body) {
        Found::Group(body.len())
    } else {
        Found::Broken
    }
}

/// The whole groups from a place on, in a file of `len` bytes; or, where something stands that was not written so, how many lines
/// stand before it.
#[tactic(auto, using(crate::proofs::Reading::all_of_some))]
pub fn scan<D: Disk>(
    disk: &mut D,
    start: usize,
    len: usize,
    buffer: &mut [u8],
) -> Result<Result<Groups, u64>, JournalError>
    requires { start ≤ len }
    ensures within { IfOk result (λ r. IfOk r (λ groups. (start ≤ groups.end) × (groups.end ≤ len))) }
    ensures all { IfOk result (λ r. IfOk r (λ groups. IsTrue (D.Disk.is_clean disk.new) → start ≤ length (D.Disk.seen disk.old) → HasAll (D.Disk.seen disk.old) start groups.end groups.lines)) }
    ensures seen { D.Disk.seen disk.new ≡ D.Disk.seen disk.old }
    ensures clean { IsTrue (D.Disk.is_clean disk.new) → IsTrue (D.Disk.is_clean disk.old) }
    ensures leaves { (c : List ℕ) → D.Disk.may_leave disk.new c → D.Disk.may_leave disk.old c }
{
    let mut groups = Groups {
        end: start,
        lines: 0,
    };
    'groups: loop {
        match read_group(disk, groups.end, len, buffer)? {
            Found::Group(n) => {
                groups.end += HEAD + n;
                groups.lines = groups.lines.saturating_add(lines_in(&buffer[..n]) as u64);
            }
            Found::End => return Ok(Ok(groups)),
            Found::Broken => return Ok(Err(groups.lines)),
        }
    }
}

/// Whether a whole group stands somewhere from a place on, so that what is not whole there is no torn end.
pub fn has_group_behind<D: Disk>(
    disk: &mut D,
    from: usize,
    len: usize,
    buffer: &mut [u8],
) -> Result<bool, JournalError>
    ensures seen { D.Disk.seen disk.new ≡ D.Disk.seen disk.old }
    ensures clean { IsTrue (D.Disk.is_clean disk.new) → IsTrue (D.Disk.is_clean disk.old) }
    ensures leaves { (c : List ℕ) → D.Disk.may_leave disk.new c → D.Disk.may_leave disk.old c }
{
    let mut block = [0; 4096];
    let mut at = from;
    let mut last = 0;
    'blocks: while at < len {
        let n = (len - at).min(block.len());
        read(disk, at, &mut block[..n])?;
        for i in 0..n {
            if begins_head(last, block[i]) && is_whole(disk, at + i, len, buffer)? {
                return Ok(true);
            }
            last = block[i];
        }
        at += n;
    }
    Ok(false)
}

/// Whether a head may begin with a byte, behind another one.
fn begins_head(before: u8, byte: u8) -> bool {
    before < 128 && byte >= 128
}

fn is_whole<D: Disk>(
    disk: &mut D,
    at: usize,
    len: usize,
    buffer: &mut [u8],
) -> Result<bool, JournalError>
    ensures seen { D.Disk.seen disk.new ≡ D.Disk.seen disk.old }
    ensures clean { IsTrue (D.Disk.is_clean disk.new) → IsTrue (D.Disk.is_clean disk.old) }
    ensures leaves { (c : List ℕ) → D.Disk.may_leave disk.new c → D.Disk.may_leave disk.old c }
{
    Ok(matches!(read_group(disk, at, len, buffer)?, Found::Group(_)))
}
