//! The head of a file: its gate, and what stands in it.
ghost use Rattle.std.specs.Prelude.{◌≡◌, ℕ, ◌+◌, ◌<◌, ◌≤◌, ◌^◌, ◌++◌, List, length, IfOk, IsTrue};
ghost use Rattle.line_journal.specs.Groups.{sevens};
ghost use Rattle.line_journal.specs.Fronts.{FrontWithin, IsFrontOf, IsParsed, told, told_whole};

use crate::calls::read;
use crate::error::JournalError;
use crate::group::put_sevens;
use sqlite_disk::{Disk, digest_of};

/// How many bytes stand in front of a snapshot's text.
pub const FRONT: usize = 64;

/// What no file of a journal is longer than: 2^40 bytes.
pub const MOST_FILE: usize = 1 << 40;

/// The first byte of a file that counts. In one that does not it is a zero.
pub const OPEN: u8 = 1;

static NAME: [u8; 15] = *b"sched journal 1";

/// What a file says of itself.
#[derive(Clone, Copy, Debug, PartialEq, Eq)]
pub struct Head {
    /// The number of workers that the journal was made for.
    pub workers: u32,
    /// Which snapshot it is: the first one has 1.
    pub turn: u64,
    /// How many lines the snapshot covers.
    pub covers: u64,
    /// How many bytes its text has.
    pub text: usize,
    /// The sum of its text.
    pub sum: u64,
}

/// What stands in front of a file.
#[derive(Clone, Copy, Debug, PartialEq, Eq)]
pub enum Front {
    /// The file does not count.
    Shut,
    Open(Head),
    OtherVersion,
    /// It was not written so.
    Broken,
}

/// Fills the front of a file behind its gate: 63 bytes, of seven bits each where they tell a number.
#[tactic(auto, unfolding(crate::specs::Fronts::told_whole))]
pub fn put_told(bytes: &mut [u8], head: &Head)
    requires { length bytes.old ≡ 63 }
    ensures { bytes.new ≡ told_whole head.now }
{
    let (front, sum) = bytes.split_at_mut(56);
    put_what(front, head);
    put_sevens(sum, digest_of(0, front));
}

#[tactic(auto, unfolding(crate::specs::Fronts::told))]
fn put_what(bytes: &mut [u8], head: &Head)
    requires { length bytes.old ≡ 56 }
    ensures { bytes.new ≡ told head.now }
{
    bytes[..15].copy_from_slice(&NAME);
    put_numbers(&mut bytes[15..], head);
}

fn put_numbers(bytes: &mut [u8], head: &Head)
    requires { length bytes.old ≡ 41 }
    ensures { bytes.new ≡ (sevens 5 head.now.workers ++ (sevens 10 head.now.turn ++ sevens 10 head.now.covers)) ++ (sevens 6 head.now.text ++ sevens 10 head.now.sum) }
{
    let (counts, text) = bytes.split_at_mut(25);
    put_counts(counts, head);
    put_text(text, head);
}

fn put_counts(bytes: &mut [u8], head: &Head)
    requires { length bytes.old ≡ 25 }
    ensures { bytes.new ≡ sevens 5 head.now.workers ++ (sevens 10 head.now.turn ++ sevens 10 head.now.covers) }
{
    let (workers, rest) = bytes.split_at_mut(5);
    put_sevens(workers, u64::from(head.workers));
    put_pair(rest, head.turn, head.covers);
}

fn put_pair(bytes: &mut [u8], one: u64, two: u64)
    requires { length bytes.old ≡ 20 }
    ensures { bytes.new ≡ sevens 10 one ++ sevens 10 two }
{
    let (first, second) = bytes.split_at_mut(10);
    put_sevens(first, one);
    put_sevens(second, two);
}

fn put_text(bytes: &mut [u8], head: &Head)
    requires { length bytes.old ≡ 16 }
    ensures { bytes.new ≡ sevens 6 head.now.text ++ sevens 10 head.now.sum }
{
    put_sevens(&mut bytes[..6], head.text as u64);
    put_sevens(&mut bytes[6..], head.sum);
}

/// Whether these bytes are the front of an open file behind its gate.
fn is_told(bytes: &[u8], head: &Head) -> bool
    ensures { IsTrue result → bytes.now ≡ told_whole head.now }
{
    let mut right = [0; 63];
    put_told(&mut right, head);
    right.as_slice() == bytes
}

/// Reads the front of a file of `len` bytes.
pub fn read_front<D: Disk>(disk: &mut D, len: usize) -> Result<Front, JournalError>
    ensures within { IfOk result (FrontWithin len) }
    ensures front { IfOk result (λ front. IsTrue (D.Disk.is_clean disk.new) → len ≡ length (D.Disk.seen disk.old) → IsFrontOf (D.Disk.seen disk.old) front) }
    ensures seen { D.Disk.seen disk.new ≡ D.Disk.seen disk.old }
    ensures clean { IsTrue (D.Disk.is_clean disk.new) → IsTrue (D.Disk.is_clean disk.old) }
    ensures leaves { (c : List ℕ) → D.Disk.may_leave disk.new c → D.Disk.may_leave disk.old c }
{
    if len < FRONT {
        return Ok(Front::Shut);
    }
    let mut front = [0; FRONT];
    read(disk, 0, &mut front)?;
    Ok(parsed(&front, len))
}

fn parsed(front: &[u8], len: usize) -> Front
    requires size { length front.now ≡ FRONT }
    requires len { FRONT ≤ len }
    ensures within { FrontWithin len result }
    ensures parsed { IsParsed front.now result }
{
    if front[0] == 0 {
        return Front::Shut;
    }
    if front[0] != OPEN || front[1..15] != NAME[..14] {
        return Front::Broken;
    }
    if front[15] != NAME[14] {
        return Front::OtherVersion;
    }
    let head = head_in(front);
    if head.text <= len - FRONT && head.text <= MOST_FILE && is_told(&front[1..], &head) {
        Front::Open(head)
    } else {
        Front::Broken
    }
}

/// What a front tells, where it tells anything.
fn head_in(front: &[u8]) -> Head
    requires { length front.now ≡ FRONT }
    ensures workers { result.workers < 2 ^ 32 }
    ensures turn { result.turn < 2 ^ 64 }
    ensures covers { result.covers < 2 ^ 64 }
    ensures sum { result.sum < 2 ^ 64 }
{
    Head {
        workers: (number_in(&front[16..21]) % (1 << 32)) as u32,
        turn: number_in(&front[21..31]),
        covers: number_in(&front[31..41]),
        text: number_in(&front[41..47]) as usize,
        sum: number_in(&front[47..57]),
    }
}

/// A number in bytes of seven bits each, the least first.
fn number_in(bytes: &[u8]) -> u64 {
    let mut number = 0u64;
    for byte in bytes.iter().rev() {
        number = number
            .wrapping_mul(128)
            .wrapping_add(u64::from(*byte % 128));
    }
    number
}
