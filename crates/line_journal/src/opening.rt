//! Opening: which of the two files is the last one.
ghost use Rattle.std.specs.Prelude.{◌≡◌, ◌<◌, ℕ, ◌+◌, ◌≤◌, MatchBool, false, List, length, IfOk, IfSome, OnOk, IsTrue, vec_len};
ghost use Rattle.sqlite_disk.specs.Disk.{Only};
ghost use Rattle.line_journal.specs.Fronts.{IsShut};
ghost use Rattle.line_journal.specs.Halves.{IsInFile};
ghost use Rattle.line_journal.specs.Openings.{AreInFile, IsChosen, IsLastOf, IsOpenedAs, StandsOn};
ghost use Rattle.line_journal.specs.Parts.{Part, StandFor, empty_part};
ghost use Rattle.line_journal.specs.Resting.{Mixes};

use crate::calls::length;
use crate::error::JournalError;
use crate::files::read_half;
use crate::gate::{shut, unshut};
use crate::group::{HEAD, MOST_GROUP};
use crate::half::Half;
use crate::head::{FRONT, Head};
use crate::parts::Parts;
use crate::tail::{AHEAD, clear_behind};
use sqlite_disk::Disk;
use std::alloc::Allocator;
use std::hash::{DefaultHasher, Hasher};

/// Reads two files, and makes them ready to be written. With a buffer for the longest group and its head.
pub fn opened<D: Disk, A: Allocator>(
    alloc: A,
    first: &mut D,
    second: &mut D,
    workers: u32,
) -> Result<(Parts, Vec<u8, A>), JournalError>
    ensures within { IfOk result (λ r. AreInFile r.0 × (vec_len r.1 ≡ 65549)) }
    ensures opened { IfOk result (λ r. IsTrue (D.Disk.is_clean first.new) → IsTrue (D.Disk.is_clean second.new)
        → Only (D.Disk.seen first.old) (D.Disk.may_leave first.old) → Only (D.Disk.seen second.old) (D.Disk.may_leave second.old)
        → (part : Part) → StandFor workers (D.Disk.seen first.old) (D.Disk.seen second.old) part → IsOpenedAs D.Disk.seen D.Disk.may_leave first.new second.new r.0 part) }
    ensures crash { Mixes D.Disk.is_mixing → IsTrue (D.Disk.is_clean first.new) → IsTrue (D.Disk.is_clean second.new)
        → Only (D.Disk.seen first.old) (D.Disk.may_leave first.old) → Only (D.Disk.seen second.old) (D.Disk.may_leave second.old)
        → (part : Part) → StandFor workers (D.Disk.seen first.old) (D.Disk.seen second.old) part
        → (c d : List ℕ) → D.Disk.may_leave first.new c → D.Disk.may_leave second.new d → StandFor workers c d part }
{
    let mut buffer = Vec::from_elem(alloc, 0u8, HEAD + MOST_GROUP)?;
    let parts = resumed(first, second, workers, &mut buffer[..MOST_GROUP])?;
    Ok((parts, buffer))
}

/// The same, with a buffer for the longest group.
fn resumed<D: Disk>(
    first: &mut D,
    second: &mut D,
    workers: u32,
    buffer: &mut [u8],
) -> Result<Parts, JournalError>
    ensures within { IfOk result AreInFile }
    ensures opened { IfOk result (λ parts. IsTrue (D.Disk.is_clean first.new) → IsTrue (D.Disk.is_clean second.new)
        → Only (D.Disk.seen first.old) (D.Disk.may_leave first.old) → Only (D.Disk.seen second.old) (D.Disk.may_leave second.old)
        → (part : Part) → StandFor workers (D.Disk.seen first.old) (D.Disk.seen second.old) part → IsOpenedAs D.Disk.seen D.Disk.may_leave first.new second.new parts part) }
    ensures crash { Mixes D.Disk.is_mixing → IsTrue (D.Disk.is_clean first.new) → IsTrue (D.Disk.is_clean second.new)
        → Only (D.Disk.seen first.old) (D.Disk.may_leave first.old) → Only (D.Disk.seen second.old) (D.Disk.may_leave second.old)
        → (part : Part) → StandFor workers (D.Disk.seen first.old) (D.Disk.seen second.old) part
        → (c d : List ℕ) → D.Disk.may_leave first.new c → D.Disk.may_leave second.new d → StandFor workers c d part }
{
    let one = read_half(first, buffer)?;
    let two = read_half(second, buffer)?;
    match chosen(one, two)? {
        None => created(first, second, workers),
        Some(parts) => {
            repair(first, second, &parts, workers)?;
            Ok(parts)
        }
    }
}

/// Of two snapshots the later one is the last, and the other one's lines lead up to it. `None` if there is none.
fn chosen(one: Option<Half>, two: Option<Half>) -> Result<Option<Parts>, JournalError>
    requires one { IfSome one IsInFile }
    requires two { IfSome two IsInFile }
    ensures within { IfOk result (λ parts. IfSome parts AreInFile) }
    ensures chosen { IfOk result (IsChosen one two) }
{
    Ok(match (one, two) {
        (None, None) => None,
        (Some(last), None) => Some(alone(last, false)),
        (None, Some(last)) => Some(alone(last, true)),
        (Some(one), Some(two)) => {
            if one.head.turn < two.head.turn {
                Some(behind(two, one, true)?)
            } else {
                Some(behind(one, two, false)?)
            }
        }
    })
}

fn alone(last: Half, is_second: bool) -> Parts
    requires { IsInFile last }
    ensures within { AreInFile result }
    ensures last { result.last ≡ last }
    ensures second { result.is_second ≡ is_second }
{
    Parts {
        last,
        has_before: false,
        before: last,
        is_second,
    }
}

/// A snapshot behind another one.
fn behind(last: Half, before: Half, is_second: bool) -> Result<Parts, JournalError>
    requires one { IsInFile last }
    requires two { IsInFile before }
    ensures within { IfOk result AreInFile }
    ensures last { IfOk result (λ parts. parts.last ≡ last) }
    ensures second { IfOk result (λ parts. parts.is_second ≡ is_second) }
    ensures later { OnOk result (before.head.turn < last.head.turn) }
{
    if before.head.turn >= last.head.turn
        || last.head.turn - before.head.turn != 1
        || before.lines() != last.head.covers
        || before.head.workers != last.head.workers
    {
        return Err(JournalError::Broken(before.lines()));
    }
    Ok(Parts {
        last,
        has_before: true,
        before,
        is_second,
    })
}

/// Cuts what is behind the last file's groups, and writes zeros there.
fn repair<D: Disk>(
    first: &mut D,
    second: &mut D,
    parts: &Parts,
    workers: u32,
) -> Result<(), JournalError>
    requires { AreInFile parts.now }
    ensures opened { OnOk result (Only (D.Disk.seen first.old) (D.Disk.may_leave first.old) → Only (D.Disk.seen second.old) (D.Disk.may_leave second.old)
        → (part : Part) → IsLastOf (D.Disk.seen first.old) (D.Disk.seen second.old) parts.now part → IsOpenedAs D.Disk.seen D.Disk.may_leave first.new second.new parts.now part) }
    ensures crash { Mixes D.Disk.is_mixing
        → Only (D.Disk.seen first.old) (D.Disk.may_leave first.old) → Only (D.Disk.seen second.old) (D.Disk.may_leave second.old)
        → (part : Part) → IsLastOf (D.Disk.seen first.old) (D.Disk.seen second.old) parts.now part
        → (c d : List ℕ) → D.Disk.may_leave first.new c → D.Disk.may_leave second.new d → StandFor workers c d part }
    ensures clean_first { D.Disk.is_clean first.new ≡ D.Disk.is_clean first.old }
    ensures clean_second { D.Disk.is_clean second.new ≡ D.Disk.is_clean second.old }
{
    if parts.last.head.workers != workers {
        return Err(JournalError::OtherWorkers(parts.last.head.workers));
    }
    if parts.is_second {
        clear_behind(second, parts.last.groups.end)
    } else {
        clear_behind(first, parts.last.groups.end)
    }
}

/// A journal with no line, in two files that no journal has filled.
fn created<D: Disk>(first: &mut D, second: &mut D, workers: u32) -> Result<Parts, JournalError>
    ensures within { IfOk result AreInFile }
    ensures opened { IfOk result (λ parts. Only (D.Disk.seen first.old) (D.Disk.may_leave first.old) → Only (D.Disk.seen second.old) (D.Disk.may_leave second.old)
        → IsShut (D.Disk.seen first.old) → IsShut (D.Disk.seen second.old) → IsOpenedAs D.Disk.seen D.Disk.may_leave first.new second.new parts (empty_part workers)) }
    ensures crash { Mixes D.Disk.is_mixing
        → Only (D.Disk.seen first.old) (D.Disk.may_leave first.old) → Only (D.Disk.seen second.old) (D.Disk.may_leave second.old)
        → IsShut (D.Disk.seen first.old) → IsShut (D.Disk.seen second.old)
        → (c d : List ℕ) → D.Disk.may_leave first.new c → D.Disk.may_leave second.new d → StandFor workers c d (empty_part workers) }
    ensures clean_first { IsTrue (D.Disk.is_clean first.new) → IsTrue (D.Disk.is_clean first.old) }
    ensures clean_second { IsTrue (D.Disk.is_clean second.new) → IsTrue (D.Disk.is_clean second.old) }
{
    if length(first)? > FRONT + AHEAD || length(second)? > 1 {
        return Err(JournalError::Broken(0));
    }
    let last = new_half(first, workers)?;
    Ok(alone(last, false))
}

/// Makes a file one that counts, with no line.
fn new_half<D: Disk>(disk: &mut D, workers: u32) -> Result<Half, JournalError>
    ensures within { IfOk result IsInFile }
    ensures opened { IfOk result (λ half. (second : D) → IsShut (D.Disk.seen second) → Only (D.Disk.seen second) (D.Disk.may_leave second)
        → StandsOn D.Disk.seen D.Disk.may_leave disk.new second half (half.groups.end + 131072) (empty_part workers)) }
    ensures crash { Mixes D.Disk.is_mixing → ((c : List ℕ) → D.Disk.may_leave disk.old c → IsShut c)
        → (c : List ℕ) → D.Disk.may_leave disk.new c → (d : List ℕ) → IsShut d → StandFor workers c d (empty_part workers) }
    ensures clean { D.Disk.is_clean disk.new ≡ D.Disk.is_clean disk.old }
{
    if !disk.may_be_used() {
        return Err(JournalError::NotWritten);
    }
    let head = Head {
        workers,
        turn: 1,
        covers: 0,
        text: 0,
        sum: DefaultHasher::new().finish(),
    };
    shut(disk)?;
    unshut(disk, &head)
}
