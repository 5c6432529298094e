ghost use Rattle.std.specs.Prelude.{◌≡◌, ◌⊎◌, ℕ, ◌+◌, ◌<◌, ◌≤◌, ◌^◌, ◌-◌, List, [], ◌∷◌, ◌++◌, min, length, get_or, slice_index, Option, None, Some, IfSome, IfOk, IfErr, OnOk, OnErr, IsTrue, vec_len};
ghost use Rattle.sqlite_disk.specs.Disk.{Only};
ghost use Rattle.line_journal.specs.Groups.{IsGroup, lines_of};
ghost use Rattle.line_journal.specs.Parts.{Part, StandFor, with_group, snapshot_of, next_head};
ghost use Rattle.line_journal.specs.Openings.{AreInFile};
ghost use Rattle.line_journal.specs.Resting.{Mixes};
ghost use Rattle.line_journal.specs.Fronts.{FitsFront};
ghost use Rattle.line_journal.specs.declared.journal.Which.TheVariants.{Last};

use crate::calls::read;
use crate::error::JournalError;
use crate::gate::{shut, unshut};
use crate::group::{HEAD, is_group, lines_in};
use crate::half::Half;
use crate::head::{FRONT, Head, MOST_FILE};
use crate::opening::opened;
use crate::parts::Parts;
use crate::tail::{AHEAD, append_group, put_piece};
use crate::zone::{Found, read_group};
use sqlite_disk::{Disk, Files};
use std::alloc::Allocator;
use std::hash::{DefaultHasher, Hasher};

/// Which of the two snapshots.
#[derive(Clone, Copy, Debug, PartialEq, Eq)]
pub enum Which {
    /// The last one, behind whose lines new ones are put.
    Last,
    /// The one before it, whose lines end where the last one begins.
    Before,
}

/// How much a snapshot is.
#[derive(Clone, Copy, Debug, PartialEq, Eq)]
pub struct Snapshot {
    /// How many lines it covers: it is what the first ones of them lead to.
    pub covers: u64,
    /// How many bytes its text has.
    pub bytes: usize,
    /// Where its groups of lines begin, for [`Journal::read_group`].
    pub groups: usize,
}

/// Lines and snapshots that are kept durably, in two files.
#[derive(Drop)]
pub struct Journal<D: Disk, A: Allocator> {
    current: D,
    other: D,
    last: Half,
    /// Where the zeros behind the last group end.
    limit: usize,
    has_before: bool,
    before: Half,
    is_drafting: bool,
    /// How many bytes of a new snapshot are written, and their sum.
    draft: usize,
    draft_sum: DefaultHasher,
    /// No write has failed.
    is_sound: bool,
    buffer: Vec<u8, A>,
    /// How many bytes the group has that was read last.
    held: usize,
    ghost last_text: { 64 + last.head.text ≤ last.groups.end },
    ghost last_end: { last.groups.end + 65549 < limit },
    ghost last_limit: { limit ≤ 2 ^ 42 },
    ghost before_text: { 64 + before.head.text ≤ before.groups.end },
    ghost before_end: { before.groups.end ≤ 2 ^ 42 },
    ghost drafted: { draft ≤ 2 ^ 40 },
    ghost room: { vec_len buffer ≡ 65549 },
    ghost held_room: { held ≤ 65549 },
}

/// What keeps a journal from being opened, with the files.
#[derive(Drop)]
pub struct Refused<D: Disk> {
    pub error: JournalError,
    pub files: Files<D>,
}

impl<D: Disk, A: Allocator> Journal<D, A> {
    ghost use Rattle.line_journal.specs.Standing.{Stands, IsDrafting, IsNext, IsSnapshotOf, StaysOver, group_of};

    /// Opens the journal of two files for a number of workers, and cuts a torn end. Files that are empty become an empty journal.
    pub fn open(alloc: A, files: Files<D>, workers: u32) -> Result<Journal<D, A>, Refused<D>>
        // Where what is read is what is on the disk, as after a crash, it has what the files stand for.
        ensures opened { IfOk result (λ journal. IsTrue (D.Disk.is_clean journal.current) → IsTrue (D.Disk.is_clean journal.other)
            → Only (D.Disk.seen files.log) (D.Disk.may_leave files.log) → Only (D.Disk.seen files.db) (D.Disk.may_leave files.db)
            → (part : Part) → StandFor workers (D.Disk.seen files.log) (D.Disk.seen files.db) part → Stands D.Disk.seen D.Disk.may_leave journal part) }
        // Whatever a crash leaves meanwhile stands for that too.
        ensures crash { IfOk result (λ journal. Mixes D.Disk.is_mixing → IsTrue (D.Disk.is_clean journal.current) → IsTrue (D.Disk.is_clean journal.other)
            → Only (D.Disk.seen files.log) (D.Disk.may_leave files.log) → Only (D.Disk.seen files.db) (D.Disk.may_leave files.db)
            → (part : Part) → StandFor workers (D.Disk.seen files.log) (D.Disk.seen files.db) part
            → (c d : List ℕ) → D.Disk.may_leave journal.current c → D.Disk.may_leave journal.other d → StandFor workers c d part) }
        ensures refused { IfErr result (λ refused. Mixes D.Disk.is_mixing → IsTrue (D.Disk.is_clean refused.files.log) → IsTrue (D.Disk.is_clean refused.files.db)
            → Only (D.Disk.seen files.log) (D.Disk.may_leave files.log) → Only (D.Disk.seen files.db) (D.Disk.may_leave files.db)
            → (part : Part) → StandFor workers (D.Disk.seen files.log) (D.Disk.seen files.db) part
            → (c d : List ℕ) → D.Disk.may_leave refused.files.log c → D.Disk.may_leave refused.files.db d → StandFor workers c d part) }
    {
        let Files {
            log: mut first,
            db: mut second,
        } = files;
        match opened(alloc, &mut first, &mut second, workers) {
            Ok((parts, buffer)) => {
                if parts.is_second {
                    Ok(Journal::of(second, first, &parts, buffer))
                } else {
                    Ok(Journal::of(first, second, &parts, buffer))
                }
            }
            Err(error) => Err(Refused {
                error,
                files: Files {
                    log: first,
                    db: second,
                },
            }),
        }
    }

    /// The journal of two files that are opened, with a buffer for the longest group and its head.
    fn of(current: D, other: D, parts: &Parts, buffer: Vec<u8, A>) -> Journal<D, A>
        requires parts { AreInFile parts.now }
        requires buffer { vec_len buffer ≡ 65549 }
        ensures current { result.current ≡ current }
        ensures other { result.other ≡ other }
        ensures last { result.last ≡ parts.now.last }
        ensures limit { result.limit ≡ parts.now.last.groups.end + 131072 }
    {
        Journal {
            current,
            other,
            last: parts.last,
            limit: parts.last.groups.end + AHEAD,
            has_before: parts.has_before,
            before: parts.before,
            is_drafting: false,
            draft: 0,
            draft_sum: DefaultHasher::new(),
            is_sound: true,
            buffer,
            held: 0,
        }
    }

    /// How many lines it has, from the first of all.
    pub fn lines(&self) -> u64
        ensures { (part : Part) → Stands D.Disk.seen D.Disk.may_leave self.now part → result ≡ min (part.head.covers + lines_of part.groups) (2 ^ 64 - 1) }
    {
        self.last.lines()
    }

    /// A snapshot, if there is one. The first one of all covers no line, and has no text.
    pub fn snapshot(&self, which: Which) -> Option<Snapshot>
        ensures { which ≡ Last → (part : Part) → Stands D.Disk.seen D.Disk.may_leave self.now part → IfSome result (IsSnapshotOf part) }
    {
        match which {
            Which::Last => Some(Snapshot {
                covers: self.last.head.covers,
                bytes: self.last.head.text,
                groups: FRONT + self.last.head.text,
            }),
            Which::Before if self.has_before => Some(Snapshot {
                covers: self.before.head.covers,
                bytes: self.before.head.text,
                groups: FRONT + self.before.head.text,
            }),
            Which::Before => None,
        }
    }

    /// Fills a buffer with bytes of a snapshot's text, from the `from`-th on. They have to be there.
    pub fn read_text(
        &mut self,
        which: Which,
        from: usize,
        out: &mut [u8],
    ) -> Result<(), JournalError>
        // Of the last one these are the bytes of its text.
        ensures text { OnOk result (which ≡ Last → IsTrue (D.Disk.is_clean self.new.current) → (part : Part) → Stands D.Disk.seen D.Disk.may_leave self.old part
            → (i : ℕ) → i < length out.new → slice_index out.new i ≡ slice_index part.text (from + i)) }
        ensures kept { (part : Part) → Stands D.Disk.seen D.Disk.may_leave self.old part → Stands D.Disk.seen D.Disk.may_leave self.new part }
    {
        match which {
            Which::Last => self.read_last_text(from, out),
            Which::Before => self.read_text_before(from, out),
        }
    }

    fn read_last_text(&mut self, from: usize, out: &mut [u8]) -> Result<(), JournalError>
        ensures text { OnOk result (IsTrue (D.Disk.is_clean self.new.current) → (part : Part) → Stands D.Disk.seen D.Disk.may_leave self.old part
            → (i : ℕ) → i < length out.new → slice_index out.new i ≡ slice_index part.text (from + i)) }
        ensures kept { (part : Part) → Stands D.Disk.seen D.Disk.may_leave self.old part → Stands D.Disk.seen D.Disk.may_leave self.new part }
    {
        let bytes = self.last.head.text;
        if from > bytes || out.len() > bytes - from {
            return Err(JournalError::NotRead);
        }
        read(&mut self.current, FRONT + from, out)
    }

    fn read_text_before(&mut self, from: usize, out: &mut [u8]) -> Result<(), JournalError>
        ensures { (part : Part) → Stands D.Disk.seen D.Disk.may_leave self.old part → Stands D.Disk.seen D.Disk.may_leave self.new part }
    {
        let bytes = self.before.head.text;
        if !self.has_before || from > bytes || out.len() > bytes - from {
            return Err(JournalError::NotRead);
        }
        read(&mut self.other, FRONT + from, out)
    }

    /// Reads the group of lines at a place behind a snapshot, and tells where the next one begins. `None` behind the last one.
    /// [`group`](Journal::group) has its bytes.
    pub fn read_group(&mut self, which: Which, at: usize) -> Result<Option<usize>, JournalError>
        // Behind the last one these are its groups, in order.
        ensures group { IfOk result (λ next. which ≡ Last → IsTrue (D.Disk.is_clean self.new.current) → (part : Part) → Stands D.Disk.seen D.Disk.may_leave self.old part
            → (k : ℕ) → IsNext part k at next (group_of self.new)) }
        ensures kept { (part : Part) → Stands D.Disk.seen D.Disk.may_leave self.old part → Stands D.Disk.seen D.Disk.may_leave self.new part }
    {
        match which {
            Which::Last => self.read_last_group(at),
            Which::Before => self.read_group_before(at),
        }
    }

    fn read_last_group(&mut self, at: usize) -> Result<Option<usize>, JournalError>
        ensures group { IfOk result (λ next. IsTrue (D.Disk.is_clean self.new.current) → (part : Part) → Stands D.Disk.seen D.Disk.may_leave self.old part
            → (k : ℕ) → IsNext part k at next (group_of self.new)) }
        ensures kept { (part : Part) → Stands D.Disk.seen D.Disk.may_leave self.old part → Stands D.Disk.seen D.Disk.may_leave self.new part }
    {
        self.held = 0;
        let end = self.last.groups.end;
        if at == end {
            return Ok(None);
        }
        match read_group(&mut self.current, at, end, &mut self.buffer)? {
            Found::Group(n) => {
                self.held = n;
                Ok(Some(at + (HEAD + n)))
            }
            _ => Err(JournalError::NotRead),
        }
    }

    fn read_group_before(&mut self, at: usize) -> Result<Option<usize>, JournalError>
        ensures { (part : Part) → Stands D.Disk.seen D.Disk.may_leave self.old part → Stands D.Disk.seen D.Disk.may_leave self.new part }
    {
        self.held = 0;
        let end = self.before.groups.end;
        if !self.has_before {
            return Err(JournalError::NotRead);
        }
        if at == end {
            return Ok(None);
        }
        match read_group(&mut self.other, at, end, &mut self.buffer)? {
            Found::Group(n) => {
                self.held = n;
                Ok(Some(at + (HEAD + n)))
            }
            _ => Err(JournalError::NotRead),
        }
    }

    /// The bytes of the group that was read last, whole lines.
    pub fn group(&self) -> &[u8]
        ensures { result.now ≡ group_of self.now }
    {
        &self.buffer[..self.held]
    }

    /// Puts a group of whole lines behind those that are there. At `Ok` they are durable. A snapshot that is begun is given up.
    pub fn append(&mut self, lines: &[u8]) -> Result<(), JournalError>
        // Once a write has failed it writes no more.
        ensures over { StaysOver self.old self.new result }
        // With what it has, it has the new group.
        ensures kept { (part : Part) → Stands D.Disk.seen D.Disk.may_leave self.old part
            → OnOk result (Stands D.Disk.seen D.Disk.may_leave self.new (with_group part lines.now)) }
        // Whatever a crash leaves stands for what it had, with the new group or without.
        ensures crash { Mixes D.Disk.is_mixing → (part : Part) → Stands D.Disk.seen D.Disk.may_leave self.old part
            → (c d : List ℕ) → D.Disk.may_leave self.new.current c → D.Disk.may_leave self.new.other d
            → StandFor part.head.workers c d part ⊎ StandFor part.head.workers c d (with_group part lines.now) }
    {
        self.may_append(lines)?;
        self.is_sound = false;
        self.is_drafting = false;
        self.held = 0;
        let end = self.last.groups.end;
        self.limit = append_group(&mut self.current, end, self.limit, lines, &mut self.buffer)?;
        self.last.groups.end = end + (HEAD + lines.len());
        self.last.groups.lines = self
            .last
            .groups
            .lines
            .saturating_add(lines_in(lines) as u64);
        self.is_sound = true;
        Ok(())
    }

    /// Whether a group may be put now.
    fn may_append(&self, lines: &[u8]) -> Result<(), JournalError>
        ensures sound { OnOk result (IsTrue self.now.is_sound) }
        ensures group { OnOk result (IsGroup lines.now) }
        ensures usable { OnOk result (IsTrue (D.Disk.is_usable self.now.current)) }
        ensures room { OnOk result (self.now.limit < 2 ^ 40) }
    {
        if !is_group(lines) {
            return Err(JournalError::NotLines);
        }
        if !self.is_sound || !self.current.may_be_used() {
            return Err(JournalError::NotWritten);
        }
        if self.limit >= MOST_FILE {
            return Err(JournalError::DiskFull);
        }
        Ok(())
    }

    /// Begins a snapshot that covers all lines that are there. The snapshot before the last one, and its lines, are let go.
    pub fn begin_snapshot(&mut self) -> Result<(), JournalError>
        // Once a write has failed it writes no more.
        ensures over { StaysOver self.old self.new result }
        ensures kept { (part : Part) → Stands D.Disk.seen D.Disk.may_leave self.old part
            → OnOk result (Stands D.Disk.seen D.Disk.may_leave self.new part × IsDrafting D.Disk.seen D.Disk.may_leave self.new []) }
        ensures crash { Mixes D.Disk.is_mixing → (part : Part) → Stands D.Disk.seen D.Disk.may_leave self.old part
            → (c d : List ℕ) → D.Disk.may_leave self.new.current c → D.Disk.may_leave self.new.other d → StandFor part.head.workers c d part }
    {
        if !self.is_sound || !self.other.may_be_used() {
            return Err(JournalError::NotWritten);
        }
        self.has_before = false;
        self.is_sound = false;
        shut(&mut self.other)?;
        self.is_sound = true;
        self.is_drafting = true;
        self.draft = 0;
        self.draft_sum = DefaultHasher::new();
        Ok(())
    }

    /// Puts a piece of its text behind those that are put.
    pub fn put_text(&mut self, piece: &[u8]) -> Result<(), JournalError>
        // Once a write has failed it writes no more.
        ensures over { StaysOver self.old self.new result }
        ensures kept { (part : Part) (text : List ℕ) → Stands D.Disk.seen D.Disk.may_leave self.old part → IsDrafting D.Disk.seen D.Disk.may_leave self.old text
            → OnOk result (Stands D.Disk.seen D.Disk.may_leave self.new part × IsDrafting D.Disk.seen D.Disk.may_leave self.new (text ++ piece.now)) }
        ensures crash { (part : Part) (text : List ℕ) → Stands D.Disk.seen D.Disk.may_leave self.old part → IsDrafting D.Disk.seen D.Disk.may_leave self.old text
            → (c d : List ℕ) → D.Disk.may_leave self.new.current c → D.Disk.may_leave self.new.other d → StandFor part.head.workers c d part }
    {
        if !self.is_sound || !self.other.may_be_used() {
            return Err(JournalError::NotWritten);
        }
        if !self.is_drafting {
            return Err(JournalError::NotLines);
        }
        if piece.len() > MOST_FILE - self.draft {
            return Err(JournalError::DiskFull);
        }
        self.is_sound = false;
        put_piece(&mut self.other, FRONT + self.draft, piece)?;
        self.is_sound = true;
        self.draft += piece.len();
        self.draft_sum.write(piece);
        Ok(())
    }

    /// Ends it: at `Ok` it is durable, and is the last one. The one that was the last is the one before it then.
    pub fn end_snapshot(&mut self) -> Result<(), JournalError>
        // Once a write has failed it writes no more.
        ensures over { StaysOver self.old self.new result }
        // It has the snapshot, which covers all lines there were, and none behind it.
        ensures kept { (part : Part) (text : List ℕ) → Stands D.Disk.seen D.Disk.may_leave self.old part → IsDrafting D.Disk.seen D.Disk.may_leave self.old text
            → OnOk result (Stands D.Disk.seen D.Disk.may_leave self.new (snapshot_of (next_head part text) text)) }
        // Whatever a crash leaves stands for what it had, or for the snapshot.
        ensures crash { Mixes D.Disk.is_mixing → (part : Part) (text : List ℕ) → Stands D.Disk.seen D.Disk.may_leave self.old part → IsDrafting D.Disk.seen D.Disk.may_leave self.old text
            → (c d : List ℕ) → D.Disk.may_leave self.new.current c → D.Disk.may_leave self.new.other d
            → StandFor part.head.workers c d part ⊎ StandFor part.head.workers c d (snapshot_of (next_head part text) text) }
    {
        let head = self.may_end()?;
        self.is_sound = false;
        self.is_drafting = false;
        self.held = 0;
        let half = unshut(&mut self.other, &head)?;
        std::mem::swap(&mut self.current, &mut self.other);
        self.before = self.last;
        self.has_before = true;
        self.limit = half.groups.end + AHEAD;
        self.last = half;
        self.is_sound = true;
        Ok(())
    }

    /// The head of the snapshot that is begun, if it may be ended now.
    fn may_end(&self) -> Result<Head, JournalError>
        ensures head { IfOk result (λ head. (part : Part) (text : List ℕ) → Stands D.Disk.seen D.Disk.may_leave self.now part → IsDrafting D.Disk.seen D.Disk.may_leave self.now text
            → head ≡ next_head part text) }
        ensures fits { IfOk result FitsFront }
        ensures text { IfOk result (λ head. head.text ≡ self.now.draft) }
        ensures usable { OnOk result (IsTrue (D.Disk.is_usable self.now.other)) }
        ensures sound { OnOk result (IsTrue self.now.is_sound) }
    {
        if !self.is_sound || !self.other.may_be_used() {
            return Err(JournalError::NotWritten);
        }
        if !self.is_drafting {
            return Err(JournalError::NotLines);
        }
        let Some(turn) = self.last.head.turn.checked_add(1) else {
            return Err(JournalError::DiskFull);
        };
        Ok(head_of(
            self.last.head.workers,
            turn,
            self.last.lines(),
            self.draft,
            self.draft_sum.finish(),
        ))
    }

    /// Gives the files back.
    pub fn close(self) -> Files<D>
        ensures current { result.log ≡ self.current }
        ensures other { result.db ≡ self.other }
    {
        let Journal { current, other, .. } = self;
        Files {
            log: current,
            db: other,
        }
    }
}

fn head_of(workers: u32, turn: u64, covers: u64, text: usize, sum: u64) -> Head
    requires { text ≤ 2 ^ 40 }
    ensures fits { FitsFront result }
    ensures workers { result.workers ≡ workers }
    ensures turn { result.turn ≡ turn }
    ensures covers { result.covers ≡ covers }
    ensures text { result.text ≡ text }
    ensures sum { result.sum ≡ sum }
{
    Head {
        workers,
        turn,
        covers,
        text,
        sum,
    }
}
