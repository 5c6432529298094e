//! Disks in memory, and what a crash leaves on them.
ghost use Rattle.std.specs.Prelude.{◌<◌};

use line_journal::{Journal, JournalError, Which};
use sqlite_disk::{Crash, Disk, Files, Fuse, Memory};
use std::alloc::{AllocError, Global};
use std::io;
use std::test::Fail;

/// The disk of most tests.
pub type TestDisk = Fuse<Memory>;

/// A file with these bytes, all durable, that takes so many calls.
pub fn disk_of(alloc: Global, bytes: &[u8], calls: u64) -> io::Result<TestDisk> {
    let mut memory = Memory::new(alloc);
    if memory.may_be_used() {
        memory.write_at(0, bytes)?;
    }
    if memory.may_be_used() {
        memory.sync()?;
    }
    Ok(Fuse::new(memory, calls))
}

/// Two files with these bytes that take so many calls each.
pub fn files_of(
    alloc: Global,
    first: &[u8],
    second: &[u8],
    calls: [u64; 2],
) -> io::Result<Files<TestDisk>> {
    Ok(Files {
        log: disk_of(alloc, first, calls[0])?,
        db: disk_of(alloc, second, calls[1])?,
    })
}

/// Two files that are empty.
pub fn empty_files(alloc: Global) -> io::Result<Files<TestDisk>> {
    files_of(alloc, b"", b"", [u64::MAX; 2])
}

/// What reads find in a file, and what of it is durable.
#[derive(Drop)]
pub struct Image {
    pub seen: Vec<u8>,
    pub synced: Vec<u8>,
}

impl Image {
    pub fn of(alloc: Global, mut disk: TestDisk) -> Result<Image, AllocError> {
        let seen = disk.inner().bytes().to_vec(alloc)?;
        disk.crash();
        let synced = disk.inner().bytes().to_vec(alloc)?;
        Ok(Image { seen, synced })
    }

    /// What a crash may leave: of the first bytes each one as it was durable or as it is, and all others as the one or the other.
    pub fn torn(&self, alloc: Global, draws: &mut Draws) -> Result<Vec<u8>, AllocError> {
        let (now, then) = (self.seen.as_slice(), self.synced.as_slice());
        let kind = draws.below(4);
        let mut torn = Vec::new(alloc);
        for i in 0..TORN.min(now.len()).min(then.len()) {
            let takes = match kind {
                0 => true,
                1 => draws.below(2) == 0,
                2 => draws.below(40) != 0,
                _ => draws.below(40) == 0,
            };
            let bytes = if takes { now } else { then };
            torn.push(bytes.get(i).copied().unwrap_or(0))?;
        }
        let rest = if draws.below(2) == 0 { now } else { then };
        torn.extend_from_slice(rest.get(torn.len()..).unwrap_or(b""))?;
        Ok(torn)
    }
}

/// How many bytes are torn one by one.
const TORN: usize = 600;

/// Numbers that are drawn.
#[derive(Drop)]
pub struct Draws {
    state: u64,
}

impl Draws {
    pub fn new(seed: u64) -> Draws {
        Draws {
            state: seed.wrapping_mul(0x9e37_79b9_7f4a_7c15).wrapping_add(1),
        }
    }

    /// A number below `n`, which is not 0; else 0.
    pub fn below(&mut self, n: usize) -> usize
        ensures { 0 < n → result < n }
    {
        if n == 0 {
            return 0;
        }
        self.state ^= self.state << 13;
        self.state ^= self.state >> 7;
        self.state ^= self.state << 17;
        (self.state >> 11) as usize % n
    }
}

/// Opens a journal for three workers.
pub fn open(
    alloc: Global,
    files: Files<TestDisk>,
) -> Result<Journal<TestDisk, Global>, JournalError> {
    Journal::open(alloc, files, 3).map_err(|refused| refused.error)
}

/// All lines behind a snapshot.
pub fn lines_behind(
    alloc: Global,
    journal: &mut Journal<TestDisk, Global>,
    which: Which,
) -> Result<Vec<u8>, Fail> {
    let mut all = Vec::new(alloc);
    let Some(snapshot) = journal.snapshot(which) else {
        return Ok(all);
    };
    let mut at = snapshot.groups;
    for _ in 0..1_000 {
        let Some(next) = journal.read_group(which, at)? else {
            break;
        };
        all.extend_from_slice(journal.group())?;
        at = next;
    }
    Ok(all)
}

/// The text of a snapshot, in pieces of 7 bytes.
pub fn text_of(
    alloc: Global,
    journal: &mut Journal<TestDisk, Global>,
    which: Which,
) -> Result<Vec<u8>, Fail> {
    let mut all = Vec::new(alloc);
    let bytes = journal.snapshot(which).map_or(0, |it| it.bytes);
    let mut from = 0;
    while from < bytes {
        let n = (bytes - from).min(7);
        let mut piece = [0; 7];
        journal.read_text(which, from, &mut piece[..n])?;
        all.extend_from_slice(&piece[..n])?;
        from += n;
    }
    Ok(all)
}

/// Puts a group of lines.
pub fn append(journal: &mut Journal<TestDisk, Global>, lines: &[u8]) -> Result<(), JournalError> {
    journal.append(lines)
}

/// Puts a snapshot with this text.
pub fn put_snapshot(
    journal: &mut Journal<TestDisk, Global>,
    text: &[u8],
) -> Result<(), JournalError> {
    journal.begin_snapshot()?;
    journal.put_text(text)?;
    journal.end_snapshot()
}
