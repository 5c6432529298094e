//! A crash at each call of the disk, and what it leaves: the lines from before the call, with the group or without.
use crate::disks::{
    Draws, Image, TestDisk, append, disk_of, empty_files, lines_behind, open, put_snapshot, text_of,
};
use line_journal::{Journal, Which};
use sqlite_disk::Files;
use std::alloc::Global;
use std::test::Fail;

/// What two files have, as bytes.
#[derive(Drop)]
pub struct Bytes {
    pub log: Vec<u8>,
    pub db: Vec<u8>,
}

impl Bytes {
    fn files(&self, alloc: Global, calls: [u64; 2]) -> Result<Files<TestDisk>, Fail> {
        Ok(Files {
            log: disk_of(alloc, &self.log, calls[0])?,
            db: disk_of(alloc, &self.db, calls[1])?,
        })
    }
}

/// What a step does.
#[derive(Clone, Copy)]
enum Step {
    Open,
    Append,
    Snapshot,
}

/// The files after a step over them that a crash ends at the so-many-th call of one file; and whether it returned before.
fn crashed(
    alloc: Global,
    bytes: &Bytes,
    step: Step,
    calls: [u64; 2],
    draws: &mut Draws,
) -> Result<(Bytes, bool), Fail> {
    let files = bytes.files(alloc, calls)?;
    let (files, done) = match Journal::open(alloc, files, 3) {
        Err(refused) => (refused.files, false),
        Ok(mut journal) => {
            let outcome = match step {
                Step::Open => Ok(()),
                Step::Append => append(&mut journal, b"clock 8\nstart 1\n"),
                Step::Snapshot => put_snapshot(&mut journal, b"sched snapshot 1\nnew\n"),
            };
            (journal.close(), outcome.is_ok())
        }
    };
    let Files { log, db } = files;
    let log = Image::of(alloc, log)?;
    let db = Image::of(alloc, db)?;
    Ok((
        Bytes {
            log: log.torn(alloc, draws)?,
            db: db.torn(alloc, draws)?,
        },
        done,
    ))
}

/// What a journal of files stands for: the covered lines, the last snapshot's text, and the lines behind it.
fn read_all(alloc: Global, bytes: &Bytes) -> Result<(u64, Vec<u8>, Vec<u8>), Fail> {
    let mut journal = open(alloc, bytes.files(alloc, [u64::MAX; 2])?)?;
    let covers = journal.snapshot(Which::Last).map_or(0, |it| it.covers);
    Ok((
        covers,
        text_of(alloc, &mut journal, Which::Last)?,
        lines_behind(alloc, &mut journal, Which::Last)?,
    ))
}

/// A journal with two snapshots and lines behind both.
pub fn filled(alloc: Global) -> Result<Bytes, Fail> {
    let mut journal = open(alloc, empty_files(alloc)?)?;
    append(&mut journal, b"clock 1\n")?;
    put_snapshot(&mut journal, b"sched snapshot 1\none\n")?;
    append(&mut journal, b"clock 2\n")?;
    append(&mut journal, b"clock 3\n")?;
    put_snapshot(&mut journal, b"sched snapshot 1\nthree\n")?;
    append(&mut journal, b"clock 4\n")?;
    let files = journal.close();
    Ok(Bytes {
        log: files.log.inner().bytes().to_vec(alloc)?,
        db: files.db.inner().bytes().to_vec(alloc)?,
    })
}

#[test]
fn a_group_is_there_or_not(rt: HostRuntime) -> Result<(), Fail> {
    let alloc = rt.alloc();
    let bytes = filled(alloc)?;
    let mut draws = Draws::new(1);
    // Behind the reads come 16 writes of zeros, a cut and a sync, and then the group's write and sync.
    for calls in 38..60u64 {
        let (left, done) = crashed(alloc, &bytes, Step::Append, [calls, u64::MAX], &mut draws)?;
        let (covers, text, lines) = read_all(alloc, &left)?;
        assert!(rt; covers == 3 && text.as_slice() == b"sched snapshot 1\nthree\n".as_slice());
        let with = lines.as_slice() == b"clock 4\nclock 8\nstart 1\n".as_slice();
        assert!(rt; with || (!done && lines.as_slice() == b"clock 4\n".as_slice()));
    }
    Ok(())
}

#[test]
fn a_snapshot_is_the_last_or_not(rt: HostRuntime) -> Result<(), Fail> {
    let alloc = rt.alloc();
    let bytes = filled(alloc)?;
    let mut draws = Draws::new(2);
    // Behind the reads the other file is shut, by 3 calls; then come the text, 16 writes of zeros, the front, a sync, the gate, a sync.
    for calls in 40..67u64 {
        let (left, done) = crashed(alloc, &bytes, Step::Snapshot, [u64::MAX, calls], &mut draws)?;
        let (covers, text, lines) = read_all(alloc, &left)?;
        let with = covers == 4
            && text.as_slice() == b"sched snapshot 1\nnew\n".as_slice()
            && lines.is_empty();
        let without = covers == 3
            && text.as_slice() == b"sched snapshot 1\nthree\n".as_slice()
            && lines.as_slice() == b"clock 4\n".as_slice();
        assert!(rt; with || (!done && without));
    }
    Ok(())
}

#[test]
fn a_repair_may_crash_too(rt: HostRuntime) -> Result<(), Fail> {
    let alloc = rt.alloc();
    let bytes = filled(alloc)?;
    let mut draws = Draws::new(4);
    for calls in [38u64, 39, 46, 53, 54, 55, 56, 57] {
        let (torn, _) = crashed(alloc, &bytes, Step::Append, [58, u64::MAX], &mut draws)?;
        let (covers, text, lines) = read_all(alloc, &torn)?;
        let (left, _) = crashed(alloc, &torn, Step::Open, [calls, u64::MAX], &mut draws)?;
        let again = read_all(alloc, &left)?;
        assert!(rt; again.0 == covers);
        assert!(rt;
            again.1.as_slice() == text.as_slice() && again.2.as_slice() == lines.as_slice()
        );
    }
    Ok(())
}
