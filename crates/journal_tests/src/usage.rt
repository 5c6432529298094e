//! What is put is read back, in this run and in later ones.
use crate::disks::{append, empty_files, lines_behind, open, put_snapshot, text_of};
use line_journal::Which;
use std::test::Fail;

#[test]
fn lines_are_read_back(rt: HostRuntime) -> Result<(), Fail> {
    let alloc = rt.alloc();
    let mut journal = open(alloc, empty_files(alloc)?)?;
    assert!(rt; journal.lines() == 0);
    append(&mut journal, b"clock 5\n")?;
    append(&mut journal, b"start 0\nclock 6\n")?;
    assert!(rt; journal.lines() == 3);
    let mut again = open(alloc, journal.close())?;
    assert!(rt; again.lines() == 3);
    assert_eq!(rt;
        lines_behind(alloc, &mut again, Which::Last)?.as_slice(),
        b"clock 5\nstart 0\nclock 6\n".as_slice()
    );
    append(&mut again, b"clock 7\n")?;
    let mut third = open(alloc, again.close())?;
    assert_eq!(rt;
        lines_behind(alloc, &mut third, Which::Last)?.as_slice(),
        b"clock 5\nstart 0\nclock 6\nclock 7\n".as_slice()
    );
    Ok(())
}

#[test]
fn snapshots_are_read_back(rt: HostRuntime) -> Result<(), Fail> {
    let alloc = rt.alloc();
    let mut journal = open(alloc, empty_files(alloc)?)?;
    append(&mut journal, b"clock 5\n")?;
    put_snapshot(&mut journal, b"sched snapshot 1\nof one\n")?;
    append(&mut journal, b"clock 6\nclock 7\n")?;
    put_snapshot(&mut journal, b"sched snapshot 1\nof three lines\n")?;
    append(&mut journal, b"clock 8\n")?;
    let mut again = open(alloc, journal.close())?;
    assert!(rt; again.lines() == 4);
    assert_eq!(rt;
        text_of(alloc, &mut again, Which::Last)?.as_slice(),
        b"sched snapshot 1\nof three lines\n".as_slice()
    );
    assert_eq!(rt;
        lines_behind(alloc, &mut again, Which::Last)?.as_slice(),
        b"clock 8\n".as_slice()
    );
    assert_eq!(rt;
        text_of(alloc, &mut again, Which::Before)?.as_slice(),
        b"sched snapshot 1\nof one\n".as_slice()
    );
    assert_eq!(rt;
        lines_behind(alloc, &mut again, Which::Before)?.as_slice(),
        b"clock 6\nclock 7\n".as_slice()
    );
    assert!(rt; again.snapshot(Which::Last).is_some_and(|it| it.covers == 3));
    assert!(rt;
        again
            .snapshot(Which::Before)
            .is_some_and(|it| it.covers == 1)
    );
    Ok(())
}

#[test]
fn many_groups_go_on_behind_the_zeros(rt: HostRuntime) -> Result<(), Fail> {
    let alloc = rt.alloc();
    let mut journal = open(alloc, empty_files(alloc)?)?;
    let group = Vec::from_elem(alloc, b'x', 60_000)?;
    let mut group = group;
    group.push(b'\n')?;
    for _ in 0..12 {
        append(&mut journal, &group)?;
    }
    let mut again = open(alloc, journal.close())?;
    assert!(rt; again.lines() == 12);
    assert!(rt; lines_behind(alloc, &mut again, Which::Last)?.len() == 12 * 60_001);
    put_snapshot(&mut again, b"")?;
    put_snapshot(&mut again, b"")?;
    let files = again.close();
    assert!(rt; files.log.inner().bytes().len() < 300_000);
    assert!(rt; files.db.inner().bytes().len() < 300_000);
    Ok(())
}
