//! Bytes that change on the disk: the journal is refused, or what is read is a front of what was put.
use crate::crashes::{Bytes, filled};
use crate::disks::{Draws, append, empty_files, files_of, lines_behind, open, text_of};
use line_journal::{JournalError, Which};
use std::test::Fail;

/// The bytes with one of the first 600 of one file changed.
fn changed(bytes: &mut Bytes, draws: &mut Draws) {
    if draws.below(2) == 0 {
        change(&mut bytes.log, draws);
    } else {
        change(&mut bytes.db, draws);
    }
}

/// Changes one of the first 600 bytes of a file.
fn change(file: &mut Vec<u8>, draws: &mut Draws) {
    let at = draws.below(600);
    if at >= file.len() {
        return;
    }
    file[at] = match draws.below(3) {
        0 => 0,
        1 => file[at] ^ (1 << draws.below(8).min(7)),
        _ => draws.below(256).min(255) as u8,
    };
}

#[test]
fn what_decays_is_refused_or_a_front(rt: HostRuntime) -> Result<(), Fail> {
    let alloc = rt.alloc();
    let bytes = filled(alloc)?;
    let mut draws = Draws::new(3);
    for _ in 0..40 {
        let mut copy = Bytes {
            log: bytes.log.as_slice().to_vec(alloc)?,
            db: bytes.db.as_slice().to_vec(alloc)?,
        };
        changed(&mut copy, &mut draws);
        let files = files_of(alloc, &copy.log, &copy.db, [u64::MAX; 2])?;
        let Ok(mut journal) = open(alloc, files) else {
            continue;
        };
        let covers = journal.snapshot(Which::Last).map_or(9, |it| it.covers);
        let text = text_of(alloc, &mut journal, Which::Last)?;
        let lines = lines_behind(alloc, &mut journal, Which::Last)?;
        let (want, all) = match covers {
            1 => (
                b"sched snapshot 1\none\n".as_slice(),
                b"clock 2\nclock 3\n".as_slice(),
            ),
            _ => (
                b"sched snapshot 1\nthree\n".as_slice(),
                b"clock 4\n".as_slice(),
            ),
        };
        assert!(rt; covers == 1 || covers == 3);
        assert!(rt; text.as_slice() == want);
        assert!(rt; all.starts_with(&lines));
    }
    Ok(())
}

#[test]
fn a_broken_middle_is_told(rt: HostRuntime) -> Result<(), Fail> {
    let alloc = rt.alloc();
    let mut journal = open(alloc, empty_files(alloc)?)?;
    append(&mut journal, b"clock 1\n")?;
    append(&mut journal, b"clock 2\n")?;
    append(&mut journal, b"clock 3\n")?;
    let bytes = journal.close().log.inner().bytes().to_vec(alloc)?;
    // A byte of the second group becomes another one, or a zero.
    for byte in [b'9', 0] {
        let mut copy = bytes.as_slice().to_vec(alloc)?;
        if let Some(place) = copy.as_mut_slice().get_mut(64 + 21 + 13) {
            *place = byte;
        }
        let files = files_of(alloc, &copy, b"", [u64::MAX; 2])?;
        assert!(rt; open(alloc, files).err() == Some(JournalError::Broken(1)));
    }
    Ok(())
}
