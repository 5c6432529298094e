//! Each error.
use crate::disks::{append, empty_files, files_of, open, put_snapshot};
use line_journal::{Journal, JournalError, MOST_GROUP};
use std::test::Fail;

#[test]
fn what_is_no_group_is_refused(rt: HostRuntime) -> Result<(), Fail> {
    let alloc = rt.alloc();
    let mut journal = open(alloc, empty_files(alloc)?)?;
    for lines in [b"".as_slice(), b"clock 5", b"clock 5\0\n"] {
        assert!(rt; append(&mut journal, lines) == Err(JournalError::NotLines));
    }
    let mut long = Vec::from_elem(alloc, b'\n', MOST_GROUP)?;
    append(&mut journal, &long)?;
    long.push(b'\n')?;
    assert!(rt; append(&mut journal, &long) == Err(JournalError::NotLines));
    assert!(rt; journal.lines() == 65_536);
    assert!(rt; journal.end_snapshot() == Err(JournalError::NotLines));
    Ok(())
}

#[test]
fn another_number_of_workers_is_refused(rt: HostRuntime) -> Result<(), Fail> {
    let alloc = rt.alloc();
    let journal = open(alloc, empty_files(alloc)?)?;
    match Journal::open(alloc, journal.close(), 4) {
        Err(refused) => assert!(rt; refused.error == JournalError::OtherWorkers(3)),
        Ok(_) => return Err(Fail::from("opened")),
    }
    Ok(())
}

#[test]
fn another_version_is_refused(rt: HostRuntime) -> Result<(), Fail> {
    let alloc = rt.alloc();
    let files = open(alloc, empty_files(alloc)?)?.close();
    let mut bytes = files.log.inner().bytes().to_vec(alloc)?;
    if let Some(byte) = bytes.as_mut_slice().get_mut(15) {
        *byte = b'2';
    }
    let changed = files_of(alloc, &bytes, b"", [u64::MAX; 2])?;
    assert!(rt; open(alloc, changed).err() == Some(JournalError::OtherVersion));
    Ok(())
}

#[test]
fn a_failed_write_ends_it(rt: HostRuntime) -> Result<(), Fail> {
    let alloc = rt.alloc();
    let files = open(alloc, empty_files(alloc)?)?.close();
    let bytes = files.log.inner().bytes().to_vec(alloc)?;
    let mut journal = open(alloc, files_of(alloc, &bytes, b"", [u64::MAX, 3])?)?;
    append(&mut journal, b"clock 5\n")?;
    assert!(rt; put_snapshot(&mut journal, b"text") == Err(JournalError::NotWritten));
    assert!(rt; append(&mut journal, b"clock 6\n") == Err(JournalError::NotWritten));
    assert!(rt; journal.lines() == 1);
    let none = files_of(alloc, &bytes, b"", [0, 0])?;
    assert!(rt; open(alloc, none).err() == Some(JournalError::NotRead));
    Ok(())
}
