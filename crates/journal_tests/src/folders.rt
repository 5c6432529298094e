//! A journal in a folder.
use line_journal::{JournalError, Which, open_folder};
use sqlite_std_file::Unknown;
use std::fs;
use std::test::Fail;

const FOLDER: &str = "line_journal_test";

#[test]
fn a_folder_keeps_lines_for_one_at_a_time(rt: HostRuntime) -> Result<(), Fail> {
    let _ = fs::remove_dir_all(&rt, FOLDER);
    assert!(rt; open_folder(&rt, FOLDER, Unknown, 3).err() == Some(JournalError::NoFolder));
    fs::create_dir(&rt, FOLDER)?;
    // example: line_journal
    let mut journal = open_folder(&rt, FOLDER, Unknown, 3)?; // for three workers
    journal.append(b"clock 1\nclock 2\n")?; // durable
    journal.begin_snapshot()?; // it covers two lines
    journal.put_text(b"what they lead to\n")?;
    journal.end_snapshot()?;
    journal.append(b"clock 3\n")?;
    assert!(rt; journal.lines() == 3);
    // end of example
    assert!(rt; open_folder(&rt, FOLDER, Unknown, 3).err() == Some(JournalError::InUse));
    drop(journal);
    assert!(rt; open_folder(&rt, FOLDER, Unknown, 4).err() == Some(JournalError::OtherWorkers(3)));
    let mut again = open_folder(&rt, FOLDER, Unknown, 3)?;
    assert!(rt; again.lines() == 3);
    assert!(rt;
        again
            .snapshot(Which::Last)
            .is_some_and(|it| it.covers == 2 && it.bytes == 18)
    );
    let first = again.snapshot(Which::Last).map_or(0, |it| it.groups);
    let next = again.read_group(Which::Last, first)?;
    assert!(rt; next.is_some() && again.group() == b"clock 3\n".as_slice());
    drop(again);
    fs::remove_dir_all(&rt, FOLDER)?;
    Ok(())
}
