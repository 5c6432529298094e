//! A journal in a folder of the system.
use crate::error::JournalError;
use crate::journal::Journal;
use sqlite_disk::is_no_room;
use sqlite_std_file::{FileFrom, OpenError, Start, open};
use std::alloc::Global;
use std::io::ErrorKind;

/// Opens the journal of a folder for a number of workers: its files `lines` and `lines-wal`, which are made if they are missing.
/// No other process, nor this one, opens it before the journal is let go. `start` says how a crash is read
/// ([`sqlite_std_file::Unknown`], in `main`).
pub fn open_folder<S: Start>(
    rt: &HostRuntime,
    folder: &str,
    start: S,
    workers: u32,
) -> Result<Journal<FileFrom<S>, Global>, JournalError> {
    let path = format!(in rt.alloc(); "{folder}/lines")?;
    let files = open(rt, path.as_str(), start).map_err(told)?;
    Journal::open(rt.alloc(), files, workers).map_err(|refused| refused.error)
}

fn told(error: OpenError) -> JournalError {
    match error {
        OpenError::Io(error) if error.kind() == ErrorKind::NotFound => JournalError::NoFolder,
        OpenError::Io(error) if is_no_room(&error) => JournalError::DiskFull,
        OpenError::Io(_) | OpenError::HotJournal => JournalError::NotRead,
        OpenError::OutOfMemory => JournalError::Memory,
        OpenError::Busy => JournalError::InUse,
    }
}
