use thiserror::Error;

/// Why a journal cannot be opened, or is not written.
#[derive(Clone, Copy, Debug, PartialEq, Eq, Error)]
pub enum JournalError {
    #[error("there is no such folder")]
    NoFolder,
    #[error("the journal is not read")]
    NotRead,
    #[error("the journal is not written")]
    NotWritten,
    #[error("the journal is in use")]
    InUse,
    #[error("the disk is full")]
    DiskFull,
    #[error("the journal is of another version")]
    OtherVersion,
    /// It was made for so many workers.
    #[error("the journal is of another number of workers")]
    OtherWorkers(u32),
    /// Behind so many lines, counted from the first of all, what stands there was not written so.
    #[error("the journal is broken")]
    Broken(u64),
    /// A group is no whole lines, has a zero, or is longer than [`MOST_GROUP`](crate::MOST_GROUP) bytes; or no snapshot was begun.
    #[error("these are no lines for a journal")]
    NotLines,
    #[error("out of memory")]
    Memory,
}

impl From<std::alloc::AllocError> for JournalError {
    fn from(_: std::alloc::AllocError) -> JournalError {
        JournalError::Memory
    }
}
