//! Lines and snapshots that are kept durably: a journal, in the two files of a folder.
//!
//! # Usage
//!
//! To a journal a line is bytes that end in a newline, none of them a zero, and a snapshot is a text. [`open_folder`] opens the
//! journal of a folder. [`Journal::append`] puts a group of lines behind those that are there, and at `Ok` they are durable. A new
//! snapshot covers all lines that are there: [`Journal::begin_snapshot`], [`Journal::put_text`] for each piece of its text, and
//! [`Journal::end_snapshot`], after which it is the last one. [`Journal::snapshot`] tells how much the last one is and the one
//! before it, [`Journal::read_text`] reads their text, and [`Journal::read_group`] the lines behind each, group by group. Whoever
//! opens a journal reads the last snapshot and the lines behind it, and stands where the journal stands, at
//! [`Journal::lines`] lines.
//!
//! ```rust
//! let mut journal = open_folder(&rt, FOLDER, Unknown, 3)?; // for three workers
//! journal.append(b"clock 1\nclock 2\n")?; // durable
//! journal.begin_snapshot()?; // it covers two lines
//! journal.put_text(b"what they lead to\n")?;
//! journal.end_snapshot()?;
//! journal.append(b"clock 3\n")?;
//! assert!(rt; journal.lines() == 3);
//! ```
//!
//! # Behaviour
//!
//! A file is a snapshot and the lines behind it: 64 bytes of front, the text, the groups of lines, and zeros. A snapshot is put into
//! the file that the last one does not stand in, so what is kept is the last snapshot, the lines behind it, and the snapshot before
//! it with its lines: these lead up to the last one. While a snapshot is put, the one before the last is gone. Of two files that count
//! the later snapshot is the last one, whichever file it stands in.
//!
//! A group stands behind its length and its sum, 13 bytes, none of them a zero, and is written into zeros that are durable, with one
//! sync. So whatever a crash leaves of it has all of the group, or a zero in its place: then no group stands there, and the journal
//! has the lines from before. The first byte of a file says whether it counts. It is shut durably before anything else of the file
//! changes, and opened by a write of its own, after a sync of all the rest.
//!
//! That rests on what is read of a crash (`sqlite_disk`, *mixing*): below the length that a file had at its last sync each byte is as
//! it was or as it was written, and beyond it there may be anything.
//!
//! # Errors
//!
//! | Error | What is so |
//! |---|---|
//! | [`NoFolder`](JournalError::NoFolder) | there is no such folder |
//! | [`NotRead`](JournalError::NotRead) | a read failed, or asks for what is not there |
//! | [`NotWritten`](JournalError::NotWritten) | a write or a sync failed, now or before |
//! | [`InUse`](JournalError::InUse) | another process, or this one, has the journal open |
//! | [`DiskFull`](JournalError::DiskFull) | a write or a sync found no room, a file has 2^40 bytes, or there were 2^64 snapshots |
//! | [`OtherVersion`](JournalError::OtherVersion) | a later version wrote it |
//! | [`OtherWorkers`](JournalError::OtherWorkers) | it was made for another number of workers |
//! | [`Broken`](JournalError::Broken) | behind so many lines something stands that no crash leaves: bytes have changed |
//! | [`NotLines`](JournalError::NotLines) | a group is no whole lines, has a zero or over 64 KiB; or no snapshot was begun |
//! | [`Memory`](JournalError::Memory) | no memory for the buffer |
//!
//! Once a write has failed the journal is written no more: each later call that writes answers with an error and leaves both files as
//! they are. Opened again, it has all lines that were acknowledged, and of the group that failed all or none.
//!
//! A group whose sum is not right, a snapshot whose text is not, a front that was not written so, and groups that are whole behind one
//! that is not, are `Broken`. What is not seen: the last groups, where all that is left of them has become zeros, and the byte that
//! says that a file counts, where that became a zero. A line that has the bytes of a whole group in it, with its sum, can make a
//! journal `Broken` where a crash tore the group that it stands in: who takes lines from others keeps bytes from 128 on out of them.
//!
//! # Memory and cost
//!
//! One buffer of 64 KiB. A group takes one write and one sync, and 13 bytes more than its lines; with each MiB of lines another MiB of
//! zeros is written, in no sync of its own. A snapshot takes three syncs. Opening reads both files once.
//!
//! # What is proved
//!
//! A *part* (`specs/Parts`) is a snapshot with the groups behind it. Two files *stand for* a part (`StandFor`) where the one has it, and
//! the other one does not count or has an older one; and for an empty part where neither counts. A journal *stands* for a part
//! (`specs/Openings`, `StandsOn`) where its file has it, with durable zeros behind it, and whatever a crash leaves of the other file is
//! older. Two files stand for one part alone ([`two_files_stand_for_one_part`]), and a file has one ([`a_file_has_one_part`]).
//!
//! | Call | At `Ok` | Whatever a crash leaves, in its midst too |
//! |---|---|---|
//! | [`Journal::open`] | stands for the part that the files stood for (`opened`) | stands for that part (`crash`, `refused`) |
//! | [`Journal::append`] | stands for it with the group (`kept`) | stands for it with the group or without (`crash`) |
//! | [`Journal::begin_snapshot`], [`Journal::put_text`] | stands for it still, and the text is there (`kept`) | stands for it (`crash`) |
//! | [`Journal::end_snapshot`] | stands for the snapshot, which covers all lines there were (`kept`) | stands for it, or for the snapshot (`crash`) |
//! | [`Journal::read_text`], [`Journal::read_group`] | what the last snapshot has, and its groups in order (`text`, `group`) | nothing is changed (`kept`) |
//!
//! So over whole runs, with errors and crashes anywhere, what is read back are, in order, all groups that were answered `Ok`, and any of
//! the others; up to the first error or crash it is a front of those that were handed in ([`no_answered_line_is_lost`]).
//! [`Journal::lines`] and [`Journal::snapshot`] tell what the part has, and [`Journal::close`] gives the files back.
//!
//! The clauses suppose that the disk mixes (`Mixes`), that no wrong answer was taken for true (`is_clean`), and, where a journal is
//! opened, that what is read is what is on the disk (`Only`). That a clause on what a call leaves covers a crash in its midst is the
//! argument on page `sqlite_wal`, and that a real file is such a disk that on `sqlite_std_file`.
//!
//! # What is only tested
//!
//! That opening does not answer with an error, as `Broken`, where a crash has left the files; which error comes, but that a write which
//! finds no room is `DiskFull` and no other; what is read of the snapshot before the last; that a group is whole lines; that changed
//! bytes are found; [`open_folder`], whose files no contract sees.
//!
//! The tests stand in `journal_tests`.
#![tactic(auto)]

mod calls;
mod error;
mod files;
mod folder;
mod gate;
mod group;
mod half;
mod head;
mod journal;
mod laws;
mod opening;
mod parts;
mod tail;
mod zone;

pub use error::JournalError;
pub use folder::open_folder;
pub use group::MOST_GROUP;
pub use journal::{Journal, Refused, Snapshot, Which};
pub use laws::{
    a_file_has_one_part, a_file_keeps_one_list, no_answered_line_is_lost,
    two_files_stand_for_one_part,
};
