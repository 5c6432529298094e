//! A world in memory: all that the program reads and writes.

ghost use Rattle.std.specs.Prelude.{IsErr};

use byte_ends::Writing;
use sched_program::program;
use std::alloc::{Allocator, Global};
use std::cell::{Cell, RefCell};
use std::env::FillError;
use std::fmt::Display;
use std::fs::{Metadata, OpenFile, OpenOptions};
use std::io;
use std::io::{BufRead, ErrorKind, Lines, Read, Seek, SeekFrom, Write};
use std::process::ExitCode;
use std::rt::{Env, Files};
use std::sync::Wait;
use std::thread::Threads;

/// A file: its bytes, and whether it is at fault after them.
#[derive(Clone, Copy)]
pub struct GivenFile<'a> {
    pub rest: &'a [u8],
    pub is_broken: bool,
}

/// A file of this text, and whether it is at fault behind it.
pub fn file(text: &str, is_broken: bool) -> GivenFile<'_> {
    GivenFile {
        rest: text.as_bytes(),
        is_broken,
    }
}

/// The command line, whose words have a space between them and in which `ÿ` is a word that is no text; the files `plan.toml` and
/// `trace.txt`, standard input, whether standard output is closed, and what files are created with, where any can be: each one holds
/// what all of them do.
#[derive(Clone, Copy)]
pub struct Given<'a> {
    pub line: &'a str,
    pub plan: GivenFile<'a>,
    pub trace: GivenFile<'a>,
    pub events: &'a [u8],
    pub is_closed: bool,
    pub created: Option<&'a Created>,
}

/// The files that are created: what they hold, how many of them there were, and whether writes to them fail.
#[derive(Drop)]
pub struct Created {
    pub bytes: RefCell<Vec<u8>>,
    pub files: Cell<u32>,
    pub is_full: bool,
}

/// An open file: one that was given, or one that was created.
#[derive(Clone, Copy)]
pub enum OpenedFile<'a> {
    Given(GivenFile<'a>),
    Created(&'a Created),
}

/// What is given, and what was written so far to standard output and to standard error.
#[derive(Drop)]
pub struct World<'a> {
    alloc: Global,
    given: Given<'a>,
    out: RefCell<Vec<u8>>,
    err: RefCell<Vec<u8>>,
}

/// How the program ended, and what it wrote.
#[derive(Drop)]
pub struct Ended {
    pub status: ExitCode,
    pub out: Vec<u8>,
    pub err: Vec<u8>,
}

impl Created {
    /// No file was created so far.
    pub fn new(alloc: Global, is_full: bool) -> Created {
        Created {
            bytes: RefCell::new(Vec::new(alloc)),
            files: Cell::new(0),
            is_full,
        }
    }

    /// Creates a file of no bytes.
    fn create(&self) -> io::Result<()> {
        self.files.set(self.files.get().saturating_add(1));
        match self.bytes.try_borrow_mut() {
            Ok(mut bytes) => {
                bytes.clear();
                Ok(())
            }
            Err(_) => unsupported(),
        }
    }
}

impl<'a> World<'a> {
    /// Nothing was written so far.
    pub fn new(alloc: Global, given: Given<'a>) -> World<'a> {
        World {
            alloc,
            given,
            out: RefCell::new(Vec::new(alloc)),
            err: RefCell::new(Vec::new(alloc)),
        }
    }

    /// Creates a file, of any name but an empty one.
    fn create_file(&self, how: &OpenOptions, path: &str) -> io::Result<OpenedFile<'a>> {
        if path.is_empty() || !how.asks_create() || !how.asks_truncate() {
            return Err(io::Error::from(ErrorKind::NotFound));
        }
        let Some(created) = self.given.created else {
            return Err(io::Error::from(ErrorKind::PermissionDenied));
        };
        created.create()?;
        Ok(OpenedFile::Created(created))
    }

    /// What was written, with an exit status.
    pub fn end(self, status: ExitCode) -> Ended {
        Ended {
            status,
            out: self.out.into_inner(),
            err: self.err.into_inner(),
        }
    }
}

/// Standard error of a world, as a writer.
#[derive(Drop)]
struct Faults<'w, 'a> {
    world: &'w World<'a>,
}

/// Runs the program in a world of what is given, with the threads of `rt`.
pub fn run_in<R: AllocGlobal + Threads + Wait + Sync>(rt: &R, given: Given<'_>) -> Ended {
    let world = World::new(rt.alloc(), given);
    let mut faults = Writing::new(Faults { world: &world });
    let status = program(&world, rt, &mut faults);
    drop(faults);
    world.end(status)
}

fn append(text: &RefCell<Vec<u8>>, bytes: &[u8]) -> io::Result<()> {
    match text.try_borrow_mut() {
        Ok(mut text) => Ok(text.extend_from_slice(bytes)?),
        Err(_) => unsupported(),
    }
}

fn unsupported<T>() -> io::Result<T>
    ensures { IsErr result }
{
    Err(io::Error::from(ErrorKind::Unsupported))
}

impl Alloc for World<'_> {
    type A = Global;

    fn alloc(&self) -> Global {
        self.alloc
    }
}

impl Env for World<'_> {
    fn arg(&self, i: usize, buf: &mut [u8]) -> Result<usize, FillError> {
        let Some(word) = self.given.line.split(' ').nth(i) else {
            return Err(FillError::NotPresent);
        };
        let argument = if word == "ÿ" {
            b"\xff"
        } else {
            word.as_bytes()
        };
        if argument.len() > buf.len() {
            return Err(FillError::TooLong);
        }
        buf[..argument.len()].copy_from_slice(argument);
        Ok(argument.len())
    }

    fn var(&self, _name: &str, _buf: &mut [u8]) -> Result<usize, FillError> {
        Err(FillError::NotPresent)
    }

    fn var_at(&self, _i: usize, _buf: &mut [u8]) -> Result<usize, FillError> {
        Err(FillError::NotPresent)
    }
}

impl Print for World<'_> {
    fn print<D: Display + Drop>(&self, value: D) -> io::Result<()> {
        self.write_all(format!(in self.alloc; "{value}")?.as_bytes())
    }

    fn println<D: Display + Drop>(&self, value: D) -> io::Result<()> {
        self.write_all(format!(in self.alloc; "{value}\n")?.as_bytes())
    }

    fn write_all(&self, bytes: &[u8]) -> io::Result<()> {
        if self.given.is_closed {
            return Err(io::Error::from(ErrorKind::BrokenPipe));
        }
        append(&self.out, bytes)
    }
}

impl Eprint for World<'_> {
    fn eprint<D: Display + Drop>(&self, value: D) -> io::Result<()> {
        append(&self.err, format!(in self.alloc; "{value}")?.as_bytes())
    }

    fn eprintln<D: Display + Drop>(&self, value: D) -> io::Result<()> {
        append(&self.err, format!(in self.alloc; "{value}\n")?.as_bytes())
    }
}

impl Write for Faults<'_, '_> {
    fn write(&mut self, buf: &[u8]) -> io::Result<usize> {
        append(&self.world.err, buf)?;
        Ok(buf.len())
    }

    fn flush(&mut self) -> io::Result<()> {
        Ok(())
    }
}

impl<'a> Input for World<'a> {
    type Reader = &'a [u8];

    fn read_line<A: Allocator + Clone>(&self, _buf: &mut String<A>) -> io::Result<usize> {
        unsupported()
    }

    fn lines<A: Allocator>(&self, alloc: A) -> Lines<&'a [u8], A> {
        self.given.events.lines(alloc)
    }

    fn reader(&self) -> &'a [u8] {
        self.given.events
    }
}

impl<'a> Files for World<'a> {
    type File = OpenedFile<'a>;

    type Dir = &'a [u8];

    fn open_file(&self, how: &OpenOptions, path: &str) -> io::Result<OpenedFile<'a>> {
        how.check()?;
        if how.asks_write() {
            return self.create_file(how, path);
        }
        if path == "trace.txt" {
            return Ok(OpenedFile::Given(self.given.trace));
        }
        if path != "plan.toml" {
            return Err(io::Error::from(ErrorKind::NotFound));
        }
        Ok(OpenedFile::Given(self.given.plan))
    }

    fn open_dir(&self, _path: &str) -> io::Result<&'a [u8]> {
        unsupported()
    }

    fn metadata(&self, _path: &str) -> io::Result<Metadata> {
        unsupported()
    }

    fn symlink_metadata(&self, _path: &str) -> io::Result<Metadata> {
        unsupported()
    }

    fn copy(&self, _from: &str, _to: &str) -> io::Result<u64> {
        unsupported()
    }

    fn rename(&self, _from: &str, _to: &str) -> io::Result<()> {
        unsupported()
    }

    fn remove_file(&self, _path: &str) -> io::Result<()> {
        unsupported()
    }

    fn create_dir(&self, _path: &str) -> io::Result<()> {
        unsupported()
    }

    fn remove_dir(&self, _path: &str) -> io::Result<()> {
        unsupported()
    }

    fn remove_dir_all<B: Allocator>(&self, _alloc: B, _path: &str) -> io::Result<()> {
        unsupported()
    }
}

impl Read for GivenFile<'_> {
    fn read(&mut self, buf: &mut [u8]) -> io::Result<usize> {
        if self.rest.is_empty() && self.is_broken {
            return unsupported();
        }
        self.rest.read(buf)
    }
}

impl Read for OpenedFile<'_> {
    fn read(&mut self, buf: &mut [u8]) -> io::Result<usize> {
        match self {
            OpenedFile::Given(given) => given.read(buf),
            OpenedFile::Created(_) => unsupported(),
        }
    }
}

impl Write for OpenedFile<'_> {
    fn write(&mut self, buf: &[u8]) -> io::Result<usize> {
        match self {
            OpenedFile::Created(created) if !created.is_full => {
                append(&created.bytes, buf)?;
                Ok(buf.len())
            }
            _ => unsupported(),
        }
    }

    fn flush(&mut self) -> io::Result<()> {
        Ok(())
    }
}

impl Seek for OpenedFile<'_> {
    fn seek(&mut self, _to: SeekFrom) -> io::Result<u64> {
        unsupported()
    }
}

impl OpenFile for OpenedFile<'_> {
    fn metadata(&self) -> io::Result<Metadata> {
        unsupported()
    }

    fn set_len(&self, _size: u64) -> io::Result<()> {
        unsupported()
    }

    fn sync_all(&self) -> io::Result<()> {
        unsupported()
    }

    fn sync_data(&self) -> io::Result<()> {
        unsupported()
    }
}
