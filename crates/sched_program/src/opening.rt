//! The files that are read by their names, and standard input by the name `-`.

ghost use Rattle.std.specs.Prelude.{◌↔◌, ◌≡◌, IfOk, IsTrue, codes};
ghost use Rattle.sched_program.specs.Openings.{IsInput, of_opened};

use byte_ends::{Reading, Source};
use std::cell::Cell;
use std::io::ErrorKind;
use std::rt::Files;
use std::{fs, io};

/// An opened file, or standard input.
#[derive(Drop)]
pub enum Opened<F: Source + Drop, I: Source + Drop> {
    File(F),
    Input(I),
}

impl<F: Source + Drop, I: Source + Drop> Source for Opened<F, I> {
    ghost remaining = { of_opened F.remaining I.remaining };

    ghost failed = { of_opened F.failed I.failed };

    ghost fruitless = { of_opened F.fruitless I.fruitless };

    fn read(&mut self, buf: &mut [u8]) -> io::Result<usize> {
        match self {
            Opened::File(file) => file.read(buf),
            Opened::Input(input) => input.read(buf),
        }
    }
}

/// What the name of a file that is read stands for.
#[derive(Clone, Copy, Debug, PartialEq, Eq)]
enum Named {
    /// The file of this name.
    File,
    /// Standard input, which is left for it.
    Input,
    /// Standard input, which is not.
    Spent,
}

/// What the name of a file that is read stands for: `-` is standard input, which is left or not.
fn source_of(name: &str, is_left: bool) -> Named
    ensures file { result ≡ Named.File ↔ (name.now ≡ codes "-" → ⊥) }
    ensures input { result ≡ Named.Input ↔ ((name.now ≡ codes "-") × IsTrue is_left) }
{
    match (name, is_left) {
        ("-", true) => Named::Input,
        ("-", false) => Named::Spent,
        _ => Named::File,
    }
}

/// Opens the file of a name to read it; `-` is standard input, once at most and where it is left. `Err` is the system's, or one of
/// the kind `InvalidInput` where standard input is not left.
pub fn open_source<R: Files + Input>(
    rt: &R,
    name: &str,
    is_left: &Cell<bool>,
) -> io::Result<Opened<Reading<R::File>, Reading<R::Reader>>>
    ensures { IfOk result (λ opened. IsInput opened ↔ (name.entry.now ≡ codes "-")) }
{
    match source_of(name, is_left.get()) {
        Named::File => Ok(Opened::File(Reading::new(fs::open(rt, name)?))),
        Named::Input => {
            is_left.set(false);
            Ok(Opened::Input(Reading::new(rt.reader())))
        }
        Named::Spent => {
            let why = "standard input is not left for it";
            Err(io::Error::new(ErrorKind::InvalidInput, why))
        }
    }
}
