//! Files whose faults are noted.

ghost use Rattle.std.specs.Prelude.{◌≡◌, MatchResult, Result};

use crate::hints::Hints;
use byte_ends::{Sink, Source};
use std::alloc::Global;
use std::io;

/// An end of bytes whose faults are noted with its name.
#[derive(Drop)]
pub struct Noted<'h, E: Drop> {
    end: E,
    name: Option<String>,
    hints: &'h Hints,
}

impl<'h, E: Drop> Noted<'h, E> {
    /// An end as the system opened it by a name, or its fault, which is noted. Where memory for the name runs out, later faults are not
    /// noted.
    pub fn open(
        heap: Global,
        name: &str,
        opened: io::Result<E>,
        hints: &'h Hints,
    ) -> io::Result<Noted<'h, E>>
        ensures { MatchResult result (λ noted. opened ≡ Result.Ok noted.end)
            (λ fault. opened ≡ Result.Err fault) }
    {
        match opened {
            Ok(end) => {
                let name = String::from_str(heap, name).ok();
                Ok(Noted { end, name, hints })
            }
            Err(fault) => {
                hints.note_file(name, &fault);
                Err(fault)
            }
        }
    }

    /// Notes what a read or a write failed by, if it did.
    fn note(&self, done: &io::Result<usize>) {
        if let (Some(name), Err(fault)) = (&self.name, done) {
            self.hints.note_file(name.as_str(), fault);
        }
    }
}

impl<E: Source + Drop> Source for Noted<'_, E> {
    ghost remaining = { λ s. E.remaining s.end };

    ghost failed = { λ s. E.failed s.end };

    ghost fruitless = { λ s. E.fruitless s.end };

    fn read(&mut self, buf: &mut [u8]) -> io::Result<usize> {
        let read = self.end.read(buf);
        self.note(&read);
        read
    }
}

impl<E: Sink + Drop> Sink for Noted<'_, E> {
    ghost contents = { λ s. E.contents s.end };

    ghost failed = { λ s. E.failed s.end };

    ghost fruitless = { λ s. E.fruitless s.end };

    fn write(&mut self, buf: &[u8]) -> io::Result<usize> {
        let written = self.end.write(buf);
        self.note(&written);
        written
    }
}
