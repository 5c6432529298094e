//! The writer.
use crate::ends::script::{Playing, Script};
use std::alloc::Global;
use std::io;
use std::io::Write;

/// A writer that keeps what it takes.
#[derive(Drop)]
pub struct Taking {
    taken: Vec<u8>,
    playing: Playing,
}

impl Taking {
    /// Has taken nothing yet.
    pub fn new(alloc: Global, script: Script) -> Taking {
        Taking {
            taken: Vec::new(alloc),
            playing: Playing::new(script),
        }
    }

    /// How often it was called.
    pub fn calls(&self) -> u32 {
        self.playing.calls
    }

    /// What it took.
    pub fn taken(&self) -> &[u8] {
        &self.taken
    }
}

impl Write for Taking {
    fn write(&mut self, buf: &[u8]) -> io::Result<usize> {
        let n = self.playing.call(buf.len())?;
        self.taken.extend_from_slice(&buf[..n])?;
        Ok(n)
    }

    fn flush(&mut self) -> io::Result<()> {
        Ok(())
    }
}
