//! The reader.
use crate::ends::script::{Playing, Script};
use std::io;
use std::io::Read;

/// A reader that gives some bytes, and then others again and again.
#[derive(Drop)]
pub struct Giving<'a> {
    rest: &'a [u8],
    again: &'a [u8],
    playing: Playing,
}

impl<'a> Giving<'a> {
    /// Gives these bytes, and then `again` without end.
    pub fn new(bytes: &'a [u8], again: &'a [u8], script: Script) -> Giving<'a> {
        Giving {
            rest: bytes,
            again,
            playing: Playing::new(script),
        }
    }

    /// How often it was called.
    pub fn calls(&self) -> u32 {
        self.playing.calls
    }
}

impl Read for Giving<'_> {
    fn read(&mut self, buf: &mut [u8]) -> io::Result<usize> {
        if self.rest.is_empty() {
            self.rest = self.again;
        }
        let n = self.playing.call(self.rest.len().min(buf.len()))?;
        let (front, rest) = self.rest.split_at(n);
        buf[..n].copy_from_slice(front);
        self.rest = rest;
        Ok(n)
    }
}
