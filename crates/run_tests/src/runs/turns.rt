//! Each turn answers and writes all that was read before more is read.
use super::*;
use std::cell::Cell;

/// What both ends of a run see: how many lines were given and how many were written so far, and
/// whether more was read while a line waited for its answer.
#[derive(Drop)]
struct Desk {
    given: Cell<usize>,
    written: Cell<usize>,
    waited: Cell<bool>,
}

/// A reader over a desk.
#[derive(Drop)]
struct Giver<'a> {
    desk: &'a Desk,
    rest: &'a [u8],
    most: usize,
}

/// A writer over a desk.
#[derive(Drop)]
struct Taker<'a> {
    desk: &'a Desk,
    most: usize,
}

/// How many lines end in some bytes.
fn newlines(bytes: &[u8]) -> usize {
    bytes.iter().filter(|byte| **byte == b'\n').count()
}

impl Read for Giver<'_> {
    fn read(&mut self, buf: &mut [u8]) -> io::Result<usize> {
        if self.desk.given.get() != self.desk.written.get() {
            self.desk.waited.set(true);
        }
        let n = self.rest.len().min(buf.len()).min(self.most);
        let (front, rest) = self.rest.split_at(n);
        buf[..n].copy_from_slice(front);
        self.rest = rest;
        let given = self.desk.given.get();
        self.desk.given.set(given.saturating_add(newlines(front)));
        Ok(n)
    }
}

impl Write for Taker<'_> {
    fn write(&mut self, buf: &[u8]) -> io::Result<usize> {
        let n = buf.len().min(self.most);
        let written = self.desk.written.get();
        let taken = newlines(&buf[..n]);
        self.desk.written.set(written.saturating_add(taken));
        Ok(n)
    }

    fn flush(&mut self) -> io::Result<()> {
        Ok(())
    }
}

#[test]
fn no_line_waits_while_more_is_read(rt: HostRuntime) -> Result<(), Fail> {
    let input = "start 9\ncancel 7\n".repeat(rt.alloc(), 6_000)?;
    let alloc = rt.alloc();
    for (reads, writes) in [(1, 1_000), (3, 2), (8, 9), (100, 1), (65_536, 65_536)] {
        let desk = Desk {
            given: Cell::new(0),
            written: Cell::new(0),
            waited: Cell::new(false),
        };
        let mut reader = Reading::new(Giver {
            desk: &desk,
            rest: input.as_bytes(),
            most: reads,
        });
        let mut writer = Writing::new(Taker {
            desk: &desk,
            most: writes,
        });
        let answer = run(alloc, b"version = 1", 1, 100_000, &mut reader, &mut writer);
        assert_eq!(rt; answer, Ok(report(12_000, 12_000)));
        assert_eq!(rt; desk.written.get(), 12_000);
        assert!(rt; !desk.waited.get());
    }
    Ok(())
}
