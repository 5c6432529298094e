ghost use Rattle.std.specs.Prelude.{◌≡◌, ℕ, ◌<◌, List, Option, length};
ghost use Rattle.std.specs.Io.{ReadsAtMost, WritesAtMost};
ghost use Rattle.std.specs.Io.KnownBytes.{ReadConsumes, WriteAppends};
ghost use Rattle.byte_ends.specs.Ends.{CountsRead, CountsWrite, CountsTry, CountsTries, ReadsSome, WritesSome, WritesText};

use std::io;
use std::io::ErrorKind;

/// So many reads or writes in a row that fail by `Interrupted` are a fault.
pub const MOST_FRUITLESS: u32 = 1_000;

/// Where bytes come from, with its faults counted for contracts. Each count stays at 2^64 - 1.
pub trait Source {
    /// The bytes that are left, where they are known.
    ghost remaining: { Self → Option (List ℕ) };

    /// How many reads failed by a fault of another kind than `Interrupted`.
    ghost failed: { Self → ℕ };

    /// How many reads were fruitless: they failed by a fault of kind `Interrupted`.
    ghost fruitless: { Self → ℕ };

    /// Reads into the front of `buf` once, as std's `Read::read`. 0 bytes at a
    /// `buf` that isn't empty are the end. An `Err` consumes nothing.
    fn read(&mut self, buf: &mut [u8]) -> io::Result<usize>
        ensures bound { ReadsAtMost result buf.new }
        ensures bytes { ReadConsumes (remaining self.old) (remaining self.new) result buf.new }
        ensures counts { CountsRead result (failed self.old) (fruitless self.old) (failed self.new)
            (fruitless self.new) };
}

/// Where bytes go, with its faults counted for contracts. Each count stays at 2^64 - 1.
pub trait Sink {
    /// The bytes that it took so far, where they are known.
    ghost contents: { Self → Option (List ℕ) };

    /// How many writes failed by a fault of another kind than `Interrupted`, or
    /// took nothing of a text that isn't empty.
    ghost failed: { Self → ℕ };

    /// How many writes were fruitless: they failed by a fault of kind `Interrupted`.
    ghost fruitless: { Self → ℕ };

    /// Writes a front of `buf` once, as std's `Write::write`. An `Err` takes
    /// nothing.
    fn write(&mut self, buf: &[u8]) -> io::Result<usize>
        ensures bound { WritesAtMost result buf.now }
        ensures bytes { WriteAppends (contents self.old) (contents self.new) result buf.now }
        ensures counts { CountsWrite result buf.now (failed self.old) (fruitless self.old)
            (failed self.new) (fruitless self.new) };
}

/// Reads into the front of `buf`, once but for reads that fail by `Interrupted`: each of these is
/// tried again, up to the 1,000th in a row. `None` is a fault of the source: a read that failed
/// otherwise, or the 1,000th. Nothing is read behind it, and it consumes nothing.
pub fn read_some<S: Source>(source: &mut S, buf: &mut [u8]) -> Option<usize>
    ensures bytes { ReadsSome result (S.remaining source.old) (S.remaining source.new) buf.new }
    ensures counts { CountsTry result (S.failed source.old) (S.fruitless source.old)
        (S.failed source.new) (S.fruitless source.new) }
{
    for _read in 0..MOST_FRUITLESS {
        match source.read(buf) {
            Ok(n) => return Some(n),
            Err(fault) if fault.kind() == ErrorKind::Interrupted => {}
            Err(_) => return None,
        }
    }
    None
}

/// Writes a front of a text that isn't empty, once but for writes that fail by `Interrupted`: each
/// of these is tried again, up to the 1,000th in a row. `None` is a fault of the sink: a write that
/// failed otherwise or took nothing, or the 1,000th. Nothing is written behind it, and it appends
/// nothing.
pub fn write_some<W: Sink>(sink: &mut W, text: &[u8]) -> Option<usize>
    requires { 0 < length text.now }
    ensures bytes { WritesSome result (W.contents sink.old) (W.contents sink.new) text.now }
    ensures counts { CountsTry result (W.failed sink.old) (W.fruitless sink.old) (W.failed sink.new)
        (W.fruitless sink.new) }
{
    for _write in 0..MOST_FRUITLESS {
        match sink.write(text) {
            Ok(n) if n > 0 => return Some(n),
            Err(fault) if fault.kind() == ErrorKind::Interrupted => {}
            _ => return None,
        }
    }
    None
}

/// Writes the whole text, by one [`write_some`] behind the other. `false` is a fault of the sink,
/// after a front of the text was written; nothing is written behind it.
pub fn write_text<W: Sink>(sink: &mut W, text: &[u8]) -> bool
    ensures bytes { WritesText result (W.contents sink.old) (W.contents sink.new) text.now }
    ensures counts { CountsTries result (W.failed sink.old) (W.fruitless sink.old)
        (W.failed sink.new) (W.fruitless sink.new) }
{
    let mut at = 0;
    while at < text.len() {
        match write_some(sink, &text[at..]) {
            Some(n) => at += n,
            None => return false,
        }
    }
    true
}
