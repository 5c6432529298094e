//! The text that answers events, until it is written.
ghost use Rattle.std.specs.Prelude.{◌≡◌, ◌+◌, ◌≤◌, ◌↔◌, [], ◌++◌, length, IfOk, IsTrue};
ghost use Rattle.trace_text.specs.Spelling.{line_text, lines_text};
ghost use Rattle.byte_ends.specs.Ends.{CountsTries, WritesText};
ghost use Rattle.sched_engine.specs.Pieces.{GivesText};
ghost use Rattle.sched_engine.specs.own.Pieces.{MakesRoom};

use byte_ends::{PIECE, Sink, write_text};
use executor_model::Line;
use std::alloc::{AllocError, Allocator};
use std::marker::Model;
use trace_text::{LINE_ROOM, Stamp, put_line, put_line_here};

/// A text of lines, which are put where they stand: no line is copied. It has room for [`PIECE`]
/// bytes, and takes no memory once it is made. Contracts see the text.
#[derive(Drop)]
pub struct Draft<A: Allocator> {
    buffer: Vec<u8, A>,
    end: usize,
    /// Of the moment of the last line.
    stamp: Stamp,
}

impl<A: Allocator> Model for Draft<A> {
    ghost use Rattle.std.specs.Prelude.{◌≡◌, ◌≤◌, List, ℕ, take, vec_len};
    ghost use Rattle.byte_ends.specs.declared.held.TheConstants.{PIECE};

    ghost Value = { List ℕ };

    ghost view = { λ d. take d.end d.buffer.items };

    ghost invariant = { λ d. (d.end ≤ vec_len d.buffer) × (vec_len d.buffer ≡ PIECE) };
}

impl<A: Allocator> Draft<A> {
    /// No text.
    pub fn new(alloc: A) -> Result<Draft<A>, AllocError>
        ensures { IfOk result (λ d. d ≡ []) }
    {
        Ok(Draft {
            buffer: Vec::from_elem(alloc, 0u8, PIECE)?,
            end: 0,
            stamp: Stamp::new(0),
        })
    }

    /// The text.
    pub fn bytes(&self) -> &[u8]
        ensures { result.now ≡ self.now }
    {
        &self.buffer[..self.end]
    }

    /// Lets go of the text.
    pub fn clear(&mut self)
        ensures { self.new ≡ [] }
    {
        self.end = 0;
    }

    /// Whether there is room for [`LINE_ROOM`] bytes, and so for any line.
    #[inline(always)]
    fn has_room(&self) -> bool
        ensures { IsTrue result ↔ (length self.now + LINE_ROOM ≤ PIECE) }
    {
        self.buffer.len() - self.end >= LINE_ROOM
    }

    /// Appends the text of a line, with its newline.
    #[inline(always)]
    fn put(&mut self, line: &Line)
        requires { length self.old + LINE_ROOM ≤ PIECE }
        ensures { self.new ≡ self.old ++ line_text line.now }
    {
        self.end = put_line(&mut self.buffer, self.end, &mut self.stamp, line);
    }

    /// As [`Draft::put`], for a loop over many lines.
    #[inline(always)]
    fn put_here(&mut self, line: &Line)
        requires { length self.old + LINE_ROOM ≤ PIECE }
        ensures { self.new ≡ self.old ++ line_text line.now }
    {
        self.end = put_line_here(&mut self.buffer, self.end, &mut self.stamp, line);
    }

    /// Writes the text and lets go of it. `false` is a fault of the sink, after a front of the text
    /// was written.
    #[cold]
    fn flush<W: Sink>(&mut self, writer: &mut W) -> bool
        ensures bytes { WritesText result (W.contents writer.old) (W.contents writer.new) self.old }
        ensures clear { IsTrue result → self.new ≡ [] }
        ensures counts { CountsTries result (W.failed writer.old) (W.fruitless writer.old)
            (W.failed writer.new) (W.fruitless writer.new) }
    {
        if !write_text(writer, self.bytes()) {
            return false;
        }
        self.clear();
        true
    }

    /// Makes room for a line. `false` is a fault of the sink, after a front of the text was written.
    #[inline(always)]
    fn make_room<W: Sink>(&mut self, writer: &mut W) -> bool
        ensures room { MakesRoom result
            (record { contents = W.contents writer.old; text = self.old })
            (record { contents = W.contents writer.new; text = self.new }) }
        ensures counts { CountsTries result (W.failed writer.old) (W.fruitless writer.old)
            (W.failed writer.new) (W.fruitless writer.new) }
    {
        if self.has_room() {
            return true;
        }
        self.flush(writer)
    }

    /// Appends the text of lines, each with its newline, and writes what stands here whenever there
    /// is no room for one more. `false` is a fault of the sink, after a front of all that text was
    /// written.
    #[inline(always)]
    pub fn give_lines<W: Sink>(&mut self, lines: &[Line], writer: &mut W) -> bool
        ensures text { GivesText result
            (record { contents = W.contents writer.old; text = self.old })
            (record { contents = W.contents writer.new; text = self.new }) (lines_text lines.now) }
        ensures counts { CountsTries result (W.failed writer.old) (W.fruitless writer.old)
            (W.failed writer.new) (W.fruitless writer.new) }
    {
        let [line] = lines else {
            return self.give_many(lines, writer);
        };
        if !self.make_room(writer) {
            return false;
        }
        self.put(line);
        true
    }

    /// As [`Draft::give_lines`], for many lines: a line takes fewer steps, and the loop more bytes of
    /// code.
    #[inline(never)]
    pub fn give_many<W: Sink>(&mut self, lines: &[Line], writer: &mut W) -> bool
        ensures text { GivesText result
            (record { contents = W.contents writer.old; text = self.old })
            (record { contents = W.contents writer.new; text = self.new }) (lines_text lines.now) }
        ensures counts { CountsTries result (W.failed writer.old) (W.fruitless writer.old)
            (W.failed writer.new) (W.fruitless writer.new) }
    {
        for line in lines {
            if !self.make_room(writer) {
                return false;
            }
            self.put_here(line);
        }
        true
    }
}
