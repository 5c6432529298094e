//! Lines and numbers in one line of ours.

use executor_model::Line;
use std::fmt;
use trace_text::{LINE_ROOM, Stamp, put_line};

/// Lines in quotes, as `"5 clock", "5 start 0 idle" or "5 end 3"`.
#[derive(Clone, Copy)]
pub struct Lines<'l>(pub &'l [Line]);

impl fmt::Display for Lines<'_> {
    fn fmt<W: fmt::Write>(&self, f: &mut fmt::Formatter<W>) -> fmt::Result {
        let count = self.0.len();
        for (index, line) in self.0.iter().enumerate() {
            f.write_str(separator(index, count))?;
            write_line(f, line)?;
        }
        Ok(())
    }
}

/// Numbers in ascending order, as `2, 4 to 6 or 8`.
#[derive(Clone, Copy)]
pub struct Numbers<'n>(pub &'n [u8]);

impl fmt::Display for Numbers<'_> {
    fn fmt<W: fmt::Write>(&self, f: &mut fmt::Formatter<W>) -> fmt::Result {
        let count = self.0.chunk_by(is_next).count();
        for (index, run) in self.0.chunk_by(is_next).enumerate() {
            f.write_str(separator(index, count))?;
            write_run(f, run)?;
        }
        Ok(())
    }
}

/// What stands before the part of this index, where there are so many parts.
fn separator(index: usize, count: usize) -> &'static str {
    match index {
        0 => "",
        _ if index < count.saturating_sub(1) => ", ",
        _ => " or ",
    }
}

/// Whether a number is the one behind another.
fn is_next(number: &u8, next: &u8) -> bool {
    next.checked_sub(*number) == Some(1)
}

/// Writes numbers that follow one another.
fn write_run<W: fmt::Write>(f: &mut fmt::Formatter<W>, run: &[u8]) -> fmt::Result {
    match run {
        [] => Ok(()),
        [number] => write!(f, "{number}"),
        [first, .., last] => write!(f, "{first} to {last}"),
    }
}

/// Writes a line in quotes, without its newline.
fn write_line<W: fmt::Write>(f: &mut fmt::Formatter<W>, line: &Line) -> fmt::Result {
    let mut buffer = [0; LINE_ROOM];
    let end = put_line(&mut buffer, 0, &mut Stamp::new(line.moment()), line);
    f.write_str("\"")?;
    for byte in &buffer[..end] {
        if *byte != b'\n' {
            f.write_char(char::from(*byte))?;
        }
    }
    f.write_str("\"")
}
