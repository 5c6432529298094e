//! Lines of a trace, copied into a caller's buffer: whole lines, as long as there is room for any line.
//!
//! # Usage
//!
//! - [`put_lines`] copies those of a slice.
//! - A [`LineCopy`] copies one line after the other, where they stand in no slice: [`LineCopy::put`] puts one more, and tells
//!   whether it did.
//! - Both tell how much was copied, as a [`Copied`] with the layout of C. A caller whose buffer was too small for all copies the
//!   others by a further call, from the line on of which the number is [`Copied::lines`].
//!
//! ```rust
//! let clock = Line::new(5, Message::Answer(Answer::Clock));
//! let end = Line::new(5, Message::End(3));
//! let mut out = [0u8; 200];
//! let copied = put_lines(&[clock, end], &mut out);
//! assert_eq!(rt; (copied.lines, copied.bytes), (2, 16));
//! assert!(rt; out.starts_with(b"5 clock\n5 end 3\n"));
//!
//! let mut copy = LineCopy::new();
//! assert!(rt; copy.put(&mut out, &end));
//! assert!(rt; out.starts_with(b"5 end 3\n"));
//! ```
//!
//! # Behaviour
//!
//! The text of a line is that of [`trace_text`], with its newline. The lines are put one behind the other, from the front of the
//! buffer on, as long as [`LINE_ROOM`](trace_text::LINE_ROOM), 128 bytes, are left where a line would begin: so a buffer of 128
//! bytes takes one line at least, and no line is ever cut. What stands in the buffer behind the text is lost.
//!
//! `specs/Copying.antt` says it: `HoldsFirst` is so after each line, and `IsCopied` in the end. Of a loop over [`LineCopy::put`]
//! `HoldsFirst` is the invariant, for all the lines that the loop goes over: [`LineCopy::new`] begins with it, and each line that
//! was put keeps it where it is the next of them. In the end it is `IsCopied`, whether no line is left or there is no room.
//!
//! # Errors
//!
//! There are none: where there is no room nothing is copied, and no byte of the buffer changes.
//!
//! # Memory and cost
//!
//! No memory is taken, and each byte is written where it stays. Lines of one moment, one behind the other, copy the digits of it
//! from the last one.
//!
//! The tests stand in `text_tests`.
#![tactic(auto)]

mod copied;
mod copy;
mod laws;
mod slice;

pub use copied::Copied;
pub use copy::LineCopy;
pub use laws::copied_equality_tells;
pub use slice::put_lines;
