//! The elements of a picture of a trace, as SVG.
//!
//! # Usage
//!
//! Each element is a small value that prints itself:
//!
//! ```rust
//! let bar = Rectangle {
//!     fill: Fill::Done,
//!     left: 1,
//!     top: 2,
//!     width: 30,
//!     height: 4,
//!     tip: "a & b",
//! };
//! let text = format!(in alloc; "{bar}")?;
//! let front = "<rect class=\"done\" x=\"1\" y=\"2\" width=\"30\" height=\"4\">";
//! assert!(rt; text.starts_with(front));
//! assert!(rt; text.ends_with("<title>a &amp; b</title></rect>\n"));
//! ```
//!
//! # Behaviour
//!
//! | Value | Element |
//! |---|---|
//! | [`Opening`] | `svg` with a size, the style sheet [`STYLE`], and `defs` with the shapes of marks, [`GLYPHS`] |
//! | [`Rectangle`] | `rect` with a `title`, which is shown as its tooltip |
//! | [`Mark`] | `use` of the shape of a [`Glyph`], with a `title` |
//! | [`Segment`] | `line` |
//! | [`Label`] | `text` |
//! | [`Closing`] | the end of `svg` |
//!
//! Each ends with a newline. Its class is a word ([`Fill::word`], [`Glyph::word`], [`Stroke::word`], [`Face::word`]), by which
//! the style sheet gives it its colour. Texts are escaped ([`Escaped`]): `&`, `<`, `>` and both quotes.
//!
//! Whole numbers of pixels say where a thing stands, from the left and from the top.
//!
//! The style sheet has colours for white, and for dark by `prefers-color-scheme`. Those of runs are the ones of Okabe and Ito,
//! which the colour-blind can tell. Two kinds of marks are outlines of two others, and all others differ in their
//! shapes, so that marks are told without colours. No contract tells so.
//!
//! # Order and ties
//!
//! What is printed later stands above what was printed before.
//!
//! # Errors
//!
//! There are none but those of the writer.
//!
//! # Memory and cost
//!
//! An element takes no memory. A text is gone over character by character.
//!
//! The tests stand in `picture_tests`.

mod document;
mod escaped;
mod shapes;
mod words;

pub use document::{Closing, GLYPHS, Opening, STYLE};
pub use escaped::Escaped;
pub use shapes::{Label, Mark, Rectangle, Segment};
pub use words::{Face, Fill, Glyph, Stroke};
