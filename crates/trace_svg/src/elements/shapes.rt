//! The shapes of a picture. All lengths are in pixels, from the left and from the top.

use crate::elements::escaped::Escaped;
use crate::elements::words::{Face, Fill, Glyph, Stroke};
use std::fmt;

/// A filled rectangle with a tooltip.
#[derive(Clone, Copy, Debug)]
pub struct Rectangle<'a> {
    /// What it stands for.
    pub fill: Fill,
    /// Where its left side stands.
    pub left: u32,
    /// Where its upper side stands.
    pub top: u32,
    /// How wide it is.
    pub width: u32,
    /// How high it is.
    pub height: u32,
    /// Its tooltip.
    pub tip: &'a str,
}

impl<'a> fmt::Display for Rectangle<'a> {
    ghost use Rattle.std.specs.Prelude.{Some};
    ghost use Rattle.trace_svg.specs.elements.Elements.{rectangle_text};

    ghost output = { λ r. Some (rectangle_text r.fill r.left r.top r.width r.height r.tip.now) };

    fn fmt<W: fmt::Write>(&self, f: &mut fmt::Formatter<W>) -> fmt::Result {
        let word = self.fill.word();
        let (left, top) = (self.left, self.top);
        let (width, height) = (self.width, self.height);
        let tip = Escaped(self.tip);
        write!(
            f,
            "<rect class=\"{word}\" x=\"{left}\" y=\"{top}\" width=\"{width}\" height=\"{height}\"><title>{tip}</title></rect>\n"
        )
    }
}

/// A mark with a tooltip.
#[derive(Clone, Copy, Debug)]
pub struct Mark<'a> {
    /// What it stands for.
    pub glyph: Glyph,
    /// Where its middle stands, from the left.
    pub x: u32,
    /// Where its middle stands, from the top.
    pub y: u32,
    /// Its tooltip.
    pub tip: &'a str,
}

impl<'a> fmt::Display for Mark<'a> {
    ghost use Rattle.std.specs.Prelude.{Some};
    ghost use Rattle.trace_svg.specs.elements.Elements.{mark_text};

    ghost output = { λ m. Some (mark_text m.glyph m.x m.y m.tip.now) };

    fn fmt<W: fmt::Write>(&self, f: &mut fmt::Formatter<W>) -> fmt::Result {
        let word = self.glyph.word();
        let (x, y) = (self.x, self.y);
        let tip = Escaped(self.tip);
        write!(
            f,
            "<use class=\"{word}\" href=\"#{word}\" x=\"{x}\" y=\"{y}\"><title>{tip}</title></use>\n"
        )
    }
}

/// A straight line.
#[derive(Clone, Copy, Debug)]
pub struct Segment {
    /// What it stands for.
    pub stroke: Stroke,
    /// Where it begins.
    pub from: (u32, u32),
    /// Where it ends.
    pub to: (u32, u32),
}

impl fmt::Display for Segment {
    ghost use Rattle.std.specs.Prelude.{Some};
    ghost use Rattle.trace_svg.specs.elements.Elements.{segment_text};

    ghost output = { λ s. Some (segment_text s.stroke s.from s.to) };

    fn fmt<W: fmt::Write>(&self, f: &mut fmt::Formatter<W>) -> fmt::Result {
        let word = self.stroke.word();
        let (left, top) = self.from;
        let (right, bottom) = self.to;
        write!(
            f,
            "<line class=\"{word}\" x1=\"{left}\" y1=\"{top}\" x2=\"{right}\" y2=\"{bottom}\"/>\n"
        )
    }
}

/// A text.
#[derive(Clone, Copy, Debug)]
pub struct Label<'a> {
    /// What it tells.
    pub face: Face,
    /// Where it stands, from the left.
    pub x: u32,
    /// Where the foot of its letters stands, from the top.
    pub y: u32,
    /// The text.
    pub text: &'a str,
}

impl<'a> fmt::Display for Label<'a> {
    ghost use Rattle.std.specs.Prelude.{Some};
    ghost use Rattle.trace_svg.specs.elements.Elements.{label_text};

    ghost output = { λ l. Some (label_text l.face l.x l.y l.text.now) };

    fn fmt<W: fmt::Write>(&self, f: &mut fmt::Formatter<W>) -> fmt::Result {
        let word = self.face.word();
        let (x, y) = (self.x, self.y);
        let text = Escaped(self.text);
        write!(
            f,
            "<text class=\"{word}\" x=\"{x}\" y=\"{y}\">{text}</text>\n"
        )
    }
}
