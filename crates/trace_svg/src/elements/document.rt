//! How a document begins and ends.

use std::fmt;

/// The style sheet, for white and for dark.
///
/// The colours of runs are those of Okabe and Ito, which the colour-blind can tell.
pub const STYLE: &str = "<style>
svg { background: #ffffff; font: 11px ui-monospace, Menlo, Consolas, monospace; }
text { fill: #222222; }
.row { text-anchor: end; }
.tick { text-anchor: middle; font-size: 10px; }
.count { font-size: 9px; pointer-events: none; }
.run { fill: #000000; pointer-events: none; }
line { stroke: #dddddd; }
.axis { stroke: #222222; }
rect { stroke: #ffffff; stroke-width: 0.5; }
.done { fill: #009e73; }
.failed { fill: #d55e00; }
.again { fill: #56b4e9; }
.dropped { fill: #e69f00; }
.ended { fill: #cc79a7; }
.open { fill: #bbbbbb; stroke: #222222; stroke-dasharray: 3 2; }
use { fill: #222222; stroke: #222222; stroke-width: 1.5; }
.outside, .ask { fill: none; pointer-events: all; }
.refuse, .error { fill: #d55e00; stroke: #d55e00; }
@media (prefers-color-scheme: dark) {
svg { background: #111111; }
text { fill: #dddddd; }
line { stroke: #333333; }
.axis { stroke: #dddddd; }
rect { stroke: #111111; }
.open { stroke: #dddddd; fill: #888888; }
use { fill: #dddddd; stroke: #dddddd; }
.outside, .ask { fill: none; }
.refuse, .error { fill: #ff8f4d; stroke: #ff8f4d; }
}
</style>
";

/// The shapes of marks, each about the middle of a mark.
pub const GLYPHS: &str = "<defs>
<circle id=\"submit\" r=\"4\"/>
<path id=\"refuse\" d=\"M-4-4 4 4M4-4-4 4\"/>
<path id=\"cancel\" d=\"M-4-4H4V4H-4Z\"/>
<path id=\"outside\" d=\"M-4-4H4V4H-4Z\"/>
<path id=\"end\" d=\"M-5-4H5L0 5Z\"/>
<path id=\"policy\" d=\"M0-5 5 0 0 5-5 0Z\"/>
<path id=\"shutdown\" d=\"M-5 0H5M0-5V5\"/>
<circle id=\"ask\" r=\"4\"/>
<path id=\"clock\" d=\"M0-5V5\"/>
<path id=\"idle\" d=\"M-4 0H4\"/>
<path id=\"error\" d=\"M-5 4H5L0-5Z\"/>
</defs>
";

/// How a document begins: with its size in pixels, the style sheet and the shapes of marks.
#[derive(Clone, Copy, Debug)]
pub struct Opening {
    /// How wide it is.
    pub width: u32,
    /// How high it is.
    pub height: u32,
}

impl fmt::Display for Opening {
    ghost use Rattle.std.specs.Prelude.{Some};
    ghost use Rattle.trace_svg.specs.elements.Elements.{opening_text};

    ghost output = { λ o. Some (opening_text o.width o.height) };

    fn fmt<W: fmt::Write>(&self, f: &mut fmt::Formatter<W>) -> fmt::Result {
        let (width, height) = (self.width, self.height);
        write!(
            f,
            "<svg xmlns=\"http://www.w3.org/2000/svg\" width=\"{width}\" height=\"{height}\" viewBox=\"0 0 {width} {height}\">\n{STYLE}{GLYPHS}"
        )
    }
}

/// How a document ends.
#[derive(Clone, Copy, Debug)]
pub struct Closing;

impl fmt::Display for Closing {
    ghost use Rattle.std.specs.Prelude.{Some};
    ghost use Rattle.trace_svg.specs.elements.Elements.{closing_text};

    ghost output = { λ _. Some closing_text };

    fn fmt<W: fmt::Write>(&self, f: &mut fmt::Formatter<W>) -> fmt::Result {
        write!(f, "</svg>\n")
    }
}
