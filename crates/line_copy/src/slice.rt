//! The lines of a slice.
ghost use Rattle.line_copy.specs.Copying.{IsCopied};

use crate::copied::Copied;
use crate::copy::LineCopy;
use executor_model::Line;

/// Puts the text of lines into a buffer, the first one first, as long as there is room for any line. What stands in the buffer
/// behind the text is lost.
pub fn put_lines(lines: &[Line], out: &mut [u8]) -> Copied
    ensures { IsCopied lines.now out.old out.new result }
{
    let mut copy = LineCopy::new();
    for line in lines {
        if !copy.put(out, line) {
            return copy.copied();
        }
    }
    copy.copied()
}
