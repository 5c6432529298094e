//! Places of a plan, and their lines.

ghost use Rattle.std.specs.Prelude.{IfSome};
ghost use Rattle.plan_lines.specs.Lines.{IsLineOf};

use crate::lines::line_after;
use crate::walk::Walk;

/// The mark that may stand at the front of a text in UTF-8.
const BYTE_ORDER_MARK: &[u8] = b"\xEF\xBB\xBF";

/// A table of a plan, or a key in it.
#[derive(Clone, Copy, Debug, PartialEq, Eq)]
pub struct Place<'k> {
    /// The block, numbered from 1; 0 for the top.
    pub block: usize,
    /// The call in its block, numbered from 1; 0 for the header of the block.
    pub call: usize,
    /// A key of that table; none for the table itself.
    pub key: Option<&'k str>,
}

/// The line of a plan text on which a table of the plan begins, or on which a key of it stands, counted from 1.
///
/// `None` where it is not found, and where it cannot be told. The top itself is on no line.
pub fn line_of(text: &[u8], place: Place) -> Option<usize>
    ensures { IfSome result (IsLineOf text.now) }
{
    match text.get(..begin_of(text, place)?) {
        Some(before) => Some(line_after(before)),
        None => None,
    }
}

/// Where a table of the plan begins in a text, or a key of it.
fn begin_of(text: &[u8], place: Place) -> Option<usize> {
    let mut walk = Walk::new(text, place);
    let mut from = first_token(text);
    for _token in 0..text.len() {
        from = walk.take_next(from)?;
        if let Some(begin) = walk.found() {
            return Some(begin);
        }
    }
    None
}

/// Where the first token of a text may begin.
fn first_token(text: &[u8]) -> usize {
    if text.starts_with(BYTE_ORDER_MARK) {
        BYTE_ORDER_MARK.len()
    } else {
        0
    }
}
