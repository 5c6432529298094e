//! Lines that stand one behind the other.
ghost use Rattle.std.specs.Prelude.{◌≡◌, ℕ, ◌<◌, List, ◌++◌, true, Option, MatchOption, IfOk, flat_map, length};
ghost use Rattle.trace_text.specs.Reading.{IsRead, IsUnread};
ghost use Rattle.byte_ends.specs.Ends.{CountsTries};
ghost use Rattle.snapshot_text.specs.own.Lists.{AreRead};
ghost use Rattle.snapshot_text.specs.own.Pages.{GivesOut, HasRoom, IsGiven};

use crate::page::Page;
use byte_ends::{Sink, write_text};
use std::alloc::{AllocError, Allocator};

/// What a line of a snapshot spells, of which there may be any number.
pub trait Spelled: Copy {
    /// The text of a line, with its newline.
    ghost spell: { Self → List ℕ };

    /// Whether a line tells it.
    ghost fits: { Self → Type 0 };

    /// What the line at the front spells, and what follows it. `None` exactly when no such line stands there.
    fn split(bytes: &[u8]) -> Option<(Self, &[u8])>
        ensures { MatchOption result (IsUnread spell fits bytes.now)
            (λ r. IsRead spell fits bytes.now r.0 r.1.now) };

    /// Appends the line.
    fn put<A: Allocator>(&self, page: &mut Page<A>)
        requires { HasRoom page.old }
        ensures { page.new
            ≡ record { text = page.old.text ++ spell self.now; sum = page.old.sum } };
}

/// All lines of a kind at the front, and what follows them.
///
/// # Errors
///
/// `AllocError` where the memory for them is refused.
pub fn read_all<A: Allocator, V: Spelled + Drop>(
    alloc: A,
    text: &[u8],
) -> Result<(Vec<V, A>, &[u8]), AllocError>
    requires has_bytes { (value : V) → 0 < length (V.spell value) }
    ensures { IfOk result (λ r. AreRead V.spell V.fits text.now r.0.items r.1.now) }
{
    let mut values = Vec::new(alloc);
    let mut rest = text;
    while let Some((value, behind)) = V::split(rest) {
        values.push(value)?;
        rest = behind;
    }
    Ok((values, rest))
}

/// Writes lines of a kind by a page, behind a text that was given out. `false` is a fault of the sink, after a front of all was
/// written.
pub fn write_all<A: Allocator, V: Spelled, W: Sink>(
    page: &mut Page<A>,
    values: &[V],
    writer: &mut W,
) -> bool
    ensures given { (before : Option (List ℕ)) (text : List ℕ)
        → IsGiven before (W.contents writer.old) page.old text
        → GivesOut result before (W.contents writer.new) page.new
        (text ++ flat_map V.spell values.now) }
    ensures counts { CountsTries result (W.failed writer.old) (W.fruitless writer.old)
        (W.failed writer.new) (W.fruitless writer.new) }
{
    for value in values {
        if !make_room(page, writer) {
            return false;
        }
        value.put(page);
    }
    true
}

/// Makes room for a line: where there is none, the text of the page is written. `false` is a fault of the sink, after a front of
/// that text was written.
pub fn make_room<A: Allocator, W: Sink>(page: &mut Page<A>, writer: &mut W) -> bool
    ensures given { (before : Option (List ℕ)) (text : List ℕ)
        → IsGiven before (W.contents writer.old) page.old text
        → GivesOut result before (W.contents writer.new) page.new text }
    ensures room { result ≡ true → HasRoom page.new }
    ensures counts { CountsTries result (W.failed writer.old) (W.fruitless writer.old)
        (W.failed writer.new) (W.fruitless writer.new) }
{
    if page.has_room() {
        return true;
    }
    if !write_text(writer, page.bytes()) {
        return false;
    }
    page.clear();
    true
}
