//! The answering: events in, the text of the lines that answer them out. It knows of no reader.
ghost use Rattle.std.specs.Prelude.{◌≡◌, ◌≤◌, [], IfSome, IsNone, IsTrue, is_some, drop, vec_capacity};
ghost use Rattle.executor_core.specs.CoreView.{CoreView};
ghost use Rattle.sched_engine.specs.Inputs.{IsRefused};
ghost use Rattle.byte_ends.specs.Ends.{CountsTries};
ghost use Rattle.sched_engine.specs.own.Turns.{IsAnswered, IsCut, IsPieceEnd, StandsAfterEvents, WantsRoom};

use crate::draft::Draft;
use crate::one_event::answer_event;
use byte_ends::Sink;
use executor_core::Core;
use executor_model::Line;
use std::alloc::Allocator;
use trace_text::{is_part, split_event};

/// Why no further event was taken of the bytes at hand.
#[derive(Clone, Copy, Debug, PartialEq, Eq)]
pub enum PieceEnd {
    /// Less than a line is left.
    Part,
    /// What is left does not begin with the line of an event.
    Refused,
    /// As many events were taken as the limit allows, and a further one follows.
    Full,
    /// A further event follows, and memory for its lines was refused.
    Memory,
}

/// How far the bytes at hand were answered.
#[derive(Clone, Copy, Debug, PartialEq, Eq)]
pub struct Answered {
    /// How many bytes were taken.
    pub bytes: usize,
    /// How many lines answer the events in them.
    pub lines: u64,
    pub end: PieceEnd,
}

/// Empties a list of lines, and makes room in it for this many. `false` is want of memory.
fn make_room<A: Allocator>(lines: &mut Vec<Line, A>, count: usize) -> bool
    ensures clear { lines.new.items ≡ [] }
    ensures room { IsTrue result → count ≤ vec_capacity lines.new }
    ensures enough { count ≤ vec_capacity lines.old
        → IsTrue result × (vec_capacity lines.new ≡ vec_capacity lines.old) }
{
    lines.clear();
    count <= lines.capacity() || lines.reserve(count).is_ok()
}

/// Answers the events whose lines stand at the front of the bytes that are held, up to the first
/// that is cut off, refused, past the limit or without memory for its lines, and gives out the text
/// of the answers: what of it does not fit into the draft is written.
///
/// `None` is a fault of the writer, after a front of that text was written, and leaves the core
/// somewhere on the way.
pub fn answer_events<A: Allocator, W: Sink>(
    core: &mut Core<A>,
    held: &[u8],
    lines: &mut Vec<Line, A>,
    draft: &mut Draft<A>,
    writer: &mut W,
) -> Option<Answered>
    requires { StandsAfterEvents core.old }
    ensures answered { IfSome result
        (λ a. IsAnswered core.old core.new held.now a.bytes
        (record { contents = W.contents writer.old; text = draft.old })
        (record { contents = W.contents writer.new; text = draft.new }) a.lines) }
    ensures within { IfSome result (λ _. core.new.taken ≤ core.new.limit) }
    ensures end { IfSome result (λ a. IsPieceEnd a.end core.new (drop a.bytes held.now)) }
    ensures memory { IfSome result
        (λ a. a.end ≡ PieceEnd.Memory
        → WantsRoom core.old held.now
        (record { contents = W.contents writer.old; text = draft.old }) (vec_capacity lines.old)) }
    ensures cut { IsNone result
        → IsCut core.old held.now (record { contents = W.contents writer.old; text = draft.old })
        (W.contents writer.new) }
    ensures write { CountsTries (is_some result) (W.failed writer.old) (W.fruitless writer.old)
        (W.failed writer.new) (W.fruitless writer.new) }
{
    let mut rest = held;
    let mut count = 0;
    let end = loop {
        let Some((event, behind)) = split_event(rest) else {
            break end_of(rest);
        };
        if core.full() {
            break PieceEnd::Full;
        }
        if !make_room(lines, core.room()) {
            break PieceEnd::Memory;
        }
        let more = answer_event(core, event, lines, draft, writer)?;
        rest = behind;
        count += more;
    };
    Some(Answered {
        bytes: held.len() - rest.len(),
        lines: count,
        end,
    })
}

/// Why no further event is taken of bytes that do not begin with the line of one.
#[cold]
fn end_of(rest: &[u8]) -> PieceEnd
    requires { IsRefused rest.now }
    ensures { (core : CoreView) → IsPieceEnd result core rest.now }
{
    if is_part(rest) {
        PieceEnd::Part
    } else {
        PieceEnd::Refused
    }
}
