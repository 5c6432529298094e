//! The first line of a text that is no event's, or no event's and no call's.

ghost use Rattle.std.specs.Prelude.{◌≡◌, None, IfNone, IfSome};
ghost use Rattle.line_reasons.specs.Texts.{AreLines, IsFirstLine, IsFirstOtherThan};
ghost use Rattle.line_reasons.specs.Events.{AreEvents, IsFirstOther};
ghost use Rattle.line_reasons.specs.LiveLines.{AreLiveLines, IsFirstNotLive};
ghost use Rattle.line_reasons.specs.own.Kinds.{FitsIn, spelling};

use crate::event_fault::EventFault;
use crate::event_words::event_fault;
use crate::lines::Lines;
use crate::shown::Quoted;
use memchr::memchr;
use near_words::FileName;
use std::alloc::Allocator;
use std::fmt;

/// Why a text is not that of events, or of the lines of a live run: its first line that is none of these, and why it is none.
///
/// It prints as one line without its newline: `line 3, "clock 05": leading zero; a moment has none, as in "clock 5"`.
#[derive(Clone, Copy, Debug, PartialEq, Eq)]
pub struct EventsReason<'t> {
    /// The number of the line, counted from 1.
    pub number: usize,
    /// The line, with its newline where it has one.
    pub line: &'t [u8],
    pub fault: EventFault<'t>,
}

/// Why a text is not that of events, each a line; none where it is that.
///
/// A text of no line is that of no events. A word that may be meant is told only where there is memory to look for it.
pub fn reason_of_events<A: Allocator + Copy>(alloc: A, text: &[u8]) -> Option<EventsReason<'_>>
    ensures fine { IfNone result (AreEvents text.now) }
    ensures only { AreEvents text.now → result ≡ None }
    ensures first { IfSome result (λ r. IsFirstOther text.now r.number r.line.now) }
{
    first_other(alloc, Lines::Events, text)
}

/// Why a text is not that of the lines of a live run, each an event's or a call's; none where it is that.
///
/// A text of no line is that of no events and no calls. A word that may be meant is told only where there is memory to look for
/// it.
pub fn reason_of_live_lines<A: Allocator + Copy>(alloc: A, text: &[u8]) -> Option<EventsReason<'_>>
    ensures fine { IfNone result (AreLiveLines text.now) }
    ensures only { AreLiveLines text.now → result ≡ None }
    ensures first { IfSome result (λ r. IsFirstNotLive text.now r.number r.line.now) }
{
    first_other(alloc, Lines::Live, text)
}

/// Why a text is not that of such lines; none where it is that.
fn first_other<A: Allocator + Copy>(alloc: A, lines: Lines, text: &[u8]) -> Option<EventsReason<'_>>
    ensures fine { IfNone result (AreLines (spelling lines) (FitsIn lines) text.now) }
    ensures only { AreLines (spelling lines) (FitsIn lines) text.now → result ≡ None }
    ensures first { IfSome result
        (λ r. IsFirstOtherThan (spelling lines) (FitsIn lines) text.now r.number r.line.now) }
{
    let mut rest = text;
    let mut number = 1;
    while !rest.is_empty() {
        let Some(behind) = lines.behind_first(rest) else {
            let line = first_line(rest);
            let fault = event_fault(alloc, lines, line);
            return Some(EventsReason {
                number,
                line,
                fault,
            });
        };
        rest = behind;
        number += 1;
    }
    None
}

/// The line at the front of some bytes, with its newline where it has one.
fn first_line(bytes: &[u8]) -> &[u8]
    ensures { IsFirstLine result.now bytes.now }
{
    match memchr(b'\n', bytes) {
        Some(at) => &bytes[..at + 1],
        None => bytes,
    }
}

impl<'t> EventsReason<'t> {
    /// The reason with a file's name before it, as `events.txt:3: "clock 05": leading zero; ..`.
    pub fn in_file(self, file: &'t str) -> EventsReasonInFile<'t> {
        EventsReasonInFile { file, reason: self }
    }

    /// The line without its newline.
    fn body(&self) -> &'t [u8] {
        self.line.strip_suffix(b"\n").unwrap_or(self.line)
    }
}

impl fmt::Display for EventsReason<'_> {
    fn fmt<W: fmt::Write>(&self, f: &mut fmt::Formatter<W>) -> fmt::Result {
        let EventsReason { number, fault, .. } = self;
        write!(f, "line {number}, {}: {fault}", Quoted(self.body()))
    }
}

/// A reason with a file's name before it.
///
/// It prints as one line without its newline: `events.txt:3: "clock 05": leading zero; a moment has none, as in "clock 5"`.
#[derive(Clone, Copy)]
pub struct EventsReasonInFile<'t> {
    file: &'t str,
    reason: EventsReason<'t>,
}

impl fmt::Display for EventsReasonInFile<'_> {
    fn fmt<W: fmt::Write>(&self, f: &mut fmt::Formatter<W>) -> fmt::Result {
        let EventsReason { number, fault, .. } = &self.reason;
        let line = Quoted(self.reason.body());
        write!(f, "{}:{number}: {line}: {fault}", FileName(self.file))
    }
}
