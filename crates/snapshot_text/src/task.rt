//! The line of a task.
ghost use Rattle.std.specs.Prelude.{◌≡◌, ◌<◌, ◌≤◌, ◌^◌, MatchOption, IfNone, IfSome, codes, length};
ghost use Rattle.sched_time.specs.Times.{longest};
ghost use Rattle.trace_text.specs.Reading.{Below, EndsNumber, IsRead, IsUnread, number_then};
ghost use Rattle.snapshot_text.specs.Spelling.{FitTwo, FitsImage, FitsSpan, FitsStanding, FitsTiming, image_of, phase_of, standing_text, task_text, timing_text, two_text};

use crate::standing::Standing;
use crate::words::{split_two, strip};
use executor_model::Stage;
use sched_time::{LONGEST, Span, Timing, Unit, span};
use task_table::{Image, Seat};
use trace_text::number_before;

/// The image of the task whose line stands at the front, and what follows the line. `None` exactly when none does.
pub fn split_task(bytes: &[u8]) -> Option<(Image, &[u8])>
    ensures { MatchOption result (IsUnread task_text FitsImage bytes.now)
        (λ r. IsRead task_text FitsImage bytes.now r.0 r.1.now) }
{
    let Some((place, rest)) = split_place(bytes) else {
        return None;
    };
    let Some((next, rest)) = split_two(rest, b"due ", b" run ", b" ") else {
        return None;
    };
    let Some((timing, rest)) = split_timing(rest) else {
        return None;
    };
    let Some((standing, rest)) = split_standing(rest) else {
        return None;
    };
    Some((image(place, next, timing, standing), rest))
}

/// The image that a line tells: of the task of this number in this slot, and of its run, by due moment and number.
fn image(place: (u64, u32), next: (u64, u64), timing: Timing, standing: Standing) -> Image
    ensures { result ≡ image_of (place.0, place.1) (next.0, next.1) timing standing }
{
    let worker = match standing {
        Standing::Waits | Standing::Kept => None,
        Standing::Runs(worker) | Standing::Cancelled(worker) => Some(worker),
    };
    Image {
        slot: place.1,
        worker,
        seat: Seat {
            number: place.0,
            run: next.1,
            due: next.0,
            timing,
            phase: phase(standing),
            cancelled: matches!(standing, Standing::Kept | Standing::Cancelled(_)),
            kept: matches!(standing, Standing::Kept),
        },
    }
}

/// The phase of a task that stands so.
fn phase(standing: Standing) -> Stage
    ensures { result ≡ phase_of standing }
{
    match standing {
        Standing::Waits | Standing::Kept => Stage::Waiting,
        Standing::Runs(_) | Standing::Cancelled(_) => Stage::Running,
    }
}

/// The number of a task and its slot, and what follows them. `None` exactly when they are not there.
fn split_place(bytes: &[u8]) -> Option<((u64, u32), &[u8])>
    ensures { MatchOption result
        (IsUnread (two_text (codes "task ") (codes " slot ") (codes " ")) (FitTwo (2 ^ 64) (2 ^ 32)) bytes.now)
        (λ r. IsRead (two_text (codes "task ") (codes " slot ") (codes " ")) (FitTwo (2 ^ 64) (2 ^ 32)) bytes.now (r.0.0, r.0.1) r.1.now) }
{
    let Some((place, rest)) = split_two(bytes, b"task ", b" slot ", b" ") else {
        return None;
    };
    if place.1 > u32::MAX as u64 {
        return None;
    }
    Some(((place.0, place.1 as u32), rest))
}

/// How often a task runs, to the space, and what follows it. `None` exactly when that is not there.
fn split_timing(bytes: &[u8]) -> Option<(Timing, &[u8])>
    ensures { MatchOption result (IsUnread timing_text FitsTiming bytes.now)
        (λ r. IsRead timing_text FitsTiming bytes.now r.0 r.1.now) }
{
    if let Some(rest) = strip(bytes, b"once ") {
        return Some((Timing::Once, rest));
    }
    if let Some(rest) = strip(bytes, b"rate ") {
        let Some((period, rest)) = span_before(rest) else {
            return None;
        };
        return Some((Timing::Rate(period), rest));
    }
    if let Some(rest) = strip(bytes, b"fixed ") {
        let Some((delay, rest)) = span_before(rest) else {
            return None;
        };
        return Some((Timing::Fixed(delay), rest));
    }
    None
}

/// The span at the front, and what follows the space behind it. `None` exactly when they are not there.
fn span_before(bytes: &[u8]) -> Option<(Span, &[u8])>
    ensures { MatchOption result (IsUnread (number_then (codes " ")) FitsSpan bytes.now)
        (λ r. IsRead (number_then (codes " ")) FitsSpan bytes.now r.0 r.1.now) }
{
    let Some((number, rest)) = number_before(bytes, b" ") else {
        return None;
    };
    let Some(span) = span_of_nanos(number) else {
        return None;
    };
    Some((span, rest))
}

/// The span of so many nanoseconds, and `None` where they are above the limit.
fn span_of_nanos(nanos: u64) -> Option<Span>
    ensures span { IfSome result (λ span. (span ≡ nanos) × (nanos ≤ longest)) }
    ensures long { IfNone result (longest < nanos) }
{
    if nanos > LONGEST {
        return None;
    }
    span(nanos as i64, Unit::Ns).ok()
}

/// How a task stands, to the newline, and what follows it. `None` exactly when that is not there.
fn split_standing(bytes: &[u8]) -> Option<(Standing, &[u8])>
    ensures { MatchOption result (IsUnread standing_text FitsStanding bytes.now)
        (λ r. IsRead standing_text FitsStanding bytes.now r.0 r.1.now) }
{
    if let Some(rest) = strip(bytes, b"waits\n") {
        return Some((Standing::Waits, rest));
    }
    if let Some(rest) = strip(bytes, b"kept\n") {
        return Some((Standing::Kept, rest));
    }
    let Some(rest) = strip(bytes, b"runs ") else {
        return None;
    };
    if let Some((worker, rest)) = worker_before(rest, b"\n") {
        return Some((Standing::Runs(worker), rest));
    }
    if let Some((worker, rest)) = worker_before(rest, b" cancelled\n") {
        return Some((Standing::Cancelled(worker), rest));
    }
    None
}

/// The worker at the front, and what follows the word behind it. `None` exactly when they are not there.
fn worker_before<'a>(bytes: &'a [u8], word: &[u8]) -> Option<(u8, &'a [u8])>
    requires { EndsNumber word.now × (0 < length word.now) }
    ensures { MatchOption result (IsUnread (number_then word.now) (Below (2 ^ 8)) bytes.now)
        (λ r. IsRead (number_then word.now) (Below (2 ^ 8)) bytes.now r.0 r.1.now) }
{
    let Some((number, rest)) = number_before(bytes, word) else {
        return None;
    };
    if number > u8::MAX as u64 {
        return None;
    }
    Some((number as u8, rest))
}
