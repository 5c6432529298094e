//! The reading of clock lines, all of which stand in the input of a run by a pool.
ghost use Rattle.std.specs.Prelude.{◌≡◌, ◌≤◌, IfErr, IfOk, MatchOption, MatchResult, drop, vec_len};
ghost use Rattle.sched_engine.specs.Inputs.{IsRefused};
ghost use Rattle.pool_engine.specs.ClockLines.{AreAllClocks, EndsReading};
ghost use Rattle.pool_engine.specs.own.ClockLines.{CountsReading, IsClockRead, IsNoClockEnd, IsOther, StopsAt, TakesClocks};

use byte_ends::{Filled, HeldBytes, Source};
use executor_model::Event;
use sched_engine::RunError;
use std::alloc::{AllocError, Allocator};
use trace_text::{is_part, split_event};

/// Why no further clock was taken of the bytes at hand.
#[derive(Clone, Copy)]
pub enum ClocksEnd {
    /// Less than a line is left.
    Part,
    /// What is left does not begin with the line of a clock.
    Refused,
    /// As many clocks were taken as the limit allows, and a further one follows.
    Full,
    /// A further clock follows, and memory for its moment was refused.
    Memory,
}

/// Why the clock lines are not all of the input, or could not be kept.
#[derive(Clone, Copy, Debug)]
pub enum ReadingError {
    /// This line, counted from 1, is no clock's.
    EventLine(u64),
    /// A further clock line follows as many as the limit allows.
    Full,
    /// The reader was at fault.
    Read,
    /// Memory ran out.
    Memory,
}

impl From<AllocError> for ReadingError {
    ghost use Rattle.std.specs.Prelude.{◌≡◌};
    ghost use Rattle.pool_engine.specs.declared.clocks.ReadingError.TheVariants.{Memory};

    ghost from_gives = { λ _ e. e ≡ Memory };

    fn from(_: AllocError) -> ReadingError {
        ReadingError::Memory
    }
}

impl From<ReadingError> for RunError {
    ghost use Rattle.std.specs.Prelude.{◌≡◌};
    ghost use Rattle.pool_engine.specs.ClockLines.{told_of_reading};

    ghost from_gives = { λ error e. e ≡ told_of_reading error };

    fn from(error: ReadingError) -> RunError {
        match error {
            ReadingError::EventLine(line) => RunError::EventLine(line),
            ReadingError::Full => RunError::Full,
            ReadingError::Read => RunError::Read,
            ReadingError::Memory => RunError::Memory,
        }
    }
}

/// The moments of the clock lines, which are all of the input. There are no more of them than events may be.
///
/// # Errors
///
/// [`ReadingError::EventLine`] at the first line that is no clock's, [`ReadingError::Full`] at a clock line past the limit,
/// [`ReadingError::Read`], and [`ReadingError::Memory`].
pub fn read_clocks<A: Allocator + Copy, S: Source>(
    alloc: A,
    limit: u32,
    reader: &mut S,
) -> Result<Vec<u64, A>, ReadingError>
    ensures all { IfOk result
        (λ moments. AreAllClocks limit (S.remaining reader.old) (S.remaining reader.new)
        moments.items) }
    ensures ends { IfErr result
        (λ e. EndsReading e limit (S.remaining reader.old) (S.remaining reader.new)) }
    ensures read { CountsReading result (S.failed reader.old) (S.fruitless reader.old)
        (S.failed reader.new) (S.fruitless reader.new) }
{
    let mut held = HeldBytes::new(alloc)?;
    let mut moments = Vec::new(alloc);
    loop {
        match held.fill(reader) {
            Filled::More => {}
            Filled::End => {
                if held.bytes().is_empty() {
                    return Ok(moments);
                }
                return Err(ReadingError::EventLine(moments.len() as u64 + 1));
            }
            Filled::Fault => return Err(ReadingError::Read),
        }
        let (taken, end) = take_clocks(held.bytes(), limit as usize, &mut moments);
        held.skip(taken);
        match end {
            ClocksEnd::Part => {}
            ClocksEnd::Refused => return Err(ReadingError::EventLine(moments.len() as u64 + 1)),
            ClocksEnd::Full => return Err(ReadingError::Full),
            ClocksEnd::Memory => return Err(ReadingError::Memory),
        }
    }
}

/// Takes the clock lines at the front of the bytes that are held: how many bytes they are, and why no more were taken.
#[tactic(auto, using(crate::proofs::Taking::stops_there, crate::proofs::Taking::takes_none))]
fn take_clocks<A: Allocator>(
    held: &[u8],
    limit: usize,
    moments: &mut Vec<u64, A>,
) -> (usize, ClocksEnd)
    requires { vec_len moments.old ≤ limit }
    ensures taken { TakesClocks held.now result.0 moments.old.items moments.new.items }
    ensures few { vec_len moments.new ≤ limit }
    ensures end { StopsAt result.1 (vec_len moments.new) limit (drop result.0 held.now) }
{
    let mut rest = held;
    let end = loop {
        let (moment, behind) = match split_clock(rest) {
            Ok(split) => split,
            Err(end) => break end,
        };
        if moments.len() >= limit {
            break ClocksEnd::Full;
        }
        if moments.reserve(1).is_err() {
            break ClocksEnd::Memory;
        }
        moments.push_reserved(moment);
        rest = behind;
    };
    (held.len() - rest.len(), end)
}

/// The moment of the clock whose line stands at the front of some bytes, and what follows it. `Err` is why no line of a clock does.
#[tactic(auto, using(crate::proofs::Taking::other_refused, crate::proofs::Taking::clock_read))]
fn split_clock(rest: &[u8]) -> Result<(u64, &[u8]), ClocksEnd>
    ensures { MatchResult result (λ r. IsClockRead rest.now r.0 r.1.now)
        (λ e. IsNoClockEnd e rest.now) }
{
    let Some((event, behind)) = split_event(rest) else {
        return Err(end_of(rest));
    };
    let Some(moment) = moment_of(event) else {
        return Err(ClocksEnd::Refused);
    };
    Ok((moment, behind))
}

/// Why bytes that do not begin with the line of an event do not begin with that of a clock.
#[tactic(auto, using(crate::proofs::Taking::front_refused))]
fn end_of(rest: &[u8]) -> ClocksEnd
    requires { IsRefused rest.now }
    ensures { IsNoClockEnd result rest.now }
{
    if is_part(rest) {
        ClocksEnd::Part
    } else {
        ClocksEnd::Refused
    }
}

/// The moment that a clock shows. `None`: the event is no clock.
fn moment_of(event: Event) -> Option<u64>
    ensures { MatchOption result (IsOther event) (λ t. event ≡ Event.Clock t) }
{
    match event {
        Event::Clock(moment) => Some(moment),
        Event::Start(_) | Event::Finish(..) | Event::Cancel(_) => None,
    }
}
