//! What is asked of a book once its pool has ended, and its text.
ghost use Rattle.std.specs.Prelude.{◌≡◌, ◌≢◌, ℕ, ◌^◌, ◌≤◌, ◌↔◌, List, All, length, IsTrue, MatchOption, [], ◌∷◌};
ghost use Rattle.trace_text.specs.Spelling.{lines_text};
ghost use Rattle.trace_check.specs.Laws.{FitsHappening};
ghost use Rattle.byte_ends.specs.Ends.{CountsTries};
ghost use Rattle.pool_engine.specs.PoolRuns.{AreFirstOf, IsByPool, clocks_of, event_count};
ghost use Rattle.pool_engine.specs.own.Ended.{TextWritten};

use byte_ends::{Sink, write_text};
use executor_model::{Happening, KeptHappening, Line};
use sched_engine::Draft;
use sched_time::Ending;
use std::alloc::Allocator;

/// What the happenings of an ended book tell.
#[derive(Clone, Copy)]
pub struct Told {
    /// How many of them are events.
    pub events: usize,
    /// Whether the clocks among them show the first moments of the input, in order.
    pub shows_first: bool,
    /// Whether they show all of them.
    pub shows_all: bool,
    /// Whether each start and each finish is by one of the workers, and nothing is a cancel from outside or a purge.
    pub by_pool: bool,
}

/// What some happenings tell, the oldest first, where the input has these moments, and there are so many workers.
pub fn look_back(happened: &[KeptHappening], moments: &[u64], workers: u8) -> Told
    ensures events { result.events ≡ event_count happened.now }
    ensures first { IsTrue result.shows_first ↔ AreFirstOf (clocks_of happened.now) moments.now }
    ensures shows { IsTrue result.shows_all ↔ (clocks_of happened.now ≡ moments.now) }
    ensures by { IsTrue result.by_pool ↔ All (IsByPool workers) happened.now }
    ensures fit { All FitsHappening happened.now }
    ensures short { length happened.now ≤ 2 ^ 64 }
{
    let _length = happened.len();
    let mut events = 0;
    let mut left = moments;
    let mut shows = true;
    let mut by_pool = true;
    for kept in happened {
        let happening = kept.happening();
        prove_fits(happening);
        by_pool &= is_by_pool(happening, workers);
        match happening {
            Happening::Clock(moment) => {
                events += 1;
                match left_behind(moment, left) {
                    Some(rest) => left = rest,
                    None => shows = false,
                }
            }
            Happening::Start(_) | Happening::Finish(..) => events += 1,
            Happening::Call | Happening::Cancel(_) | Happening::Purge => {}
        }
    }
    Told {
        events,
        shows_first: shows,
        shows_all: shows && left.is_empty(),
        by_pool,
    }
}

/// The moments that follow this one, where it is the first of them. `None`: another one is, or there is none.
fn left_behind(moment: u64, moments: &[u64]) -> Option<&[u64]>
    ensures { MatchOption result ((rest : List ℕ) → moments.now ≢ moment ∷ rest)
        (λ rest. moment ∷ rest.now ≡ moments.now) }
{
    let (first, rest) = moments.split_first()?;
    if *first != moment {
        return None;
    }
    Some(rest)
}

/// Whether what happens is by a pool of so many workers to which no handle is out: no cancel from outside is, and no purge.
fn is_by_pool(happening: Happening, workers: u8) -> bool
    ensures { IsTrue result ↔ IsByPool workers happening }
{
    match happening {
        Happening::Start(worker) | Happening::Finish(worker, _) => worker < workers,
        Happening::Call | Happening::Clock(_) => true,
        Happening::Cancel(_) | Happening::Purge => false,
    }
}

/// What a happening hands in is in the range of its type.
fn prove_fits(happening: Happening)
    ensures { FitsHappening happening }
{
    if let Happening::Finish(_, ending) = happening {
        match ending {
            Ending::Value(_value) => {}
            Ending::Fault(_code) => {}
        }
    }
}

/// Writes the text of some lines. `false` is a fault of the sink, after a front of the text was written.
pub fn write_lines<A: Allocator, W: Sink>(
    draft: &mut Draft<A>,
    lines: &[Line],
    writer: &mut W,
) -> bool
    requires { draft.old ≡ [] }
    ensures text { TextWritten result (W.contents writer.old) (W.contents writer.new)
        (lines_text lines.now) }
    ensures counts { CountsTries result (W.failed writer.old) (W.fruitless writer.old)
        (W.failed writer.new) (W.fruitless writer.new) }
{
    draft.give_many(lines, writer) && write_text(writer, draft.bytes())
}
