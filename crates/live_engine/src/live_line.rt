//! A line of the input, and what it means.
ghost use Rattle.std.specs.Prelude.{◌≡◌};
ghost use Rattle.live_engine.specs.LiveLines as meanings;

use call_text::CallLine;
use executor_model::Event;

/// A line of the input.
#[derive(Clone, Copy, Debug, PartialEq, Eq)]
pub enum LiveLine {
    /// Of an event.
    Event(Event),
    /// Of a call.
    Call(CallLine),
}

/// A line as it is taken, where so many numbers were given out: a call that cancels one that was not is the event that cancels it.
#[inline(always)]
pub(crate) fn meant(numbers: u64, line: LiveLine) -> LiveLine
    ensures { result ≡ meanings.meant numbers line }
{
    match line {
        LiveLine::Call(CallLine::Cancel(task)) if task as u64 >= numbers => {
            LiveLine::Event(Event::Cancel(task))
        }
        line => line,
    }
}
