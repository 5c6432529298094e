//! Where things stand in a picture, in pixels from the left and from the top.

ghost use Rattle.std.specs.Prelude.{◌≡◌, ◌≤◌};
ghost use Rattle.trace_svg.specs.Places.{across, end_across, bar_width, glyph_by, glyph_of, height_of, lane_top, axis_top};

use crate::elements::Glyph;
use executor_model::{Answer, Message};
use trace_draw::{Bar, Finish, Window, place};

/// How wide a picture is.
pub const WIDTH: u32 = 1240;

/// Where its part for time begins.
pub const TIME_BEGINS: u32 = 110;

/// Where its part for time ends.
pub const TIME_ENDS: u32 = 1170;

/// Where a moment stands.
pub fn across(window: Window, moment: u64) -> u32
    ensures place { result ≡ across window moment }
    ensures within { result ≤ TIME_ENDS }
{
    TIME_BEGINS + place(window, TIME_ENDS - TIME_BEGINS, moment)
}

/// Where a run ends.
fn end_across(window: Window, finish: Option<Finish>) -> u32
    ensures place { result ≡ end_across window finish }
    ensures within { result ≤ TIME_ENDS }
{
    match finish {
        Some(finish) => across(window, finish.moment),
        None => TIME_ENDS,
    }
}

/// How wide the bar of a run is.
pub fn bar_width(window: Window, bar: &Bar) -> u32
    ensures width { result ≡ bar_width window bar.now }
    ensures within { result ≤ TIME_ENDS }
{
    let right = end_across(window, bar.finish);
    right.saturating_sub(across(window, bar.first)).max(3)
}

/// The mark of what a line says. A start and a finish of a run, and a purge, are no marks.
pub fn glyph_of(message: Message) -> Glyph
    ensures { result ≡ glyph_of message }
{
    match message {
        Message::Answer(answer) => glyph_by(answer),
        Message::End(_) => Glyph::End,
    }
}

/// The mark of an answer.
fn glyph_by(answer: Answer) -> Glyph
    ensures { result ≡ glyph_by answer }
{
    match answer {
        Answer::Submit { .. } => Glyph::Submit,
        Answer::Refuse { .. } => Glyph::Refuse,
        Answer::Cancel { .. } => Glyph::Cancel,
        Answer::Outside { .. } => Glyph::Outside,
        Answer::Policy { .. } => Glyph::Policy,
        Answer::Shutdown | Answer::ShutdownAgain | Answer::ShutdownNow => Glyph::Shutdown,
        Answer::Ask { .. } => Glyph::Ask,
        Answer::Clock => Glyph::Clock,
        Answer::Error(_) => Glyph::Error,
        Answer::Start { .. } | Answer::Idle { .. } | Answer::Finish { .. } | Answer::Purge => {
            Glyph::Idle
        }
    }
}

/// Where the marks of a kind stand.
pub fn height_of(glyph: Glyph) -> u32
    ensures height { result ≡ height_of glyph }
    ensures within { result ≤ 152 }
{
    match glyph {
        Glyph::Submit | Glyph::Refuse => 62,
        Glyph::Cancel | Glyph::Outside => 80,
        Glyph::End => 98,
        Glyph::Policy | Glyph::Shutdown | Glyph::Ask => 116,
        Glyph::Clock => 134,
        Glyph::Idle | Glyph::Error => 152,
    }
}

/// Where the lane of a worker begins.
pub fn lane_top(worker: u8) -> u32
    ensures top { result ≡ lane_top worker }
    ensures within { result ≤ 7312 }
{
    172 + 28 * u32::from(worker)
}

/// Where the axis of a picture with so many workers stands.
pub fn axis_top(workers: u8) -> u32
    ensures { result ≡ axis_top workers }
{
    lane_top(workers) + 2
}
