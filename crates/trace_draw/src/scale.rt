//! Where a moment stands in a picture.
ghost use Rattle.std.specs.Prelude.{◌≡◌};
ghost use Rattle.trace_draw.specs.Scale.{place_of};

use crate::window::Window;

/// Where a moment stands in a picture of this width that shows a window: 0 at its first moment, the width at its last one.
///
/// A moment before the window stands at 0, and one behind it at the width. Between the two it is the moment's part of the
/// width, rounded down. All stand at 0 where the window is of one moment.
pub fn place(window: Window, width: u32, moment: u64) -> u32
    ensures { result ≡ place_of window width moment }
{
    let (from, to) = (window.from(), window.to());
    if from == to {
        return 0;
    }
    let passed = moment.max(from).min(to) - from;
    (passed as u128 * width as u128 / (to - from) as u128) as u32
}
