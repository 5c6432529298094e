//! The window of a whole trace.
ghost use Rattle.std.specs.Prelude.{◌≡◌};
ghost use Rattle.trace_draw.specs.Whole.{least_moment, greatest_moment};

use crate::window::Window;
use executor_model::Line;

/// The smallest window that shows each line: from their least moment to their greatest. Of a trace that conforms these are the
/// moments of the first line and of the last one. Where there is no line it is from 0 to 0.
pub fn whole_window(lines: &[Line]) -> Window
    ensures from { result.from ≡ least_moment lines.now }
    ensures to { result.to ≡ greatest_moment lines.now }
{
    let [first, rest @ ..] = lines else {
        return Window::at(0);
    };
    let mut window = Window::at(first.moment());
    for line in rest {
        window = window.with(line.moment());
    }
    window
}
