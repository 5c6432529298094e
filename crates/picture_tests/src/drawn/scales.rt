//! Where moments stand.
use super::*;
use trace_draw::place;

/// Windows, widths and moments, and the places of these.
const PLACES: &[(u64, u64, u32, u64, u32)] = &[
    // The ends stand at the ends, and what is out of the window too.
    (100, 400, 900, 100, 0),
    (100, 400, 900, 400, 900),
    (100, 400, 900, 0, 0),
    (100, 400, 900, u64::MAX, 900),
    (100, 400, 900, 200, 300),
    (100, 400, 1, 399, 0),
    (100, 400, 0, 400, 0),
    // Places are exact in long windows.
    (0, u64::MAX, u32::MAX, u64::MAX, u32::MAX),
    (0, u64::MAX, u32::MAX, u64::MAX - 1, u32::MAX - 1),
    (0, u64::MAX, 1000, 1 << 63, 500),
    // A window of one moment has one place.
    (7, 7, 900, 6, 0),
    (7, 7, 900, 7, 0),
    (7, 7, 900, 8, 0),
];

/// The place of a moment in a window, if it is one.
fn placed(from: u64, to: u64, width: u32, moment: u64) -> Option<u32> {
    let shown = Window::new(from, to)?;
    Some(place(shown, width, moment))
}

#[test]
fn moments_stand_in_their_places(rt: HostRuntime) {
    for (from, to, width, moment, wanted) in PLACES {
        let placed = placed(*from, *to, *width, *moment);
        assert!(rt; placed == Some(*wanted), "{from} to {to}: {moment}");
    }
}
