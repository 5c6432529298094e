//! Windows, and that of a whole trace.
use super::*;
use trace_draw::whole_window;

/// The ends of windows, and whether there is one from the first to the second.
const ENDS: &[(u64, u64, bool)] = &[(3, 2, false), (3, 3, true), (0, u64::MAX, true)];

#[test]
fn a_window_does_not_end_before_it_begins(rt: HostRuntime) {
    for (from, to, is_one) in ENDS {
        match Window::new(*from, *to) {
            Some(window) => assert!(rt; *is_one && window.from() == *from && window.to() == *to),
            None => assert!(rt; !*is_one, "{from} {to}"),
        }
    }
}

/// Texts, and the ends of their windows.
const WHOLE: &[(&str, u64, u64)] = &[
    ("", 0, 0),
    ("7 clock\n", 7, 7),
    (TRACE, 0, 30),
    ("7 clock\n9 clock\n5 clock\n8 clock\n", 5, 9),
];

#[test]
fn a_whole_trace_is_from_its_least_moment_to_its_greatest(rt: HostRuntime) -> Result<(), Fail> {
    for (text, from, to) in WHOLE {
        let lines = lines_of(rt.alloc(), text)?;
        let window = whole_window(&lines);
        assert!(rt; window.from() == *from && window.to() == *to, "{text}");
    }
    Ok(())
}
