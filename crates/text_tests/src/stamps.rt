//! Lines one behind the other, of one moment and of others.
use executor_model::{Answer, Line, Message};
use std::process::Abort;
use trace_text::{LINE_ROOM, Stamp, put_line};

/// Moments of lines, one behind the other.
const MOMENTS: &[u64] = &[4, 4, u64::MAX, u64::MAX, 0, 12, 12];

/// The text of lines that tell of the clock at these moments.
const TEXT: &str =
    "4 clock\n4 clock\n18446744073709551615 clock\n18446744073709551615 clock\n0 clock\n12 clock\n12 clock\n";

#[test]
fn lines_in_a_row_have_their_moments(rt: HostRuntime) {
    let mut buffer = [b'x'; 512];
    let mut stamp = Stamp::new(4);
    let mut end = 0;
    for moment in MOMENTS {
        assert!(rt; buffer.len().saturating_sub(end) >= LINE_ROOM);
        let message = Message::Answer(Answer::Clock);
        end = put_line(&mut buffer, end, &mut stamp, &Line::new(*moment, message));
    }
    assert!(rt; end <= buffer.len());
    assert!(rt; &buffer[..end] == TEXT.as_bytes());
}
