//! Lines and words by hand.
use crate::lines::{LONGEST, longest};
use executor_model::{Answer, Kind, Line, Message};
use std::process::Abort;
use std::test::Fail;
use trace_text::{LineText, kind_word};

#[test]
fn lines_are_shown_as_they_are_written(rt: HostRuntime) -> Result<(), Fail> {
    let clock = Message::Answer(Answer::Clock);
    for (line, text) in [
        (Line::new(5, Message::End(3)), "5 end 3\n"),
        (Line::new(0, clock), "0 clock\n"),
        (longest(), LONGEST),
    ] {
        let shown = format!(in rt.alloc(); "{}", LineText(line))?;
        assert!(rt; shown.as_str() == text, "{text}");
    }
    Ok(())
}

#[test]
fn kinds_have_words(rt: HostRuntime) {
    assert_eq!(rt; kind_word(Kind::Schedule), "schedule");
    assert_eq!(rt; kind_word(Kind::Rate), "rate");
    assert_eq!(rt; kind_word(Kind::Fixed), "fixed");
}
