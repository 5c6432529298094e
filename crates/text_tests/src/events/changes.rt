//! Lines of events with one byte changed, left out, doubled or put in: what they spell is told here by their words.
use executor_model::Event;
use sched_time::Ending;
use std::process::Abort;
use std::test::Fail;
use trace_text::{Front, MOST_EVENT_BYTES, front_event, read_event};

/// Lines of each form.
const LINES: [&[u8]; 10] = [
    b"clock 0\n",
    b"clock 50\n",
    b"start 7\n",
    b"start 255\n",
    b"finish 0 ok 7\n",
    b"finish 25 ok 10\n",
    b"finish 1 fail 0\n",
    b"finish 2 fail 94\n",
    b"cancel 0\n",
    b"cancel 12\n",
];

/// What is put in the place of a byte, and in front of it.
const OTHERS: &[u8] = b"\0\t\n\r +-./019:;AEaeklort~\x7f\x80\xc3\xff";

/// The number that a word is: a decimal with no sign and no leading zero.
fn number(word: &str) -> Option<u64> {
    let has_leading_zero = word.starts_with('0') && word != "0";
    if word.starts_with('+') || has_leading_zero {
        return None;
    }
    word.parse::<u64>().ok()
}

/// How a run ended, by two words.
fn ending(verb: &str, word: &str) -> Option<Ending> {
    let number = number(word)?;
    match verb {
        "ok" => Some(Ending::Value(number)),
        "fail" => Some(Ending::Fault(u32::try_from(number).ok()?)),
        _ => None,
    }
}

/// The event that a line spells, by its words: a space stands between two, and a newline behind the last.
fn by_words(line: &[u8]) -> Option<Event> {
    let text = std::str::from_utf8(line).ok()?;
    let mut words = text.strip_suffix('\n')?.split(' ');
    let verb = words.next()?;
    let number = number(words.next()?)?;
    let Some(how) = words.next() else {
        return match verb {
            "clock" => Some(Event::Clock(number)),
            "start" => Some(Event::Start(u8::try_from(number).ok()?)),
            "cancel" => Some(Event::Cancel(u32::try_from(number).ok()?)),
            _ => None,
        };
    };
    let ending = ending(how, words.next()?)?;
    if verb != "finish" || words.next().is_some() {
        return None;
    }
    Some(Event::Finish(u8::try_from(number).ok()?, ending))
}

/// What stands at the front of some bytes, by the words of their first line.
fn front_by_words(bytes: &[u8]) -> Front {
    let Some(at) = bytes.iter().position(|byte| *byte == b'\n') else {
        return if bytes.len() < MOST_EVENT_BYTES {
            Front::Part
        } else {
            Front::Refused
        };
    };
    let end = at.saturating_add(1);
    match bytes.get(..end).and_then(by_words) {
        Some(event) => Front::Event(event, end),
        None => Front::Refused,
    }
}

/// Checks that three pieces, one behind the other, are read as their words say, and tells whether they spell an event.
fn is_read_by_words(
    rt: &(impl AllocGlobal + Abort),
    front: &[u8],
    bytes: &[u8],
    rest: &[u8],
) -> Result<bool, Fail> {
    let text = [front, bytes, rest].concat(rt.alloc())?;
    let read = read_event(&text);
    assert!(rt; read == by_words(&text), "{text:?}");
    assert!(rt; front_event(&text) == front_by_words(&text), "{text:?}");
    Ok(read.is_some())
}

/// Checks each change of a line at one place, where it has a byte behind `front`, and counts those that spell an event.
fn changes_at(
    rt: &(impl AllocGlobal + Abort),
    front: &[u8],
    byte: u8,
    rest: &[u8],
) -> Result<u32, Fail> {
    let mut events = 0u32;
    for other in OTHERS {
        let changed = is_read_by_words(rt, front, &[*other], rest)?;
        let longer = is_read_by_words(rt, front, &[*other, byte], rest)?;
        events = events.saturating_add(u32::from(changed));
        events = events.saturating_add(u32::from(longer));
    }
    let shorter = is_read_by_words(rt, front, b"", rest)?;
    let doubled = is_read_by_words(rt, front, &[byte, byte], rest)?;
    events = events.saturating_add(u32::from(shorter));
    Ok(events.saturating_add(u32::from(doubled)))
}

/// Checks each change of a line at each place, and counts those that spell an event.
fn changes_of(rt: &(impl AllocGlobal + Abort), line: &[u8]) -> Result<u32, Fail> {
    let mut events = 0u32;
    for at in 0..line.len() {
        let (front, rest) = line.split_at(at);
        if let [byte, rest @ ..] = rest {
            events = events.saturating_add(changes_at(rt, front, *byte, rest)?);
        }
    }
    Ok(events)
}

#[test]
fn reads_each_change_of_a_line_by_its_words(rt: HostRuntime) -> Result<(), Fail> {
    let mut events = 0u32;
    for line in LINES {
        is_read_by_words(&rt, line, b"", b"")?;
        events = events.saturating_add(changes_of(&rt, line)?);
    }
    // Of 6,786 changes.
    assert_eq!(rt; events, 202);
    Ok(())
}

#[test]
fn reads_no_event_of_one_byte(rt: HostRuntime) {
    for byte in 0..=255u8 {
        let alone = read_event(&[byte]);
        let line = read_event(&[byte, b'\n']);
        assert!(rt; alone.is_none() && line.is_none(), "{byte}");
    }
}
