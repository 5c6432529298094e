//! How many bytes the shapes of happenings and of lines take, and that a happening is kept as it is.
use executor_model::{Answer, Event, Happening, KeptHappening, Line, Message, Outcome};
use sched_time::Ending;
use std::process::Abort;
use std::test::Fail;

/// The name of each shape, the bytes that it takes, and those that it is to take.
const SHAPES: &[(&str, usize, usize)] = &[
    ("Line", size_of::<Line>(), 32),
    ("KeptHappening", size_of::<KeptHappening>(), 16),
    ("Message", size_of::<Message>(), 40),
    ("Answer", size_of::<Answer>(), 32),
    ("Happening", size_of::<Happening>(), 24),
    ("Event", size_of::<Event>(), 24),
    ("Ending", size_of::<Ending>(), 16),
    ("Outcome", size_of::<Outcome>(), 16),
];

/// Three shapes nest another enum, and each nesting takes eight bytes, since the inner tag has its place beside the outer
/// one: `Message::Answer(Answer)` in `Message`, `Answer::Finish { outcome: Outcome, .. }` in `Answer`, and
/// `Finish(u8, Ending)` in `Happening` and `Event`. They stand so in the public calls, so these shapes take no less; what
/// lists hold does not nest: a `Line` takes less than its `Message`, and a `KeptHappening` less than a `Happening`.
#[test]
fn shapes_take_so_many_bytes(rt: HostRuntime) -> Result<(), Fail> {
    for (name, bytes, wanted) in SHAPES {
        println!(rt; "{name}: {bytes} bytes")?;
        assert!(rt; bytes == wanted, "of {name}");
    }
    Ok(())
}

/// A happening of each kind.
const HAPPENINGS: &[Happening] = &[
    Happening::Call,
    Happening::Clock(u64::MAX),
    Happening::Start(255),
    Happening::Finish(63, Ending::Value(u64::MAX)),
    Happening::Finish(63, Ending::Fault(u32::MAX)),
    Happening::Cancel(u32::MAX),
    Happening::Purge,
];

#[test]
fn a_kept_happening_is_the_one_that_was_kept(rt: HostRuntime) {
    for happening in HAPPENINGS {
        let kept = KeptHappening::new(*happening).happening();
        assert!(rt; kept == *happening, "{happening:?}");
    }
}
