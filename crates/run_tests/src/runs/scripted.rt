//! Runs whose ends follow a script: they give and take a few bytes at a time, are interrupted, are in trouble at one call, and
//! give without end.
use super::*;
use scripted_runs::ends::{Giving, Script, Taking, Trouble};

/// A run by 9 workers between ends with a script, and what it has to come to.
#[derive(Clone, Copy)]
pub struct ScriptedRow<'a> {
    pub plan: &'a str,
    pub limit: u32,
    pub events: &'a str,
    /// What the reader gives behind the events, again and again.
    pub again: &'a str,
    pub reader: Script,
    pub writer: Script,
    pub answer: Result<Report, RunError>,
    /// The text of which a front is written, and how many bytes that are at least and at most.
    pub text: &'a str,
    pub least: usize,
    pub greatest: usize,
}

impl<'a> ScriptedRow<'a> {
    /// The same between these ends.
    pub fn between(self, reader: Script, writer: Script) -> ScriptedRow<'a> {
        ScriptedRow {
            reader,
            writer,
            ..self
        }
    }

    /// The same with this answer, and so many bytes of the text.
    pub fn comes_to(
        self,
        answer: Result<Report, RunError>,
        least: usize,
        greatest: usize,
    ) -> ScriptedRow<'a> {
        ScriptedRow {
            answer,
            least,
            greatest,
            ..self
        }
    }
}

/// Checks what a run came to: its answer, that an end at fault was called no more, and what was written.
fn came_to(
    rt: &impl Abort,
    row: &ScriptedRow<'_>,
    answer: Result<Report, RunError>,
    reads: u32,
    writes: u32,
    taken: &[u8],
) {
    assert!(rt; answer == row.answer, "{answer:?}");
    assert!(rt; answer != Err(RunError::Read) || reads == row.reader.calls());
    assert!(rt; answer != Err(RunError::Write) || writes == row.writer.calls());
    assert!(rt; row.text.as_bytes().starts_with(taken));
    assert!(rt; row.least <= taken.len() && taken.len() <= row.greatest);
}

/// Checks a run.
pub fn plays(rt: &(impl AllocGlobal + Abort), row: &ScriptedRow<'_>) {
    let (events, again) = (row.events.as_bytes(), row.again.as_bytes());
    let (alloc, plan) = (rt.alloc(), row.plan.as_bytes());
    let mut reader = Reading::new(Giving::new(events, again, row.reader));
    let mut writer = Writing::new(Taking::new(alloc, row.writer));
    let answer = run(alloc, plan, 9, row.limit, &mut reader, &mut writer);
    let reads = reader.into_inner().calls();
    let sink = writer.into_inner();
    came_to(rt, row, answer, reads, sink.calls(), sink.taken());
}

/// An end that gives or takes so many bytes a call, is interrupted so often before each other one, and is in trouble at one.
pub fn script(most: usize, interrupts: u32, trouble_at: u32, trouble: Trouble) -> Script {
    Script {
        most,
        interrupts,
        trouble_at,
        trouble,
    }
}

/// The example, read in pieces of 8 bytes, which are its first lines.
fn example() -> ScriptedRow<'static> {
    ScriptedRow {
        plan: ONE_DELAY.plan,
        limit: 1_000_000,
        events: ONE_DELAY.events,
        again: "",
        reader: Script::smooth(8),
        writer: Script::smooth(65_536),
        answer: Ok(report(7, 8)),
        text: ONE_DELAY.trace,
        least: ONE_DELAY.trace.len(),
        greatest: ONE_DELAY.trace.len(),
    }
}

#[test]
fn fruitless_calls_are_tried_again(rt: HostRuntime) {
    let smooth = Script::smooth(1);
    let interrupted = script(8, 999, 0, Trouble::TakesNothing);
    for (reader, writer) in [
        (smooth, smooth),
        (interrupted, smooth),
        (smooth, interrupted),
        (interrupted, interrupted),
    ] {
        plays(&rt, &example().between(reader, writer));
    }
}

/// The example with a reader at fault after `clock 4` and its newline, and so with the first four lines.
#[test]
fn tells_a_fault_of_the_reader(rt: HostRuntime) {
    for (interrupts, kind, written) in [
        (0u32, ErrorKind::Other, 57usize),
        (999, ErrorKind::Other, 57),
        (999, ErrorKind::Interrupted, 57),
        (1_000, ErrorKind::Other, 0),
    ] {
        let reader = script(8, interrupts, 4, Trouble::Fails(kind));
        let row = example().between(reader, Script::smooth(65_536));
        plays(&rt, &row.comes_to(Err(RunError::Read), written, written));
    }
}

/// The example with a writer at fault after 24 bytes.
#[test]
fn tells_a_fault_of_the_writer(rt: HostRuntime) {
    for (interrupts, trouble, written) in [
        (0u32, Trouble::Fails(ErrorKind::BrokenPipe), 24usize),
        (0, Trouble::TakesNothing, 24),
        (999, Trouble::TakesNothing, 24),
        (999, Trouble::Fails(ErrorKind::Interrupted), 24),
        (1_000, Trouble::TakesNothing, 0),
    ] {
        let writer = script(8, interrupts, 4, trouble);
        let row = example().between(Script::smooth(8), writer);
        plays(&rt, &row.comes_to(Err(RunError::Write), written, written));
    }
}

#[test]
fn ends_on_readers_without_end(rt: HostRuntime) {
    let five = "0 clock\n0 clock\n0 clock\n0 clock\n0 clock\n";
    let interrupted = script(65_536, u32::MAX, 0, Trouble::TakesNothing);
    for (again, reader, fault, text) in [
        ("a", Script::smooth(1), RunError::EventLine(1), ""),
        ("a", Script::smooth(65_536), RunError::EventLine(1), ""),
        ("\n", Script::smooth(1), RunError::EventLine(1), ""),
        ("\n", Script::smooth(65_536), RunError::EventLine(1), ""),
        ("clock 0\n", Script::smooth(1), RunError::Full, five),
        ("clock 0\n", Script::smooth(65_536), RunError::Full, five),
        ("", interrupted, RunError::Read, ""),
    ] {
        let row = ScriptedRow {
            plan: "version = 1",
            limit: 5,
            events: "",
            again,
            reader,
            text,
            ..example()
        };
        plays(&rt, &row.comes_to(Err(fault), text.len(), text.len()));
    }
}
