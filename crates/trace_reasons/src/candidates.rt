//! Lines that may be wanted where a text breaks.

use crate::asked::Asked;
use crate::replay::Replay;
use crate::scene::Scene;
use executor_model::{Answer, EventError, Happening, Line, Message};
use sched_time::Ending;
use std::alloc::{AllocError, Allocator};

impl<A: Allocator + Copy, B: Allocator> Scene<'_, '_, A, B> {
    /// Lines that may be wanted in place of the one that stands there, what is wanted most first. One may come twice. `Err` is a
    /// refused growth.
    pub fn candidates(&self, found: Option<&[u8]>) -> Result<Vec<Line, A>, AllocError> {
        let replay = self.replay()?;
        let mut lines = Vec::new(self.alloc);
        if let Some(owed) = replay.owed() {
            lines.push(owed)?;
            return Ok(lines);
        }
        let moment = replay.moment();
        let asked = Asked::of_line(self.alloc, found.unwrap_or(b""))?;
        self.add_answers(&mut lines, tries(asked, moment))?;
        if lines.is_empty() {
            self.add_answers(&mut lines, tries(Asked::NOTHING, moment))?;
        }
        Ok(lines)
    }

    /// The executor behind the lines before the break. `Err` is a refused growth.
    fn replay(&self) -> Result<Replay<A>, AllocError> {
        Replay::over(self.alloc, self.plan, self.workers, self.before)
    }

    /// Adds what is answered to each of some happenings. `Err` is a refused growth.
    fn add_answers(
        &self,
        lines: &mut Vec<Line, A>,
        happenings: [Option<Happening>; 3],
    ) -> Result<(), AllocError> {
        for happening in happenings.into_iter().flatten() {
            self.add_answer(lines, happening)?;
        }
        Ok(())
    }

    /// Adds what is answered to a happening, and before it what may be wanted in its place. `Err` is a refused growth.
    fn add_answer(&self, lines: &mut Vec<Line, A>, happening: Happening) -> Result<(), AllocError> {
        let Some(line) = self.replay()?.answer_to(happening)? else {
            return Ok(());
        };
        if let Some(other) = in_place_of(happening, &line)
            && let Some(line) = self.replay()?.answer_to(other)?
        {
            lines.push(line)?;
        }
        Ok(lines.push(line)?)
    }
}

/// What is tried at a moment for a line that is about this, what is wanted most first.
fn tries(asked: Asked, now: u64) -> [Option<Happening>; 3] {
    let moment = asked.moment.unwrap_or(now).max(now);
    let clock = Some(Happening::Clock(moment));
    let later = clock.filter(|_| moment > now);
    match asked.happening {
        Some(Happening::Clock(shown)) => {
            let ahead = later.filter(|_| moment != shown);
            let unmoved = (shown < now).then_some(Happening::Clock(now));
            [ahead, asked.happening, unmoved]
        }
        Some(Happening::Call) => [asked.happening, later, None],
        Some(_) => [later, asked.happening, None],
        None => [Some(Happening::Call), clock, Some(Happening::Start(0))],
    }
}

/// What may be wanted in place of a happening that is answered by this line: a worker that runs a task is to end it before it
/// starts, and one that runs none is to start before it ends.
fn in_place_of(happening: Happening, line: &Line) -> Option<Happening> {
    match (happening, line.message()) {
        (Happening::Start(worker), Message::Answer(Answer::Error(EventError::Busy))) => {
            Some(Happening::Finish(worker, Ending::Value(0)))
        }
        (Happening::Finish(worker, _), Message::Answer(Answer::Error(EventError::NotRunning))) => {
            Some(Happening::Start(worker))
        }
        _ => None,
    }
}
