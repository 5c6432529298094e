//! The executor behind the lines of a trace.

use executor_core::{Core, make_room};
use executor_model::{Answer, Happening, Line, Message, Outcome};
use plan_compile::compile;
use plan_read::Plan;
use sched_time::Ending;
use std::alloc::{AllocError, Allocator};

/// The executor of a plan, behind the lines of a trace.
#[derive(Drop)]
pub struct Replay<A: Allocator> {
    core: Core<A>,
    /// The lines of the last answer.
    answer: Vec<Line, A>,
    /// How many of them stand in the trace.
    met: usize,
}

impl<A: Allocator> Replay<A> {
    /// The executor behind these lines, which the plan allows. `Err` is a refused growth.
    pub fn over<B: Allocator>(
        alloc: A,
        plan: &Plan<B>,
        workers: u8,
        lines: &[Line],
    ) -> Result<Replay<A>, AllocError>
    where
        A: Copy,
    {
        let code = compile(alloc, plan).map_err(|_| AllocError)?;
        let core = Core::new(alloc, code, workers, u32::MAX).map_err(|_| AllocError)?;
        let mut replay = Replay {
            core,
            answer: Vec::new(alloc),
            met: 0,
        };
        for line in lines {
            replay.take(line)?;
        }
        Ok(replay)
    }

    /// The moment, in nanoseconds.
    pub fn moment(&self) -> u64 {
        self.core.now()
    }

    /// The line of the last answer that is to stand next, if one is left.
    pub fn owed(&self) -> Option<Line> {
        self.answer.get(self.met).copied()
    }

    /// The first line that is answered to a happening, or to the call of the plan that comes before it; none where neither may
    /// come.
    /// `Err` is a refused growth.
    pub fn answer_to(mut self, happening: Happening) -> Result<Option<Line>, AllocError> {
        match self.happen(happening)? {
            Some(line) => Ok(Some(line)),
            None => self.happen(Happening::Call),
        }
    }

    /// Takes the next line. `Err` is a refused growth.
    fn take(&mut self, line: &Line) -> Result<(), AllocError> {
        match line.message() {
            Message::Answer(said) => {
                if let Some(happening) = happening_of(line.moment(), &said) {
                    self.happen(happening)?;
                }
            }
            Message::End(_) => self.met = self.met.saturating_add(1),
        }
        Ok(())
    }

    /// Makes a happening, where it may come: the first line of its answer. `Err` is a refused growth.
    fn happen(&mut self, happening: Happening) -> Result<Option<Line>, AllocError> {
        self.answer.clear();
        self.met = 0;
        if self.core.full() || !self.core.may_come(happening) {
            return Ok(None);
        }
        make_room(&mut self.answer, self.core.room())?;
        self.core.count();
        self.core.happen(happening, &mut self.answer);
        self.met = 1;
        Ok(self.answer.first().copied())
    }
}

/// The happening that gets this answer at this moment; none of an error, which changes nothing.
fn happening_of(moment: u64, said: &Answer) -> Option<Happening> {
    match said {
        Answer::Outside { task, .. } => Some(Happening::Cancel(*task)),
        Answer::Purge => Some(Happening::Purge),
        Answer::Clock => Some(Happening::Clock(moment)),
        Answer::Start { worker, .. } | Answer::Idle { worker } => Some(Happening::Start(*worker)),
        Answer::Finish {
            worker,
            outcome,
            ..
        } => Some(Happening::Finish(*worker, ending_of(*outcome))),
        Answer::Error(_) => None,
        _ => Some(Happening::Call),
    }
}

/// An ending of a run that leads to this outcome.
fn ending_of(outcome: Outcome) -> Ending {
    match outcome {
        Outcome::Done(value) => Ending::Value(value),
        Outcome::Failed(code) => Ending::Fault(code),
        Outcome::Again(_) | Outcome::Dropped | Outcome::Ended => Ending::Value(0),
    }
}
