//! The submissions of a plan, one after the other.

ghost use Rattle.std.specs.Prelude.{◌≡◌, ◌≤◌};
ghost use Rattle.sched_time.specs.Times.{longest};
ghost use Rattle.plan_compile.specs.Submissions.{submission_by, submissions_of_plan};

use crate::place::Place;
use crate::submission::Submission;
use executor_model::Kind;
use plan_read::{Op, Plan};
use std::alloc::Allocator;
use std::marker::Model;

/// The submissions of a plan, in ascending number, each iteration of a repeated block written out. Contracts see those that
/// are left. It takes no memory.
#[derive(Drop)]
pub struct Submissions<'a, A: Allocator> {
    place: Place<'a, A>,
    /// The number of the next task.
    task: u32,
}

impl<'a, A: Allocator> Model for Submissions<'a, A> {
    ghost use Rattle.std.specs.Prelude.{◌+◌, ◌≤◌, List, length};
    ghost use Rattle.queue_code.specs.Calls.{most_calls_of_code};
    ghost use Rattle.plan_compile.specs.Submissions.{Submitted, submitted_from};

    ghost Value = { List Submitted };

    ghost view = { λ s. submitted_from s.task s.place };

    ghost invariant = { λ s. s.task + length (submitted_from s.task s.place) ≤ most_calls_of_code };
}

impl<'a, A: Allocator> Submissions<'a, A> {
    /// Those of a plan.
    pub fn new(plan: &'a Plan<A>) -> Submissions<'a, A>
        ensures { result ≡ submissions_of_plan plan.now }
    {
        Submissions {
            place: Place::before(plan.blocks(), 0),
            task: 0,
        }
    }
}

impl<'a, A: Allocator> Iterator for Submissions<'a, A> {
    ghost use Rattle.std.specs.Iterator.{YieldsFirst, item_count};

    type Item = Submission<'a>;

    ghost next_gives = { YieldsFirst (λ s. s) };

    ghost remaining = { item_count (λ s. s) };

    fn next(&mut self) -> Option<Submission<'a>> {
        while let Some((moment, op)) = self.place.next() {
            if let Some(submission) = submission_by(self.task, moment, op) {
                self.task += 1;
                return Some(submission);
            }
        }
        None
    }
}

/// The submission that an operation makes at a moment as the task of this number, if it makes one.
fn submission_by(task: u32, moment: u64, op: &Op) -> Option<Submission<'_>>
    requires { moment ≤ longest }
    ensures { result ≡ submission_by task moment op.now }
{
    let (name, kind, due) = match op {
        Op::Schedule { name, delay } => (name, Kind::Schedule, Some(moment + delay.nanos())),
        Op::Execute { name } => (name, Kind::Schedule, Some(moment)),
        Op::Rate {
            name,
            first,
            period,
        } => (name, Kind::Rate, period.map(|_| moment + first.nanos())),
        Op::Fixed { name, first, delay } => {
            (name, Kind::Fixed, delay.map(|_| moment + first.nanos()))
        }
        _ => return None,
    };
    Some(Submission {
        task,
        name,
        kind,
        moment,
        due,
    })
}
