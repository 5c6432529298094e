//! A submission of a plan.

use executor_model::Kind;
use plan_read::Name;
use std::marker::Model;

/// A submission of a plan, as it is made in one iteration of its block. Contracts see it with the bytes of its name.
#[derive(Debug, Drop)]
pub struct Submission<'a> {
    /// The number of its task.
    pub task: u32,
    /// Its name in the plan's text, which all iterations of its block share.
    pub name: &'a Name,
    /// Its kind; that of an `execute` is [`Kind::Schedule`].
    pub kind: Kind,
    /// The moment of its call, 0 to 2^62 nanoseconds.
    pub moment: u64,
    /// The due moment of its first run, at most 2^63 nanoseconds, and none where its period, or its fixed delay, is illegal.
    pub due: Option<u64>,
}

impl<'a> Model for Submission<'a> {
    ghost use Rattle.plan_compile.specs.Submissions.{Submitted};

    ghost Value = { Submitted };

    ghost view = { λ s. record { task = s.task; name = s.name.now; kind = s.kind; moment = s.moment; due = s.due } };
}
