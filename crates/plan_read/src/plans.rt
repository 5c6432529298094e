//! Plans, as they were read.

ghost use Rattle.std.specs.Prelude.{◌≡◌};
ghost use Rattle.plan_read.specs.Plans.{tasks_after, is_submission, IsOrdered};
ghost use Rattle.plan_read.specs.Writes.{IsPlan};

use crate::task_names::Name;
use sched_time::{Span, Unit, Which};
use std::alloc::Allocator;
use std::marker::Model;

/// A submission of a plan.
#[derive(Clone, Copy, Debug, PartialEq, Eq)]
pub struct Target {
    /// Its block, numbered from 0.
    pub block: usize,
    /// Which of the block's submissions it is, numbered from 0, illegal ones among them.
    pub sub: usize,
}

/// What a call asks for.
#[derive(Debug, Drop)]
pub enum Op {
    /// A task runs once, after a delay.
    Schedule {
        /// Its name, which no other submission of the plan has.
        name: Name,
        /// From the call's moment to the task's due moment.
        delay: Span,
    },
    /// A task runs once, and is due at the call's moment. Java SE 17, `ScheduledThreadPoolExecutor.execute`:
    /// "Executes command with zero required delay. This has effect equivalent to schedule(command, 0, anyUnit)."
    Execute {
        /// Its name, which no other submission of the plan has.
        name: Name,
    },
    /// A task runs again and again, each run due a period after the due moment of the one before.
    Rate {
        /// Its name, which no other submission of the plan has.
        name: Name,
        /// From the call's moment to the due moment of the first run.
        first: Span,
        /// At least 1 nanosecond; none where the plan writes one that is zero or negative.
        period: Option<Span>,
    },
    /// A task runs again and again, each run due a delay after the end of the one before.
    Fixed {
        /// Its name, which no other submission of the plan has.
        name: Name,
        /// From the call's moment to the due moment of the first run.
        first: Span,
        /// At least 1 nanosecond; none where the plan writes one that is zero or negative.
        delay: Option<Span>,
    },
    /// A task is cancelled: that of a submission which stands before the call, of the same iteration
    /// in its own block, or in an earlier block that is made once.
    Cancel(Target),
    /// A policy is set.
    Policy {
        /// The policy.
        which: Which,
        /// Its new value.
        value: bool,
    },
    /// The executor is shut down.
    Shutdown,
    /// The executor is shut down at once, as `ExecutorService.shutdownNow` does it.
    ShutdownNow,
    /// The executor is asked how it stands.
    Ask,
}

impl Op {
    /// Whether a task is submitted, also where its period or its fixed delay is illegal.
    pub fn is_submission(&self) -> bool
        ensures { result ≡ is_submission self.now }
    {
        matches!(
            self,
            Op::Schedule { .. } | Op::Execute { .. } | Op::Rate { .. } | Op::Fixed { .. }
        )
    }
}

/// A call of a block.
#[derive(Debug, Drop)]
pub struct Call {
    /// Its offset in the block, 0 to 2^62 nanoseconds.
    pub at: u64,
    /// What it asks for.
    pub op: Op,
}

/// When the calls of a block are made.
#[derive(Clone, Copy, Debug)]
pub struct Header {
    pub at: u64,
    pub unit: Unit,
    pub times: u32,
    pub every: u64,
}

/// A block of calls.
#[derive(Debug, Drop)]
pub struct Block<A: Allocator> {
    header: Header,
    calls: Vec<Call, A>,
}

impl<A: Allocator> Model for Block<A> {
    ghost use Rattle.plan_read.specs.Plans.{BlockTree};

    ghost Value = { BlockTree };

    ghost view = { λ b. record { header = b.header; calls = b.calls.items } };
}

impl<A: Allocator> Block<A> {
    /// A block of these calls.
    pub(crate) fn new(header: Header, calls: Vec<Call, A>) -> Block<A>
        ensures { result ≡ record { header = header; calls = calls.items } }
    {
        Block { header, calls }
    }

    /// When its calls are made.
    pub(crate) fn header(&self) -> Header
        ensures { result ≡ self.now.header }
    {
        self.header
    }

    /// The moment of its first iteration, from which its calls are counted: 0 to 2^62 nanoseconds.
    pub fn at(&self) -> u64
        ensures { result ≡ self.now.header.at }
    {
        self.header.at
    }

    /// The unit in which its text gives times, and nanoseconds for a text of version 2, where each time has its own.
    /// All times of a plan are in nanoseconds.
    pub fn unit(&self) -> Unit
        ensures { result ≡ self.now.header.unit }
    {
        self.header.unit
    }

    /// How often its calls are made, 1 to 65,536 times.
    pub fn times(&self) -> u32
        ensures { result ≡ self.now.header.times }
    {
        self.header.times
    }

    /// From the moment of an iteration to that of the next, 0 to 2^62 nanoseconds.
    pub fn every(&self) -> u64
        ensures { result ≡ self.now.header.every }
    {
        self.header.every
    }

    /// Its calls in the order of the text, at most 256.
    pub fn calls(&self) -> &[Call]
        ensures { result.now ≡ self.now.calls }
    {
        self.calls.as_slice()
    }
}

/// What a plan text writes: blocks of calls, which are made in order.
#[derive(Debug, Drop)]
pub struct Plan<A: Allocator> {
    blocks: Vec<Block<A>, A>,
}

impl<A: Allocator> Model for Plan<A> {
    ghost use Rattle.plan_read.specs.Plans.{PlanTree};
    ghost use Rattle.plan_read.specs.Writes.{IsPlan};

    ghost Value = { PlanTree };

    ghost view = { λ p. p.blocks.items };

    ghost invariant = { λ p. IsPlan p.blocks.items };
}

impl<A: Allocator> Plan<A> {
    /// A plan of these blocks.
    pub(crate) fn new(blocks: Vec<Block<A>, A>) -> Plan<A>
        requires { IsPlan blocks.items }
        ensures { result ≡ blocks.items }
    {
        Plan { blocks }
    }

    /// Its blocks in the order of the text, at most 256.
    ///
    /// The calls of the blocks, iteration by iteration, are at most 65,536, and their moments do not
    /// fall. Moments, offsets and spans are at most 2^62 nanoseconds, and a period or a fixed delay is
    /// at least 1. The target of a cancel stands before it.
    pub fn blocks(&self) -> &[Block<A>]
        ensures blocks { result.now ≡ self.now }
        ensures written { IsPlan self.now }
        ensures ordered { IsOrdered self.now }
    {
        self.blocks.as_slice()
    }
}
