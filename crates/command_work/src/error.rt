//! Why the program gives up, and the exit status that goes with it.

ghost use Rattle.std.specs.Prelude.{◌≡◌};
ghost use Rattle.command_work.specs.Errors.{of_drawing, status_of, IsToldAs, IsOfSystem, IsOrMemory};
ghost use Rattle.command_work.specs.declared.error.ProgramError.TheVariants.{Run};
ghost use Rattle.sched_engine.specs.declared.report.RunError.TheVariants.{Memory};

use plan_read::{PlanFault, PlanFaultKind};
use sched_engine::RunError;
use std::alloc::AllocError;
use std::io;
use std::io::ErrorKind;
use trace_svg::DrawError;

/// Why the program gives up.
#[derive(Clone, Copy, Debug, PartialEq, Eq)]
pub enum ProgramError {
    /// An argument of the command line is not UTF-8.
    Arguments,
    /// What a lint is to look at is left out, or does not go together.
    LintOptions,
    /// The plan file can't be read.
    PlanFile,
    /// The file of the plan that was asked for can't be created or written.
    PlanUnwritten,
    /// The trace file can't be read.
    TraceFile,
    /// The trace file is over 67,108,864 bytes.
    TraceTooLong,
    /// The picture ends before it begins.
    EndsFirst,
    /// The picture would show so many marks, or else bars, which is more than it may.
    Crowded(u64),
    /// The run, or what the program did besides, ended so.
    Run(RunError),
}

impl ProgramError {
    /// The exit status that goes with the error: 2 for the command line, else 1.
    pub fn status(self) -> u8
        ensures { result ≡ status_of self }
    {
        match self {
            ProgramError::Arguments | ProgramError::LintOptions => 2,
            ProgramError::PlanFile
            | ProgramError::PlanUnwritten
            | ProgramError::TraceFile
            | ProgramError::TraceTooLong
            | ProgramError::EndsFirst
            | ProgramError::Crowded(_)
            | ProgramError::Run(_) => 1,
        }
    }

    /// What an error of the system comes to: memory where memory ran out, else `other`.
    pub fn of_system(error: io::Error, other: ProgramError) -> ProgramError
        ensures kind { IsOfSystem error other result }
        ensures either { IsOrMemory other result }
    {
        if error.kind() == ErrorKind::OutOfMemory {
            ProgramError::Run(RunError::Memory)
        } else {
            other
        }
    }
}

impl From<AllocError> for ProgramError {
    ghost from_gives = { λ _ e. e ≡ Run Memory };

    fn from(_error: AllocError) -> ProgramError {
        ProgramError::Run(RunError::Memory)
    }
}

impl From<RunError> for ProgramError {
    ghost from_gives = { λ error told. IsToldAs error told };

    /// Want of memory while the plan is read is want of memory, and says nothing of the plan.
    fn from(error: RunError) -> ProgramError {
        match error {
            RunError::Plan(
                PlanFault {
                    kind: PlanFaultKind::Memory,
                    ..
                },
            ) => ProgramError::Run(RunError::Memory),
            other => ProgramError::Run(other),
        }
    }
}

impl From<DrawError> for ProgramError {
    ghost from_gives = { λ fault told. told ≡ of_drawing fault };

    fn from(fault: DrawError) -> ProgramError {
        match fault {
            DrawError::Workers => ProgramError::Run(RunError::Workers),
            DrawError::Window => ProgramError::EndsFirst,
            DrawError::Crowded { marks } => ProgramError::Crowded(marks),
            DrawError::Write => ProgramError::Run(RunError::Write),
            DrawError::Memory => ProgramError::Run(RunError::Memory),
        }
    }
}
