//! How what a command line asks for ended.

ghost use Rattle.std.specs.Prelude.{◌≡◌};
ghost use Rattle.sched_program.specs.Told.{in_status};

use command_work::{ProgramError, Refusal};

/// How what a command line asks for ended, where it did not end by an error.
#[derive(Debug, Drop)]
pub enum Answer {
    /// With this exit status: 0, or 1 where a trace breaks, or 2 where the command line is not taken.
    Status(u8),
    /// With this exit status, 0, or 1 where a warning is a fault: nothing is wrong, and these lines for standard error tell what is odd.
    Warned(Vec<Refusal>, u8),
    /// With exit status 1: a file is refused, and this line for standard error says why.
    Refused(Refusal),
}

/// An end with an exit status, or with an error, as an answer.
pub fn in_status(ended: Result<u8, ProgramError>) -> Result<Answer, ProgramError>
    ensures { result ≡ in_status ended }
{
    match ended {
        Ok(status) => Ok(Answer::Status(status)),
        Err(error) => Err(error),
    }
}
