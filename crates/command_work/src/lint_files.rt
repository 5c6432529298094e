//! The files that a lint reads, with the system's reason where one can't be read.

ghost use Rattle.std.specs.Prelude.{◌≡◌, ◌≤◌, None, Some, IfErr, IfOk, MatchResult, OnOk, length};
ghost use Rattle.command_work.specs.Fronts.{IsReadOf};
ghost use Rattle.command_work.specs.declared.error.ProgramError.TheVariants.{Run};
ghost use Rattle.sched_engine.specs.declared.report.RunError.TheVariants.{Memory};

use crate::error::ProgramError;
use crate::files::front_of;
use crate::refusal::Refusal;
use byte_ends::Source;
use line_reasons::FileName;
use sched_engine::RunError;
use std::alloc::{AllocError, Global};
use std::io;
use std::io::ErrorKind;

/// A file that notes its last fault.
#[derive(Drop)]
struct Noting<P: Source + Drop> {
    file: P,
    fault: Option<io::Error>,
}

impl<P: Source + Drop> Source for Noting<P> {
    ghost remaining = { λ s. P.remaining s.file };

    ghost failed = { λ s. P.failed s.file };

    ghost fruitless = { λ s. P.fruitless s.file };

    fn read(&mut self, buf: &mut [u8]) -> io::Result<usize> {
        let read = self.file.read(buf);
        if let Err(fault) = &read {
            self.fault = Some(*fault);
        }
        read
    }
}

/// The text of a file as the system opened it, `most` bytes of it at most; or, where it was not opened or is at fault before these were
/// read, the line that says so, with the file's name and the system's reason. `Err` is want of memory.
pub fn read_file<P: Source + Drop>(
    heap: Global,
    name: &str,
    opened: io::Result<P>,
    most: usize,
) -> Result<Result<Vec<u8>, Refusal>, ProgramError>
    ensures text { IfOk result
        (λ r. MatchResult r
        (λ text. IsReadOf P.remaining P.failed P.fruitless most opened (Some text.items))
        (λ line. IsReadOf P.remaining P.failed P.fruitless most opened None)) }
    ensures few { IfOk result (λ r. IfOk r (λ text. length text.items ≤ most)) }
    ensures fault { IfErr result (λ e. e ≡ Run Memory) }
{
    match opened {
        Ok(file) => read_opened(heap, name, file, most),
        Err(fault) if fault.kind() == ErrorKind::OutOfMemory => {
            Err(ProgramError::Run(RunError::Memory))
        }
        Err(fault) => Ok(Err(unread(heap, name, Some(fault))?)),
    }
}

/// The text of an opened file, as [`read_file`] has it.
fn read_opened<P: Source + Drop>(
    heap: Global,
    name: &str,
    file: P,
    most: usize,
) -> Result<Result<Vec<u8>, Refusal>, ProgramError>
    ensures text { IfOk result
        (λ r. MatchResult r
        (λ text. IsReadOf P.remaining P.failed P.fruitless most (Ok file) (Some text.items))
        (λ line. IsReadOf P.remaining P.failed P.fruitless most (Ok file) None)) }
    ensures few { IfOk result (λ r. IfOk r (λ text. length text.items ≤ most)) }
    ensures fault { IfErr result (λ e. e ≡ Run Memory) }
{
    let mut noting = Noting { file, fault: None };
    match front_of(heap, &mut noting, most, ProgramError::PlanFile) {
        Ok(text) => Ok(Ok(text)),
        Err(ProgramError::PlanFile) => Ok(Err(unread(heap, name, noting.fault)?)),
        Err(_) => Err(ProgramError::Run(RunError::Memory)),
    }
}

/// The line that says why a file was not read.
fn unread(heap: Global, name: &str, fault: Option<io::Error>) -> Result<Refusal, AllocError> {
    let name = FileName(name);
    let told = match fault {
        Some(fault) => format!(in heap; "{name}: {fault}")?,
        None => format!(in heap; "{name}: not read")?,
    };
    Refusal::new(heap, told.as_str())
}
