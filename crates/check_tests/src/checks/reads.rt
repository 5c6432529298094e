//! The lines that a check hands on.
ghost use Rattle.std.specs.Prelude.{◌≤◌, length};
ghost use Rattle.trace_check.specs.Standing.{most_bytes};

use super::*;
use executor_model::Line;
use linked_list_allocator::LocalHeap;
use scripted_runs::shutdown::A_SWEEP;
use trace_text::write_line;

/// That of the crate, as `check` is.
fn check_and_read<A: Allocator + Copy>(
    alloc: A,
    plan: &Plan<Global>,
    workers: u8,
    text: &[u8],
) -> Result<(Finding, Vec<Line, A>), CheckError>
    requires { length text.now ≤ most_bytes }
{
    trace_check::check_and_read(alloc, plan, workers, text)
}

/// What is found of a text, and the text of the lines that were read of it.
fn read(rt: &(impl AllocGlobal + Abort), text: &str) -> Result<(Finding, Vec<u8>), Fail> {
    let plan = plan_of(rt.alloc(), A_SWEEP.plan)?;
    assert!(rt; text.len() <= MOST_BYTES);
    let (finding, lines) = check_and_read(rt.alloc(), &plan, 1, text.as_bytes())?;
    let mut out = Vec::new(rt.alloc());
    for line in &lines {
        write_line(&mut out, line)?;
    }
    Ok((finding, out))
}

#[test]
fn lines_of_a_trace_are_handed_on(rt: HostRuntime) -> Result<(), Fail> {
    let (finding, lines) = read(&rt, A_SWEEP.trace)?;
    assert!(rt; finding == Finding::Conforms);
    assert!(rt; lines.as_slice() == A_SWEEP.trace.as_bytes());
    Ok(())
}

#[test]
fn lines_before_a_break_are_handed_on(rt: HostRuntime) -> Result<(), Fail> {
    let front = "0 policy execute false\n";
    for behind in ["0 clock\n", "0 clock", "nothing\n"] {
        let text = text_of(rt.alloc(), front, &[behind])?;
        let (finding, lines) = read(&rt, &text)?;
        assert!(rt; finding == Finding::Breaks(2), "{behind}");
        assert!(rt; lines.as_slice() == front.as_bytes(), "{behind}");
    }
    Ok(())
}

/// Whether a reading of the trace over a heap of this size is refused memory; else its lines are handed on. All memory is given
/// back.
fn is_refused(
    rt: &(impl AllocGlobal + Abort),
    plan: &Plan<Global>,
    size: usize,
) -> Result<bool, Fail> {
    assert!(rt; A_SWEEP.trace.len() <= MOST_BYTES);
    let heap = LocalHeap::new(rt.alloc(), size)?;
    let is_refused = match check_and_read(&heap, plan, 1, A_SWEEP.trace.as_bytes()) {
        Ok((finding, lines)) => {
            assert!(rt; finding == Finding::Conforms && lines.len() == 12, "{size}");
            false
        }
        Err(error) => {
            assert!(rt; error == CheckError::Memory, "{size}");
            true
        }
    };
    assert!(rt; heap.used() == 0);
    Ok(is_refused)
}

#[test]
fn a_reading_without_memory_is_none(rt: HostRuntime) -> Result<(), Fail> {
    let plan = plan_of(rt.alloc(), A_SWEEP.plan)?;
    let mut refused = 0u32;
    let mut read = 0u32;
    for step in 0..200usize {
        if is_refused(&rt, &plan, 64 + 32 * step)? {
            refused = refused.saturating_add(1);
        } else {
            read = read.saturating_add(1);
        }
    }
    assert!(rt; refused > 0 && read > 0, "{refused} {read}");
    Ok(())
}
