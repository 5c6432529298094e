//! Checks with little memory, over heaps of fixed size.
use super::*;
use linked_list_allocator::LocalHeap;
use scripted_runs::shutdown::A_SWEEP;

/// Whether a check over a heap of this size is refused memory; else it has this finding. All memory is given back.
fn is_refused(
    rt: &(impl AllocGlobal + Abort),
    plan: &Plan<Global>,
    text: &[u8],
    finding: Finding,
    size: usize,
) -> Result<bool, Fail> {
    assert!(rt; text.len() <= MOST_BYTES);
    let heap = LocalHeap::new(rt.alloc(), size)?;
    let answer = check(&heap, plan, 1, text);
    assert!(rt; heap.used() == 0);
    let is_refused = answer == Err(CheckError::Memory);
    assert!(rt; is_refused || answer == Ok(finding), "{size}: {answer:?}");
    Ok(is_refused)
}

/// Checks a text over heaps from one that has room for hardly anything up to one that has room for all, so that each
/// growth is the first that is refused in one of them: where the check is refused memory it answers nothing else.
fn refuses_or_finds(
    rt: &(impl AllocGlobal + Abort),
    text: &str,
    finding: Finding,
) -> Result<(), Fail> {
    let plan = plan_of(rt.alloc(), A_SWEEP.plan)?;
    let mut refused = 0u32;
    let mut found = 0u32;
    for step in 0..200usize {
        if is_refused(rt, &plan, text.as_bytes(), finding, 64 + 16 * step)? {
            assert!(rt; found == 0, "{step}");
            refused = refused.saturating_add(1);
        } else {
            found = found.saturating_add(1);
        }
    }
    assert!(rt; refused > 0 && found > 0, "{refused} {found}");
    Ok(())
}

#[test]
fn a_check_without_memory_finds_nothing(rt: HostRuntime) -> Result<(), Fail> {
    refuses_or_finds(&rt, A_SWEEP.trace, Finding::Conforms)?;
    refuses_or_finds(&rt, "0 policy execute false\n0 clock\n", Finding::Breaks(2))
}
