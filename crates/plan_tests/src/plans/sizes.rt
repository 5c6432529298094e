//! Plans as large as plans may be.
use super::*;
use refusing_allocator::Refusing;

/// Writes this number of calls, whose names are those of no other block.
fn write_calls(text: &mut String, block: u32, calls: u32) -> Result<(), Fail> {
    for call in 0..calls {
        write!(text, "{{op=\"schedule\",name=\"{block}-{call}\",delay=0}},")?;
    }
    Ok(())
}

/// A plan of this number of blocks, with this number of calls in each.
fn with_calls(rt: &impl AllocGlobal, blocks: u32, calls: u32) -> Result<String, Fail> {
    let mut text = String::from_str(rt.alloc(), "version=1\n")?;
    for block in 0..blocks {
        text.push_str("[[block]]\ncall=[")?;
        write_calls(&mut text, block, calls)?;
        text.push_str("]\n")?;
    }
    Ok(text)
}

/// Numbers of blocks, and of calls in each, that a plan may have.
const TAKEN: &[(u32, u32)] = &[(2, 256), (256, 1)];

/// Those that it may not have, and what is told of it.
const TOO_MANY: &[(u32, u32, &str)] = &[
    (1, 257, "TooMany block 1 call 0"),
    (257, 0, "TooMany block 0 call 0"),
];

#[test]
fn takes_256_blocks_and_256_calls_of_a_block(rt: HostRuntime) -> Result<(), Fail> {
    for (blocks, calls) in TAKEN {
        let text = with_calls(&rt, *blocks, *calls)?;
        reads_sizes(&rt, text.as_str(), *blocks as usize, *calls as usize)?;
    }
    for (blocks, calls, fault) in TOO_MANY {
        let text = with_calls(&rt, *blocks, *calls)?;
        tells(&rt, text.as_str(), fault)?;
    }
    Ok(())
}

#[test]
fn tells_a_wrong_type_before_too_many_blocks(rt: HostRuntime) -> Result<(), Fail> {
    let blocks = "{},".repeat(rt.alloc(), 257)?;
    let text = format!(in rt.alloc(); "version = 1\nblock = [{blocks}1]")?;
    tells(&rt, text.as_str(), "WrongType block 0 call 0")
}

#[test]
fn reads_as_many_names_as_fit(rt: HostRuntime) -> Result<(), Fail> {
    let text = with_calls(&rt, 108, 256)?;
    assert!(rt;
        1_000_000 < text.len() && text.len() <= 1_048_576,
        "{}",
        text.len()
    );
    reads_sizes(&rt, text.as_str(), 108, 256)?;
    tells(&rt, text.as_str(), "plan TooLong block 0 call 0")
}

/// Writes 256 calls, numbered from `first` on, whose names have this many letters behind their numbers, all together with those of
/// the calls before and behind them.
fn write_lettered(text: &mut String, first: usize, letters: usize) -> Result<(), Fail> {
    for call in 0..256usize {
        let number = first.saturating_add(call);
        let more = letters.saturating_sub(number).div_ceil(11_264);
        write!(text, "{{op=\"schedule\",name=\"{number}")?;
        for _ in 0..more {
            text.push('n')?;
        }
        text.push_str("\",delay=0},")?;
    }
    Ok(())
}

/// A plan of 44 blocks in seconds with 256 calls in each, 11,264 in all, whose names have this many letters behind their
/// numbers, all together: at most 26 each.
fn with_letters(rt: &impl AllocGlobal, letters: usize) -> Result<String, Fail> {
    let mut text = String::from_str(rt.alloc(), "version=1\n")?;
    for block in 0..44usize {
        text.push_str("[[block]]\nunit=\"s\"\ncall=[")?;
        write_lettered(&mut text, 256 * block, letters)?;
        text.push_str("]\n")?;
    }
    Ok(text)
}

#[test]
fn migrates_to_1048576_bytes_at_most(rt: HostRuntime) -> Result<(), Fail> {
    let text = with_letters(&rt, 0)?;
    let length = migrated(rt.alloc(), text.as_bytes())?.len();
    let letters = 1_048_576usize.saturating_sub(length);
    let text = with_letters(&rt, letters)?;
    assert!(rt; migrated(rt.alloc(), text.as_bytes())?.len() == 1_048_576);
    tells(&rt, text.as_str(), "plan")?;
    let text = with_letters(&rt, letters.saturating_add(1))?;
    tells(&rt, text.as_str(), "plan TooLong block 0 call 0")
}

#[test]
fn a_migration_that_is_too_long_keeps_no_plan(rt: HostRuntime) -> Result<(), Fail> {
    let text = with_letters(&rt, 26 * 11_264)?;
    let heap = Refusing::new(rt.alloc());
    let fault = migrate(&heap, text.as_bytes()).err();
    let too_long = PlanFault {
        kind: PlanFaultKind::TooLong,
        block: 0,
        call: 0,
    };
    assert!(rt; fault == Some(too_long), "{fault:?}");
    assert!(rt; heap.used() == 0);
    Ok(())
}

/// What a plan of 65,536 calls asks in each but the last.
const ASK: &str = "{op=\"ask\"},";

/// A plan of 256 blocks with 256 calls in each, in a text of exactly 1,048,576 bytes: what it is short of is a comment.
/// The last call is a shutdown.
fn longest_plan(rt: &impl AllocGlobal) -> Result<String, Fail> {
    let asks = ASK.repeat(rt.alloc(), 255)?;
    let mut text = String::from_str(rt.alloc(), "version=1\n")?;
    for _ in 0u32..255 {
        write!(text, "[[block]]\ncall=[{asks}{ASK}]\n")?;
    }
    write!(text, "[[block]]\ncall=[{asks}{{op=\"shutdown\"}}]\n#")?;
    let padding = " ".repeat(rt.alloc(), 1_048_576usize.saturating_sub(text.len()))?;
    text.push_str(padding.as_str())?;
    Ok(text)
}

/// Whether the last call of a plan is a shutdown.
fn ends_with_shutdown(plan: &Plan<Global>) -> bool {
    matches!(
        plan.blocks().last().and_then(|block| block.calls().last()),
        Some(Call {
            at: 0,
            op: Op::Shutdown
        })
    )
}

#[test]
fn reads_the_longest_text_with_the_most_blocks_and_calls(rt: HostRuntime) -> Result<(), Fail> {
    let text = longest_plan(&rt)?;
    assert!(rt; text.len() == 1_048_576);
    let plan = read(rt.alloc(), text.as_bytes())?;
    assert!(rt; has_sizes(&plan, 256, 256));
    assert!(rt; ends_with_shutdown(&plan));
    Ok(())
}
