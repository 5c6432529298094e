//! The longest times of each unit of each version, at each key of a time: one more, none, and times below 0.
use super::*;

/// A unit.
struct Unit {
    word: &'static str,
    /// The longest time in it, the most in 2^62 nanoseconds.
    longest: &'static str,
    /// One more.
    more: &'static str,
    /// The nanoseconds of the longest.
    nanos: &'static str,
    /// How a block shows the unit.
    shown: &'static str,
}

/// Units: the word of each, the longest time in it, one more, the nanoseconds of the longest, and how a block shows the unit.
macro_rules! units {
    ($($word:literal $longest:literal $more:literal $nanos:literal $shown:literal;)*) => {
        &[$(Unit { word: $word, longest: $longest, more: $more, nanos: $nanos, shown: $shown }),*]
    };
}

const UNITS: &[Unit] = units! {
    "ns" "4611686018427387904" "4611686018427387905" "4611686018427387904" "Ns";
    "us" "4611686018427387" "4611686018427388" "4611686018427387000" "Us";
    "ms" "4611686018427" "4611686018428" "4611686018427000000" "Ms";
    "s" "4611686018" "4611686019" "4611686018000000000" "S";
    "min" "76861433" "76861434" "4611685980000000000" "Min";
    "h" "1281023" "1281024" "4611682800000000000" "Hour";
    "d" "53375" "53376" "4611600000000000000" "Day";
};

/// A key of a time.
struct Spot {
    /// What stands before the key.
    front: &'static str,
    key: &'static str,
    /// Where its faults are.
    place: &'static str,
    /// What the plan has, where `U` stands for the unit of the block and `T` for the time.
    lines: &'static str,
    /// What it has of no time.
    none: &'static str,
    /// What it has of a time below 0, or the kind of the fault.
    below: &'static str,
}

/// Keys of times: what stands before each, the key, where its faults are, what the plan has, and what it has of none and of a time
/// below 0.
macro_rules! spots {
    ($($front:literal $key:literal at $place:literal: $lines:literal, $none:literal, $below:literal;)*) => {
        &[$(Spot { front: $front, key: $key, place: $place, lines: $lines, none: $none, below: $below }),*]
    };
}

const SPOTS: &[Spot] = spots! {
    "" "at" at "block 1 call 0": "block T U 1 0", "0", "Negative";
    "" "every" at "block 1 call 0": "block 0 U 1 T", "0", "Negative";
    r#"[[block.call]] / op = "ask""# "at" at "block 1 call 1": "block 0 U 1 0 / T ask", "0", "Negative";
    r#"[[block.call]] / op = "schedule" / name = "a" / delay = 0"# "at" at "block 1 call 1": "block 0 U 1 0 / T schedule a 0", "0", "Negative";
    r#"[[block.call]] / op = "schedule" / name = "a""# "delay" at "block 1 call 1": "block 0 U 1 0 / 0 schedule a T", "0", "0";
    r#"[[block.call]] / op = "rate" / name = "a" / period = 0"# "first" at "block 1 call 1": "block 0 U 1 0 / 0 rate a T none", "0", "0";
    r#"[[block.call]] / op = "fixed" / name = "a" / delay = 0"# "first" at "block 1 call 1": "block 0 U 1 0 / 0 fixed a T none", "0", "0";
    r#"[[block.call]] / op = "rate" / name = "a" / first = 0"# "period" at "block 1 call 1": "block 0 U 1 0 / 0 rate a 0 T", "none", "none";
    r#"[[block.call]] / op = "fixed" / name = "a" / first = 0"# "delay" at "block 1 call 1": "block 0 U 1 0 / 0 fixed a 0 T", "none", "none";
};

/// A text of version 2, which tells the unit beside the time.
fn beside<'t>(
    alloc: Global,
    front: &'t str,
    key: &'t str,
    time: &'t str,
    word: &'t str,
) -> Result<String, AllocError> {
    let unit = [key, "_unit = \"", word, "\"\n"].concat(alloc)?;
    [HEADER_2, front, "\n", key, " = ", time, "\n", unit.as_str()].concat(alloc)
}

/// A text of version 1, which tells the unit at the block.
fn at_block<'t>(
    alloc: Global,
    front: &'t str,
    key: &'t str,
    time: &'t str,
    word: &'t str,
) -> Result<String, AllocError> {
    let unit = ["unit = \"", word, "\"\n"].concat(alloc)?;
    [HEADER, unit.as_str(), front, "\n", key, " = ", time, "\n"].concat(alloc)
}

/// The text that has a time of a unit at a spot.
fn text_of_time(
    alloc: Global,
    is_beside: bool,
    unit: &Unit,
    spot: &Spot,
    time: &str,
) -> Result<String, AllocError> {
    let front = spelled(alloc, spot.front)?;
    if is_beside {
        beside(alloc, front.as_str(), spot.key, time, unit.word)
    } else {
        at_block(alloc, front.as_str(), spot.key, time, unit.word)
    }
}

/// What a plan has at a spot, whose block shows this unit, of a time that it keeps as `kept`.
fn lines_of_time(
    alloc: Global,
    shown: &str,
    spot: &Spot,
    kept: &str,
) -> Result<String, AllocError> {
    let lines = spot.lines.replace(alloc, "U", shown)?;
    let lines = lines.as_str().replace(alloc, "T", kept)?;
    let mut lines = spelled(alloc, lines.as_str())?;
    lines.push('\n')?;
    Ok(lines)
}

/// Checks what is told of a time in a unit at a spot: what the plan keeps, or the kind of a fault.
fn tells_time(
    rt: &(impl AllocGlobal + Abort),
    is_beside: bool,
    unit: &Unit,
    spot: &Spot,
    time: &str,
    kept: &str,
) -> Result<(), Fail> {
    let text = text_of_time(rt.alloc(), is_beside, unit, spot, time)?;
    if kept == "TooLarge" || kept == "Negative" {
        let place = spot.place;
        let fault = format!(in rt.alloc(); "{kept} {place}")?;
        return tells(rt, text.as_str(), fault.as_str());
    }
    // A block keeps its own unit, and nanoseconds where the unit stands beside the time.
    let shown = if is_beside { "Ns" } else { unit.shown };
    let lines = lines_of_time(rt.alloc(), shown, spot, kept)?;
    reads(rt, text.as_str(), text.as_str(), lines.as_str())
}

/// Checks what is told of the times of a unit at a spot: of the longest, of more, of none, and of times below 0.
fn tells_times(
    rt: &(impl AllocGlobal + Abort),
    is_beside: bool,
    unit: &Unit,
    spot: &Spot,
) -> Result<(), Fail> {
    for (time, kept) in [
        (unit.longest, unit.nanos),
        (unit.more, "TooLarge"),
        ("9223372036854775807", "TooLarge"),
        ("0", spot.none),
        ("-1", spot.below),
        ("-9223372036854775808", spot.below),
    ] {
        tells_time(rt, is_beside, unit, spot, time, kept)?;
    }
    Ok(())
}

/// Checks what is told of the times of the first so many units at each spot.
fn keeps_the_longest(
    rt: &(impl AllocGlobal + Abort),
    is_beside: bool,
    count: usize,
) -> Result<(), Fail> {
    for unit in UNITS.iter().take(count) {
        for spot in SPOTS {
            tells_times(rt, is_beside, unit, spot)?;
        }
    }
    Ok(())
}

#[test]
fn keeps_the_longest_times_of_each_unit_beside_them(rt: HostRuntime) -> Result<(), Fail> {
    keeps_the_longest(&rt, true, 7)
}

#[test]
fn keeps_the_longest_times_of_each_unit_of_a_block(rt: HostRuntime) -> Result<(), Fail> {
    keeps_the_longest(&rt, false, 4)
}
