//! The steps of an axis of time.
ghost use Rattle.std.specs.Prelude.{◌≡◌, ℕ, ◌*◌, ◌^◌, ◌<◌, nat_le};
ghost use Rattle.std.specs.List.{find};
ghost use Rattle.trace_draw.specs.Ticks.{step_nanos, step_of};

use sched_time::Unit;

/// The steps, ascending: each some of a unit.
const STEPS: [(u64, Unit); 59] = [
    (1, Unit::Ns),
    (2, Unit::Ns),
    (5, Unit::Ns),
    (10, Unit::Ns),
    (20, Unit::Ns),
    (50, Unit::Ns),
    (100, Unit::Ns),
    (200, Unit::Ns),
    (500, Unit::Ns),
    (1, Unit::Us),
    (2, Unit::Us),
    (5, Unit::Us),
    (10, Unit::Us),
    (20, Unit::Us),
    (50, Unit::Us),
    (100, Unit::Us),
    (200, Unit::Us),
    (500, Unit::Us),
    (1, Unit::Ms),
    (2, Unit::Ms),
    (5, Unit::Ms),
    (10, Unit::Ms),
    (20, Unit::Ms),
    (50, Unit::Ms),
    (100, Unit::Ms),
    (200, Unit::Ms),
    (500, Unit::Ms),
    (1, Unit::S),
    (2, Unit::S),
    (5, Unit::S),
    (10, Unit::S),
    (15, Unit::S),
    (30, Unit::S),
    (1, Unit::Min),
    (2, Unit::Min),
    (5, Unit::Min),
    (10, Unit::Min),
    (15, Unit::Min),
    (30, Unit::Min),
    (1, Unit::Hour),
    (2, Unit::Hour),
    (3, Unit::Hour),
    (6, Unit::Hour),
    (12, Unit::Hour),
    (1, Unit::Day),
    (2, Unit::Day),
    (5, Unit::Day),
    (10, Unit::Day),
    (20, Unit::Day),
    (50, Unit::Day),
    (100, Unit::Day),
    (200, Unit::Day),
    (500, Unit::Day),
    (1_000, Unit::Day),
    (2_000, Unit::Day),
    (5_000, Unit::Day),
    (10_000, Unit::Day),
    (20_000, Unit::Day),
    (50_000, Unit::Day),
];

/// How far two ticks of an axis stand apart, some of a unit, where a window has this length in nanoseconds: the first of the steps
/// of which seven reach over it.
pub fn step_over(length: u64) -> (u64, Unit)
    ensures step { result ≡ step_of length }
    ensures some { 0 < step_nanos result }
    ensures small { step_nanos result < 2 ^ 64 }
{
    first_over(&STEPS, length).unwrap_or((50_000, Unit::Day))
}

/// The first of some steps of which seven reach over a length.
fn first_over(steps: &[(u64, Unit)], length: u64) -> Option<(u64, Unit)>
    ensures { result ≡ find (λ step. nat_le length (7 * step_nanos step)) steps.now }
{
    steps.iter().copied().find(|step| reaches(*step, length))
}

/// Whether seven of a step reach over a length.
fn reaches(step: (u64, Unit), length: u64) -> bool
    ensures { result ≡ nat_le length (7 * step_nanos step) }
{
    let (count, unit) = step;
    length as u128 <= 7 * (count as u128 * unit.nanos() as u128)
}
