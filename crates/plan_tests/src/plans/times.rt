//! Times of version 2, each in its own unit.
use super::*;

/// A repeated block of version 2 with a unit for each of its times.
pub const FOUR_UNITS: Kept<'static> = Kept {
    name: "a unit for each of four times",
    text: "version = 2\n[[block]]\nat = 1\nat_unit = 'min'\ntimes = 2\nevery = 1\nevery_unit = 'h'\n\
           [[block.call]]\nop = 'rate'\nname = 'a'\nfirst = 500\nfirst_unit = 'ms'\nperiod = 1\nperiod_unit = 'd'",
    lines: "block 60000000000 Ns 2 3600000000000\n0 rate a 500000000 86400000000000\n",
};

pub const NANOSECONDS_BESIDE_UNITS: Kept<'static> = Kept {
    name: "nanoseconds beside units",
    text: "version = 2\n[[block]]\nat = 2\nat_unit = 'us'\nevery = 3\n\
           [[block.call]]\nop = 'fixed'\nname = 'a'\nat = 4\nfirst = 5\nfirst_unit = 's'\ndelay = 6\n\
           [[block.call]]\nop = 'fixed'\nname = 'b'\nat = 7\nat_unit = 'ms'\nfirst = 8\ndelay = 9\ndelay_unit = 'min'\n\
           [[block.call]]\nop = 'schedule'\nname = 'c'\nat = 10\nat_unit = 'h'\ndelay = 11",
    lines: "block 2000 Ns 1 3\n4 fixed a 5000000000 6\n\
            7000000 fixed b 8 540000000000\n36000000000000 schedule c 11\n",
};

/// Delays in days, and in no unit.
const A_DELAY_IS_53375_DAYS_AT_MOST: &str =
    r#"plan 2 | op = "schedule" / name = "a" / delay_unit = "d" / delay = 53375
TooLarge block 1 call 1 | op = "schedule" / name = "a" / delay_unit = "d" / delay = 53376
BadUnit block 1 call 1 | op = "schedule" / name = "a" / delay_unit = "year" / delay = 53375
BadUnit block 1 call 1 | op = "schedule" / name = "a" / delay_unit = "year" / delay = 53376"#;

#[test]
fn a_delay_is_53375_days_at_most(rt: HostRuntime) -> Result<(), Fail> {
    tells_each(&rt, CALL_2, A_DELAY_IS_53375_DAYS_AT_MOST)
}
