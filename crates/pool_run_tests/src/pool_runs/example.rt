//! The example of the folder `examples/pool`, with the bytes of its files: `tools/examples` compares them.
use super::{conforms, ran, report};
use std::test::Fail;

/// Which of its workers starts a task is left open, so the trace of a run is checked, and that of the file too.
#[test]
fn two_jobs_and_two_workers(rt: HostRuntime) -> Result<(), Fail> {
    let (answer, text) = ran(&rt, rt.alloc(), PLAN, 2, 1_000, CLOCKS, 65_536);
    assert!(&rt; answer == Ok(report(25, 30)), "{answer:?}");
    conforms(&rt, PLAN, 2, &text)?;
    conforms(&rt, PLAN, 2, TRACE.as_bytes())
}

const PLAN: &str = "\
# Two jobs that a pool of workers runs: a report every 10 seconds, and a cleanup that
# begins 5 seconds after the one before it has ended. At 25 seconds the reports are
# cancelled, and at 30 the service is shut down.
version = 2

[[block]]

[[block.call]]
op = \"rate\"
name = \"report\"
first = 0
period = 10
period_unit = \"s\"

[[block.call]]
op = \"fixed\"
name = \"cleanup\"
first = 0
delay = 5
delay_unit = \"s\"

[[block.call]]
op = \"cancel\"
name = \"report\"
at = 25
at_unit = \"s\"

[[block.call]]
op = \"shutdown\"
at = 30
at_unit = \"s\"
";

const CLOCKS: &str = "\
clock 0
clock 5000000000
clock 10000000000
clock 15000000000
clock 20000000000
clock 25000000000
clock 30000000000
";

const TRACE: &str = "\
0 submit 0 rate due 0
0 submit 1 fixed due 0
0 clock
0 start 0 task 0 run 0 due 0
0 finish 0 task 0 run 0 again due 10000000000
0 start 0 task 1 run 0 due 0
0 finish 0 task 1 run 0 again due 5000000000
5000000000 clock
5000000000 start 0 task 1 run 1 due 5000000000
5000000000 finish 0 task 1 run 1 again due 10000000000
10000000000 clock
10000000000 start 1 task 0 run 1 due 10000000000
10000000000 finish 1 task 0 run 1 again due 20000000000
10000000000 start 1 task 1 run 2 due 10000000000
10000000000 finish 1 task 1 run 2 again due 15000000000
15000000000 clock
15000000000 start 0 task 1 run 3 due 15000000000
15000000000 finish 0 task 1 run 3 again due 20000000000
20000000000 clock
20000000000 start 0 task 0 run 2 due 20000000000
20000000000 start 1 task 1 run 4 due 20000000000
20000000000 finish 1 task 1 run 4 again due 25000000000
20000000000 finish 0 task 0 run 2 again due 30000000000
25000000000 cancel 0 yes
25000000000 clock
25000000000 start 0 task 1 run 5 due 25000000000
25000000000 finish 0 task 1 run 5 again due 30000000000
30000000000 shutdown
30000000000 end 1
30000000000 clock
";
