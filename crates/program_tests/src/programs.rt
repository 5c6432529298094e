//! The whole program, in a world in memory.
use crate::sessions::plays;
use crate::{lints, live_lines, pictures};
use std::test::Fail;

/// Runs of each command but a lint, a picture and a live run.
const SESSIONS: &str = "# RUNS_THE_EXAMPLE
$ sched run plan.toml --workers 1
< clock 0⏎start 0⏎clock 4⏎start 0⏎clock 5⏎start 0⏎finish 0 ok 7
> 0 submit 0 schedule due 5⏎0 clock⏎0 start 0 idle
> 4 clock⏎4 start 0 idle
> 5 clock⏎5 start 0 task 0 run 0 due 5⏎5 finish 0 task 0 run 0 done 7

# RUNS_WITH_THE_WORKERS_AND_THE_LIMIT_OF_THE_COMMAND_LINE
$ sched run --workers=3 plan.toml
< start 2⏎start 3
> 0 start 2 idle⏎0 error no worker
$ sched run plan.toml --limit 2 --workers 1
< start 0⏎start 0⏎start 0
> 0 start 0 idle⏎0 start 0 idle
! sched: full⏎sched: at most 2 events are taken; --limit N takes N

# TELLS_FAULTS_OF_THE_EVENTS_AND_OF_STANDARD_OUTPUT
$ sched run plan.toml --workers 1
< start 0⏎stop 0
> 0 start 0 idle
! sched: event line 2
$ sched run plan.toml --workers 1
with closed output
< start 0⏎stop 0
! sched: write fault
$ sched --help
with closed output
! sched: write fault

# RUNS_BY_A_POOL
$ sched pool --workers=1 plan.toml
< clock 0⏎clock 5
> 0 submit 0 schedule due 5⏎0 clock
> 5 clock⏎5 start 0 task 0 run 0 due 5⏎5 finish 0 task 0 run 0 done 0
$ sched pool plan.toml --workers 1 --limit 4

$ sched pool plan.toml --workers 1 --limit 4
< clock 0⏎clock 4⏎clock 5
> 0 submit 0 schedule due 5⏎0 clock
> 4 clock
> 5 clock⏎5 start 0 task 0 run 0 due 5
! sched: full⏎sched: at most 4 events are taken; --limit N takes N

# TELLS_FAULTS_OF_A_RUN_BY_A_POOL
$ sched pool plan.toml --workers 1 --limit 4
< clock 0⏎start 0
! sched: event line 2
$ sched pool plan.toml --workers 1 --limit 4
< clock 0⏎clock 1⏎clock 2⏎clock 3⏎clock 4
! sched: full⏎sched: at most 4 events are taken; --limit N takes N
$ sched pool plan.toml --workers 1 --limit 4
with closed output
< clock 0
! sched: write fault
$ sched pool plan.toml --workers 1 --limit 4
plan version = 3
< start 0
! sched: plan: Version block 0 call 0
$ sched pool other.toml --workers 2
! sched: plan file not read⏎sched: other.toml: entity not found

# PRINTS_THE_CODE_OF_THE_PLAN
$ sched code plan.toml
> 0 submit 0 schedule 5
> 1 halt
$ sched code plan.toml
with closed output
! sched: write fault
$ sched code other.toml
! sched: plan file not read⏎sched: other.toml: entity not found
$ sched code plan.toml
plan version = 3
! sched: plan: Version block 0 call 0

# PRINTS_THE_TASKS_OF_THE_PLAN
$ sched tasks plan.toml
> 0 a schedule submitted 0 due 5
$ sched tasks plan.toml
with closed output
! sched: write fault
$ sched tasks other.toml
! sched: plan file not read⏎sched: other.toml: entity not found
$ sched tasks plan.toml
plan version = 3
! sched: plan: Version block 0 call 0

# RUNS_A_DELAY_FAR_BELOW_ZERO_AS_NONE
$ sched run plan.toml --workers 1
plan version = 1⏎[[block]]⏎unit = \"s\"⏎[[block.call]]⏎op = \"schedule\"⏎name = \"a\"⏎delay = -9223372036854775808
< clock 0
> 0 submit 0 schedule due 0⏎0 clock

# CHECKS_A_TRACE
$ sched check plan.toml trace.txt --workers 1
> conforms
$ sched check plan.toml trace.txt --workers 1
trace 0 submit 0 schedule due 5⏎5 clock⏎5 start 0 task 0 run 0 due 5
> conforms
$ sched check plan.toml trace.txt --workers 1
trace 0 submit 0 schedule due 5⏎5 clock⏎5 start 0 task 0 run 0 due 6
> breaks 3
= 1

# TELLS_FAULTS_OF_A_CHECK
$ sched check plan.toml trace.txt --workers 1
with closed output
! sched: write fault
$ sched check plan.toml trace.txt --workers 1
with broken trace
trace 0 clock
! sched: trace file not read⏎sched: trace.txt: unsupported
$ sched check plan.toml trace.txt --workers 1
with broken trace
plan version = 3
trace 0 clock
! sched: plan: Version block 0 call 0
$ sched check plan.toml trace --workers 1
! sched: trace file not read⏎sched: trace: entity not found

# TELLS_FAULTS_OF_A_FILE_THAT_IS_TO_BE_MIGRATED
$ sched migrate other.toml
! sched: plan file not read⏎sched: other.toml: entity not found
$ sched migrate plan.toml
with broken plan
plan version = 1
! sched: plan file not read⏎sched: plan.toml: unsupported

# MIGRATES_A_PLAN
$ sched migrate plan.toml
> version = 2⏎⏎[[block]]⏎⏎[[block.call]]⏎delay = 5⏎name = \"a\"⏎op = \"schedule\"
$ sched code plan.toml
plan version = 2⏎⏎[[block]]⏎⏎[[block.call]]⏎delay = 5⏎name = \"a\"⏎op = \"schedule\"
> 0 submit 0 schedule 5
> 1 halt
$ sched migrate plan.toml
plan version = 2⏎⏎[[block]]⏎⏎[[block.call]]⏎delay = 5⏎name = \"a\"⏎op = \"schedule\"
! sched: plan: Version block 0 call 0
$ sched migrate plan.toml
with closed output
! sched: write fault

# TELLS_ARGUMENTS_THAT_ARE_NOT_UTF_8: `ÿ` stands for a byte that is no text
$ sched run ÿ --workers 1
! sched: command line not UTF-8
= 2

# TELLS_A_PLAN_FILE_THAT_IS_BROKEN_OR_MISSING
$ sched run plan.toml --workers 1
with broken plan
plan version = 1
! sched: plan file not read⏎sched: plan.toml: unsupported
$ sched run another.toml --workers 1
! sched: plan file not read⏎sched: another.toml: entity not found
";

#[test]
fn each_command_answers(rt: HostRuntime) -> Result<(), Fail> {
    for text in [
        SESSIONS,
        pictures::SESSIONS,
        lints::SESSIONS,
        live_lines::SESSIONS,
    ] {
        plays(&rt, text)?;
    }
    Ok(())
}
