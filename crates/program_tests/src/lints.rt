//! What a lint tells.

/// Lints of plans, events and traces.
pub const SESSIONS: &str = "# A_PLAN_IS_FINE
$ sched lint plan.toml
> fine
$ sched lint plan.toml
with closed output
! sched: write fault

# A_PLAN_IS_REFUSED_WITH_ITS_LINE
$ sched lint plan.toml --events trace.txt
plan version = 2⏎⏎[[block]]⏎⏎[[block.call]]⏎op = \"shedule\"
! plan.toml:6: block 1, call 1, op = \"shedule\": no such op; schedule may be meant; one of schedule, execute, rate, fixed, cancel, policy, shutdown, shutdown_now, ask

# A_FILE_AT_FAULT_IS_TOLD_WITH_THE_REASON, also one that is not there
$ sched lint plan.toml --events trace.txt
with broken trace
trace clock 5
! trace.txt: unsupported
$ sched lint other.toml
! other.toml: entity not found

# EVENTS_ARE_FINE_OR_REFUSED_WITH_THEIR_LINE
$ sched lint plan.toml --events trace.txt
> fine
$ sched lint plan.toml --events trace.txt
trace clock 5⏎start 0
> fine
$ sched lint plan.toml --events trace.txt
trace clock 5⏎clock 05
! trace.txt:2: \"clock 05\": leading zero; a moment has none, as in \"clock 5\"

# A_TRACE_IS_FINE_OR_REFUSED_WITH_ITS_LINE: the last one has a run that the third of some workers starts
$ sched lint plan.toml --trace trace.txt --workers 1
trace 0 submit 0 schedule due 5⏎5 clock⏎5 start 0 task 0 run 0 due 5
> fine
$ sched lint plan.toml --trace trace.txt --workers 1
trace 0 submit 0 schedule due 6
! trace.txt:1: \"0 submit 0 schedule due 6\": breaks; \"0 submit 0 schedule due 5\" could stand here
$ sched lint plan.toml --trace trace.txt --workers 1
trace 0 submit 0 schedule due 5⏎5 clock⏎5 start 2 task 0 run 0 due 5
! trace.txt:3: \"5 start 2 task 0 run 0 due 5\": breaks; \"5 error no worker\" could stand here; conforms with --workers 3 to 64

# OPTIONS_THAT_DO_NOT_GO_TOGETHER_ARE_A_FAULT_OF_THE_COMMAND_LINE
$ sched lint plan.toml --trace trace.txt
! sched: lint takes PLAN, or it and --events, or it, --trace and --workers, or --calls alone
= 2
$ sched lint plan.toml --workers 2
! sched: lint takes PLAN, or it and --events, or it, --trace and --workers, or --calls alone
= 2
$ sched lint plan.toml --events trace.txt --trace trace.txt --workers 2
! sched: lint takes PLAN, or it and --events, or it, --trace and --workers, or --calls alone
= 2
$ sched lint
! sched: lint takes PLAN, or it and --events, or it, --trace and --workers, or --calls alone
= 2
$ sched lint plan.toml --calls trace.txt
! sched: lint takes PLAN, or it and --events, or it, --trace and --workers, or --calls alone
= 2

# A_PLAN_HAS_WARNINGS_AND_IS_FINE
$ sched lint plan.toml
plan version = 2⏎[[block]]⏎[[block.call]]⏎op = \"rate\"⏎name = \"a\"⏎first = 1⏎period = 0⏎[[block.call]]⏎op = \"fixed\"⏎name = \"b\"⏎first = 1⏎delay = 5
> fine
! plan.toml:7: warning: block 1, call 1, period = 0: not above 0; refused as illegal each time⏎plan.toml:12: warning: block 1, call 2, delay = 5: nanoseconds; no unit is given
= 0
$ sched lint plan.toml --events trace.txt
plan version = 2⏎[[block]]⏎[[block.call]]⏎op = \"rate\"⏎name = \"a\"⏎first = 1⏎period = 0
trace clock 5
> fine
! plan.toml:7: warning: block 1, call 1, period = 0: not above 0; refused as illegal each time
= 0

# WHAT_IS_WRONG_IS_TOLD_WITHOUT_WARNINGS
$ sched lint plan.toml --events trace.txt
plan version = 2⏎[[block]]⏎[[block.call]]⏎op = \"rate\"⏎name = \"a\"⏎first = 1⏎period = 0
trace clock 05
! trace.txt:1: \"clock 05\": leading zero; a moment has none, as in \"clock 5\"

# WHERE_WARNINGS_ARE_FAULTS_A_PLAN_THAT_HAS_ONE_IS_NOT_FINE
$ sched lint plan.toml --strict
> fine
$ sched lint --strict plan.toml
plan version = 2⏎[[block]]⏎[[block.call]]⏎op = \"shutdown\"⏎[[block.call]]⏎op = \"execute\"⏎name = \"late\"
! plan.toml:7: warning: block 1, call 2, name = \"late\": refused each time; block 1, call 1 shuts the executor down

# CALLS_ARE_FINE_OR_REFUSED_WITH_THEIR_LINE
$ sched lint --calls trace.txt
trace call schedule 5⏎clock 5⏎start 0⏎call cancel 9
> fine
$ sched lint --calls trace.txt --strict
> fine
$ sched lint --calls trace.txt
trace clock 5⏎call schedule 5ms
! trace.txt:2: \"call schedule 5ms\": unit; a delay has none and is in nanoseconds, as in \"call schedule 5\"
$ sched lint --calls other.txt
! other.txt: entity not found

# STANDARD_INPUT_IS_READ_ONCE: a dash is its name
$ sched code -
< version = 1⏎[[block]]⏎[[block.call]]⏎op = \"schedule\"⏎name = \"a\"⏎delay = 5
> 0 submit 0 schedule 5
> 1 halt
$ sched lint plan.toml --events -
< clock 5
> fine
$ sched check - - --workers 1
< version = 1⏎[[block]]⏎[[block.call]]⏎op = \"schedule\"⏎name = \"a\"⏎delay = 5
! sched: trace file not read⏎sched: -: standard input is not left for it
$ sched lint - --events -
< version = 1⏎[[block]]⏎[[block.call]]⏎op = \"schedule\"⏎name = \"a\"⏎delay = 5
! -: standard input is not left for it
$ sched run - --workers 1
< clock 5
! sched: plan file not read⏎sched: -: standard input is not left for it
$ sched pool - --workers 1
< clock 5
! sched: plan file not read⏎sched: -: standard input is not left for it
";
