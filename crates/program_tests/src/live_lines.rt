//! What a live run tells.

/// Live runs, without the file of a plan and with one.
pub const SESSIONS: &str = "# ANSWERS_CALLS_BESIDE_EVENTS
$ sched live --workers 1
< call schedule 5⏎clock 5⏎start 0⏎call rate 0 3⏎clock 6⏎finish 0 ok 7⏎start 0⏎call cancel 1
> 0 submit 0 schedule due 5
> 5 clock⏎5 start 0 task 0 run 0 due 5
> 6 submit 1 rate due 6⏎6 clock⏎6 finish 0 task 0 run 0 done 7⏎6 start 0 task 1 run 0 due 6
> 7 cancel 1 yes
$ sched live --workers 1
< call cancel 0⏎call execute⏎call cancel 0
> 0 error no task⏎0 submit 0 schedule due 0⏎0 cancel 0 yes
$ sched live --workers 1

$ sched live --workers=3
< start 2⏎start 3⏎call ask
> 0 start 2 idle⏎0 error no worker⏎0 ask queue 0 running 0 shutdown no terminated no

# TELLS_FAULTS_OF_THE_LINES_AND_OF_STANDARD_OUTPUT
$ sched live --workers 1
< call execute⏎call stop
> 0 submit 0 schedule due 0
! sched: event line 2
$ sched live --workers 1
with closed output
< call execute⏎call stop
! sched: write fault

# LEAVES_THE_PLAN_OF_THE_CALLS, also of those before a fault of the run, whose line is told
$ sched live --workers 1 --plan calls.toml
with new file
file version = 2
$ sched live --workers 1 --plan calls.toml
with new file
< call cancel 0⏎call schedule 5⏎clock 5
> 0 error no task⏎0 submit 0 schedule due 5
> 5 clock
file version = 2⏎⏎[[block]]⏎⏎[[block.call]]⏎delay = 5⏎delay_unit = \"ns\"⏎name = \"t0\"⏎op = \"schedule\"
$ sched live --workers 1 --plan calls.toml
with new file
< call schedule 5⏎stop
> 0 submit 0 schedule due 5
! sched: event line 2
file version = 2⏎⏎[[block]]⏎⏎[[block.call]]⏎delay = 5⏎delay_unit = \"ns\"⏎name = \"t0\"⏎op = \"schedule\"

# TELLS_A_PLAN_THAT_IS_NOT_WRITTEN: its file can't be created, or takes nothing
$ sched live --workers 1 --plan calls.toml
< start 0
> 0 start 0 idle
! sched: plan file not written⏎sched: calls.toml: permission denied
$ sched live --workers 1 --plan calls.toml
with full file
< start 0
> 0 start 0 idle
! sched: plan file not written⏎sched: calls.toml: unsupported
$ sched live --workers 1 --plan calls.toml
< stop
! sched: event line 1
";
