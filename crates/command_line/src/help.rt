//! The texts of help, below the options.

/// A text of help, and below it what each kind of a plan's fault is.
macro_rules! with_kinds {
    ($text:literal) => {
        concat!(
            $text,
            "

KIND is
  TooLong        the text has more than 1,048,576 bytes
  Toml           the text is no TOML document
  Version        'version' is missing, or neither 1 nor 2
  UnknownKey     a key does not belong there
  Missing        a key is missing
  WrongType      a value has another type, or an op or a policy is none
  BadUnit        a unit is none
  BadTimes       'times' is not 1 to 65,536
  Negative       'at' or 'every' is below 0
  BadName        a name is not 1 to 32 ASCII letters, digits, '-' and '_'
  DuplicateName  a submission before it has the name
  UnknownName    no submission before a cancel has the name
  Ambiguous      a cancel names a task of another block that is made repeatedly
  OutOfOrder     a call is made earlier than the one before it
  TooLarge       a time or a moment is more than 2^62 nanoseconds
  TooMany        more than 256 blocks, 256 calls of one, or 65,536 calls in all
B and C are counted from 1, and 0 stands for none. Want of memory is 'sched: out
of memory'. 'sched lint PLAN' says why, with the line of the text."
        )
    };
}

/// What the help says below the commands: the exit statuses.
pub const STATUSES: &str = "\
'sched run --help' tells what a plan, an event and a trace look like, and
'sched lint' why one is refused. A file that is read may be named '-', which is
standard input: one of a command's at most, and none of 'run' and 'pool', whose
events come there.

Exit status:
  0  done
  1  a fault, told by a line on standard error, or a trace that breaks
  2  a fault of the command line";

/// What the help of `run` says below the options: what a plan, an event and a trace look like, and
/// the exit statuses.
pub const FORMS: &str = with_kinds!(
    "\
The plan is a file of TOML, version 1.1, as the kit's crate 'toml' reads it, of
at most 1,048,576 bytes. Its integers have 64 bits, its arrays and inline tables
are nested at most 80 deep, and its keys have at most 80 parts. It has
'version = 2', and at most 256 [[block]], each with a [[block.call]] for each
call that is made, at most 256. A block may have
  at      the moment from which its calls are counted, 0 where it is left out
  times   how often its calls are made, 1 to 65,536, and 1 where it is left out
  every   from one time to the next; it is needed where times is more than 1
All blocks together make at most 65,536 calls. A call has
  op      what it does:
            \"schedule\"  submits a task that runs once
            \"execute\"   submits a task that runs once and is due at its call
            \"rate\"      submits a task that runs at a fixed rate
            \"fixed\"     submits a task that runs a fixed delay after each of its
                        runs
            \"cancel\"    cancels the task of a call that stands before it
            \"policy\"    sets a policy
            \"shutdown\"  shuts the executor: no task is accepted any more
            \"shutdown_now\"
                        shuts the executor at once: no task is accepted any
                        more, and none that waits starts
            \"ask\"       asks how many tasks are queued and run
  name    the task's name: 1 to 32 ASCII letters, digits, '-' and '_';
          no other task of the plan has it, and a cancel has that of its task,
          which is the one of the same time, or of a block that is made once
  at      when the call is made after the block begins, 0 where it is left out;
          no call has a smaller one than the call before it
  delay   of schedule: when the task is due after the call
  first   of rate and fixed: when the first run is due after the call
  period  of rate: from one due moment to the next
  delay   of fixed: from the end of a run to the due moment of the next
  which   of policy: \"continue\" (periodic tasks go on after a shutdown, false
          before it is set), \"execute\" (so do tasks with one run that are not
          due, true before) or \"remove\" (a cancelled task that waits leaves the
          queue at once, false before)
  value   of policy: true or false
Times are at, every, delay, first and period. The unit of a time may stand
beside it:
  at_unit, every_unit, delay_unit, first_unit, period_unit
          \"ns\", \"us\", \"ms\", \"s\", \"min\", \"h\" or \"d\", which is 24 hours, and
          \"ns\" where it is left out
The older form of plans has 'version = 1': there a block may have
  unit    of all its times: \"ns\", \"us\", \"ms\" or \"s\", and \"ns\" where it is left
          out
and no other unit. 'sched migrate' prints such a plan as one of version 2.
A shutdown ends the tasks that wait and do not go on, and so does continue or
execute that is set to false later.
A negative first, or delay of schedule, counts as 0. A task whose period, or
delay of fixed, is zero or negative is refused when its call is made.
Tasks are numbered from 0 in the order of their calls, workers from 0 to N - 1.

An event is a line on standard input, of at most 63 bytes with its newline:
  clock T          the time is now T nanoseconds; calls made by then come first
  start W          worker W takes the first task that is due, if there is one
  finish W ok V    worker W has run its task, and the run's value is V
  finish W fail C  the run of worker W failed with code C; no other run of
                   the task follows
  cancel K         task K is cancelled: no other run of it starts, and a run
                   under way is dropped when it ends
Numbers have no leading zero: T and V are below 2^64, W below 256, and C and K
below 2^32. 'sched lint PLAN --events FILE' says why a line is no event.

The trace goes to standard output: a line for each call and each event, with
the time in front, and behind that of a call one for each task that it ends.
All events that were read are answered before more are read.

Example, with the plan
  version = 2
  [[block]]
  [[block.call]]
  op = \"schedule\"
  name = \"a\"
  delay = 5
  delay_unit = \"ns\"
in the file plan.toml:
  $ printf 'clock 5\\nstart 0\\nfinish 0 ok 7\\n' | sched run plan.toml --workers 1
  0 submit 0 schedule due 5
  5 clock
  5 start 0 task 0 run 0 due 5
  5 finish 0 task 0 run 0 done 7

Exit status:
  0  all events were answered
  1  a fault, told by one of these lines on standard error:
       sched: plan file not read
       sched: plan: KIND block B call C   no plan; KIND is told below
       sched: event line N                line N, counted from 1, is no event
       sched: full                        more events than the limit
       sched: read fault
       sched: write fault
       sched: out of memory
     The events before a bad line, the limit or a read fault were answered.
  2  a fault of the command line"
);

/// What the help of `pool` says below the options: what is read and run, and the exit statuses.
pub const POOL: &str = with_kinds!(
    "\
The plan and the trace are as 'sched run --help' has them. Standard input has
clocks alone:
  clock T          the time is now T nanoseconds
All of them are read first. Then as many threads as there are workers run the
plan: at each clock they start each task that is due, until none is. The value
of a run is its number, counted from 0. The trace goes to standard output once
all has been run. Its events are the clocks, and a start and a finish for each
run.

Exit status:
  0  all was run
  1  a fault, told by one of these lines on standard error:
       sched: plan file not read
       sched: plan: KIND block B call C   no plan; KIND is told below
       sched: event line N                line N, counted from 1, is no clock
       sched: full                        more events than the limit
       sched: read fault
       sched: write fault
       sched: lost                        the pool did not come to its end
       sched: out of memory
     At 'full' the trace up to the limit was written, or nothing where the
     clocks alone are more than that. Nothing was written at the others, but
     for a front of the trace at a write fault.
  2  a fault of the command line"
);

/// What the help of `code` says below the options: what the lines of a listing look like, and the exit
/// statuses.
pub const CODE: &str = with_kinds!(
    "\
A listing has a line for each instruction, with its index in front:
  submit O schedule D     submits a task that is due D after the call; D is 0
                          for an execute
  submit O rate F P       submits a task that is due F after the call, and then
                          each P
  submit O fixed F D      submits a task that is due F after the call, and then
                          D after each of its runs
  illegal O               submits a task that is refused
  cancel O task K         cancels task K
  cancel O here J         cancels the task that has J tasks of the same
                          iteration before it
  policy O WHICH VALUE    sets a policy
  shutdown O              shuts the executor
  shutdown_now O          shuts the executor at once
  ask O                   asks how many tasks are queued and run
  loop N every E          begins a loop of N iterations, each E after the other
  endloop                 ends the loop
  halt                    ends the code
All times are nanoseconds. A call is made at O, and in iteration R of a loop,
counted from 0, at O + R * E.

Exit status:
  0  the listing was printed
  1  a fault, told by one of these lines on standard error:
       sched: plan file not read
       sched: plan: KIND block B call C   no plan; KIND is told below
       sched: write fault
       sched: out of memory
  2  a fault of the command line"
);

/// What the help of `tasks` says below the options: what the lines look like, and the exit statuses.
pub const TASKS: &str = with_kinds!(
    "\
A line is printed for each task that the plan submits, in the order of their
numbers, those of each time that a block is made among them:
  K NAME KIND submitted M due D
  K NAME KIND submitted M refused illegal
  K     the task's number, from 0
  KIND  schedule, for an execute too, rate or fixed
  M     when its call is made
  D     when its first run is due
A task whose period, or delay of fixed, is zero or negative is refused when its
call is made. All times are nanoseconds.

Exit status:
  0  the tasks were printed
  1  a fault, told by one of these lines on standard error:
       sched: plan file not read
       sched: plan: KIND block B call C   no plan; KIND is told below
       sched: write fault
       sched: out of memory
  2  a fault of the command line"
);

/// What the help of `check` says below the options: what is found, and the exit statuses.
pub const FINDINGS: &str = with_kinds!(
    "\
What is found is printed on a line to standard output:
  conforms  the trace is that of some events and purges: each line is what the
            plan's calls and these are answered
  breaks N  it is none: lines 1 to N - 1 may begin such a trace, and with line
            N they may not, or the trace ends before line N, which has to come
The end of a trace may be missing, but for the lines of the tasks that its last
call ends. Calls of the plan may stand with no clock behind them.
'sched lint PLAN --trace TRACE --workers N' says what could stand in line N.

Exit status:
  0  the trace conforms
  1  it breaks, or there was a fault, told by one of these lines on standard
     error:
       sched: plan file not read
       sched: plan: KIND block B call C   no plan; KIND is told below
       sched: trace file not read
       sched: trace file too long
       sched: write fault
       sched: out of memory
  2  a fault of the command line"
);

/// What the help of `migrate` says below the options: what is printed, which plans are refused, and the exit
/// statuses.
pub const MIGRATION: &str = with_kinds!(
    "\
The plan is one of version 1, and it is printed as one of version 2, which
makes the same calls: where a block has a unit, that is left out and stands
beside each time of the block and of its calls instead. Comments and the layout
are lost. A plan of version 2 is refused as 'Version', and one whose printed
text would have more than 1,048,576 bytes as 'TooLong', both with block 0 and
call 0; they are plans, and 'sched lint' finds nothing wrong with them.

Exit status:
  0  the plan was printed
  1  a fault, told by one of these lines on standard error:
       sched: plan file not read
       sched: plan: KIND block B call C   no plan; KIND is told below
       sched: write fault
       sched: out of memory
     Nothing was printed, but for a front of the plan at a write fault.
  2  a fault of the command line"
);

/// What the help of `draw` says below the options: what the picture shows, and the exit statuses.
pub const DRAWING: &str = with_kinds!(
    "\
The picture is one in SVG. Time goes from left to right: from T to T, both in
nanoseconds, and where one of the two is left out from the least or to the
greatest moment of the trace. There is
  a bar   for each run, in the lane of its worker, from its start to its finish,
          or to the end of the picture where it has none; its colour tells what
          the run led to. Runs that lie over one another are one bar, labelled
          '2 runs' where that fits, and else with their number at its upper
          right: failed where one of them failed, and else as the last one
  a mark  for each other line of the trace but a purge's, above the lanes. Where
          several of a row stand at one place, their number stands at their
          upper right
and each has a tooltip: of a mark its line, of a bar the name of its task and
the lines of its run, and of several those of all. Bars are shown that have a
part of the time, and marks within it.
A trace that is none of the plan is not drawn. As 'sched check' does, 'draw'
prints
  breaks N  lines 1 to N - 1 may begin a trace of the plan, and with line N they
            may not, or the trace ends before line N, which has to come
and 'sched lint PLAN --trace TRACE --workers N' says what could stand there.

Exit status:
  0  the picture was printed
  1  the trace breaks, or there was a fault, told by one of these lines on
     standard error:
       sched: plan file not read
       sched: plan: KIND block B call C   no plan; KIND is told below
       sched: trace file not read
       sched: trace file too long
       sched: the picture ends before it begins
       sched: N marks or bars are too many: --from and --to narrow the picture
       sched: write fault
       sched: out of memory
     Nothing was printed at a fault, but for a front of the text at a write
     fault.
  2  a fault of the command line"
);

/// What the help of `live` says below the options: what lines there are, when a call is made, what is written, and the exit
/// statuses.
pub const LIVE: &str = "\
A line on standard input has at most 63 bytes with its newline. It is an event,
as 'sched run --help' has it, or a call:
  call schedule D   submits a task that runs once and is due D after the call
  call execute      submits a task that runs once and is due at its call
  call rate F P     submits a task that is due F after the call, and then each P
  call fixed F D    submits a task that is due F after the call, and then D after
                    each of its runs
  call cancel K     cancels task K, which was submitted by a line before
  call policy WHICH VALUE
                    sets a policy: WHICH is continue, execute or remove, as
                    'sched run --help' has them, and VALUE is true or false
  call shutdown     shuts the executor
  call shutdown_now
                    shuts the executor at once
  call ask          asks how many tasks are queued and run
Numbers have no leading zero. D, F and P are nanoseconds: D and F are 0 to 2^62,
P and the D of fixed 1 to 2^62. K is below 2^32. Tasks are numbered from 0 in
the order of their calls, whether they are accepted or not.
A call is made now, or 1 ns after the last clock that was accepted, whichever is
later: behind 'clock 5' at 6, and at 0 before any clock. An event 'cancel K' of
a task that was not submitted before is answered 'error no task', and so is a
'call cancel K', which is that event then and no call.
The trace goes to standard output. A line is answered as soon as it was read
whole: all lines that were read are answered before more are read.
There is no limit on lines but these, beyond which there is no room for one:
calls are made at 2^62 at most, there are at most 2^32 tasks, 2^64 - 1 runs of a
task, and 2^64 - 2 lines of the trace.
With --plan the calls that were made are written to FILE once the lines end,
also where they end by a fault: a plan of version 2 that makes them at the same
moments, with task K as 'tK'. FILE is created then, or its old bytes are lost.

Example:
  $ printf 'call schedule 5\\nclock 5\\nstart 0\\n' | sched live --workers 1
  0 submit 0 schedule due 5
  5 clock
  5 start 0 task 0 run 0 due 5

Exit status:
  0  all lines were answered
  1  a fault, the first of these that there is, told by its line on standard
     error:
       sched: event line N                line N, counted from 1, is no event and
                                          no call
       sched: full                        there is no room for a further line
       sched: read fault
       sched: write fault
       sched: out of memory
       sched: plan: TooMany block 0 call 0
                                          more than 65,536 calls were made
       sched: plan: TooLong block 0 call 0
                                          the plan would have more than 1,048,576
                                          bytes
       sched: plan file not written
     The lines before a bad line, before one without room or a read fault were
     answered. FILE is not touched at a fault of the plan.
  2  a fault of the command line";

/// What the help of `lint` says below the options: what is told, and the exit statuses.
pub const LINT: &str = "\
One line on standard error says what is wrong: the file, the line, what stands
there and what is wanted:
  plan.toml:12: block 2, call 1, op = \"sched\": no such op; one of schedule, ..
  events.txt:3: \"clock 05\": leading zero; ..
  trace.txt:4: \"5 start 0 idle\": breaks; \"5 start 0 task 0 run 0 due 5\" ..
  calls.txt:1: \"call rate 5\": too short; call rate F P
The plan is looked at first, and only the first thing that is wrong is told.
Events and calls are looked at by their spelling alone. Of a trace that breaks
up to three lines are told that could stand there, and with which other numbers
of workers the trace conforms.
Where nothing is wrong, lines on standard error tell what is odd of a plan:
  plan.toml:7: warning: block 1, call 1, period = 0: not above 0; ..
of submissions that are refused each time, since they are illegal or stand
behind a shutdown, or from the second iteration on; of cancels of such; of
periods under a microsecond that have no unit; and of names that no cancel has,
where there is a cancel.
A file has at most 67,108,864 bytes, and a plan 1,048,576. One of the files may
be named '-', which is standard input.

Exit status:
  0  nothing is wrong: 'fine' was printed
  1  something is wrong, or a file can't be read, which a line tells that begins
     with the file's name; or with --strict there is a warning; or there was a
     fault, told by one of these lines on standard error:
       sched: write fault
       sched: out of memory
  2  a fault of the command line: 'lint' takes PLAN, or it and --events, or it,
     --trace and --workers, or --calls alone";
