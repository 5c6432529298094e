//! The texts of help, and of faults of the command line.
use crate::one_delay::given;
use crate::world::run_in;
use std::process::{Abort, ExitCode};
use std::sync::Wait;
use std::test::Fail;
use std::thread::Threads;

/// Checks that a command line is answered by a text with each of these parts, a line for each, where `⏎` is the end of a line
/// and `␣` a space: on standard output with status 0, or on standard error with status 2.
fn shows<R: AllocGlobal + Abort + Threads + Wait + Sync>(
    rt: &R,
    line: &str,
    status: u8,
    parts: &str,
) -> Result<(), Fail> {
    let ended = run_in(rt, given(line, ""));
    assert!(rt; ended.status == ExitCode::from(status), "{line}");
    let (shown, other) = if status == 0 {
        (&ended.out, &ended.err)
    } else {
        (&ended.err, &ended.out)
    };
    assert!(rt; other.is_empty(), "{line}");
    let text = std::str::from_utf8(shown)?;
    for part in parts.lines() {
        let part = part.replace(rt.alloc(), "⏎", "\n")?;
        let part = part.as_str().replace(rt.alloc(), "␣", " ")?;
        assert!(rt; text.contains(part.as_str()), "{line}: {part}");
    }
    Ok(())
}

/// Each help: its command line, which `$ ` begins, and its parts.
const HELPS: &str = "
$ sched --help
Usage: sched <COMMAND>⏎
  run      Runs a plan over the events on standard input
  pool     Runs a plan by threads through the clocks on standard input
  code     Prints the queue code of a plan to standard output
  tasks    Prints the tasks of a plan, with their numbers and names, to standard output
  check    Checks that a trace is one that a plan allows
  migrate  Prints a plan of version 1, the older form, as one of version 2 to standard output
  draw     Prints a picture of a trace of a plan, as SVG, to standard output
  live     Answers events and calls on standard input as they come
  lint     Says why a plan is refused, or the events, the trace or the calls of a file
  -V, --version  Print version⏎
'sched run --help' tells what a plan, an event and a trace look like
'sched lint' why one is refused.
  0  done⏎
  1  a fault, told by a line on standard error, or a trace that breaks⏎
  2  a fault of the command line⏎

$ sched --version
sched 0.1.0 (rattle-kit-13f logic␣

$ sched lint --help
Usage: sched lint [OPTIONS] [PLAN]⏎
      --events <FILE>  The file of events that is looked at too⏎
      --trace <FILE>   The file of a trace that is looked at too, with --workers⏎
      --workers <N>    How many workers the trace has, 1 to 64⏎
      --calls <FILE>   The file of calls and events
      --strict         A warning is a fault: the exit status is 1⏎
  plan.toml:12: block 2, call 1, op = \"sched\": no such op; one of
  0  nothing is wrong: 'fine' was printed⏎
  1  something is wrong
  2  a fault of the command line

$ sched pool --help
Usage: sched pool [OPTIONS] --workers <N> <PLAN>⏎
How many workers there are, 1 to 64
How many events are taken at most, 1 to 4,294,967,295
[default: 1000000]
  clock T␣␣
All of them are read first.
  0  all was run⏎
sched: plan file not read⏎
sched: plan: KIND block B call C
sched: event line N                line N, counted from 1, is no clock⏎
sched: full
sched: read fault⏎
sched: write fault⏎
sched: lost
sched: out of memory⏎
  2  a fault of the command line⏎

$ sched code --help
Usage: sched code <PLAN>⏎
submit O schedule D
submit O rate F P
submit O fixed F D
illegal O
cancel O task K
cancel O here J
policy O WHICH VALUE
shutdown O
shutdown_now O
ask O
loop N every E
endloop
halt
  1  a fault, told by one of these lines

$ sched tasks --help
Usage: sched tasks <PLAN>⏎
  K NAME KIND submitted M due D⏎
  K NAME KIND submitted M refused illegal⏎
All times are nanoseconds.⏎
  0  the tasks were printed⏎
sched: plan file not read⏎
sched: plan: KIND block B call C
sched: write fault⏎
sched: out of memory⏎
  2  a fault of the command line⏎

$ sched check --help
Usage: sched check --workers <N> <PLAN> <TRACE>⏎
at most 67,108,864 bytes
  conforms  the trace is that of some events
  breaks N  it is none
sched: trace file not read
sched: trace file too long

$ sched draw --help
Usage: sched draw [OPTIONS] --workers <N> <PLAN> <TRACE>⏎
How many workers there are, 1 to 64
The first moment of the picture, in nanoseconds
The last moment of the picture, in nanoseconds
How many marks the picture may have, and how many bars
[default: 2000]
The picture is one in SVG.
  a bar   for each run, in the lane of its worker
  a mark  for each other line of the trace
  breaks N  lines 1 to N - 1 may begin a trace of the plan
  0  the picture was printed⏎
  1  the trace breaks, or there was a fault
sched: plan file not read⏎
sched: plan: KIND block B call C
sched: trace file not read⏎
sched: trace file too long⏎
sched: the picture ends before it begins⏎
sched: N marks or bars are too many: --from and --to narrow the picture⏎
sched: write fault⏎
sched: out of memory⏎
  2  a fault of the command line⏎

$ sched live --help
Usage: sched live [OPTIONS] --workers <N>⏎
How many workers there are, 1 to 64
--plan <FILE>
The file to which the plan of the calls is written at the end
at most 63 bytes with its newline
  call schedule D␣␣
  call execute␣␣
  call rate F P␣␣
  call fixed F D␣␣
  call cancel K␣␣
  call policy WHICH VALUE⏎
  call shutdown␣␣
  call shutdown_now⏎
  call ask␣␣
A call is made now, or 1 ns after the last clock that was accepted, whichever is⏎later
Tasks are numbered from 0
  $ printf 'call schedule 5\\nclock 5\\nstart 0\\n' | sched live --workers 1⏎
  0  all lines were answered⏎
sched: event line N
sched: full
sched: read fault⏎
sched: write fault⏎
sched: out of memory⏎
sched: plan: TooMany block 0 call 0⏎
more than 65,536 calls were made⏎
sched: plan: TooLong block 0 call 0⏎
sched: plan file not written⏎
FILE is not touched at a fault of the plan.⏎
  2  a fault of the command line⏎

$ sched migrate --help
Usage: sched migrate <PLAN>⏎
The plan is one of version 1, and it is printed as one of version 2
A plan of version 2 is refused as 'Version'
text would have more than 1,048,576 bytes as 'TooLong'
  0  the plan was printed⏎
  1  a fault, told by one of these lines
sched: plan file not read⏎
sched: plan: KIND block B call C
sched: write fault⏎
sched: out of memory⏎
  2  a fault of the command line⏎

$ sched run --help
Usage: sched run [OPTIONS] --workers <N> <PLAN>⏎
How many workers there are, 1 to 64
How many events are taken at most, 1 to 4,294,967,295
[default: 1000000]
TOML, version 1.1, as the kit's crate 'toml' reads it
at most 1,048,576 bytes
integers have 64 bits
nested at most 80 deep
keys have at most 80 parts
'version = 2'
at_unit, every_unit, delay_unit, first_unit, period_unit⏎
\"min\", \"h\" or \"d\", which is 24 hours
The older form of plans has 'version = 1'
'sched migrate' prints such a plan
\"schedule\"
\"execute\"   submits
\"rate\"
\"fixed\"
\"cancel\"
\"policy\"
\"shutdown\"
\"shutdown_now\"
\"ask\"
\"continue\"
\"execute\"
\"remove\"
  clock T␣␣
  start W␣␣
  finish W ok V␣␣
  finish W fail C␣␣
  cancel K␣␣
at most 63 bytes with its newline
  0  all events were answered⏎
  1  a fault
sched: plan file not read⏎
sched: plan: KIND block B call C
sched: event line N
sched: full
sched: read fault⏎
sched: write fault⏎
sched: out of memory⏎
  2  a fault of the command line⏎
";

#[test]
fn each_help_has_its_parts(rt: HostRuntime) -> Result<(), Fail> {
    for help in HELPS.split("\n$ ").skip(1) {
        let (line, parts) = help.split_once("\n").ok_or("no parts")?;
        shows(&rt, line, 0, parts)?;
    }
    Ok(())
}

/// What each help that speaks of a plan's fault says of its kinds.
const KINDS: &str = "KIND is⏎
  TooLong␣␣␣
  Toml␣␣␣
  Version␣␣␣
  UnknownKey␣␣␣
  Missing␣␣␣
  WrongType␣␣␣
  BadUnit␣␣␣
  BadTimes␣␣␣
  Negative␣␣␣
  BadName␣␣␣
  DuplicateName␣␣
  UnknownName␣␣␣
  Ambiguous␣␣␣
  OutOfOrder␣␣␣
  TooLarge␣␣␣
  TooMany␣␣␣
'sched lint PLAN' says why, with the line of the text.";

#[test]
fn each_help_names_the_kinds_of_faults_of_a_plan(rt: HostRuntime) -> Result<(), Fail> {
    for command in "run pool code tasks check migrate draw".split(' ') {
        let line = format!(in rt.alloc(); "sched {command} --help")?;
        shows(&rt, line.as_str(), 0, KINDS)?;
    }
    Ok(())
}

#[test]
fn tells_a_fault_of_the_command_line(rt: HostRuntime) -> Result<(), Fail> {
    let parts = "error: \n'65'\n'--workers <N>'\ntry '--help'";
    shows(&rt, "sched run plan.toml --workers 65", 2, parts)?;
    let parts = "error: \nrequires a subcommand\nUsage: sched <COMMAND>";
    shows(&rt, "sched", 2, parts)
}
