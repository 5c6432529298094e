//! What the command line takes.

use command_line::Asked;
use std::alloc::{AllocError, Global};
use std::process::Abort;
use std::test::Fail;

/// What the arguments of a command line ask for, as it is shown to programmers, or the status with which they end the program.
fn shown(alloc: Global, arguments: &[String]) -> Result<String, Fail> {
    match Asked::parse(alloc, arguments) {
        Ok(asked) => Ok(format!(in alloc; "{asked:?}")?),
        Err(error) => Ok(format!(in alloc; "status {}", error.exit_code())?),
    }
}

/// The arguments of a command line, which has a space between them.
pub fn words_of(alloc: Global, line: &str) -> Result<Vec<String>, AllocError> {
    let mut arguments = Vec::new(alloc);
    for argument in line.split(' ') {
        arguments.push(String::from_str(alloc, argument)?)?;
    }
    Ok(arguments)
}

/// Checks what each command line of a table asks for. It stands behind ` | `.
fn tells_each(rt: &(impl AllocGlobal + Abort), table: &str) -> Result<(), Fail> {
    for row in table.lines() {
        let (asked, line) = row.split_once(" | ").ok_or("no command line")?;
        let answer = shown(rt.alloc(), &words_of(rt.alloc(), line)?)?;
        assert!(rt; answer.as_str() == asked, "{row}: {answer}");
    }
    Ok(())
}

/// Runs: the name of the plan's file, how many workers there are, and how many events are taken.
const TAKES_A_NAME_AND_TWO_NUMBERS: &str =
    "Alone(Run(RunArguments { path: \"p\", workers: 64, limit: 1000000 })) | sched run p --workers 64
Alone(Run(RunArguments { path: \"p\", workers: 1, limit: 1000000 })) | sched run p --workers +1
Alone(Run(RunArguments { path: \"q\", workers: 1, limit: 4294967295 })) | x run --limit 4294967295 --workers=1 q
Alone(Run(RunArguments { path: \"-r\", workers: 10, limit: 1 })) | sched run --limit=1 --workers=010 -- -r
Alone(Run(RunArguments { path: \"p\", workers: 2, limit: 3 })) | sched run p --workers 2 --limit 3";

/// Runs by a pool.
const TAKES_A_NAME_AND_TWO_NUMBERS_FOR_A_POOL: &str =
    "Pool(RunArguments { path: \"p\", workers: 64, limit: 1000000 }) | sched pool p --workers 64
Pool(RunArguments { path: \"q\", workers: 1, limit: 4294967295 }) | x pool --limit 4294967295 --workers=1 q
Pool(RunArguments { path: \"p\", workers: 2, limit: 3 }) | sched pool p --workers 2 --limit 3";

/// What takes the names of files alone, and a check.
const TAKES_NAMES: &str = "Alone(Code(PlanArguments { path: \"p\" })) | sched code p
Alone(Check(CheckArguments { path: \"p\", trace: \"t\", workers: 64 })) | sched check --workers 64 p t
Alone(Tasks(PlanArguments { path: \"p\" })) | sched tasks p
Alone(Migrate(PlanArguments { path: \"p\" })) | sched migrate p
Alone(Migrate(PlanArguments { path: \"-p\" })) | sched migrate -- -p
Alone(Check(CheckArguments { path: \"p\", trace: \"t\", workers: 2 })) | sched check p t --workers 2";

/// Pictures: the names of the files, how many workers there are, from where to where time goes, and how many marks there may be.
const TAKES_TWO_NAMES_AND_FOUR_NUMBERS_FOR_A_PICTURE: &str =
    "Alone(Draw(DrawArguments { check: CheckArguments { path: \"p\", trace: \"t\", workers: 64 }, \
  view: View { from: None, to: None, marks: 2000 } })) | sched draw --workers 64 p t
Alone(Draw(DrawArguments { check: CheckArguments { path: \"p\", trace: \"t\", workers: 1 }, \
  view: View { from: Some(3), to: None, marks: 2000 } })) | sched draw p t --workers 1 --from 3
Alone(Draw(DrawArguments { check: CheckArguments { path: \"p\", trace: \"t\", workers: 1 }, \
  view: View { from: None, to: Some(18446744073709551615), marks: 2000 } })) \
  | sched draw p t --to 18446744073709551615 --workers 1
Alone(Draw(DrawArguments { check: CheckArguments { path: \"p\", trace: \"t\", workers: 2 }, \
  view: View { from: Some(18446744073709551615), to: Some(0), marks: 18446744073709551615 } })) \
  | sched draw p --from=18446744073709551615 t --marks=18446744073709551615 --to=0 --workers=2
Alone(Draw(DrawArguments { check: CheckArguments { path: \"p\", trace: \"-t\", workers: 1 }, \
  view: View { from: None, to: None, marks: 0 } })) | sched draw --marks 0 --workers 1 -- p -t
Alone(Draw(DrawArguments { check: CheckArguments { path: \"p\", trace: \"t\", workers: 2 }, \
  view: View { from: None, to: Some(3), marks: 4 } })) | sched draw p t --workers 2 --to 3 --marks 4";

/// Live runs: how many workers there are, and the name of the file of their plan.
const TAKES_A_NUMBER_AND_MAYBE_A_NAME_FOR_A_LIVE_RUN: &str =
    "Alone(Live(LiveArguments { workers: 64, plan: None })) | sched live --workers 64
Alone(Live(LiveArguments { workers: 1, plan: Some(\"p\") })) | sched live --plan p --workers=1
Alone(Live(LiveArguments { workers: 2, plan: Some(\"-p\") })) | sched live --workers 2 --plan=-p
Alone(Live(LiveArguments { workers: 3, plan: Some(\"\") })) | sched live --plan= --workers 3
Alone(Live(LiveArguments { workers: 2, plan: Some(\"p\") })) | sched live --workers 2 --plan p";

/// Lints: the names of the files of the plan, of the events, of the trace and of the calls, how many workers there are, and whether a warning
/// is a fault.
const TAKES_NAMES_AND_A_FLAG_FOR_A_LINT: &str =
    "Lint(LintArguments { path: Some(\"p\"), events: None, trace: None, workers: None, calls: None, strict: false }) | sched lint p
Lint(LintArguments { path: Some(\"p\"), events: Some(\"e\"), trace: None, workers: None, calls: None, strict: true }) \
  | sched lint p --events e --strict
Lint(LintArguments { path: Some(\"p\"), events: None, trace: Some(\"t\"), workers: Some(64), calls: None, strict: false }) \
  | sched lint p --trace t --workers 64
Lint(LintArguments { path: Some(\"-p\"), events: Some(\"e\"), trace: Some(\"-\"), workers: Some(1), calls: Some(\"c\"), strict: true }) \
  | sched lint --workers=1 --strict --calls=c --trace=- --events e -- -p
Lint(LintArguments { path: None, events: None, trace: None, workers: None, calls: Some(\"c\"), strict: false }) | sched lint --calls c
Lint(LintArguments { path: None, events: None, trace: None, workers: None, calls: None, strict: false }) | sched lint
Lint(LintArguments { path: Some(\"p\"), events: None, trace: Some(\"t\"), workers: Some(2), calls: None, strict: false }) \
  | sched lint p --trace t --workers 2";

/// Command lines that the program ends at.
const REFUSES_WHAT_IS_MISSING_TOO_MUCH_OR_OUT_OF_RANGE: &str = "status 2 | sched check p --workers 1
status 2 | sched check p t
status 2 | sched check p t --workers 65
status 2 | sched
status 2 | sched code
status 2 | sched code p q
status 2 | sched code p --workers 1
status 2 | sched tasks
status 2 | sched tasks p q
status 2 | sched migrate
status 2 | sched migrate p q
status 2 | sched migrate p --workers 1
status 2 | sched walk
status 2 | sched run p
status 2 | sched run --workers 1
status 2 | sched run p q --workers 1
status 2 | sched run p --workers 0
status 2 | sched run p --workers 65
status 2 | sched run p --workers 1 --limit 0
status 2 | sched run p --workers 1 --limit 4294967296
status 2 | sched pool
status 2 | sched pool p
status 2 | sched pool p --workers 0
status 2 | sched pool p --workers 65
status 2 | sched pool p --workers 1 --limit 0
status 2 | sched pool p q --workers 1
status 2 | sched draw p --workers 1
status 2 | sched draw p t
status 2 | sched draw p t u --workers 1
status 2 | sched draw p t --workers 0
status 2 | sched draw p t --workers 65
status 2 | sched draw p t --workers 1 --from
status 2 | sched draw p t --workers 1 --from 18446744073709551616
status 2 | sched draw p t --workers 1 --to=-1
status 2 | sched draw p t --workers 1 --to 1s
status 2 | sched draw p t --workers 1 --marks many
status 2 | sched draw p t --workers 1 --marks 18446744073709551616
status 2 | sched draw p t --workers 1 --marks 1 --marks 2
status 2 | sched draw p t --workers 1 --limit 3
status 2 | sched check p t --workers 1 --marks 3
status 2 | sched live
status 2 | sched live --plan p
status 2 | sched live --workers 0
status 2 | sched live --workers 65
status 2 | sched live --workers 1 p
status 2 | sched live --workers 1 --plan
status 2 | sched live --workers 1 --plan p --plan q
status 2 | sched live --workers 1 --limit 3
status 2 | sched lint p q
status 2 | sched lint p --events
status 2 | sched lint p --trace t --workers 0
status 2 | sched lint p --trace t --workers 65
status 2 | sched lint p --events e --events e
status 2 | sched lint p --limit 3
status 2 | sched lint --calls
status 2 | sched lint --calls c --calls d
status 2 | sched lint p --strict --strict
status 2 | sched lint p --strict=1
status 0 | sched --version
status 0 | sched -V
status 2 | sched run --version";

#[test]
fn takes_each_command_line(rt: HostRuntime) -> Result<(), Fail> {
    for table in [
        TAKES_A_NAME_AND_TWO_NUMBERS,
        TAKES_A_NAME_AND_TWO_NUMBERS_FOR_A_POOL,
        TAKES_TWO_NAMES_AND_FOUR_NUMBERS_FOR_A_PICTURE,
        TAKES_A_NUMBER_AND_MAYBE_A_NAME_FOR_A_LIVE_RUN,
        TAKES_NAMES_AND_A_FLAG_FOR_A_LINT,
        REFUSES_WHAT_IS_MISSING_TOO_MUCH_OR_OUT_OF_RANGE,
        TAKES_NAMES,
    ] {
        tells_each(&rt, table)?;
    }
    Ok(())
}
