//! The command line.

ghost use Rattle.std.specs.Prelude.{◌≡◌, false, [], ◌∷◌, codes, IfOk, IsOkAnd};
ghost use Rattle.clap.specs.Words.{app_of, rule_of};
ghost use Rattle.command_line.specs.own.Programs.{AddsPlain, bare_app};
ghost use Rattle.command_line.specs.Commands.{command_of, calls_file_rule, events_file_rule, from_rule, limit_rule, lint_rules, marks_rule, plan_file_rule, plan_of_lint_rule, plan_rule, sched_app, strict_rule, to_rule, trace_file_rule, trace_rule, workers_of_trace_rule, workers_rule};

use crate::help::{CODE, DRAWING, FINDINGS, FORMS, LINT, LIVE, MIGRATION, POOL, STATUSES, TASKS};
use crate::version::VERSION;
use clap::{Arg, ArgAction, Command, value_parser};
use executor_model::MOST_WORKERS;
use std::alloc::{AllocError, Global};

/// The command lines of the program: `sched run PLAN --workers N [--limit N]`, `sched pool` with the same arguments,
/// `sched code PLAN`, `sched tasks PLAN`, `sched check PLAN TRACE --workers N`, `sched migrate PLAN`,
/// `sched draw PLAN TRACE --workers N [--from T] [--to T] [--marks M]`, `sched live --workers N [--plan FILE]` and
/// `sched lint [PLAN] [--events FILE | --trace FILE --workers N | --calls FILE] [--strict]`. `Err` where memory ran out.
pub fn command<'a>(alloc: Global) -> Result<Command<'a>, AllocError>
    ensures app { IfOk result (λ c. app_of c ≡ sched_app) }
{
    let program = program(alloc)?;
    let program = with_command(program, run_command(alloc))?;
    let program = with_command(program, pool_command(alloc))?;
    let program = with_command(program, code_command(alloc))?;
    let program = with_command(program, tasks_command(alloc))?;
    let program = with_command(program, check_command(alloc))?;
    let program = with_command(program, migrate_command(alloc))?;
    let program = with_command(program, draw_command(alloc))?;
    let program = with_command(program, live_command(alloc))?;
    with_command(program, lint_command(alloc))
}

/// The program without its commands. `Err` where memory ran out.
fn program<'a>(alloc: Global) -> Result<Command<'a>, AllocError>
    ensures app { IfOk result (λ c. app_of c ≡ bare_app) }
{
    Ok(
        Command::new(alloc, "sched")
            .bin_name("sched")?
            .about("Runs plans of scheduled tasks over lines of events, and writes what happens.")
            .version(VERSION)
            .after_help(STATUSES)
            .subcommand_required(true),
    )
}

/// A program with one more command, where there is one. `Err` where memory ran out, for it or for the command.
fn with_command<'a>(
    program: Command<'a>,
    command: Result<Command<'a>, AllocError>,
) -> Result<Command<'a>, AllocError>
    ensures app { IfOk result (λ p. IsOkAnd command.entry (AddsPlain program.entry p)) }
{
    program.subcommand(command?)
}

/// `run`, with its three arguments. `Err` where memory ran out.
fn run_command<'a>(alloc: Global) -> Result<Command<'a>, AllocError>
    ensures app { IfOk result (λ c. app_of c ≡ command_of (codes "run") (plan_rule ∷ workers_rule ∷ limit_rule ∷ [])) }
{
    Ok(
        Command::new(alloc, "run")
            .about(
                "Runs a plan over the events on standard input, and writes the trace to standard output.",
            )
            .after_help(FORMS)
            .arg(plan(alloc))?
            .arg(workers(alloc))?
            .arg(limit(alloc))?,
    )
}

/// `pool`, with its three arguments. `Err` where memory ran out.
fn pool_command<'a>(alloc: Global) -> Result<Command<'a>, AllocError>
    ensures app { IfOk result (λ c. app_of c ≡ command_of (codes "pool") (plan_rule ∷ workers_rule ∷ limit_rule ∷ [])) }
{
    Ok(
        Command::new(alloc, "pool")
            .about(
                "Runs a plan by threads through the clocks on standard input, and writes the trace.",
            )
            .after_help(POOL)
            .arg(plan(alloc))?
            .arg(workers(alloc))?
            .arg(limit(alloc))?,
    )
}

/// `code`, with its argument. `Err` where memory ran out.
fn code_command<'a>(alloc: Global) -> Result<Command<'a>, AllocError>
    ensures app { IfOk result (λ c. app_of c ≡ command_of (codes "code") (plan_rule ∷ [])) }
{
    Ok(
        Command::new(alloc, "code")
            .about("Prints the queue code of a plan to standard output.")
            .after_help(CODE)
            .arg(plan(alloc))?,
    )
}

/// `tasks`, with its argument. `Err` where memory ran out.
fn tasks_command<'a>(alloc: Global) -> Result<Command<'a>, AllocError>
    ensures app { IfOk result (λ c. app_of c ≡ command_of (codes "tasks") (plan_rule ∷ [])) }
{
    Ok(
        Command::new(alloc, "tasks")
            .about("Prints the tasks of a plan, with their numbers and names, to standard output.")
            .after_help(TASKS)
            .arg(plan(alloc))?,
    )
}

/// `check`, with its three arguments. `Err` where memory ran out.
fn check_command<'a>(alloc: Global) -> Result<Command<'a>, AllocError>
    ensures app { IfOk result (λ c. app_of c ≡ command_of (codes "check") (plan_rule ∷ trace_rule ∷ workers_rule ∷ [])) }
{
    Ok(
        Command::new(alloc, "check")
            .about("Checks that a trace is one that a plan allows.")
            .after_help(FINDINGS)
            .arg(plan(alloc))?
            .arg(trace(alloc))?
            .arg(workers(alloc))?,
    )
}

/// `migrate`, with its argument. `Err` where memory ran out.
fn migrate_command<'a>(alloc: Global) -> Result<Command<'a>, AllocError>
    ensures app { IfOk result (λ c. app_of c ≡ command_of (codes "migrate") (plan_rule ∷ [])) }
{
    Ok(
        Command::new(alloc, "migrate")
            .about(
                "Prints a plan of version 1, the older form, as one of version 2 to standard output.",
            )
            .after_help(MIGRATION)
            .arg(plan(alloc))?,
    )
}

/// `draw`, with its six arguments. `Err` where memory ran out.
fn draw_command<'a>(alloc: Global) -> Result<Command<'a>, AllocError>
    ensures app { IfOk result (λ c. app_of c ≡ command_of (codes "draw") (plan_rule ∷ trace_rule ∷ workers_rule ∷ from_rule ∷ to_rule ∷ marks_rule ∷ [])) }
{
    Ok(
        Command::new(alloc, "draw")
            .about("Prints a picture of a trace of a plan, as SVG, to standard output.")
            .after_help(DRAWING)
            .arg(plan(alloc))?
            .arg(trace(alloc))?
            .arg(workers(alloc))?
            .arg(from(alloc))?
            .arg(to(alloc))?
            .arg(marks(alloc))?,
    )
}

/// `live`, with its two arguments. `Err` where memory ran out.
fn live_command<'a>(alloc: Global) -> Result<Command<'a>, AllocError>
    ensures app { IfOk result (λ c. app_of c ≡ command_of (codes "live") (workers_rule ∷ plan_file_rule ∷ [])) }
{
    Ok(
        Command::new(alloc, "live")
            .about(
                "Answers events and calls on standard input as they come, and writes the trace to standard output.",
            )
            .after_help(LIVE)
            .arg(workers(alloc))?
            .arg(plan_file(alloc))?,
    )
}

/// `lint`, with its six arguments. `Err` where memory ran out.
fn lint_command<'a>(alloc: Global) -> Result<Command<'a>, AllocError>
    ensures app { IfOk result (λ c. app_of c ≡ command_of (codes "lint") lint_rules) }
{
    Ok(
        Command::new(alloc, "lint")
            .about("Says why a plan is refused, or the events, the trace or the calls of a file.")
            .after_help(LINT)
            .arg(plan_of_lint(alloc))?
            .arg(events_file(alloc))?
            .arg(trace_file(alloc))?
            .arg(workers_of_trace(alloc))?
            .arg(calls_file(alloc))?
            .arg(strict(alloc))?,
    )
}

/// `PLAN`, which has to be there.
fn plan<'a>(alloc: Global) -> Arg<'a>
    ensures rule { rule_of result ≡ plan_rule }
    ensures local { result.global ≡ false }
{
    Arg::new(alloc, "plan")
        .value_name("PLAN")
        .help("The file of the plan: which tasks are submitted, and when")
        .required(true)
        .action(ArgAction::Set)
}

/// `PLAN` of a lint, which may be left out.
fn plan_of_lint<'a>(alloc: Global) -> Arg<'a>
    ensures rule { rule_of result ≡ plan_of_lint_rule }
    ensures local { result.global ≡ false }
{
    plan(alloc).help("The file of the plan").required(false)
}

/// `TRACE`, which has to be there.
fn trace<'a>(alloc: Global) -> Arg<'a>
    ensures rule { rule_of result ≡ trace_rule }
    ensures local { result.global ≡ false }
{
    Arg::new(alloc, "trace")
        .value_name("TRACE")
        .help("The file of the trace: at most 67,108,864 bytes")
        .required(true)
        .action(ArgAction::Set)
}

/// `--workers N`, 1 to 64, which has to be there.
fn workers<'a>(alloc: Global) -> Arg<'a>
    ensures rule { rule_of result ≡ workers_rule }
    ensures local { result.global ≡ false }
{
    Arg::new(alloc, "workers")
        .long("workers")
        .value_name("N")
        .help("How many workers there are, 1 to 64")
        .required(true)
        .action(ArgAction::Set)
        .value_parser(value_parser!(u8).range(1..i64::from(MOST_WORKERS) + 1))
}

/// `--limit N`, 1 to 4,294,967,295, and 1,000,000 where it is left out.
fn limit<'a>(alloc: Global) -> Arg<'a>
    ensures rule { rule_of result ≡ limit_rule }
    ensures local { result.global ≡ false }
{
    Arg::new(alloc, "limit")
        .long("limit")
        .value_name("N")
        .help("How many events are taken at most, 1 to 4,294,967,295")
        .action(ArgAction::Set)
        .default_value("1000000")
        .value_parser(value_parser!(u32).range(1..))
}

/// `--plan FILE`, which may be left out.
fn plan_file<'a>(alloc: Global) -> Arg<'a>
    ensures rule { rule_of result ≡ plan_file_rule }
    ensures local { result.global ≡ false }
{
    Arg::new(alloc, "plan")
        .long("plan")
        .value_name("FILE")
        .help(
            "The file to which the plan of the calls is written at the end; it is created, or its bytes are lost",
        )
        .action(ArgAction::Set)
}

/// `--events FILE`, which may be left out.
fn events_file<'a>(alloc: Global) -> Arg<'a>
    ensures rule { rule_of result ≡ events_file_rule }
    ensures local { result.global ≡ false }
{
    Arg::new(alloc, "events")
        .long("events")
        .value_name("FILE")
        .help("The file of events that is looked at too")
        .action(ArgAction::Set)
}

/// `--trace FILE`, which may be left out.
fn trace_file<'a>(alloc: Global) -> Arg<'a>
    ensures rule { rule_of result ≡ trace_file_rule }
    ensures local { result.global ≡ false }
{
    Arg::new(alloc, "trace")
        .long("trace")
        .value_name("FILE")
        .help("The file of a trace that is looked at too, with --workers")
        .action(ArgAction::Set)
}

/// `--workers N`, 1 to 64, which may be left out.
fn workers_of_trace<'a>(alloc: Global) -> Arg<'a>
    ensures rule { rule_of result ≡ workers_of_trace_rule }
    ensures local { result.global ≡ false }
{
    workers(alloc)
        .help("How many workers the trace has, 1 to 64")
        .required(false)
}

/// `--calls FILE`, which may be left out.
fn calls_file<'a>(alloc: Global) -> Arg<'a>
    ensures rule { rule_of result ≡ calls_file_rule }
    ensures local { result.global ≡ false }
{
    Arg::new(alloc, "calls")
        .long("calls")
        .value_name("FILE")
        .help(
            "The file of calls and events, as 'sched live' takes them, that is looked at, without PLAN",
        )
        .action(ArgAction::Set)
}

/// `--strict`, a flag.
fn strict<'a>(alloc: Global) -> Arg<'a>
    ensures rule { rule_of result ≡ strict_rule }
    ensures local { result.global ≡ false }
{
    Arg::new(alloc, "strict")
        .long("strict")
        .help("A warning is a fault: the exit status is 1")
        .action(ArgAction::SetTrue)
}

/// `--from T`, a number of 64 bits, which may be left out.
fn from<'a>(alloc: Global) -> Arg<'a>
    ensures rule { rule_of result ≡ from_rule }
    ensures local { result.global ≡ false }
{
    Arg::new(alloc, "from")
        .long("from")
        .value_name("T")
        .help(
            "The first moment of the picture, in nanoseconds; the least of the trace where it is left out",
        )
        .action(ArgAction::Set)
        .value_parser(value_parser!(u64))
}

/// `--to T`, a number of 64 bits, which may be left out.
fn to<'a>(alloc: Global) -> Arg<'a>
    ensures rule { rule_of result ≡ to_rule }
    ensures local { result.global ≡ false }
{
    Arg::new(alloc, "to")
        .long("to")
        .value_name("T")
        .help(
            "The last moment of the picture, in nanoseconds; the greatest of the trace where it is left out",
        )
        .action(ArgAction::Set)
        .value_parser(value_parser!(u64))
}

/// `--marks M`, a number of 64 bits, and 2,000 where it is left out.
fn marks<'a>(alloc: Global) -> Arg<'a>
    ensures rule { rule_of result ≡ marks_rule }
    ensures local { result.global ≡ false }
{
    Arg::new(alloc, "marks")
        .long("marks")
        .value_name("M")
        .help("How many marks the picture may have, and how many bars")
        .action(ArgAction::Set)
        .default_value("2000")
        .value_parser(value_parser!(u64))
}
