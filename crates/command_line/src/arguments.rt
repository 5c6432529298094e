//! What the arguments of the command line ask for.

ghost use Rattle.std.specs.Prelude.{◌≡◌, map, string_bytes, IfOk};
ghost use Rattle.clap.specs.Words.{FailsBy, fault_of, found_of, rows_of};
ghost use Rattle.command_line.specs.Commands.{sched_app};
ghost use Rattle.command_line.specs.Arguments.{Asks, AsksForCheck, AsksForDraw, AsksForLint, AsksForLive, AsksForPlan, AsksForRun, AsksForView};

use crate::command::command;
use clap::{ArgMatches, Error};
use std::alloc::Global;
use trace_svg::View;

/// What a command line asks for.
#[derive(Clone, Copy, Debug)]
pub enum Asked<'a> {
    /// A run of a plan by a pool over the clocks on standard input.
    Pool(RunArguments<'a>),
    /// Why a plan is refused, or what goes with it, or the lines of a live run.
    Lint(LintArguments<'a>),
    /// What one thread does, which waits for no other.
    Alone(AskedAlone<'a>),
}

/// What is asked of one thread.
#[derive(Clone, Copy, Debug)]
pub enum AskedAlone<'a> {
    /// A run of a plan over the events on standard input.
    Run(RunArguments<'a>),
    /// The listing of a plan's code.
    Code(PlanArguments<'a>),
    /// The tasks of a plan.
    Tasks(PlanArguments<'a>),
    /// The check of a trace against a plan.
    Check(CheckArguments<'a>),
    /// The migration of a plan's text.
    Migrate(PlanArguments<'a>),
    /// The picture of a trace of a plan.
    Draw(DrawArguments<'a>),
    /// The answers to the events and the calls on standard input.
    Live(LiveArguments<'a>),
}

/// What `sched run` or `sched pool` is asked for.
#[derive(Clone, Copy, Debug)]
pub struct RunArguments<'a> {
    /// The name of the plan's file.
    pub path: &'a str,
    /// How many workers there are: 1 to 64.
    pub workers: u8,
    /// How many events are taken at most: 1 to 4,294,967,295.
    pub limit: u32,
}

/// What `sched code`, `sched tasks` or `sched migrate` is asked for.
#[derive(Clone, Copy, Debug)]
pub struct PlanArguments<'a> {
    /// The name of the plan's file.
    pub path: &'a str,
}

/// What `sched check` is asked for.
#[derive(Clone, Copy, Debug)]
pub struct CheckArguments<'a> {
    /// The name of the plan's file.
    pub path: &'a str,
    /// The name of the trace's file.
    pub trace: &'a str,
    /// How many workers there are: 1 to 64.
    pub workers: u8,
}

/// What `sched draw` is asked for.
#[derive(Clone, Copy, Debug)]
pub struct DrawArguments<'a> {
    /// The files and the workers, as `sched check` has them.
    pub check: CheckArguments<'a>,
    /// What of the trace is shown.
    pub view: View,
}

/// What `sched live` is asked for.
#[derive(Clone, Copy, Debug)]
pub struct LiveArguments<'a> {
    /// How many workers there are: 1 to 64.
    pub workers: u8,
    /// The name of the file to which the plan of the calls is written, where it is wanted.
    pub plan: Option<&'a str>,
}

/// What `sched lint` is asked for.
#[derive(Clone, Copy, Debug)]
pub struct LintArguments<'a> {
    /// The name of the plan's file, where one is given.
    pub path: Option<&'a str>,
    /// The name of the events' file, where one is given.
    pub events: Option<&'a str>,
    /// The name of the trace's file, where one is given.
    pub trace: Option<&'a str>,
    /// How many workers there are, where that is given: 1 to 64.
    pub workers: Option<u8>,
    /// The name of the file of calls and events, where one is given.
    pub calls: Option<&'a str>,
    /// Whether a warning is a fault.
    pub strict: bool,
}

impl<'a> Asked<'a> {
    /// What the arguments of a command line ask for, the program's name first. `Err` is help, a
    /// fault of the command line, or want of memory.
    pub fn parse(alloc: Global, arguments: &'a [String]) -> Result<Asked<'a>, Error>
        ensures asked { IfOk result (Asks (map string_bytes arguments.now)) }
        ensures fails { FailsBy (fault_of sched_app (map string_bytes arguments.now)) result }
    {
        let matches = command(alloc)?.try_get_matches_from(arguments)?;
        if let Some(code) = matches.subcommand_matches("code") {
            let plan = PlanArguments::of_matches(code);
            return Ok(Asked::Alone(AskedAlone::Code(plan)));
        }
        if let Some(tasks) = matches.subcommand_matches("tasks") {
            let plan = PlanArguments::of_matches(tasks);
            return Ok(Asked::Alone(AskedAlone::Tasks(plan)));
        }
        if let Some(check) = matches.subcommand_matches("check") {
            let check = CheckArguments::of_matches(check);
            return Ok(Asked::Alone(AskedAlone::Check(check)));
        }
        if let Some(pool) = matches.subcommand_matches("pool") {
            return Ok(Asked::Pool(RunArguments::of_matches(pool)));
        }
        if let Some(migrate) = matches.subcommand_matches("migrate") {
            let plan = PlanArguments::of_matches(migrate);
            return Ok(Asked::Alone(AskedAlone::Migrate(plan)));
        }
        if let Some(draw) = matches.subcommand_matches("draw") {
            let draw = DrawArguments::of_matches(draw);
            return Ok(Asked::Alone(AskedAlone::Draw(draw)));
        }
        if let Some(live) = matches.subcommand_matches("live") {
            let live = LiveArguments::of_matches(live);
            return Ok(Asked::Alone(AskedAlone::Live(live)));
        }
        if let Some(lint) = matches.subcommand_matches("lint") {
            return Ok(Asked::Lint(LintArguments::of_matches(lint)));
        }
        match matches.subcommand() {
            Some((_, run)) => {
                let run = RunArguments::of_matches(run);
                Ok(Asked::Alone(AskedAlone::Run(run)))
            }
            None => unreachable!(),
        }
    }
}

impl<'a> RunArguments<'a> {
    /// What was found for the arguments of `run` or `pool`. A value that is missing, which the command line
    /// does not let through, is no name, no worker and no event.
    fn of_matches(run: &ArgMatches<'a>) -> RunArguments<'a>
        ensures { AsksForRun (rows_of (found_of run.now)) result }
    {
        RunArguments {
            path: run.get_str("plan").unwrap_or(""),
            workers: run.get_one::<u8>("workers").unwrap_or(0),
            limit: run.get_one::<u32>("limit").unwrap_or(0),
        }
    }
}

impl<'a> PlanArguments<'a> {
    /// What was found for the argument of `code`, `tasks` or `migrate`, as [`RunArguments`] has it.
    fn of_matches(matches: &ArgMatches<'a>) -> PlanArguments<'a>
        ensures { AsksForPlan (rows_of (found_of matches.now)) result }
    {
        PlanArguments {
            path: matches.get_str("plan").unwrap_or(""),
        }
    }
}

impl<'a> CheckArguments<'a> {
    /// What was found for the arguments of `check`, or for those of `draw` that it has too, as [`RunArguments`] has it.
    fn of_matches(check: &ArgMatches<'a>) -> CheckArguments<'a>
        ensures { AsksForCheck (rows_of (found_of check.now)) result }
    {
        CheckArguments {
            path: check.get_str("plan").unwrap_or(""),
            trace: check.get_str("trace").unwrap_or(""),
            workers: check.get_one::<u8>("workers").unwrap_or(0),
        }
    }
}

impl<'a> DrawArguments<'a> {
    /// What was found for the arguments of `draw`.
    fn of_matches(draw: &ArgMatches<'a>) -> DrawArguments<'a>
        ensures { AsksForDraw (rows_of (found_of draw.now)) result }
    {
        DrawArguments {
            check: CheckArguments::of_matches(draw),
            view: view_of_matches(draw),
        }
    }
}

impl<'a> LiveArguments<'a> {
    /// What was found for the arguments of `live`, as [`RunArguments`] has it.
    fn of_matches(live: &ArgMatches<'a>) -> LiveArguments<'a>
        ensures { AsksForLive (rows_of (found_of live.now)) result }
    {
        LiveArguments {
            workers: live.get_one::<u8>("workers").unwrap_or(0),
            plan: live.get_str("plan"),
        }
    }
}

impl<'a> LintArguments<'a> {
    /// What was found for the arguments of `lint`, as [`RunArguments`] has it.
    fn of_matches(lint: &ArgMatches<'a>) -> LintArguments<'a>
        ensures { AsksForLint (rows_of (found_of lint.now)) result }
    {
        LintArguments {
            path: lint.get_str("plan"),
            events: lint.get_str("events"),
            trace: lint.get_str("trace"),
            workers: lint.get_one::<u8>("workers"),
            calls: lint.get_str("calls"),
            strict: lint.get_flag("strict"),
        }
    }
}

/// What was found for the options of `draw` that say what is shown. Where the number of marks is missing, which the command line does
/// not let through, there may be none.
fn view_of_matches(draw: &ArgMatches<'_>) -> View
    ensures { AsksForView (rows_of (found_of draw.now)) result }
{
    View {
        from: draw.get_one::<u64>("from"),
        to: draw.get_one::<u64>("to"),
        marks: draw.get_one::<u64>("marks").unwrap_or(0),
    }
}
