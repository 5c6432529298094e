//! Sessions: the program is run as a text says, in a world in memory, and has to answer as the text says.
//!
//! Behind a name, which `# ` begins, `$ ` begins a run by its command line. Each line behind it has a sign, and tells what is given or
//! answered; where it has more lines than one, `⏎` stands between them:
//!
//! | Sign | What stands behind it |
//! |---|---|
//! | `<` | a line of standard input |
//! | `>` | a line of standard output |
//! | `!` | a line of standard error |
//! | `=` | the status, which else is 1 where there is a line of standard error, and 0 where there is none |
//! | `plan` | a line of `plan.toml`, which else has the plan of one delayed task |
//! | `trace` | a line of `trace.txt` |
//! | `file` | a line of the file that is created |
//! | `with` | `closed output`; `broken plan` or `broken trace`, a file at fault behind its lines; `new file` or `full file`, where one can be created, and where it takes no byte |
use crate::one_delay::{ONE_DELAY, ends};
use crate::world::{Created, Ended, Given, file, run_in};
use std::alloc::{AllocError, Global};
use std::process::Abort;
use std::sync::Wait;
use std::test::Fail;
use std::thread::Threads;

/// A run of the program: what it is given, and what it has to answer.
#[derive(Drop)]
struct Session<'a> {
    line: &'a str,
    events: String,
    out: String,
    err: String,
    plan: String,
    trace: String,
    created: String,
    status: Option<u8>,
    with: &'a str,
}

/// Adds lines.
fn add(text: &mut String, lines: &str) -> Result<(), AllocError> {
    for line in lines.split("⏎") {
        text.push_str(line)?;
        text.push('\n')?;
    }
    Ok(())
}

impl<'a> Session<'a> {
    /// A run by a command line.
    fn new(alloc: Global, line: &'a str) -> Session<'a> {
        Session {
            line,
            events: String::new(alloc),
            out: String::new(alloc),
            err: String::new(alloc),
            plan: String::new(alloc),
            trace: String::new(alloc),
            created: String::new(alloc),
            status: None,
            with: "",
        }
    }

    /// Takes a line behind that of the command.
    fn take(&mut self, line: &'a str) -> Result<(), Fail> {
        let (sign, rest) = line.split_once(" ").unwrap_or((line, ""));
        match sign {
            "<" => add(&mut self.events, rest)?,
            ">" => add(&mut self.out, rest)?,
            "!" => add(&mut self.err, rest)?,
            "plan" => add(&mut self.plan, rest)?,
            "trace" => add(&mut self.trace, rest)?,
            "file" => add(&mut self.created, rest)?,
            "=" => self.status = Some(rest.parse::<u8>()?),
            "with" if !self.with.is_empty() => return Err("two files or outputs".into()),
            "with" => match rest {
                "closed output" | "broken plan" | "broken trace" | "new file" | "full file" => {
                    self.with = rest;
                }
                _ => return Err("no such thing".into()),
            },
            _ => return Err("no such sign".into()),
        }
        Ok(())
    }

    /// What the program is given.
    fn given<'g>(&'g self, created: Option<&'g Created>) -> Given<'g> {
        let text = if self.plan.is_empty() {
            ONE_DELAY
        } else {
            self.plan.as_str()
        };
        Given {
            line: self.line,
            plan: file(text, self.with == "broken plan"),
            trace: file(self.trace.as_str(), self.with == "broken trace"),
            events: self.events.as_bytes(),
            is_closed: self.with == "closed output",
            created,
        }
    }

    /// Whether files can be created.
    fn creates(&self) -> bool {
        self.with == "new file" || self.with == "full file"
    }

    /// Runs the program, which may create files where these can be.
    fn ended<'g, R: AllocGlobal + Threads + Wait + Sync>(
        &'g self,
        rt: &R,
        created: &'g Created,
    ) -> Ended {
        let kept: Option<&'g Created> = if self.creates() { Some(created) } else { None };
        run_in(rt, self.given(kept))
    }

    /// Runs the program, and checks what it answers.
    fn check<R: AllocGlobal + Abort + Threads + Wait + Sync>(&self, rt: &R, name: &str) {
        let created = Created::new(rt.alloc(), self.with == "full file");
        let ended = (&*self).ended(rt, &created);
        let faults = u8::from(!self.err.is_empty());
        let status = self.status.unwrap_or(faults);
        ends(
            rt,
            name,
            &ended,
            status,
            self.out.as_str(),
            self.err.as_str(),
        );
        assert!(rt; created.files.get() == u32::from(self.creates()), "{name}");
        let bytes = created.bytes.into_inner();
        assert!(rt; bytes.as_slice() == self.created.as_bytes(), "{name}");
    }
}

/// Runs the program once, as the lines of a run say, and checks what it answers.
fn plays_run<R: AllocGlobal + Abort + Threads + Wait + Sync>(
    rt: &R,
    name: &str,
    run: &str,
) -> Result<(), Fail> {
    let (line, lines) = run.split_once("\n").ok_or("no command line")?;
    let mut session = Session::new(rt.alloc(), line);
    for line in lines.lines() {
        if !line.is_empty() {
            session.take(line)?;
        }
    }
    session.check(rt, name);
    Ok(())
}

/// Runs the program as often as a text says, and checks what it answers.
pub fn plays<R: AllocGlobal + Abort + Threads + Wait + Sync>(
    rt: &R,
    text: &str,
) -> Result<(), Fail> {
    let (_, sessions) = text.split_once("# ").ok_or("no session")?;
    for named in sessions.split("\n# ") {
        let (name, runs) = named.split_once("\n$ ").ok_or("no run")?;
        for run in runs.split("\n$ ") {
            plays_run(rt, name, run)?;
        }
    }
    Ok(())
}
