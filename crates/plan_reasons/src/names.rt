//! Faults of names.

ghost use Rattle.std.specs.Prelude.{List, IfOk};
ghost use Rattle.toml.specs.View.{table_view};
ghost use Rattle.plan_read.specs.Keys.{Key};
ghost use Rattle.plan_reasons.specs.own.Details.{IsIn, Suits};

use crate::blocks::times_of;
use crate::meant::meant;
use crate::scene::{Detail, Scene, tables_at, text_at};
use crate::wanted::{Namesake, Wanted};
use plan_lines::{Place, line_of};
use plan_read::PlanFaultKind;
use std::alloc::{AllocError, Global};
use toml::Table;

/// The words of the operations that submit a task.
const SUBMISSIONS: &[&str] = &["schedule", "execute", "rate", "fixed"];

/// A submission: its block and its call, numbered from 1, and its name.
#[derive(Clone, Copy)]
struct Submission<'t> {
    block: u32,
    call: u32,
    name: &'t str,
}

impl<'t> Scene<'t> {
    /// What is told of a fault of a call's name. `Err` is want of memory.
    pub fn name_detail(&self, call: &'t Table) -> Result<Detail<'t>, AllocError>
        ensures at { IfOk result (IsIn (table_view call.now)) }
        ensures suits { (keys : List Key)
            → IfOk result (Suits self.now.fault.kind keys (table_view call.now)) }
    {
        let Some(name) = text_at(call, "name") else {
            return Ok(self.at_place());
        };
        match self.fault.kind {
            PlanFaultKind::BadName => Ok(self.at_key(call, "name", Wanted::Name)),
            PlanFaultKind::DuplicateName => {
                let wanted = self.another_name(name)?;
                Ok(self.at_key(call, "name", wanted))
            }
            PlanFaultKind::UnknownName => {
                let wanted = self.earlier_name(name)?;
                Ok(self.at_key(call, "name", wanted))
            }
            PlanFaultKind::Ambiguous => {
                let wanted = self.unrepeated_name(name)?;
                Ok(self.at_key(call, "name", wanted))
            }
            _ => Ok(self.at_place()),
        }
    }

    /// That a name is that of a submission before. `Err` is want of memory.
    fn another_name(&self, name: &str) -> Result<Wanted, AllocError> {
        let submissions = submissions(self.heap, self.tree)?;
        Ok(match self.namesake(submissions.as_slice(), name) {
            Some(namesake) => Wanted::Other(namesake),
            None => Wanted::Unsaid,
        })
    }

    /// That no submission before has a name. `Err` is want of memory.
    fn earlier_name(&self, name: &str) -> Result<Wanted, AllocError> {
        let submissions = submissions(self.heap, self.tree)?;
        let mut names = Vec::new(self.heap);
        let place = (self.fault.block, self.fault.call);
        for submission in submissions.as_slice() {
            if (submission.block, submission.call) < place {
                names.push(submission.name)?;
            }
        }
        Ok(Wanted::Before {
            near: meant(self.heap, name, names.as_slice())?,
            behind: self.namesake(submissions.as_slice(), name),
        })
    }

    /// That the submission of a name is in a block that is repeated. `Err` is want of memory.
    fn unrepeated_name(&self, name: &str) -> Result<Wanted, AllocError> {
        let submissions = submissions(self.heap, self.tree)?;
        let Some(namesake) = self.namesake(submissions.as_slice(), name) else {
            return Ok(Wanted::Unsaid);
        };
        Ok(match self.block(namesake.block) {
            Some(header) => Wanted::MadeOnce {
                namesake,
                times: times_of(header),
            },
            None => Wanted::Unsaid,
        })
    }

    /// The first submission with a name.
    fn namesake(&self, submissions: &[Submission], name: &str) -> Option<Namesake> {
        for submission in submissions {
            if submission.name == name {
                let Submission { block, call, .. } = *submission;
                let place = Place {
                    block: block as usize,
                    call: call as usize,
                    key: Some("name"),
                };
                let line = line_of(self.text, place);
                return Some(Namesake { block, call, line });
            }
        }
        None
    }
}

/// The submissions of a tree, in the order of their calls. `Err` is want of memory.
fn submissions(heap: Global, tree: &Table) -> Result<Vec<Submission<'_>>, AllocError> {
    let mut submissions = Vec::new(heap);
    let mut block = 0u32;
    for value in tables_at(tree, "block") {
        block = block.saturating_add(1);
        if let Some(header) = value.as_table() {
            add_submissions(&mut submissions, block, header)?;
        }
    }
    Ok(submissions)
}

/// Puts the submissions of a block behind others. `Err` is want of memory.
fn add_submissions<'t>(
    submissions: &mut Vec<Submission<'t>>,
    block: u32,
    header: &'t Table,
) -> Result<(), AllocError> {
    let mut call = 0u32;
    for value in tables_at(header, "call") {
        call = call.saturating_add(1);
        if let Some(name) = submitted_name(value.as_table()) {
            submissions.push(Submission { block, call, name })?;
        }
    }
    Ok(())
}

/// The name of the submission that a table is, if it is one.
fn submitted_name(call: Option<&Table>) -> Option<&str> {
    let call = call?;
    if SUBMISSIONS.contains(&text_at(call, "op")?) {
        text_at(call, "name")
    } else {
        None
    }
}
