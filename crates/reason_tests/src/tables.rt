//! Tables of texts, and of what is to be told of each.
//!
//! A table is a text itself. Its first line is its name, then ` | `, and then the front of its texts. Each other line is a row: what
//! is to be told, then ` | `, and then what stands behind the front, with ` / ` between two lines. An empty line stands between two
//! tables.

use crate::{plan_faults, trace_faults, warnings};
use std::alloc::{AllocError, Global};
use std::process::Abort;
use std::test::Fail;

/// Of what a text is told.
#[derive(Clone, Copy)]
enum Kind {
    /// A plan, its fault.
    Plan,
    /// A plan, its warnings.
    Warnings,
    /// A trace, its fault, held against a plan with this many workers.
    Trace(&'static str, u8),
}

/// Tables of texts that are held against a plan.
pub struct Tables {
    pub plan: &'static str,
    pub workers: u8,
    pub tables: &'static str,
}

/// A table, taken apart.
#[derive(Clone, Copy)]
struct Table<'t> {
    name: &'t str,
    /// What stands before each of its texts.
    front: &'t str,
    rows: &'t str,
}

/// Takes a table apart, which has rows.
fn table_of(text: &str) -> Result<Table<'_>, Fail> {
    let Some((head, rows)) = text.split_once('\n') else {
        return Err(Fail::from("no rows"));
    };
    let Some((name, front)) = head.split_once(" | ") else {
        return Err(Fail::from("no front"));
    };
    if rows.is_empty() {
        return Err(Fail::from("no rows"));
    }
    Ok(Table { name, front, rows })
}

/// The text of a row: its front and what stands behind it, each line with its newline.
fn text_of_row(alloc: Global, front: &str, behind: &str) -> Result<String, AllocError> {
    let mut row = String::from_str(alloc, front)?;
    row.push_str(behind)?;
    let mut text = String::new(alloc);
    for line in row.split(" / ") {
        text.push_str(line)?;
        text.push('\n')?;
    }
    Ok(text)
}

/// What stands before the first ` | ` of a row; all of it where there is none.
pub fn before_bar(row: &str) -> &str {
    match row.split_once(" | ") {
        Some((before, _)) => before,
        None => row,
    }
}

/// What stands behind the first ` | ` of a row; nothing where there is none.
pub fn behind_bar(row: &str) -> &str {
    match row.split_once(" | ") {
        Some((_, behind)) => behind,
        None => "",
    }
}

/// What is told of the text of a row behind this front.
fn told_of_row(
    rt: &(impl AllocGlobal + Abort),
    kind: Kind,
    front: &str,
    row: &str,
) -> Result<String, Fail> {
    let text = text_of_row(rt.alloc(), front, behind_bar(row))?;
    let text = text.as_str();
    match kind {
        Kind::Plan => Ok(plan_faults::told(rt.alloc(), text)?),
        Kind::Warnings => warnings::told(rt.alloc(), text),
        Kind::Trace(plan, workers) => trace_faults::told(rt, plan, workers, text.as_bytes()),
    }
}

/// Tells of each text of a table.
fn tell_table(rt: &(impl AllocGlobal + Abort), kind: Kind, table: &str) -> Result<(), Fail> {
    let table = table_of(table)?;
    for row in table.rows.lines() {
        let told = told_of_row(rt, kind, table.front, row)?;
        assert!(rt;
            told.as_str() == before_bar(row),
            "{}: {row}: {told}",
            table.name
        );
    }
    Ok(())
}

/// Tells of each text of some tables.
fn tell_tables(rt: &(impl AllocGlobal + Abort), kind: Kind, tables: &str) -> Result<(), Fail> {
    for table in tables.split("\n\n") {
        tell_table(rt, kind, table)?;
    }
    Ok(())
}

#[test]
fn each_fault_of_a_plan_is_told(rt: HostRuntime) -> Result<(), Fail> {
    for tables in plan_faults::TABLES {
        tell_tables(&rt, Kind::Plan, tables)?;
    }
    Ok(())
}

#[test]
fn each_warning_is_told(rt: HostRuntime) -> Result<(), Fail> {
    for tables in warnings::TABLES {
        tell_tables(&rt, Kind::Warnings, tables)?;
    }
    Ok(())
}

#[test]
fn each_fault_of_a_trace_is_told(rt: HostRuntime) -> Result<(), Fail> {
    for tables in trace_faults::TABLES {
        tell_tables(&rt, Kind::Trace(tables.plan, tables.workers), tables.tables)?;
    }
    Ok(())
}
