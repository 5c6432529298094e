//! Tests of the timers.
mod growths;
mod many;
mod purges;
mod refusals;
mod steps;
mod usage;

use crate::words::{compare, read_rows};
use std::alloc::AllocGlobal;
use std::process::Abort;
use std::test::Fail;
use steps::do_step;
use timers::Timers;

/// Does what stands in each row of a case, with new timers of so many workers, and compares what is told.
fn play_case(rt: &(impl AllocGlobal + Abort), workers: u8, case: &str) -> Result<(), Fail> {
    let rows = read_rows(rt.alloc(), case)?;
    let mut timers = Timers::new(rt.alloc(), workers)?;
    for row in &rows {
        let told = do_step(&mut timers, row.step);
        compare(rt, row, told);
    }
    Ok(())
}
