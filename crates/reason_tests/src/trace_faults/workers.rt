//! Numbers of workers.

use super::{ONE_DELAY, answered};
use std::process::Abort;
use std::test::Fail;
use trace_check::CheckError;

/// Tables of texts that are held against `A_RATE` with one worker.
pub const OF_ONE: &str = "\
    other numbers conform | 0 submit 0 rate due 10 / 10 clock / 10 start 0 task 0 run 0 due 10 / 25 clock / \n\
    conforms | 25 error busy\n\
    p:5: \"25 start 1 idle\": breaks; \"25 error no worker\" could stand here; conforms with --workers 2 to 64 | 25 start 1 idle\n\
    p:5: \"25 error not running\": breaks; \"25 finish 0 task 0 run 0 again due 20\" could stand here; conforms with --workers 2 to 64 | 25 error not running";

/// Tables of texts that are held against it with three workers.
pub const OF_THREE: &str = "\
    other numbers conform | 0 submit 0 rate due 10 / 10 clock / 10 start 0 task 0 run 0 due 10 / 25 clock / \n\
    p:7: \"25 start 3 idle\": breaks; \"25 error no worker\" could stand here; conforms with --workers 4 to 64 | 25 error busy / 25 error no worker / 25 start 3 idle\n\
    conforms | 25 start 2 idle";

#[test]
fn numbers_out_of_range(rt: HostRuntime) -> Result<(), Fail> {
    for workers in [0, 65, 255] {
        let answer = answered(&rt, ONE_DELAY, workers, b"x")?;
        assert!(rt; matches!(answer, Err(CheckError::Workers)), "{workers}");
    }
    Ok(())
}
