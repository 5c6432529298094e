//! Texts that conform, and those that break behind them.

use super::{ONE_DELAY, told};
use std::process::Abort;
use std::test::Fail;

/// A task that runs once, and a shutdown.
pub const A_SHUTDOWN: &str = "\
version = 1

[[block]]
call = [
  { op = \"execute\", name = \"a\" },
  { op = \"cancel\", name = \"a\", at = 2 },
  { op = \"shutdown\", at = 9 },
]
";

#[test]
fn no_line_conforms(rt: HostRuntime) -> Result<(), Fail> {
    let told = told(&rt, ONE_DELAY, 1, b"")?;
    assert!(rt; told.as_str() == "conforms", "{told}");
    Ok(())
}

/// Tables of texts that conform to `ONE_DELAY`, or break behind what does.
pub const FRONTS: &str = "\
    fronts of a trace | 0 submit 0 schedule due 5 / \n\
    conforms | 0 clock\n\
    conforms | 0 clock / 0 start 0 idle / 4 clock / 4 start 0 idle\n\
    conforms | 5 clock / 5 start 0 task 0 run 0 due 5 / 5 finish 0 task 0 run 0 done 7\n\
    p:5: \"5 finish 0 task 0 run 0 done 7\": breaks; \"5 start 0 idle\" or \"5 error not running\" could stand here | 5 clock / 5 start 0 task 0 run 0 due 5 / 5 finish 0 task 0 run 0 done 7 / 5 finish 0 task 0 run 0 done 7";

/// Tables of texts that lack a call of `A_SHUTDOWN`.
pub const WANTING: &str = "\
    calls that are wanting | 0 submit 0 schedule due 0 / 0 clock / 0 start 0 task 0 run 0 due 0 / \n\
    conforms | 2 cancel 0 yes / 9 shutdown\n\
    p:4: \"3 clock\": breaks; \"2 cancel 0 yes\" could stand here | 3 clock\n\
    p:4: \"2 cancel 0 no\": breaks; \"2 cancel 0 yes\" could stand here | 2 cancel 0 no\n\
    p:4: \"2 finish 0 task 0 run 0 dropped\": breaks; \"2 cancel 0 yes\" or \"0 finish 0 task 0 run 0 done 0\" could stand here | 2 finish 0 task 0 run 0 dropped\n\
    p:5: \"9 shutdown now\": breaks; \"9 shutdown\" could stand here | 2 cancel 0 yes / 9 shutdown now\n\
    p:5: \"2 finish 0 task 0 run 0 done 4\": breaks; \"2 finish 0 task 0 run 0 dropped\" could stand here | 2 cancel 0 yes / 2 finish 0 task 0 run 0 done 4\n\
    \n\
    three lines at most of four that could stand | 0 submit 0 schedule due 0 / 0 clock / 0 start 0 task 0 run 0 due 0 / \n\
    p:4: \"x\": no such line; \"2 cancel 0 yes\", \"0 clock\" or \"0 finish 0 task 0 run 0 done 0\" could stand here | x\n\
    p:4: \"1 start 0 idle\": breaks; \"1 clock\", \"0 finish 0 task 0 run 0 done 0\" or \"0 error busy\" could stand here | 1 start 0 idle";
