//! The lines of plans.
use super::*;

/// A plan, and the lines of its tasks.
struct Row {
    name: &'static str,
    plan: &'static str,
    lines: &'static str,
}

/// Rows: the name of each, its plan, and the lines of its tasks.
macro_rules! rows {
    ($($name:literal: $plan:expr => $lines:expr;)*) => {
        &[$(Row { name: $name, plan: $plan, lines: $lines }),*]
    };
}

const ROWS: &[Row] = rows! {
    "writes a line for each task": EACH_KIND => ITS_TASKS;

    "writes nothing of a plan without tasks": "version = 1" => "";
    "nor of one without calls": "version = 2\n[[block]]\n" => "";
    "nor of many iterations without calls": "version = 1\n[[block]]\ntimes = 65536\nevery = 1\n" => "";
    "nor of calls that are no submissions":
    "version = 1\n[[block]]\ntimes = 3\nevery = 1\ncall = [ { op = \"ask\" }, { op = \"shutdown\" } ]\n" => "";

    "goes past blocks without calls": "version = 1
[[block]]
[[block]]
at = 1
times = 2
every = 4
call = [ { op = \"execute\", name = \"a\" } ]
[[block]]
at = 7
times = 65536
every = 1
[[block]]
at = 8
call = [ { op = \"ask\" } ]
[[block]]
at = 9
call = [ { op = \"execute\", name = \"b\", at = 1 } ]
" => "0 a schedule submitted 1 due 1\n1 a schedule submitted 5 due 5\n2 b schedule submitted 10 due 10\n";

    "a negative delay counts as none": "version = 1
[[block]]
at = 3
call = [
  { op = \"schedule\", name = \"a\", delay = -5 },
  { op = \"rate\", name = \"b\", first = -1, period = 1 },
  { op = \"fixed\", name = \"c\", first = -1, delay = 1 },
]
" => "0 a schedule submitted 3 due 3\n1 b rate submitted 3 due 3\n2 c fixed submitted 3 due 3\n";

    "times of units are told in nanoseconds": "version = 2
[[block]]
at = 2
at_unit = \"h\"
times = 2
every = 1
every_unit = \"d\"
[[block.call]]
op = \"schedule\"
name = \"backup\"
at = 1
at_unit = \"ms\"
delay = 1
delay_unit = \"min\"
[[block.call]]
op = \"rate\"
name = \"beat\"
at = 2
at_unit = \"s\"
first = 3
first_unit = \"us\"
period = 1
" => "0 backup schedule submitted 7200001000000 due 7260001000000
1 beat rate submitted 7202000000000 due 7202000003000
2 backup schedule submitted 93600001000000 due 93660001000000
3 beat rate submitted 93602000000000 due 93602000003000
";

    "the longest line is written": "version = 1
[[block]]
at = 4611686018427387904
call = [ { op = \"schedule\", name = \"abcdefghijklmnopqrstuvwxyz-_0123\", delay = 4611686018427387904 } ]
" => "0 abcdefghijklmnopqrstuvwxyz-_0123 schedule submitted 4611686018427387904 due 9223372036854775808\n";
};

#[test]
fn each_plan_has_its_lines(rt: HostRuntime) {
    for row in ROWS {
        let (answer, text) = written(rt.alloc(), row.plan);
        assert!(rt; answer == Ok(()), "{}: {answer:?}", row.name);
        assert!(rt; text.as_slice() == row.lines.as_bytes(), "{}", row.name);
    }
}
