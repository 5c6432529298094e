//! Periods of which no unit stands in the text.

/// Tables that `tell_table` reads.
pub const TABLES: &str = "\
    short periods and fixed delays | version = 2 / [[block]] / [[block.call]] / \n\
    p:7: warning: block 1, call 1, period = 1: nanoseconds; no unit is given | op = \"rate\" / name = \"a\" / first = 0 / period = 1\n\
    p:7: warning: block 1, call 1, period = 999: nanoseconds; no unit is given | op = \"rate\" / name = \"a\" / first = 0 / period = 999\n\
    fine | op = \"rate\" / name = \"a\" / first = 0 / period = 1000\n\
    p:7: warning: block 1, call 1, delay = 500: nanoseconds; no unit is given | op = \"fixed\" / name = \"a\" / first = 0 / delay = 500\n\
    fine | op = \"fixed\" / name = \"a\" / first = 0 / delay = 1000\n\
    fine | op = \"schedule\" / name = \"a\" / delay = 5\n\
    fine | op = \"fixed\" / name = \"a\" / first = 5 / delay = 5 / delay_unit = \"ms\"\n\
    fine | op = \"rate\" / name = \"a\" / first = 0 / period = 5 / period_unit = \"ns\"\n\
    fine | op = \"fixed\" / name = \"a\" / first = 0 / delay = 5 / delay_unit = \"ns\"\n\
    p:7: warning: block 1, call 1, period = 5: nanoseconds; no unit is given | op = \"rate\" / name = \"a\" / first = 5 / period = 5 / first_unit = \"s\" / at_unit = \"s\"\n\
    \n\
    in version 1 the unit is that of the block | version = 1 / [[block]] / \n\
    p:7: warning: block 1, call 1, period = 5: nanoseconds; no unit is given | [[block.call]] / op = \"rate\" / name = \"a\" / first = 0 / period = 5\n\
    fine | unit = \"ns\" / [[block.call]] / op = \"rate\" / name = \"a\" / first = 0 / period = 5\n\
    fine | unit = \"s\" / [[block.call]] / op = \"fixed\" / name = \"a\" / first = 0 / delay = 5\n\
    p:12: warning: block 2, call 1, delay = 5: nanoseconds; no unit is given | unit = \"s\" / [[block.call]] / op = \"rate\" / name = \"a\" / first = 0 / period = 5 / [[block]] / call = [ / { op = \"fixed\", name = \"b\", first = 0, / delay = 5 } ] / at = 1";
