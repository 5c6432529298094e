//! Submissions that are refused, and cancels of them.

/// Tables that `tell_table` reads.
pub const TABLES: &str = "\
    periods and fixed delays that are zero or negative | version = 2 / [[block]] / [[block.call]] / \n\
    p:6: warning: block 1, call 1, period = 0: not above 0; refused as illegal each time | op = \"rate\" / name = \"a\" / period = 0 / first = 1\n\
    p:7: warning: block 1, call 1, period = -5: not above 0; refused as illegal each time | op = \"rate\" / name = \"a\" / first = 1 / period = -5 / period_unit = \"s\"\n\
    p:7: warning: block 1, call 1, delay = -9223372036854775808: not above 0; refused as illegal each time | op = \"fixed\" / name = \"a\" / first = 1 / delay = -9223372036854775808\n\
    fine | op = \"rate\" / name = \"a\" / first = -1 / period = 1 / period_unit = \"us\"\n\
    fine | op = \"schedule\" / name = \"a\" / delay = -1\n\
    \n\
    submissions behind a shutdown | version = 2 / [[block]] / call = [ / \n\
    p:5: warning: block 1, call 2, name = \"a\": refused each time; block 1, call 1 shuts the executor down | { op = \"shutdown\" }, / { op = \"execute\", name = \"a\" } ]\n\
    p:5: warning: block 1, call 2, name = \"a\": refused each time; block 1, call 1 shuts the executor down | { op = \"shutdown_now\" }, / { op = \"schedule\", name = \"a\", delay = 5 } ]\n\
    p:6: warning: block 1, call 3, name = \"a\": refused each time; block 1, call 1 shuts the executor down + p:7: warning: block 1, call 4, name = \"b\": refused each time; block 1, call 1 shuts the executor down | { op = \"shutdown\" }, / { op = \"shutdown_now\" }, / { op = \"rate\", name = \"a\", first = 0, period = 1, period_unit = \"s\" }, / { op = \"fixed\", name = \"b\", first = 0, delay = 1, delay_unit = \"s\" } ]\n\
    fine | { op = \"execute\", name = \"a\" }, / { op = \"shutdown\" } ]\n\
    fine | { op = \"policy\", which = \"remove\", value = true }, / { op = \"ask\" }, / { op = \"execute\", name = \"a\" } ]\n\
    p:5: warning: block 1, call 2, period = 0: not above 0; refused as illegal each time | { op = \"shutdown\" }, / { op = \"rate\", name = \"a\", first = 0, period = 0 } ]\n\
    \n\
    submissions in a block behind a shutdown | version = 2 / [[block]] / [[block.call]] / op = \"ask\" / [[block.call]] / op = \"shutdown\" / [[block]] / \n\
    fine | at = 5\n\
    p:10: warning: block 2, call 1, name = \"a\": refused each time; block 1, call 2 shuts the executor down | [[block.call]] / op = \"execute\" / name = \"a\"\n\
    p:12: warning: block 2, call 1, name = \"a\": refused each time; block 1, call 2 shuts the executor down | times = 3 / every = 2 / [[block.call]] / op = \"execute\" / name = \"a\"\n\
    p:11: warning: block 3, call 1, name = \"a\": refused each time; block 1, call 2 shuts the executor down | [[block]] / [[block.call]] / op = \"execute\" / name = \"a\"\n\
    \n\
    submissions of a repeated block with a shutdown | version = 2 / [[block]] / times = 2 / every = 9 / call = [ / \n\
    p:6: warning: block 1, call 1, name = \"a\": refused from the second iteration on; block 1, call 2 shuts the executor down | { op = \"execute\", name = \"a\" }, / { op = \"shutdown\" } ]\n\
    p:6: warning: block 1, call 1, name = \"a\": refused from the second iteration on; block 1, call 2 shuts the executor down + p:8: warning: block 1, call 3, name = \"b\": refused each time; block 1, call 2 shuts the executor down | { op = \"execute\", name = \"a\" }, / { op = \"shutdown\" }, / { op = \"execute\", name = \"b\" } ]\n\
    p:6: warning: block 1, call 1, delay = 0: not above 0; refused as illegal each time | { op = \"fixed\", name = \"a\", first = 0, delay = 0 }, / { op = \"shutdown\" } ]\n\
    fine | { op = \"execute\", name = \"a\" } ]\n\
    \n\
    a block that is made once has no second iteration | version = 2 / [[block]] / every = 9 / call = [ / \n\
    fine | { op = \"execute\", name = \"a\" }, / { op = \"shutdown\" } ]\n\
    \n\
    cancels of submissions that are refused | version = 2 / [[block]] / call = [ / \n\
    p:4: warning: block 1, call 1, period = 0: not above 0; refused as illegal each time + p:5: warning: block 1, call 2, name = \"a\": cancels nothing; its submission is refused each time | { op = \"rate\", name = \"a\", first = 0, period = 0 }, / { op = \"cancel\", name = \"a\" } ]\n\
    p:5: warning: block 1, call 2, name = \"a\": refused each time; block 1, call 1 shuts the executor down + p:6: warning: block 1, call 3, name = \"a\": cancels nothing; its submission is refused each time | { op = \"shutdown\" }, / { op = \"execute\", name = \"a\" }, / { op = \"cancel\", name = \"a\" } ]\n\
    fine | { op = \"execute\", name = \"a\" }, / { op = \"shutdown\" }, / { op = \"cancel\", name = \"a\" } ]\n\
    p:5: warning: block 1, call 2, name = \"b\": refused each time; block 1, call 1 shuts the executor down + p:8: warning: block 2, call 1, name = \"b\": cancels nothing; its submission is refused each time | { op = \"shutdown\" }, / { op = \"execute\", name = \"b\" } ] / [[block]] / call = [ / { op = \"cancel\", name = \"b\" } ]\n\
    \n\
    a cancel in a repeated block | version = 2 / [[block]] / times = 2 / every = 9 / call = [ / \n\
    p:6: warning: block 1, call 1, name = \"a\": refused from the second iteration on; block 1, call 3 shuts the executor down | { op = \"execute\", name = \"a\" }, / { op = \"cancel\", name = \"a\" }, / { op = \"shutdown\" } ]\n\
    p:7: warning: block 1, call 2, name = \"a\": refused each time; block 1, call 1 shuts the executor down + p:8: warning: block 1, call 3, name = \"a\": cancels nothing; its submission is refused each time | { op = \"shutdown\" }, / { op = \"execute\", name = \"a\" }, / { op = \"cancel\", name = \"a\" } ]\n\
    \n\
    a cancel of the second submission of its block | version = 2 / [[block]] / call = [ / { op = \"rate\", name = \"a\", first = 0, period = 1, period_unit = \"s\" }, / { op = \"ask\" }, / \n\
    p:6: warning: block 1, call 3, period = 0: not above 0; refused as illegal each time + p:7: warning: block 1, call 4, name = \"b\": cancels nothing; its submission is refused each time | { op = \"rate\", name = \"b\", first = 0, period = 0 }, / { op = \"cancel\", name = \"b\" }, / { op = \"cancel\", name = \"a\" } ]";
