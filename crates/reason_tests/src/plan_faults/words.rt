//! The words, the keys and the units that are told are those that plans have.

/// Tables that `tell_table` reads.
pub const TABLES: &str = "\
    operations have keys, in version 1 | version = 1 / [[block]] / [[block.call]] / \n\
    p:5: block 1, call 1, x = 1: no such key; one of op, at, name, delay | op = \"schedule\" / x = 1\n\
    p:5: block 1, call 1, x = 1: no such key; one of op, at, name | op = \"execute\" / x = 1\n\
    p:5: block 1, call 1, x = 1: no such key; one of op, at, name, first, period | op = \"rate\" / x = 1\n\
    p:5: block 1, call 1, x = 1: no such key; one of op, at, name, first, delay | op = \"fixed\" / x = 1\n\
    p:5: block 1, call 1, x = 1: no such key; one of op, at, name | op = \"cancel\" / x = 1\n\
    p:5: block 1, call 1, x = 1: no such key; one of op, at, which, value | op = \"policy\" / x = 1\n\
    p:5: block 1, call 1, x = 1: no such key; one of op, at | op = \"shutdown\" / x = 1\n\
    p:5: block 1, call 1, x = 1: no such key; one of op, at | op = \"shutdown_now\" / x = 1\n\
    p:5: block 1, call 1, x = 1: no such key; one of op, at | op = \"ask\" / x = 1\n\
    p:4: block 1, call 1, op = \"shut\": no such op; one of schedule, execute, rate, fixed, cancel, policy, shutdown, shutdown_now, ask | op = \"shut\" / x = 1\n\
    \n\
    operations have keys, in version 2 | version = 2 / [[block]] / [[block.call]] / \n\
    p:5: block 1, call 1, x = 1: no such key; one of op, at, at_unit, name, delay, delay_unit | op = \"schedule\" / x = 1\n\
    p:5: block 1, call 1, x = 1: no such key; one of op, at, at_unit, name | op = \"execute\" / x = 1\n\
    p:5: block 1, call 1, x = 1: no such key; one of op, at, at_unit, name, first, first_unit, period, period_unit | op = \"rate\" / x = 1\n\
    p:5: block 1, call 1, x = 1: no such key; one of op, at, at_unit, name, first, first_unit, delay, delay_unit | op = \"fixed\" / x = 1\n\
    p:5: block 1, call 1, x = 1: no such key; one of op, at, at_unit, name | op = \"cancel\" / x = 1\n\
    p:5: block 1, call 1, x = 1: no such key; one of op, at, at_unit, which, value | op = \"policy\" / x = 1\n\
    p:5: block 1, call 1, x = 1: no such key; one of op, at, at_unit | op = \"shutdown\" / x = 1\n\
    p:5: block 1, call 1, x = 1: no such key; one of op, at, at_unit | op = \"shutdown_now\" / x = 1\n\
    p:5: block 1, call 1, x = 1: no such key; one of op, at, at_unit | op = \"ask\" / x = 1\n\
    p:4: block 1, call 1, op = \"shut\": no such op; one of schedule, execute, rate, fixed, cancel, policy, shutdown, shutdown_now, ask | op = \"shut\" / x = 1\n\
    \n\
    keys that are told are known, in version 1 | version = 1 / [[block]] / at = 0 / unit = \"s\" / times = 1 / every = 9 / [[block.call]] / op = \"execute\" / name = \"b\" / [[block.call]] / \n\
    fine | op = \"schedule\" / at = 1 / name = \"a\" / delay = 1\n\
    fine | op = \"execute\" / at = 1 / name = \"a\"\n\
    fine | op = \"rate\" / at = 1 / name = \"a\" / first = 1 / period = 1\n\
    fine | op = \"fixed\" / at = 1 / name = \"a\" / first = 1 / delay = 1\n\
    fine | op = \"cancel\" / at = 1 / name = \"b\"\n\
    fine | op = \"policy\" / at = 1 / which = \"remove\" / value = true\n\
    fine | op = \"shutdown\" / at = 1\n\
    fine | op = \"shutdown_now\" / at = 1\n\
    fine | op = \"ask\" / at = 1\n\
    \n\
    keys that are told are known, in version 2 | version = 2 / [[block]] / at = 0 / at_unit = \"s\" / times = 1 / every = 9 / every_unit = \"s\" / [[block.call]] / op = \"execute\" / name = \"b\" / [[block.call]] / \n\
    fine | op = \"schedule\" / at = 1 / at_unit = \"s\" / name = \"a\" / delay = 1 / delay_unit = \"s\"\n\
    fine | op = \"execute\" / at = 1 / at_unit = \"s\" / name = \"a\"\n\
    fine | op = \"rate\" / at = 1 / at_unit = \"s\" / name = \"a\" / first = 1 / first_unit = \"s\" / period = 1 / period_unit = \"s\"\n\
    fine | op = \"fixed\" / at = 1 / at_unit = \"s\" / name = \"a\" / first = 1 / first_unit = \"s\" / delay = 1 / delay_unit = \"s\"\n\
    fine | op = \"cancel\" / at = 1 / at_unit = \"s\" / name = \"b\"\n\
    fine | op = \"policy\" / at = 1 / at_unit = \"s\" / which = \"remove\" / value = true\n\
    fine | op = \"shutdown\" / at = 1 / at_unit = \"s\"\n\
    fine | op = \"shutdown_now\" / at = 1 / at_unit = \"s\"\n\
    fine | op = \"ask\" / at = 1 / at_unit = \"s\"\n\
    \n\
    policies are known | version = 2 / [[block]] / [[block.call]] / op = \"policy\" / value = true / \n\
    fine | which = \"continue\"\n\
    fine | which = \"execute\"\n\
    fine | which = \"remove\"\n\
    p:6: block 1, call 1, which = \"never\": no such policy; one of continue, execute, remove | which = \"never\"\n\
    \n\
    units are known, in version 1 | version = 1 / [[block]] / \n\
    fine | unit = \"ns\"\n\
    fine | unit = \"us\"\n\
    fine | unit = \"ms\"\n\
    fine | unit = \"s\"\n\
    p:3: block 1, unit = \"year\": no such unit; one of ns, us, ms, s | unit = \"year\"\n\
    p:3: block 1, unit = \"d\": no such unit; one of ns, us, ms, s | unit = \"d\"\n\
    p:3: block 1, unit = \"h\": no such unit; one of ns, us, ms, s | unit = \"h\"\n\
    p:3: block 1, unit = \"min\": no such unit; one of ns, us, ms, s | unit = \"min\"\n\
    \n\
    units are known, in version 2 | version = 2 / [[block]] / \n\
    fine | at_unit = \"ns\"\n\
    fine | at_unit = \"us\"\n\
    fine | at_unit = \"ms\"\n\
    fine | at_unit = \"s\"\n\
    fine | at_unit = \"min\"\n\
    fine | at_unit = \"h\"\n\
    fine | at_unit = \"d\"\n\
    p:3: block 1, at_unit = \"year\": no such unit; one of ns, us, ms, s, min, h, d | at_unit = \"year\"\n\
    \n\
    units are told by their words, in version 1 | version = 1 / [[block]] / at = -1 / \n\
    p:3: block 1, at = -1: negative; 0 to 4611686018427387904 ns | unit = \"ns\"\n\
    p:3: block 1, at = -1: negative; 0 to 4611686018427387 us | unit = \"us\"\n\
    p:3: block 1, at = -1: negative; 0 to 4611686018427 ms | unit = \"ms\"\n\
    p:3: block 1, at = -1: negative; 0 to 4611686018 s | unit = \"s\"\n\
    \n\
    units are told by their words, in version 2 | version = 2 / [[block]] / at = -1 / \n\
    p:3: block 1, at = -1: negative; 0 to 4611686018427387904 ns | at_unit = \"ns\"\n\
    p:3: block 1, at = -1: negative; 0 to 4611686018427387 us | at_unit = \"us\"\n\
    p:3: block 1, at = -1: negative; 0 to 4611686018427 ms | at_unit = \"ms\"\n\
    p:3: block 1, at = -1: negative; 0 to 4611686018 s | at_unit = \"s\"\n\
    p:3: block 1, at = -1: negative; 0 to 76861433 min | at_unit = \"min\"\n\
    p:3: block 1, at = -1: negative; 0 to 1281023 h | at_unit = \"h\"\n\
    p:3: block 1, at = -1: negative; 0 to 53375 d | at_unit = \"d\"\n\
    \n\
    shapes fit values of blocks | version = 2 / \n\
    fine | block = [{}, {}]\n\
    p:2: block = 1.5: of the wrong type; an array of tables | block = 1.5\n\
    \n\
    shapes fit values of calls | version = 2 / [[block]] / [[block.call]] / \n\
    fine | op = \"schedule\" / name = \"a\" / delay = 1\n\
    p:5: block 1, call 1, name = 1.5: of the wrong type; a text | op = \"schedule\" / name = 1.5 / delay = 1\n\
    p:6: block 1, call 1, delay = 1.5: of the wrong type; an integer | op = \"schedule\" / name = \"a\" / delay = 1.5\n\
    fine | op = \"policy\" / which = \"remove\" / value = true\n\
    p:5: block 1, call 1, which = 1.5: of the wrong type; one of continue, execute, remove | op = \"policy\" / which = 1.5 / value = true\n\
    p:6: block 1, call 1, value = 1.5: of the wrong type; true or false | op = \"policy\" / which = \"remove\" / value = 1.5";
