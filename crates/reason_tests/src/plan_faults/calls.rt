//! Faults of the keys of a call.

/// Tables that `tell_table` reads.
pub const TABLES: &str = "\
    operations | version = 2 / [[block]] / [[block.call]] / \n\
    p:3: block 1, call 1, op: missing; one of schedule, execute, rate, fixed, cancel, policy, shutdown, shutdown_now, ask | at = 1\n\
    p:4: block 1, call 1, op = \"sched\": no such op; one of schedule, execute, rate, fixed, cancel, policy, shutdown, shutdown_now, ask | op = \"sched\"\n\
    p:5: block 1, call 1, op = \"cancle\": no such op; cancel may be meant; one of schedule, execute, rate, fixed, cancel, policy, shutdown, shutdown_now, ask | at = 1 / op = \"cancle\"\n\
    p:4: block 1, call 1, op = 5: of the wrong type; one of schedule, execute, rate, fixed, cancel, policy, shutdown, shutdown_now, ask | op = 5\n\
    p:4: block 1, call 1, op = \"Ask\": no such op; ask may be meant; one of schedule, execute, rate, fixed, cancel, policy, shutdown, shutdown_now, ask | op = \"Ask\"\n\
    p:4: block 1, call 1, op = \"RATE\": no such op; rate may be meant; one of schedule, execute, rate, fixed, cancel, policy, shutdown, shutdown_now, ask | op = \"RATE\"\n\
    p:4: block 1, call 1, op = \"SHUTDOWN\": no such op; shutdown may be meant; one of schedule, execute, rate, fixed, cancel, policy, shutdown, shutdown_now, ask | op = \"SHUTDOWN\"\n\
    \n\
    unknown keys of calls | version = 2 / [[block]] / [[block.call]] / \n\
    p:5: block 1, call 1, name = \"a\": no such key; one of op, at, at_unit | op = \"ask\" / name = \"a\"\n\
    p:6: block 1, call 1, dely = 1: no such key; delay may be meant; one of op, at, at_unit, name, delay, delay_unit | op = \"schedule\" / name = \"a\" / dely = 1\n\
    p:4: block 1, call 1, period = 1: no such key; one of op, at, at_unit, name, first, first_unit, delay, delay_unit | period = 1 / op = \"fixed\"\n\
    p:7: block 1, call 2, x = a table: no such key; one of op, at, at_unit | op = \"ask\" / [[block.call]] / op = \"ask\" / [block.call.x] / y = 1\n\
    p:5: block 1, call 1, delay = 1: no such key; one of op, at, at_unit, name | op = \"execute\" / delay = 1\n\
    p:5: block 1, call 1, First = 1: no such key; first may be meant; one of op, at, at_unit, name, first, first_unit, period, period_unit | op = \"rate\" / First = 1\n\
    p:5: block 1, call 1, values = 1: no such key; value may be meant; one of op, at, at_unit, which, value | op = \"policy\" / values = 1\n\
    \n\
    unknown keys of calls, in version 1 | version = 1 / [[block]] / [[block.call]] / \n\
    p:5: block 1, call 1, at_unit = \"s\": no such key; one of op, at | op = \"ask\" / at_unit = \"s\"\n\
    p:5: block 1, call 1, nam = 1: no such key; name may be meant; one of op, at, name, delay | op = \"schedule\" / nam = 1\n\
    p:5: block 1, call 1, nam = 1: no such key; name may be meant; one of op, at, name | op = \"cancel\" / nam = 1\n\
    p:5: block 1, call 1, nam = 1: no such key; name may be meant; one of op, at, name, first, period | op = \"rate\" / nam = 1\n\
    p:5: block 1, call 1, nam = 1: no such key; name may be meant; one of op, at, name, first, delay | op = \"fixed\" / nam = 1\n\
    p:5: block 1, call 1, nam = 1: no such key; one of op, at, which, value | op = \"policy\" / nam = 1\n\
    \n\
    missing keys of calls | version = 2 / [[block]] / [[block.call]] / \n\
    p:3: block 1, call 1, name: missing; a text | op = \"schedule\"\n\
    p:3: block 1, call 1, delay: missing; an integer | op = \"schedule\" / name = \"a\"\n\
    p:5: block 1, call 2, period: missing; an integer | op = \"ask\" / [[block.call]] / op = \"rate\" / name = \"a\" / first = 1\n\
    p:3: block 1, call 1, which: missing; one of continue, execute, remove | op = \"policy\" / value = true\n\
    p:3: block 1, call 1, value: missing; true or false | op = \"policy\" / which = \"remove\"\n\
    \n\
    missing keys of inline calls | version = 2 / [[block]] / call = [ / \n\
    p:5: block 1, call 2, name: missing; a text | { op = \"ask\" }, / { op = \"cancel\" } ]\n\
    \n\
    wrong types in calls | version = 2 / [[block]] / [[block.call]] / \n\
    p:6: block 1, call 1, delay = \"5\": of the wrong type; an integer | op = \"schedule\" / name = \"a\" / delay = \"5\"\n\
    p:5: block 1, call 1, name = 5: of the wrong type; a text | op = \"cancel\" / name = 5\n\
    p:6: block 1, call 1, value = \"true\": of the wrong type; true or false | op = \"policy\" / which = \"remove\" / value = \"true\"\n\
    p:5: block 1, call 1, which = \"remov\": no such policy; remove may be meant; one of continue, execute, remove | op = \"policy\" / which = \"remov\" / value = true\n\
    p:5: block 1, call 1, which = 1: of the wrong type; one of continue, execute, remove | op = \"policy\" / which = 1 / value = true\n\
    p:5: block 1, call 1, at = 07:32:00: of the wrong type; an integer | op = \"ask\" / at = 07:32:00\n\
    p:5: block 1, call 1, at_unit = an array of 0: of the wrong type; a text | op = \"ask\" / at_unit = []\n\
    \n\
    bad units in calls | version = 2 / [[block]] / [[block.call]] / \n\
    p:5: block 1, call 1, at_unit = \"day\": no such unit; one of ns, us, ms, s, min, h, d | op = \"ask\" / at_unit = \"day\"\n\
    p:7: block 1, call 1, delay_unit = \"m\": no such unit; ms may be meant; one of ns, us, ms, s, min, h, d | op = \"schedule\" / name = \"a\" / delay = 1 / delay_unit = \"m\"\n\
    p:4: block 1, call 1, first_unit = \"S\": no such unit; s may be meant; one of ns, us, ms, s, min, h, d | first_unit = \"S\" / op = \"rate\" / name = \"a\" / first = 1 / period = 1 / period_unit = \"x\"";
