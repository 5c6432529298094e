//! Times out of their range.

/// Tables that `tell_table` reads.
pub const TABLES: &str = "\
    negative times | version = 2 / [[block]] / \n\
    p:3: block 1, at = -1: negative; 0 to 4611686018427387904 ns | at = -1\n\
    p:4: block 1, every = -7: negative; 0 to 53375 d | at = 1 / every = -7 / every_unit = \"d\"\n\
    p:3: block 1, at = -1: negative; 0 to 76861433 min | at = -1 / at_unit = \"min\" / every = -1\n\
    p:5: block 1, call 1, at = -5: negative; 0 to 4611686018427387 us | [[block.call]] / op = \"ask\" / at = -5 / at_unit = \"us\"\n\
    \n\
    negative times, in version 1 | version = 1 / [[block]] / unit = \"s\" / \n\
    p:4: block 1, at = -1: negative; 0 to 4611686018 s | at = -1\n\
    p:6: block 1, call 1, at = -9: negative; 0 to 4611686018 s | [[block.call]] / op = \"ask\" / at = -9\n\
    \n\
    too large times of headers | version = 2 / [[block]] / \n\
    p:3: block 1, at = 4611686018427387905: too large; 0 to 4611686018427387904 ns | at = 4611686018427387905\n\
    p:3: block 1, every = 53376: too large; 0 to 53375 d | every = 53376 / every_unit = \"d\"\n\
    p:4: block 1, at = 1281024: too large; 0 to 1281023 h | at_unit = \"h\" / at = 1281024\n\
    fine | at_unit = \"h\" / at = 1281023\n\
    \n\
    too large times of headers, in version 1 | version = 1 / [[block]] / \n\
    p:3: block 1, at = 4611686018428: too large; 0 to 4611686018427 ms | at = 4611686018428 / unit = \"ms\"\n\
    \n\
    too large times of calls | version = 2 / [[block]] / [[block.call]] / \n\
    p:6: block 1, call 1, delay = 4611686019: too large; at most 4611686018 s | op = \"schedule\" / name = \"a\" / delay = 4611686019 / delay_unit = \"s\"\n\
    p:6: block 1, call 1, first = 4611686018427387905: too large; at most 4611686018427387904 ns | op = \"rate\" / name = \"a\" / first = 4611686018427387905 / period = 4611686018427387905\n\
    p:7: block 1, call 1, period = 53376: too large; at most 53375 d | op = \"rate\" / name = \"a\" / first = -1 / period = 53376 / period_unit = \"d\"\n\
    p:7: block 1, call 1, first = 53376: too large; at most 53375 d | op = \"fixed\" / name = \"a\" / delay = 4611686018427387905 / first = 53376 / first_unit = \"d\"\n\
    p:5: block 1, call 1, at = 76861434: too large; 0 to 76861433 min | op = \"ask\" / at = 76861434 / at_unit = \"min\"\n\
    \n\
    too late in the last iteration | version = 2 / [[block]] / at = 4611686018427387904 / \n\
    p:6: block 1, call 1, at = 1: too large; at most 4611686018427387904 ns, and in the last iteration it is 4611686018427387905 ns | [[block.call]] / op = \"ask\" / at = 1\n\
    p:6: block 1, call 1, at: too large; at most 4611686018427387904 ns, and in the last iteration it is 4611686018427387905 ns | times = 2 / every = 1 / [[block.call]] / op = \"ask\"\n\
    p:6: block 1, call 1, at: too large; at most 4611686018427387904 ns, and in the last iteration it is 302231454903657293676544 ns | times = 65536 / every = 4611686018427387904 / [[block.call]] / op = \"ask\"\n\
    p:8: block 1, call 1, at = 2: too large; at most 4611686018427387904 ns, and in the last iteration it is 4611686018427387909 ns | times = 2 / every = 3 / [[block.call]] / op = \"ask\" / at = 2\n\
    \n\
    too late in the last of three iterations | version = 2 / [[block]] / at = 7 / times = 3 / every = 4611686018427387904 / [[block.call]] / op = \"ask\" / \n\
    p:8: block 1, call 1, at = 1: too large; at most 4611686018427387904 ns, and in the last iteration it is 9223372036854775816 ns | at = 1";
