//! Moments that fall.

/// Tables that `tell_table` reads.
pub const TABLES: &str = "\
    blocks that begin too early | version = 2 / [[block]] / at = 100 / [[block.call]] / op = \"ask\" / at = 5 / \n\
    p:8: block 2, at = 104: out of order; at least 105 ns, when the call before it is made | [[block]] / at = 104\n\
    p:7: block 2, at: out of order; at least 105 ns, when the call before it is made | [[block]] / times = 1\n\
    p:9: block 3, at: out of order; at least 1 us, when the call before it is made | [[block]] / at = 106 / [[block]] / at_unit = \"us\"\n\
    fine | [[block]] / at = 105\n\
    p:11: block 3, at = 206: out of order; at least 207 ns, when the call before it is made | [[block]] / at = 200 / call = [{ op = \"ask\", at = 7 }] / [[block]] / at = 206\n\
    \n\
    blocks that begin too early behind one of two calls | version = 2 / [[block]] / at = 100 / call = [{ op = \"ask\", at = 5 }, { op = \"ask\", at = 9 }] / \n\
    p:6: block 2, at = 108: out of order; at least 109 ns, when the call before it is made | [[block]] / at = 108\n\
    fine | [[block]] / at = 109\n\
    \n\
    blocks that begin too early behind one that is made again | version = 2 / [[block]] / times = 3 / every = 10 / every_unit = \"s\" / [[block.call]] / op = \"ask\" / at = 1 / at_unit = \"ms\" / \n\
    p:11: block 2, at = 20: out of order; at least 21 s, when the call before it is made | [[block]] / at = 20 / at_unit = \"s\"\n\
    p:14: block 3, at = 20000: out of order; at least 20001 ms, when the call before it is made | [[block]] / at = 21 / at_unit = \"s\" / [[block]] / at = 20000 / at_unit = \"ms\"\n\
    \n\
    blocks that begin too early behind one that has a moment and is made again | version = 2 / [[block]] / at = 4 / at_unit = \"s\" / times = 3 / every = 10 / every_unit = \"s\" / [[block.call]] / op = \"ask\" / at = 1 / at_unit = \"ms\" / \n\
    p:13: block 2, at = 24: out of order; at least 25 s, when the call before it is made | [[block]] / at = 24 / at_unit = \"s\"\n\
    p:13: block 2, at = 24000: out of order; at least 24001 ms, when the call before it is made | [[block]] / at = 24000 / at_unit = \"ms\"\n\
    fine | [[block]] / at = 24001 / at_unit = \"ms\"\n\
    \n\
    calls that come too early | version = 2 / [[block]] / [[block.call]] / op = \"ask\" / at = 2 / at_unit = \"ms\" / \n\
    p:8: block 1, call 2, at = 1999: out of order; at least 2000 us, when the call before it is made | [[block.call]] / at = 1999 / at_unit = \"us\" / op = \"ask\"\n\
    p:7: block 1, call 2, at: out of order; at least 2000000 ns, when the call before it is made | [[block.call]] / op = \"ask\"\n\
    p:8: block 1, call 2, at = 0: out of order; at least 1 s, when the call before it is made | [[block.call]] / at = 0 / at_unit = \"s\" / op = \"ask\"\n\
    p:13: block 1, call 3, at = 2500: out of order; at least 3000 us, when the call before it is made | [[block.call]] / op = \"ask\" / at = 3 / at_unit = \"ms\" / [[block.call]] / op = \"ask\" / at = 2500 / at_unit = \"us\"\n\
    \n\
    calls behind the next iteration | version = 2 / [[block]] / times = 2 / every = 1500 / every_unit = \"us\" / [[block.call]] / op = \"ask\" / \n\
    p:8: block 1, call 1, at = 2: out of order; at most 1 ms, when the next iteration begins | at = 2 / at_unit = \"ms\"\n\
    p:8: block 1, call 1, at = 1500001: out of order; at most 1500000 ns, when the next iteration begins | at = 1500001\n\
    p:8: block 1, call 1, at = 1: out of order; at most 0 h, when the next iteration begins | at = 1 / at_unit = \"h\"\n\
    fine | at = 1500000\n\
    \n\
    calls behind the next iteration of a block that has a moment | version = 2 / [[block]] / at = 7 / at_unit = \"ms\" / times = 2 / every = 1500 / every_unit = \"us\" / [[block.call]] / op = \"ask\" / \n\
    p:10: block 1, call 1, at = 2: out of order; at most 1 ms, when the next iteration begins | at = 2 / at_unit = \"ms\"\n\
    fine | at = 1500000";
