//! Faults of names.

/// Tables that `tell_table` reads.
pub const TABLES: &str = "\
    bad names | version = 2 / [[block]] / call = [ / { op = \"schedule\", name = \"backup\", delay = 1 }, / { op = \"execute\", name = \"b2\" }, / \n\
    p:6: block 1, call 3, name = \"\": not a name; 1 to 32 ASCII letters, digits, - and _ | { op = \"cancel\", name = \"\" } ]\n\
    p:6: block 1, call 3, name = \"a b\": not a name; 1 to 32 ASCII letters, digits, - and _ | { op = \"execute\", name = \"a b\" } ]\n\
    p:7: block 1, call 3, name = \"a2345678901234567890123456789012x\": not a name; 1 to 32 ASCII letters, digits, - and _ | { op = \"execute\", / name = \"a2345678901234567890123456789012x\" } ]\n\
    p:6: block 1, call 3, name = \"\u{E4}\": not a name; 1 to 32 ASCII letters, digits, - and _ | { op = \"execute\", name = \"\u{E4}\" } ]\n\
    \n\
    duplicate names | version = 2 / [[block]] / call = [ / { op = \"schedule\", name = \"backup\", delay = 1 }, / { op = \"execute\", name = \"b2\" }, / \n\
    p:6: block 1, call 3, name = \"b2\": given before; another one than that of block 1, call 2 in line 5 | { op = \"execute\", name = \"b2\" } ]\n\
    p:10: block 2, call 1, name = \"backup\": given before; another one than that of block 1, call 1 in line 4 | ] / [[block]] / [[block.call]] / op = \"rate\" / name = \"backup\" / first = 1 / period = 1\n\
    p:6: block 1, call 4, name = \"c\": given before; another one than that of block 1, call 3 in line 6 | { op = \"execute\", name = \"c\" }, { op = \"fixed\", name = \"c\", first = 1, delay = 2 } ]\n\
    p:7: block 1, call 4, name = \"c\": given before; another one than that of block 1, call 3 | { op = \"execute\", \"n\\u0061me\" = \"c\" }, / { op = \"execute\", name = \"c\" } ]\n\
    \n\
    unknown names | version = 2 / [[block]] / call = [ / { op = \"schedule\", name = \"backup\", delay = 1 }, / { op = \"execute\", name = \"b2\" }, / \n\
    p:6: block 1, call 3, name = \"bakup\": no such name; backup may be meant; that of a submission before it | { op = \"cancel\", name = \"bakup\" } ]\n\
    p:6: block 1, call 3, name = \"B2\": no such name; b2 may be meant; that of a submission before it | { op = \"cancel\", name = \"B2\" } ]\n\
    p:7: block 1, call 4, name = \"A\": no such name; a may be meant; that of a submission before it | { op = \"execute\", name = \"a\" }, / { op = \"cancel\", name = \"A\" } ]\n\
    p:6: block 1, call 3, name = \"x\": no such name; that of a submission before it | { op = \"cancel\", name = \"x\" } ]\n\
    p:6: block 1, call 3, name = \"b1\": no such name; b2 may be meant; that of a submission before it | { op = \"cancel\", name = \"b1\" } ]\n\
    p:6: block 1, call 3, name = \"late\": no such name; that of a submission before it, and block 1, call 4 in line 7 stands behind it | { op = \"cancel\", name = \"late\" }, / { op = \"execute\", name = \"late\" } ]\n\
    p:6: block 1, call 3, name = \"late\": no such name; that of a submission before it, and block 2, call 1 in line 8 stands behind it | { op = \"cancel\", name = \"late\" } ] / [[block]] / call = [{ op = \"execute\", name = \"late\" }]\n\
    \n\
    names of which three are told at most | version = 2 / [[block]] / call = [ / \n\
    p:8: block 1, call 5, name = \"tx\": no such name; t1 or t2 or t3 may be meant; that of a submission before it | { op = \"execute\", name = \"t1\" }, / { op = \"execute\", name = \"t2\" }, / { op = \"execute\", name = \"t3\" }, / { op = \"execute\", name = \"t4\" }, / { op = \"cancel\", name = \"tx\" } ]\n\
    \n\
    ambiguous names | version = 2 / [[block]] / times = 3 / every = 10 / [[block.call]] / op = \"execute\" / name = \"a\" / \n\
    p:11: block 2, call 1, name = \"a\": ambiguous; that of a block which is made once, and block 1, call 1 in line 7 is made 3 times | [[block]] / at = 100 / call = [ / { op = \"cancel\", name = \"a\" } ]\n\
    p:11: block 2, call 1, name = \"a\": ambiguous; that of a block which is made once, and block 1, call 1 in line 7 is made 3 times | [[block]] / at = 20 / call = [ / { op = \"cancel\", name = \"a\" } ]\n\
    p:11: block 3, call 1, name = \"a\": ambiguous; that of a block which is made once, and block 1, call 1 in line 7 is made 3 times | [[block]] / at = 20 / [[block]] / call = [{ op = \"cancel\", name = \"a\" }] / at = 20\n\
    fine | [[block.call]] / op = \"cancel\" / name = \"a\"";
