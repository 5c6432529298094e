//! Names that no cancel has.

/// Tables that `tell_table` reads.
pub const TABLES: &str = "\
    names without a cancel | version = 2 / [[block]] / call = [ / \n\
    fine | { op = \"execute\", name = \"a\" } ]\n\
    fine | { op = \"execute\", name = \"a\" }, / { op = \"execute\", name = \"b\" }, / { op = \"ask\" } ]\n\
    fine | { op = \"execute\", name = \"a\" }, / { op = \"cancel\", name = \"a\" } ]\n\
    p:5: warning: block 1, call 2, name = \"b\": no cancel has this name | { op = \"execute\", name = \"a\" }, / { op = \"execute\", name = \"b\" }, / { op = \"cancel\", name = \"a\" } ]\n\
    p:4: warning: block 1, call 1, name = \"a\": no cancel has this name | { op = \"execute\", name = \"a\" }, / { op = \"schedule\", name = \"b\", delay = 1 }, / { op = \"cancel\", name = \"b\" }, / { op = \"cancel\", name = \"b\" } ]\n\
    \n\
    cancels in other blocks count | version = 2 / [[block]] / call = [ / { op = \"execute\", name = \"a\" }, / { op = \"execute\", name = \"b\" } ] / [[block]] / call = [ / { op = \"execute\", name = \"c\" }, / \n\
    fine | { op = \"execute\", name = \"d\" } ]\n\
    p:5: warning: block 1, call 2, name = \"b\": no cancel has this name + p:8: warning: block 2, call 1, name = \"c\": no cancel has this name | { op = \"cancel\", name = \"a\" } ]\n\
    p:4: warning: block 1, call 1, name = \"a\": no cancel has this name + p:5: warning: block 1, call 2, name = \"b\": no cancel has this name | { op = \"cancel\", name = \"c\" } ]\n\
    p:8: warning: block 2, call 1, name = \"c\": no cancel has this name + p:9: warning: block 2, call 2, period = 7: nanoseconds; no unit is given + p:9: warning: block 2, call 2, name = \"d\": no cancel has this name | { op = \"rate\", name = \"d\", first = 0, period = 7 } ] / [[block]] / call = [ / { op = \"cancel\", name = \"a\" }, / { op = \"cancel\", name = \"b\" } ]";
