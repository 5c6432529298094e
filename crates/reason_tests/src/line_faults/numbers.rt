//! Words in the places of numbers.

pub const SIGNS: &str = "\
clock +5 | sign; a moment has none, as in \"clock 5\"
start -1 | sign; a worker has none, as in \"start 0\"
finish +0 ok 7 | sign; a worker has none, as in \"finish 0 ok 7\"
finish 0 ok -7 | sign; a value has none, as in \"finish 0 ok 7\"
finish 0 fail -05ns 3 | sign; a code has none, as in \"finish 0 fail 3\"
cancel -0 | sign; a task has none, as in \"cancel 2\"
";

pub const LEADING_ZEROS: &str = "\
clock 05 | leading zero; a moment has none, as in \"clock 5\"
start 00 | leading zero; a worker has none, as in \"start 0\"
finish 01 ok 07 | leading zero; a worker has none, as in \"finish 0 ok 7\"
finish 1 ok 07 | leading zero; a value has none, as in \"finish 0 ok 7\"
finish 1 fail 003 | leading zero; a code has none, as in \"finish 0 fail 3\"
cancel 02ms 3 | leading zero; a task has none, as in \"cancel 2\"
";

pub const UNITS: &str = "\
clock 5ns | unit; a moment has none and is in nanoseconds, as in \"clock 5\"
clock 5 ms | unit; a moment has none and is in nanoseconds, as in \"clock 5\"
clock 99999999999999999999999min | unit; a moment has none and is in nanoseconds, as in \"clock 5\"
finish 0 ok 7s | unit; a value has none, as in \"finish 0 ok 7\"
finish 0 ok 7 h | unit; a value has none, as in \"finish 0 ok 7\"
cancel 2 d 3 | unit; a task has none, as in \"cancel 2\"
start 0 ms | unit; a worker has none, as in \"start 0\"
finish 0 fail 3 h | unit; a code has none, as in \"finish 0 fail 3\"
clock 5 us now | unit; a moment has none and is in nanoseconds, as in \"clock 5\"
";

pub const LARGE_NUMBERS: &str = "\
clock 18446744073709551616 | too large; a moment is at most 18446744073709551615
start 256 | too large; a worker is at most 63
finish 256 ok 7 | too large; a worker is at most 63
finish 0 ok 18446744073709551616 | too large; a value is at most 18446744073709551615
finish 0 fail 4294967296 | too large; a code is at most 4294967295
cancel 4294967296 | too large; a task is at most 4294967295
cancel 99999999999999999999999999999999999 | too large; a task is at most 4294967295
start 256 ms | too large; a worker is at most 63
";

pub const NO_NUMBERS: &str = "\
clock x | no number; a moment is wanted, as in \"clock 5\"
clock 1e9 | no number; a moment is wanted, as in \"clock 5\"
start 1, | no number; a worker is wanted, as in \"start 0\"
finish ok 7 | no number; a worker is wanted, as in \"finish 0 ok 7\"
finish 0 ok 0x7 | no number; a value is wanted, as in \"finish 0 ok 7\"
finish 0 fail - | no number; a code is wanted, as in \"finish 0 fail 3\"
cancel ns | no number; a task is wanted, as in \"cancel 2\"
";
