//! Lines of a live run: events and calls.

use line_reasons::EventsReason;
use std::alloc::Allocator;

/// That of the crate, as [`reason_of_events`](super::reason_of_events) is.
pub fn reason_of_live_lines<A: Allocator + Copy>(
    alloc: A,
    text: &[u8],
) -> Option<EventsReason<'_>> {
    line_reasons::reason_of_live_lines(alloc, text)
}

pub const WORDS: &str = "\
clok 5 | \"clok\" is no event or call; clock may be meant; one of clock, start, finish, cancel, call
Call ask | \"Call\" is no event or call; call may be meant; one of clock, start, finish, cancel, call
schedule 5 | \"schedule\" is no event or call; one of clock, start, finish, cancel, call
call shedule 5 | \"shedule\" is no call; schedule may be meant; one of schedule, execute, rate, fixed, cancel, policy, shutdown, shutdown_now, ask
call shutdownnow | \"shutdownnow\" is no call; shutdown_now may be meant; one of schedule, execute, rate, fixed, cancel, policy, shutdown, shutdown_now, ask
call 5 | \"5\" is no call; one of schedule, execute, rate, fixed, cancel, policy, shutdown, shutdown_now, ask
call policy remov true | \"remov\" is no policy; remove may be meant; one of continue, execute, remove
call policy true remove | \"true\" is no policy; one of continue, execute, remove
call policy remove yes | \"yes\" is no value; one of true, false
call policy execute True 5 | \"True\" is no value; true may be meant; one of true, false
call policy continue flase | \"flase\" is no value; false may be meant; one of true, false
finish 0 done 7 | \"done\" is no ending; one of ok, fail
";

pub const SPANS: &str = "\
call schedule 5ms | unit; a delay has none and is in nanoseconds, as in \"call schedule 5\"
call schedule 5 ms | unit; a delay has none and is in nanoseconds, as in \"call schedule 5\"
call schedule +5 | sign; a delay has none, as in \"call schedule 5\"
call schedule 05 | leading zero; a delay has none, as in \"call schedule 5\"
call schedule now | no number; a delay is wanted, as in \"call schedule 5\"
call schedule 4611686018427387905 | too large; a delay is at most 4611686018427387904
call rate 5s 10 | unit; a first delay has none and is in nanoseconds, as in \"call rate 5 10\"
call rate 5 s 10 s | unit; a first delay has none and is in nanoseconds, as in \"call rate 5 10\"
call rate 4611686018427387905 0 | too large; a first delay is at most 4611686018427387904
call rate 5 0 | too small; a period is at least 1, as in \"call rate 5 10\"
call rate 5 0 15 | too small; a period is at least 1, as in \"call rate 5 10\"
call rate 5 00 | leading zero; a period has none, as in \"call rate 5 10\"
call rate 5 10 us | unit; a period has none and is in nanoseconds, as in \"call rate 5 10\"
call rate 5 4611686018427387905 | too large; a period is at most 4611686018427387904
call fixed -5 10 | sign; a first delay has none, as in \"call fixed 5 10\"
call fixed x 10 | no number; a first delay is wanted, as in \"call fixed 5 10\"
call fixed 5 0 | too small; a delay is at least 1, as in \"call fixed 5 10\"
call fixed 5 10min | unit; a delay has none and is in nanoseconds, as in \"call fixed 5 10\"
call fixed 5 18446744073709551616 | too large; a delay is at most 4611686018427387904
";

pub const TASKS_AND_WORKERS: &str = "\
call cancel 4294967296 | too large; a task is at most 4294967295
call cancel 2 ms | unit; a task has none, as in \"call cancel 2\"
call cancel t2 | no number; a task is wanted, as in \"call cancel 2\"
cancel 4294967296 | too large; a task is at most 4294967295
start 256 | too large; a worker is at most 63
";

pub const ENDS_OF_LINES: &str = "\
call | too short; call and one of schedule, execute, rate, fixed, cancel, policy, shutdown, shutdown_now, ask
call schedule | too short; call schedule D
call rate | too short; call rate F P
call rate 5 | too short; call rate F P
call fixed 5 | too short; call fixed F D
call cancel | too short; call cancel K
call policy | too short; call policy WHICH VALUE
call policy remove | too short; call policy WHICH VALUE
clock | too short; clock T
call schedule 5 10 | more behind its end; call schedule D
call execute 5 | more behind its end; call execute
call rate 5 10 15 | more behind its end; call rate F P
call fixed 5 10 ask | more behind its end; call fixed F D
call cancel 2 yes | more behind its end; call cancel K
call policy remove true 5 | more behind its end; call policy WHICH VALUE
call shutdown now | more behind its end; call shutdown
call shutdown_now 5 | more behind its end; call shutdown_now
call ask ms | more behind its end; call ask
call  ask | two spaces; one space stands between two words
call ask  | space at the end; a line ends with a word
 call ask | space in front; a line begins with a word
";

/// Texts, and what is told of them.
pub const TEXTS: &[(&[u8], &str)] = &[
    (b"", "fine"),
    (
        b"call schedule 4611686018427387904\nclock 5\ncall execute\ncall rate 0 1\nstart 255\n\
        finish 255 fail 4294967295\ncall fixed 0 4611686018427387904\ncall cancel 4294967295\n\
        cancel 4294967295\ncall policy continue true\ncall policy execute false\n\
        call policy remove true\ncall shutdown\ncall shutdown_now\ncall ask\n",
        "fine",
    ),
    (
        b"call ask\nclock 5\n\ncall\n",
        "line 3, \"\": empty; one of clock, start, finish, cancel, call",
    ),
    (
        b"clock 5\ncall ask",
        "line 2, \"call ask\": no newline; each line ends with one",
    ),
    (
        b"call ask\r\n",
        "line 1, \"call ask\\r\": carriage return; a line ends with a newline alone",
    ),
    (
        b"call ask\ncall schedule 00000000000000000000000000000000000000000000000000\n",
        "line 2, \"call schedule 00000000000000000000000000\"...: too long; at most 63 bytes with its newline",
    ),
];
