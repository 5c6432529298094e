//! Words of four to eight bytes within lines of a trace, and the numbers in front of them: with a byte changed at each place of a
//! word, and with a byte too few.
use crate::lines::messages::{cancel, finish, idle, refuse, start};
use crate::lines::{Row, are_lines, refuses};
use executor_model::Outcome;

/// Lines with ` finish `, ` run ` and `due `, and lines that end with a word of eight bytes, of five, and of four.
const WITH_SHORT_WORDS: &[Row] = &[
    (
        7,
        finish!(0, 3, 5, Outcome::Ended),
        "7 finish 0 task 3 run 5 ended\n",
    ),
    (
        7,
        finish!(0, 3, 4, Outcome::Again(5)),
        "7 finish 0 task 3 run 4 again due 5\n",
    ),
    (7, refuse!(3, Illegal), "7 refuse 3 illegal\n"),
    (7, cancel!(3, Absent), "7 cancel 3 none\n"),
    (7, cancel!(3, Yes), "7 cancel 3 yes\n"),
];

/// Lines with the greatest number that each word follows.
const WITH_NUMBERS: &[Row] = &[
    (
        7,
        start!(1, 2, 4_294_967_296, 3),
        "7 start 1 task 2 run 4294967296 due 3\n",
    ),
    (
        7,
        start!(1, 2, u64::MAX, 3),
        "7 start 1 task 2 run 18446744073709551615 due 3\n",
    ),
    (
        7,
        start!(1, u32::MAX, 3, 4),
        "7 start 1 task 4294967295 run 3 due 4\n",
    ),
    (
        7,
        finish!(1, u32::MAX, 3, Outcome::Ended),
        "7 finish 1 task 4294967295 run 3 ended\n",
    ),
    (
        7,
        finish!(255, 3, 4, Outcome::Ended),
        "7 finish 255 task 3 run 4 ended\n",
    ),
    (7, start!(255, 3, 4, 5), "7 start 255 task 3 run 4 due 5\n"),
    (7, idle!(255), "7 start 255 idle\n"),
];

#[test]
fn short_words_within_lines(rt: HostRuntime) {
    are_lines(&rt, WITH_SHORT_WORDS);
    refuses(
        &rt,
        "7 finish |7 finish|7 fin|7|7_finish 0 task 3 run 5 ended\n\
         |7 _inish 0 task 3 run 5 ended\n|7 f_nish 0 task 3 run 5 ended\n\
         |7 fi_ish 0 task 3 run 5 ended\n|7 fin_sh 0 task 3 run 5 ended\n\
         |7 fini_h 0 task 3 run 5 ended\n|7 finis_ 0 task 3 run 5 ended\n\
         |7 finish_0 task 3 run 5 ended\n|7  finish 0 task 3 run 5 ended\n\
         |7 finish 0 task 3 run |7 finish 0 task 3 run|7 finish 0 task 3_run 5 ended\n\
         |7 finish 0 task 3 _un 5 ended\n|7 finish 0 task 3 r_n 5 ended\n\
         |7 finish 0 task 3 ru_ 5 ended\n|7 finish 0 task 3 run_5 ended\n\
         |7 finish 0 task 3 run 4 again due|7 finish 0 task 3 run 4 again _ue 5\n\
         |7 finish 0 task 3 run 4 again d_e 5\n|7 finish 0 task 3 run 4 again du_ 5\n\
         |7 finish 0 task 3 run 4 again due_5\n",
    );
}

#[test]
fn numbers_before_a_short_word(rt: HostRuntime) {
    are_lines(&rt, WITH_NUMBERS);
    refuses(
        &rt,
        "7 start 1 task 2 run 05 due 3\n|7 start 1 task 2 run  due 3\n\
         |7 start 1 task 2 run 5 due_3\n|7 start 1 task 2 run 18446744073709551616 due 3\n",
    );
}

#[test]
fn codes_before_a_short_word(rt: HostRuntime) {
    refuses(
        &rt,
        "7 start 1 task 4294967296 run 3 due 4\n|7 start 1 task 5 run_3 due 4\n\
         |7 finish 1 task 4294967296 run 3 ended\n|7 finish 1 task 5 run_3 ended\n",
    );
}

#[test]
fn workers_before_a_word(rt: HostRuntime) {
    refuses(
        &rt,
        "7 finish 256 task 3 run 4 ended\n|7 finish 5 task_3 run 4 ended\n\
         |7 start 256 task 3 run 4 due 5\n|7 start 256 idle\n|7 start 5 task_3 run 4 due 5\n\
         |7 start 5_idle\n",
    );
}
