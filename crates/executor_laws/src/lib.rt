//! What holds of each history of the executor, whatever the events: laws over its definitions.
//!
//! # Usage
//!
//! Nothing here is called by a program. Each function is empty, and its contract is a law: the prover accepts
//! it for every plan, number of workers and history. [`no_start_is_early`] says that no task starts before its due
//! moment, for one. A proof that needs a law calls its function.
//!
//! # Behaviour
//!
//! The first group says what a client of the executor may rely on: due moments, order, ties, overlap, failures, cancels.
//! The second one says what the definitions, which count and recur over a history, say of the positions in it, and the
//! ranges of the numbers in its lines. The third one is on states: what the words of the tasks say of the history, that no
//! answer lowers the rank of a word or changes a cancelled one, that an error changes nothing, and that a need names what a
//! step moves. The fourth one is on cancels from outside, as a layer needs them that meets them in words first: the word of a
//! task decides the answer, and a cancel with an effect touches its task alone. The fifth one is on policies, the shutdown,
//! sweeps, kept tasks and purges. The sixth one is on calls that are added while the executor runs: a history of the calls before
//! is one of the longer calls too, with the same lines, and leads to the same state and moment. The seventh one is on tasks
//! that were accepted: none is lost, and the turn of each that is due comes. The last one says that `==` of the executor's
//! types is true exactly of the same values.
//!
//! No law bounds how many calls there are: where one asks for their order, it is for any number of them in order.
//!
//! # Order and ties
//!
//! [`starts_are_in_order`] says which task starts, and [`ties_go_by_submission`] which one of those that are due at the
//! same moment. [`one_history`] says that the order in which all happens is the only one.
//!
//! # Errors, memory and cost
//!
//! No function fails, takes memory, or does anything when it runs.
//!
//! # Tests
//!
//! None are needed: a law is proved. The tests of the definitions that the laws are about stand in `core_tests`.
#![tactic(auto)]

mod additions;
mod cancels;
mod equality;
mod laws;
mod positions;
mod purging;
mod states;
mod sweeps;
mod turns;

pub use additions::{calls_may_be_added, many_calls_may_be_added};
pub use cancels::{
    cancels_go_by_words, cancels_touch_one_task, only_calls_sweep, outside_needs_its_cancel,
};
pub use equality::{
    answer_equality_tells, cancel_effect_equality_tells, event_equality_tells,
    event_error_equality_tells, happening_equality_tells, kind_equality_tells,
    message_equality_tells, need_equality_tells, outcome_equality_tells, refusal_equality_tells,
    stage_equality_tells, task_equality_tells,
};
pub use laws::{
    again_is_due, answers_by_position, cancels_have_one_effect, fixed_runs_are_due,
    flows_are_answered, histories_are_one, illegal_tasks_do_not_start, no_start_is_early,
    nothing_starts_after_a_cancel, nothing_starts_after_a_failure, nothing_starts_once_done,
    one_history, one_shots_run_once, one_shots_start_once, rate_runs_are_due, runs_are_numbered,
    runs_do_not_overlap, starts_are_in_order, states_answer, ties_go_by_submission,
};
pub use positions::{
    asks_by_position, finish_keeps_now, first_is_the_least, flow_keeps_the_events,
    flow_makes_what_is_reached, flow_may_come, last_finish_is_the_last, lines_are_in_range,
    none_is_enabled, now_is_the_greatest, reached_is_a_front, starts_exceed_finishes,
    tasks_are_submitted, terms_are_its_own, waiting_is_a_task, waiting_is_due_in_time,
    work_is_the_last_start,
};
pub use purging::{purges_change_asks_alone, purges_take_the_kept};
pub use states::{
    cancelled_words_stay, errors_change_nothing, needs_move_words, ranks_do_not_fall,
    words_tell_the_history,
};
pub use sweeps::{
    kept_by_positions, nothing_is_accepted_once_shut, nothing_starts_after_a_stop,
    nothing_starts_after_an_end, nothing_starts_once_terminated, nothing_waits_once_stopped,
    policies_are_the_last_set, queued_and_running_are_tasks, refused_tasks_do_not_start,
    shut_is_a_shutdown, sweeps_end_those, swept_are_those, tasks_are_cancelled_once,
};
pub use turns::{no_task_is_lost, turns_come};
