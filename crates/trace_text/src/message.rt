//! What the lines of a trace say behind their moments, read with the newline.
ghost use Rattle.std.specs.Prelude.{MatchOption, ◌++◌, codes};
ghost use Rattle.executor_model.specs.Said.{message_of};
ghost use Rattle.trace_text.specs.Spelling.{message_text, FitsMessage};
ghost use Rattle.trace_text.specs.Reading.{IsRead, IsUnread};

use crate::answer::{
    split_ask, split_cancel, split_finish, split_policy, split_refuse, split_shutdown, split_start,
    split_submit,
};
use crate::scan::{code_before, strip_short_word, strip_word};
use crate::words::split_error;
use executor_model::Said;

/// What a line says whose text behind its moment stands at the front of some bytes, and what follows its newline. The words that
/// stand in a trace most often are looked for first. It is compiled once for each reader of lines, so that it stands in the loop of
/// a program that reads many.
#[inline(always)]
pub fn split_message<const ALONE: bool>(bytes: &[u8]) -> Option<(Said, &[u8])>
    ensures { MatchOption result (IsUnread message_text FitsMessage bytes.now)
        (λ r. IsRead message_text FitsMessage bytes.now (message_of r.0) r.1.now) }
{
    if let Some(rest) = strip_short_word(bytes, *b" start ") {
        return split_start(rest);
    }
    if let Some(rest) = strip_short_word(bytes, *b" finish ") {
        return split_finish(rest);
    }
    if let Some(rest) = strip_short_word(bytes, *b" clock\n") {
        return Some((Said::Clock, rest));
    }
    if let Some(rest) = strip_short_word(bytes, *b" submit ") {
        return split_submit(rest);
    }
    if let Some(rest) = strip_short_word(bytes, *b" end ") {
        return split_end(rest);
    }
    if let Some(rest) = strip_word(bytes, *b" outside ") {
        let ((task, effect), rest) = split_cancel(rest)?;
        return Some((Said::Outside { effect, task }, rest));
    }
    if let Some(rest) = strip_short_word(bytes, *b" cancel ") {
        let ((task, effect), rest) = split_cancel(rest)?;
        return Some((Said::Cancel { effect, task }, rest));
    }
    if let Some(rest) = strip_short_word(bytes, *b" refuse ") {
        return split_refuse(rest);
    }
    if let Some(rest) = strip_short_word(bytes, *b" error ") {
        return split_error(rest);
    }
    if let Some(rest) = strip_word(bytes, *b" ask queue ") {
        return split_ask(rest);
    }
    if let Some(rest) = strip_short_word(bytes, *b" policy ") {
        return split_policy(rest);
    }
    if let Some(rest) = strip_word(bytes, *b" shutdown") {
        return split_shutdown(rest);
    }
    if let Some(rest) = strip_short_word(bytes, *b" purge\n") {
        return Some((Said::Purge, rest));
    }
    None
}

/// The end of the task that stands at the front, and what follows its newline.
#[inline(always)]
fn split_end(bytes: &[u8]) -> Option<(Said, &[u8])>
    ensures { MatchOption result (IsUnread message_text FitsMessage (codes " end " ++ bytes.now))
        (λ r. IsRead message_text FitsMessage (codes " end " ++ bytes.now) (message_of r.0)
        r.1.now) }
{
    let (task, rest) = code_before(bytes, b"\n")?;
    Some((Said::End(task), rest))
}
