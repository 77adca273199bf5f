//! The value of a key.
ghost use Rattle.std.specs.Prelude.{◌≡◌, IfOk, None, Ok, Some, false, if◌then◌else◌, length, option_copied, true};
ghost use Rattle.example_redis.specs.Lives.{entry_in, there_at, until_in};
ghost use Rattle.example_redis.specs.Replies.{count_in, error, shown_reply, text_of};
ghost use Rattle.example_redis.specs.Values.{Expires, IsCounted, IsTurn, Looks, Persists, Sets, added, answer_to, appended, bulk_of, bytes_of, deed_of_change, ends_at, in_unit, is_set, left_of, number_in, one_if, reply_to_set, set_till, turn_of};

use crate::life::{Kept, Term, is_past};
use crate::limits::MOST_VALUE;
use crate::number::number;
use crate::reply::{Refusal, Reply};
use crate::request::{Change, How, Question, Tells, When};
use itoa::Buffer;
use mely_event::Memory;
use std::alloc::Global;

/// What becomes of a value, where there is one, and what is replied.
#[derive(Drop)]
pub struct Done {
    pub value: Option<Kept>,
    pub reply: Reply,
}

/// 1 for what is so, and 0 for what isn't.
fn tell(is: bool) -> Reply
    ensures reply { shown_reply result ≡ one_if is }
    ensures count { count_in result ≡ (if is then 1 else 0) }
{
    if is { Reply::Count(1) } else { Reply::Count(0) }
}

/// A value as a reply.
fn hand_out(value: Option<Kept>) -> Reply
    ensures { shown_reply result ≡ bulk_of (entry_in value) }
{
    match value {
        Some(value) => Reply::Value(value.bytes),
        None => Reply::Nil,
    }
}

/// A copy of a value as a reply.
fn copy_out(alloc: Global, value: Option<&Kept>) -> Result<Reply, Memory>
    ensures { IfOk result (λ reply. shown_reply reply
        ≡ bulk_of (entry_in (option_copied value.entry))) }
{
    match value {
        Some(value) => Ok(Reply::Value(Vec::from_slice(alloc, value.bytes.as_slice())?)),
        None => Ok(Reply::Nil),
    }
}

/// Milliseconds in what is asked for.
fn convert(question: Question, millis: u64) -> u64
    ensures { result ≡ in_unit question millis }
{
    match question {
        Question::Seconds => {
            let whole = millis / 1000;
            if millis % 1000 < 500 {
                whole
            } else {
                whole + 1
            }
        }
        _ => millis,
    }
}

/// How long a value is still there.
fn left(question: Question, now: u64, value: Option<&Kept>) -> Reply
    ensures { shown_reply result ≡ left_of question now (entry_in (option_copied value.entry)) }
{
    let Some(value) = value else {
        return Reply::Number(-2);
    };
    match value.until {
        Some(until) => Reply::Count(convert(question, until.saturating_sub(now)) as usize),
        None => Reply::Number(-1),
    }
}

/// How many bytes a value has.
fn size(value: Option<&Kept>) -> usize
    ensures { result ≡ length (bytes_of (entry_in (option_copied value.entry))) }
{
    match value {
        Some(value) => value.bytes.len(),
        None => 0,
    }
}

/// What is replied to a question.
///
/// # Errors
///
/// There was no memory.
pub fn look(
    alloc: Global,
    now: u64,
    value: Option<&Kept>,
    question: Question,
) -> Result<Reply, Memory>
    ensures reply { IfOk result (λ reply. shown_reply reply
        ≡ answer_to now question (entry_in (option_copied value.entry))) }
    ensures counted { IfOk result (IsCounted (Looks question)
        (entry_in (option_copied value.entry))) }
{
    match question {
        Question::Value => copy_out(alloc, value),
        Question::IsThere => Ok(tell(value.is_some())),
        Question::Length => Ok(Reply::Count(size(value))),
        Question::Seconds | Question::Millis => Ok(left(question, now, value)),
    }
}

/// A value as long as it is there.
fn while_there(now: u64, bytes: Vec<u8>, until: Option<u64>) -> Option<Kept>
    ensures { entry_in result
        ≡ there_at now (Some (record { bytes = bytes.items; until = until })) }
{
    if is_past(now, until) {
        None
    } else {
        Some(Kept { bytes, until })
    }
}

/// The moment from which on a value isn't there, if there is one.
fn until_of_value(value: &Option<Kept>) -> Option<u64>
    ensures { result ≡ until_in (entry_in value.now) }
{
    match value {
        Some(value) => value.until,
        None => None,
    }
}

/// Whether a value is set, as there is one or none.
fn sets(when: When, before: &Option<Kept>) -> bool
    ensures { result ≡ is_set when (entry_in before.now) }
{
    match when {
        When::Always => true,
        When::Absent => before.is_none(),
        When::Present => before.is_some(),
    }
}

/// A value isn't set.
fn keep(alloc: Global, before: Option<Kept>, tells: Tells) -> Result<Done, Memory>
    ensures value { IfOk result (λ done. done.value ≡ before) }
    ensures reply { IfOk result (λ done. shown_reply done.reply
        ≡ reply_to_set tells false (entry_in before)) }
{
    let reply = match tells {
        Tells::Done => Reply::Nil,
        Tells::Before => copy_out(alloc, before.as_ref())?,
        Tells::Count => Reply::Count(0),
    };
    Ok(Done {
        value: before,
        reply,
    })
}

/// What is replied where a value is set.
fn reply_to_done(before: Option<Kept>, tells: Tells) -> Reply
    ensures { shown_reply result ≡ reply_to_set tells true (entry_in before) }
{
    match tells {
        Tells::Done => Reply::Okay,
        Tells::Before => hand_out(before),
        Tells::Count => Reply::Count(1),
    }
}

/// A value is set until a moment, if it is.
fn set_until(
    alloc: Global,
    now: u64,
    before: Option<Kept>,
    bytes: Vec<u8>,
    how: How,
    until: Option<u64>,
) -> Result<Done, Memory>
    ensures { IfOk result (IsTurn (set_till now bytes.items how (entry_in before) (Ok until))) }
{
    if !sets(how.when, &before) {
        return keep(alloc, before, how.tells);
    }
    Ok(Done {
        value: while_there(now, bytes, until),
        reply: reply_to_done(before, how.tells),
    })
}

/// A value is set, if it is.
fn set(
    alloc: Global,
    now: u64,
    before: Option<Kept>,
    bytes: Vec<u8>,
    how: How,
) -> Result<Done, Memory>
    ensures { IfOk result (IsTurn (turn_of now (Sets bytes.items how) (entry_in before))) }
{
    match how.term.until(now, until_of_value(&before)) {
        Ok(until) => set_until(alloc, now, before, bytes, how, until),
        Err(verb) => Ok(refused(before, Refusal::Time(verb))),
    }
}

/// A value stays, and it is said why.
fn refused(value: Option<Kept>, refusal: Refusal) -> Done
    ensures value { result.value ≡ value }
    ensures reply { shown_reply result.reply ≡ error (text_of refusal) }
{
    Done {
        value,
        reply: Reply::Refused(refusal),
    }
}

/// A value is there until a moment, if one is named.
fn end_at(now: u64, before: Option<Kept>, until: Option<u64>) -> Done
    ensures { IsTurn (ends_at now (entry_in before) (Ok until)) result }
{
    match before {
        Some(value) => Done {
            value: while_there(now, value.bytes, until),
            reply: Reply::Count(1),
        },
        None => Done {
            value: None,
            reply: Reply::Count(0),
        },
    }
}

/// A value is there for so long.
fn expire(now: u64, before: Option<Kept>, term: Term) -> Done
    ensures { IsTurn (turn_of now (Expires term) (entry_in before)) result }
{
    match term.until(now, until_of_value(&before)) {
        Ok(until) => end_at(now, before, until),
        Err(verb) => refused(before, Refusal::Time(verb)),
    }
}

/// A value doesn't go any more.
fn persist(now: u64, before: Option<Kept>) -> Done
    ensures { IsTurn (turn_of now Persists (entry_in before)) result }
{
    let Some(value) = before else {
        return Done {
            value: None,
            reply: Reply::Count(0),
        };
    };
    Done {
        reply: tell(value.until.is_some()),
        value: Some(Kept {
            bytes: value.bytes,
            until: None,
        }),
    }
}

/// The number that a value is, where it is one; none counts as 0.
fn number_of_value(value: &Option<Kept>) -> Option<i64>
    ensures { result ≡ number_in (entry_in value.now) }
{
    match value {
        Some(value) => number(value.bytes.as_slice()),
        None => Some(0),
    }
}

/// A number is added to one.
fn add(alloc: Global, before: Option<Kept>, more: i64) -> Result<Done, Memory>
    ensures { IfOk result (IsTurn (added (entry_in before) (number_in (entry_in before)) more)) }
{
    let Some(old) = number_of_value(&before) else {
        return Ok(refused(before, Refusal::NoNumber));
    };
    let Some(sum) = old.checked_add(more) else {
        return Ok(refused(before, Refusal::Overflow));
    };
    let mut digits = Buffer::new();
    let bytes = Vec::from_slice(alloc, digits.format(sum).as_bytes())?;
    let until = until_of_value(&before);
    Ok(Done {
        value: Some(Kept { bytes, until }),
        reply: Reply::Number(sum),
    })
}

/// Bytes are a value.
fn begin(bytes: Vec<u8>) -> Done
    ensures { IsTurn (appended None bytes.items) result }
{
    let count = bytes.len();
    if count > MOST_VALUE as usize {
        return refused(None, Refusal::LongValue);
    }
    Done {
        value: Some(Kept { bytes, until: None }),
        reply: Reply::Count(count),
    }
}

/// Bytes come behind a value.
fn append(before: Option<Kept>, more: Vec<u8>) -> Result<Done, Memory>
    ensures { IfOk result (IsTurn (appended (entry_in before) more.items)) }
{
    let Some(mut value) = before else {
        return Ok(begin(more));
    };
    let count = value.bytes.len().saturating_add(more.len());
    if count > MOST_VALUE as usize {
        return Ok(refused(Some(value), Refusal::LongValue));
    }
    value.bytes.extend_from_slice(more.as_slice())?;
    Ok(Done {
        value: Some(value),
        reply: Reply::Count(count),
    })
}

/// What becomes of a value, and what is replied.
///
/// # Errors
///
/// There was no memory.
pub fn change_value(
    alloc: Global,
    now: u64,
    before: Option<Kept>,
    change: Change,
) -> Result<Done, Memory>
    ensures turn { IfOk result (IsTurn (turn_of now (deed_of_change change) (entry_in before))) }
    ensures counted { IfOk result (λ done. IsCounted (deed_of_change change) (entry_in before)
        done.reply) }
{
    match change {
        Change::Set(bytes, how) => set(alloc, now, before, bytes, how),
        Change::Delete => Ok(Done {
            reply: tell(before.is_some()),
            value: None,
        }),
        Change::Add(number) => add(alloc, before, number),
        Change::Append(bytes) => append(before, bytes),
        Change::Expire(term) => Ok(expire(now, before, term)),
        Change::Persist => Ok(persist(now, before)),
    }
}
