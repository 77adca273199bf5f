//! What commands ask of several cells.
ghost use Rattle.std.specs.Prelude.{◌≡◌, IfOk, map};
ghost use Rattle.example_redis.specs.Asking.{asks_in, asks_of_all, asks_of_keys, asks_of_pairs, cell_of, deed_of_each, has_long_key, have_long_key, is_flush, plan_at_all, plan_in, plan_of_several, plan_to_list, wants_several};
ghost use Rattle.example_redis.specs.Values.{All, Lists, Of, deed_of, wish_of};
ghost use Rattle.example_redis.specs.declared.reply.Reply.TheVariants as reply;

use crate::asking::{Ask, cell_of_key, refuse, wrong};
use crate::limits::{CELLS, MOST_KEY};
use crate::reply::{Refusal, Reply};
use crate::request::{Action, Change, PLAIN, Question, Request, Sweep};
use crate::verb::{Verb, is_same_word};
use mely_event::Memory;
use mely_net::Asked;
use std::alloc::Global;
use std::collections::VecDeque;

/// What cells are asked, each with its number.
type Asks = Vec<(u16, Request)>;

/// Whether a command with so many words asks several cells.
pub fn is_several(verb: Verb, count: usize) -> bool
    ensures { result ≡ wants_several verb count }
{
    match verb {
        Verb::MGet => count > 0,
        Verb::MSet => count > 0 && count % 2 == 0,
        Verb::Del | Verb::Exists => count > 1,
        Verb::DbSize => count == 0,
        Verb::Keys => count == 1,
        Verb::FlushAll => true,
        _ => false,
    }
}

/// What the cell of a key is asked.
fn ask_of(key: Vec<u8>, action: Action) -> (u16, Request)
    ensures cell { result.0 ≡ cell_of key.items }
    ensures wish { wish_of result.1 ≡ Of key.items (deed_of action) }
{
    (cell_of_key(key.as_slice()), Request::Of(key, action))
}

/// What a command does with each of several keys.
fn action_of(verb: Verb) -> Action
    ensures { deed_of result ≡ deed_of_each verb }
{
    match verb {
        Verb::Del => Action::Make(Change::Delete),
        Verb::Exists => Action::Look(Question::IsThere),
        _ => Action::Look(Question::Value),
    }
}

/// Each key is asked what the command does with it.
fn ask_keys(alloc: Global, verb: Verb, keys: Vec<Vec<u8>>) -> Result<Asks, Memory>
    ensures { IfOk result (λ asks. asks_in asks.items
        ≡ asks_of_keys (deed_of_each verb) (map (λ word. word.items) keys.items)) }
{
    let mut asks = Vec::new(alloc);
    let mut left = VecDeque::from(keys);
    'keys: while let Some(key) = left.pop_front() {
        asks.push(ask_of(key, action_of(verb)))?;
    }
    Ok(asks)
}

/// Each key is set to the word behind it.
fn ask_pairs(alloc: Global, words: Vec<Vec<u8>>) -> Result<Asks, Memory>
    ensures { IfOk result (λ asks. asks_in asks.items
        ≡ asks_of_pairs (map (λ word. word.items) words.items)) }
{
    let mut asks = Vec::new(alloc);
    let mut left = VecDeque::from(words);
    'pairs: while let Some(key) = left.pop_front() {
        let Some(value) = left.pop_front() else {
            return Ok(asks);
        };
        let change = Change::Set(value, PLAIN);
        asks.push(ask_of(key, Action::Make(change)))?;
    }
    Ok(asks)
}

/// All cells are asked the same.
fn ask_all(alloc: Global, sweep: Sweep) -> Result<Asks, Memory>
    ensures { IfOk result (λ asks. asks_in asks.items ≡ asks_of_all (All sweep)) }
{
    let mut asks = Vec::new(alloc);
    'cells: for cell in 0..CELLS {
        asks.push((cell, Request::All(sweep)))?;
    }
    Ok(asks)
}

/// All cells are asked for the keys that a pattern matches.
fn ask_to_list(alloc: Global, pattern: &[u8]) -> Result<Asks, Memory>
    ensures { IfOk result (λ asks. asks_in asks.items ≡ asks_of_all (Lists pattern.now)) }
{
    let mut asks = Vec::new(alloc);
    'cells: for cell in 0..CELLS {
        let copy = Vec::from_slice(alloc, pattern)?;
        asks.push((cell, Request::List(copy)))?;
    }
    Ok(asks)
}

/// Whether a key is too long, or a pattern.
fn is_long(request: &Request) -> bool
    ensures { result ≡ has_long_key (wish_of request.now) }
{
    match request {
        Request::Of(key, _) => key.len() > MOST_KEY,
        Request::All(_) => false,
        Request::List(pattern) => pattern.len() > MOST_KEY,
    }
}

/// Whether one of the keys is too long.
fn any_long(asks: &[(u16, Request)]) -> bool
    ensures { result ≡ have_long_key (asks_in asks.now) }
{
    'asks: for ask in asks {
        if is_long(&ask.1) {
            return true;
        }
    }
    false
}

/// Cells are asked, if no key is too long.
fn at_all(asks: Asks, reply: Reply) -> Ask
    ensures { plan_in result ≡ plan_at_all (asks_in asks.items) reply }
{
    if any_long(asks.as_slice()) {
        refuse(Refusal::LongKey)
    } else {
        Asked::Each(asks, reply)
    }
}

/// Whether words may stand behind FLUSHALL.
fn may_flush(words: &[Vec<u8>]) -> bool
    ensures { result ≡ is_flush (map (λ word. word.items) words.now) }
{
    match words {
        [] => true,
        [word] => {
            is_same_word(word.as_slice(), b"sync") || is_same_word(word.as_slice(), b"async")
        }
        _ => false,
    }
}

/// Each of several keys is asked.
fn ask_each(alloc: Global, verb: Verb, keys: Vec<Vec<u8>>, reply: Reply) -> Result<Ask, Memory>
    ensures { IfOk result (λ asked. plan_in asked
        ≡ plan_at_all (asks_of_keys (deed_of_each verb) (map (λ word. word.items) keys.items))
        reply) }
{
    Ok(at_all(ask_keys(alloc, verb, keys)?, reply))
}

/// Each of several keys is set.
fn ask_to_set_each(alloc: Global, words: Vec<Vec<u8>>) -> Result<Ask, Memory>
    ensures { IfOk result (λ asked. plan_in asked
        ≡ plan_at_all (asks_of_pairs (map (λ word. word.items) words.items)) reply.Okay) }
{
    Ok(at_all(ask_pairs(alloc, words)?, Reply::Okay))
}

/// All keys are asked.
fn ask_cells(alloc: Global, sweep: Sweep, reply: Reply) -> Result<Ask, Memory>
    ensures { IfOk result (λ asked. plan_in asked ≡ plan_at_all (asks_of_all (All sweep)) reply) }
{
    Ok(at_all(ask_all(alloc, sweep)?, reply))
}

/// Keys are listed, if one pattern says which.
fn ask_names(alloc: Global, words: &[Vec<u8>]) -> Result<Ask, Memory>
    ensures { IfOk result (λ asked. plan_in asked
        ≡ plan_to_list (map (λ word. word.items) words.now)) }
{
    match words {
        [pattern] => Ok(at_all(ask_to_list(alloc, pattern.as_slice())?, Reply::Names)),
        _ => Ok(wrong(Verb::Keys)),
    }
}

/// What a command asks that asks several cells.
///
/// # Errors
///
/// There was no memory.
pub fn ask_several(alloc: Global, verb: Verb, words: Vec<Vec<u8>>) -> Result<Ask, Memory>
    ensures { IfOk result (λ asked. plan_in asked
        ≡ plan_of_several verb (map (λ word. word.items) words.items)) }
{
    match verb {
        Verb::MGet => ask_each(alloc, verb, words, Reply::Items),
        Verb::MSet => ask_to_set_each(alloc, words),
        Verb::Del => ask_each(alloc, verb, words, Reply::Total),
        Verb::Exists => ask_each(alloc, verb, words, Reply::Total),
        Verb::DbSize => ask_cells(alloc, Sweep::Count, Reply::Total),
        Verb::Keys => ask_names(alloc, words.as_slice()),
        Verb::FlushAll if may_flush(words.as_slice()) => {
            ask_cells(alloc, Sweep::Clear, Reply::Okay)
        }
        Verb::FlushAll => Ok(refuse(Refusal::Syntax)),
        _ => Ok(wrong(verb)),
    }
}
