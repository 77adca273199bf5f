//! What a request asks, and of which cell.
ghost use Rattle.std.specs.Prelude.{◌≡◌, ◌++◌, ◌∷◌, [], IfOk, MatchOption, OnOk, map};
ghost use Rattle.std.specs.List.{fold};
ghost use Rattle.example_redis.specs.Asking.{bare, both, cell_of, options_from, no_options, clock_named, plan_at, plan_in, plan_of_one, plan_of_verb, plan_of_words, plan_to_add, plan_to_expire, plan_to_set, plan_to_set_timed, plan_to_stop, plan_to_subtract, quoted, term_said, unknown, with_clock, with_key, with_life, with_more, with_name, with_option, with_value, with_when, with_word_of, wrong_number};
ghost use Rattle.mely_net.specs.declared.asked.Asked.TheVariants as asked;
ghost use Rattle.example_redis.specs.declared.reply.Reply.TheVariants as reply;
ghost use Rattle.example_redis.specs.Values.{deed_of};

use crate::life::{Clock, Length, Term};
use crate::limits::{CELLS, MOST_KEY, MOST_SHOWN};
use crate::number::number;
use crate::reply::{Refusal, Reply, shown};
use crate::request::{Action, Change, How, PLAIN, Question, Request, Tells, When};
use crate::several::{ask_several, is_several};
use crate::verb::{Verb, is_same_word};
use mely_event::Memory;
use mely_net::Asked;
use std::alloc::Global;

/// What a request asks, or what is replied to it.
pub type Ask = Asked<Request, Reply>;

/// What the options of SET say of how long the value is there.
#[derive(Clone, Copy)]
pub enum Life {
    /// Nothing.
    Unsaid,

    /// As long as the value before.
    Same,

    /// The number of this clock is the next word.
    Awaited(Clock),

    /// This number of it, if it is one.
    Said(Clock, Option<i64>),
}

/// The options of SET.
#[derive(Clone, Copy)]
pub struct Options {
    pub when: When,
    pub tells: Tells,
    pub life: Life,
}

/// The cell of a key.
pub fn cell_of_key(key: &[u8]) -> u16
    ensures { result ≡ cell_of key.now }
{
    let mut hash: u32 = 7;
    for byte in key {
        hash = (hash * 31 + u32::from(*byte)) % 65_521;
    }
    (hash % u32::from(CELLS)) as u16
}

/// The cell of a key is asked, if the key isn't too long.
fn at(key: Vec<u8>, action: Action) -> Ask
    ensures { plan_in result ≡ plan_at key.items (deed_of action) }
{
    if key.len() > MOST_KEY {
        return refuse(Refusal::LongKey);
    }
    let cell = cell_of_key(key.as_slice());
    Asked::At(cell, Request::Of(key, action))
}

/// It isn't done.
pub fn refuse(refusal: Refusal) -> Ask
    ensures { result ≡ asked.Here (reply.Refused refusal) }
{
    Asked::Here(Reply::Refused(refusal))
}

/// A command has a wrong number of words.
pub fn wrong(verb: Verb) -> Ask
    ensures { plan_in result ≡ wrong_number verb }
{
    refuse(Refusal::Arguments(verb))
}

/// The first bytes of a word are put behind others, in quotes.
fn quote(text: &mut Vec<u8>, word: &[u8], most: usize) -> Result<(), Memory>
    ensures { OnOk result (text.new.items ≡ text.old.items ++ quoted most word.now) }
{
    text.push(b'\'')?;
    for byte in &word[..word.len().min(most)] {
        text.push(shown(*byte))?;
    }
    text.push(b'\'')?;
    Ok(())
}

/// The words of an unknown command, as far as they are shown.
fn list_words(alloc: Global, words: &[Vec<u8>]) -> Result<Vec<u8>, Memory>
    ensures { IfOk result (λ text. text.items
        ≡ fold with_word_of [] (map (λ word. word.items) words.now)) }
{
    let mut text = Vec::new(alloc);
    for word in words {
        if text.len() < MOST_SHOWN {
            let room = MOST_SHOWN - text.len();
            quote(&mut text, word.as_slice(), room)?;
            text.push(b' ')?;
        }
    }
    Ok(text)
}

/// There is no such command.
fn refuse_unknown(alloc: Global, name: &[u8], words: &[Vec<u8>]) -> Result<Ask, Memory>
    ensures { IfOk result (λ asked. plan_in asked
        ≡ unknown name.now (map (λ word. word.items) words.now)) }
{
    let shown_words = list_words(alloc, words)?;
    let mut text = Vec::new(alloc);
    quote(&mut text, name, MOST_SHOWN)?;
    text.extend_from_slice(b", with args beginning with: ")?;
    text.extend_from_slice(shown_words.as_slice())?;
    Ok(refuse(Refusal::Unknown(text)))
}

/// A command without words.
fn ask_bare(verb: Verb) -> Ask
    ensures { plan_in result ≡ bare verb }
{
    match verb {
        Verb::Ping => Asked::Here(Reply::Pong),
        Verb::Command => Asked::Here(Reply::NoItems),
        Verb::Quit => Asked::Last(Reply::Okay),
        Verb::ShutDown => Asked::Last(Reply::Gone),
        Verb::Info => Asked::Here(Reply::Info),
        _ => wrong(verb),
    }
}

/// The store is to stop, if this word may stand behind that.
fn ask_to_stop(word: &[u8]) -> Ask
    ensures { plan_in result ≡ plan_to_stop word.now }
{
    if is_same_word(word, b"save") {
        Asked::Last(Reply::Gone)
    } else {
        refuse(Refusal::Syntax)
    }
}

/// A command with one word.
fn ask_with_key(verb: Verb, key: Vec<u8>) -> Ask
    ensures { plan_in result ≡ with_key verb key.items }
{
    match verb {
        Verb::Ping | Verb::Echo => Asked::Here(Reply::Value(key)),
        Verb::Get => at(key, Action::Look(Question::Value)),
        Verb::Exists => at(key, Action::Look(Question::IsThere)),
        Verb::StrLen => at(key, Action::Look(Question::Length)),
        Verb::Ttl => at(key, Action::Look(Question::Seconds)),
        Verb::PTtl => at(key, Action::Look(Question::Millis)),
        Verb::Persist => at(key, Action::Make(Change::Persist)),
        Verb::Del => at(key, Action::Make(Change::Delete)),
        Verb::Incr => at(key, Action::Make(Change::Add(1))),
        Verb::Decr => at(key, Action::Make(Change::Add(-1))),
        Verb::Command => Asked::Here(Reply::NoItems),
        Verb::Quit => Asked::Last(Reply::Okay),
        Verb::ShutDown => ask_to_stop(key.as_slice()),
        Verb::Info => Asked::Here(Reply::Info),
        _ => wrong(verb),
    }
}

/// A number is added to that of a key.
fn ask_to_add(key: Vec<u8>, number: Option<i64>) -> Ask
    ensures { plan_in result ≡ plan_to_add key.items number }
{
    match number {
        Some(number) => at(key, Action::Make(Change::Add(number))),
        None => refuse(Refusal::NoNumber),
    }
}

/// A number is taken from that of a key.
fn ask_to_subtract(key: Vec<u8>, number: Option<i64>) -> Ask
    ensures { plan_in result ≡ plan_to_subtract key.items number }
{
    let Some(number) = number else {
        return refuse(Refusal::NoNumber);
    };
    match number.checked_neg() {
        Some(negative) => at(key, Action::Make(Change::Add(negative))),
        None => refuse(Refusal::Decrement),
    }
}

/// How long a value is to be there, by what the options of a command say.
fn term(verb: Verb, life: Life) -> Result<Term, Refusal>
    ensures { result ≡ term_said verb life }
{
    match life {
        Life::Unsaid => Ok(Term::Ever),
        Life::Same => Ok(Term::Same),
        Life::Awaited(_) => Err(Refusal::Syntax),
        Life::Said(_, None) => Err(Refusal::NoNumber),
        Life::Said(clock, Some(number)) => match clock.length(number) {
            Length::Lasts(millis) => Ok(clock.term(millis, verb)),
            Length::Over | Length::Wide => Err(Refusal::Time(verb)),
        },
    }
}

/// A value is set.
fn ask_to_set(verb: Verb, key: Vec<u8>, value: Vec<u8>, options: Option<Options>) -> Ask
    ensures { plan_in result ≡ plan_to_set verb key.items value.items options }
{
    let Some(Options { when, tells, life }) = options else {
        return refuse(Refusal::Syntax);
    };
    match term(verb, life) {
        Ok(term) => at(
            key,
            Action::Make(Change::Set(value, How { when, tells, term })),
        ),
        Err(refusal) => refuse(refusal),
    }
}

/// A value is set, for a time that stands in front of it.
fn ask_to_set_timed(
    verb: Verb,
    clock: Clock,
    key: Vec<u8>,
    time: &[u8],
    mut more: Vec<Vec<u8>>,
) -> Ask
    ensures { plan_in result ≡ plan_to_set_timed verb clock key.items time.now
        (map (λ word. word.items) more.items) }
{
    let Some(value) = shift(&mut more) else {
        return wrong(verb);
    };
    if !more.is_empty() {
        return wrong(verb);
    }
    let options = Options {
        when: When::Always,
        tells: Tells::Done,
        life: Life::Said(clock, number(time)),
    };
    ask_to_set(verb, key, value, Some(options))
}

/// A value is there for so long, if the time is a number.
fn ask_to_expire(verb: Verb, clock: Clock, key: Vec<u8>, number: Option<i64>) -> Ask
    ensures { plan_in result ≡ plan_to_expire verb clock key.items number }
{
    let Some(number) = number else {
        return refuse(Refusal::NoNumber);
    };
    match clock.length(number) {
        Length::Lasts(millis) => { at(key, Action::Make(Change::Expire(clock.term(millis, verb)))) }
        Length::Over => at(key, Action::Make(Change::Delete)),
        Length::Wide => refuse(Refusal::Time(verb)),
    }
}

/// SET without options.
const NO_OPTIONS: Options = Options {
    when: When::Always,
    tells: Tells::Done,
    life: Life::Unsaid,
};

/// A value is set as one is only where there is none, and it is said how many were.
const IF_ABSENT: How = How {
    when: When::Absent,
    tells: Tells::Count,
    term: Term::Ever,
};

/// A value is set, and the one before is said.
const IN_PLACE: How = How {
    when: When::Always,
    tells: Tells::Before,
    term: Term::Ever,
};

/// A command with two words.
fn ask_with_value(verb: Verb, key: Vec<u8>, value: Vec<u8>) -> Ask
    ensures { plan_in result ≡ with_value verb key.items value.items }
{
    match verb {
        Verb::Set => ask_to_set(verb, key, value, Some(NO_OPTIONS)),
        Verb::SetNx => at(key, Action::Make(Change::Set(value, IF_ABSENT))),
        Verb::GetSet => at(key, Action::Make(Change::Set(value, IN_PLACE))),
        Verb::IncrBy => ask_to_add(key, number(value.as_slice())),
        Verb::DecrBy => ask_to_subtract(key, number(value.as_slice())),
        Verb::Append => at(key, Action::Make(Change::Append(value))),
        Verb::Expire => ask_to_expire(verb, Clock::Seconds, key, number(value.as_slice())),
        Verb::PExpire => ask_to_expire(verb, Clock::Millis, key, number(value.as_slice())),
        Verb::ExpireAt => ask_to_expire(verb, Clock::UnixSeconds, key, number(value.as_slice())),
        Verb::PExpireAt => ask_to_expire(verb, Clock::UnixMillis, key, number(value.as_slice())),
        Verb::ShutDown => refuse(Refusal::Syntax),
        Verb::Command | Verb::Quit => ask_bare(verb),
        _ => wrong(verb),
    }
}

/// Both of two conditions on which a value is set, if they don't exclude one another.
fn join(before: When, now: When) -> Option<When>
    ensures { result ≡ both before now }
{
    match (before, now) {
        (When::Always, _) => Some(now),
        (When::Absent, When::Absent) => Some(When::Absent),
        (When::Present, When::Present) => Some(When::Present),
        _ => None,
    }
}

/// The clock whose name a word is.
fn clock_of(word: &[u8]) -> Option<Clock>
    ensures { result ≡ clock_named word.now }
{
    if is_same_word(word, b"ex") {
        Some(Clock::Seconds)
    } else if is_same_word(word, b"px") {
        Some(Clock::Millis)
    } else if is_same_word(word, b"exat") {
        Some(Clock::UnixSeconds)
    } else if is_same_word(word, b"pxat") {
        Some(Clock::UnixMillis)
    } else {
        None
    }
}

impl Options {
    /// With a further condition, if there is one.
    fn on(self, when: Option<When>) -> Option<Options>
        ensures { result ≡ with_when self when }
    {
        Some(Options {
            when: when?,
            tells: self.tells,
            life: self.life,
        })
    }

    /// With how long the value is there, if that wasn't said before.
    fn lasting(self, life: Life) -> Option<Options>
        ensures { result ≡ with_life self life }
    {
        match self.life {
            Life::Unsaid => Some(Options {
                when: self.when,
                tells: self.tells,
                life,
            }),
            _ => None,
        }
    }

    /// With what a word says of how long the value is there, if it says anything.
    fn with_clock(self, word: &[u8]) -> Option<Options>
        ensures { result ≡ with_clock self word.now (clock_named word.now) }
    {
        match clock_of(word) {
            Some(clock) => self.lasting(Life::Awaited(clock)),
            None if is_same_word(word, b"keepttl") => self.lasting(Life::Same),
            None => None,
        }
    }

    /// With the one that a word names, if it names one.
    fn named(self, word: &[u8]) -> Option<Options>
        ensures { result ≡ with_name self word.now }
    {
        if is_same_word(word, b"nx") {
            self.on(join(self.when, When::Absent))
        } else if is_same_word(word, b"xx") {
            self.on(join(self.when, When::Present))
        } else if is_same_word(word, b"get") {
            Some(Options {
                when: self.when,
                tells: Tells::Before,
                life: self.life,
            })
        } else {
            self.with_clock(word)
        }
    }

    /// With what a further word says.
    fn with(self, word: &[u8]) -> Option<Options>
        ensures { result ≡ with_option self word.now }
    {
        match self.life {
            Life::Awaited(clock) => Some(Options {
                when: self.when,
                tells: self.tells,
                life: Life::Said(clock, number(word)),
            }),
            _ => self.named(word),
        }
    }
}

/// The options that words are.
fn read_options(words: &[Vec<u8>]) -> Option<Options>
    ensures { result ≡ options_from no_options (map (λ word. word.items) words.now) }
{
    let mut options = NO_OPTIONS;
    for word in words {
        options = options.with(word.as_slice())?;
    }
    Some(options)
}

/// A command with more than two words.
fn ask_with_more(verb: Verb, key: Vec<u8>, value: Vec<u8>, more: Vec<Vec<u8>>) -> Ask
    ensures { plan_in result ≡ with_more verb key.items value.items
        (map (λ word. word.items) more.items) }
{
    match verb {
        Verb::Set => ask_to_set(verb, key, value, read_options(more.as_slice())),
        Verb::SetEx => ask_to_set_timed(verb, Clock::Seconds, key, value.as_slice(), more),
        Verb::PSetEx => ask_to_set_timed(verb, Clock::Millis, key, value.as_slice(), more),
        Verb::ShutDown => refuse(Refusal::Syntax),
        Verb::Command | Verb::Quit => ask_bare(verb),
        _ => wrong(verb),
    }
}

/// Takes the first word, if there is one.
fn shift(words: &mut Vec<Vec<u8>>) -> Option<Vec<u8>>
    ensures { MatchOption result ((words.old.items ≡ []) × (words.new.items ≡ []))
        (λ word. words.old.items ≡ word ∷ words.new.items) }
{
    if words.is_empty() {
        None
    } else {
        Some(words.remove(0))
    }
}

/// What a command asks that asks one cell at most.
fn ask_one(verb: Verb, mut words: Vec<Vec<u8>>) -> Ask
    ensures { plan_in result ≡ plan_of_one verb (map (λ word. word.items) words.items) }
{
    let Some(key) = shift(&mut words) else {
        return ask_bare(verb);
    };
    let Some(value) = shift(&mut words) else {
        return ask_with_key(verb, key);
    };
    if words.is_empty() {
        ask_with_value(verb, key, value)
    } else {
        ask_with_more(verb, key, value, words)
    }
}

/// What a command asks.
fn ask_verb(alloc: Global, verb: Verb, words: Vec<Vec<u8>>) -> Result<Ask, Memory>
    ensures { IfOk result (λ asked. plan_in asked
        ≡ plan_of_verb verb (map (λ word. word.items) words.items)) }
{
    if is_several(verb, words.len()) {
        ask_several(alloc, verb, words)
    } else {
        Ok(ask_one(verb, words))
    }
}

/// What words ask.
///
/// # Errors
///
/// There was no memory.
pub fn ask(alloc: Global, mut words: Vec<Vec<u8>>) -> Result<Ask, Memory>
    ensures { IfOk result (λ asked. plan_in asked
        ≡ plan_of_words (map (λ word. word.items) words.items)) }
{
    let Some(name) = shift(&mut words) else {
        return Ok(Asked::Here(Reply::Silence));
    };
    match Verb::named(name.as_slice()) {
        Some(verb) => ask_verb(alloc, verb, words),
        None => refuse_unknown(alloc, name.as_slice(), words.as_slice()),
    }
}
