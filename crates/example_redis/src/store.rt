//! The store, as a service.
ghost use Rattle.std.specs.Prelude.{◌≡◌, IfOk, None, OnOk, [], codes, ◌++◌, if◌then◌else◌, length, map, option_copied};
ghost use Rattle.mely_net.specs.Lines.{IsWhose};
ghost use Rattle.example_redis.specs.Asking.{AreAt, IsAsked, plan_in, plan_of, plan_timed, timed_asks};
ghost use Rattle.example_redis.specs.Frames.{cut_of, cut_of-steady};
ghost use Rattle.example_redis.specs.Globs.{part_of, parts_of};
ghost use Rattle.example_redis.specs.Lives.{entry_in, there_at};
ghost use Rattle.example_redis.specs.Replies.{error, keys_in, shown_with};
ghost use Rattle.example_redis.specs.Stored.{Grants, IsServed, IsStep, IsSwept, Puts, entries_there, entry_at, name_there, names_there, value_at};
ghost use Rattle.example_redis.specs.Values.{Looks, deed_of, deed_of_change, wish_of};
ghost use Rattle.example_redis.specs.declared.limits.TheConstants.{CELLS, LONGEST};

use crate::asking::{Ask, ask};
use crate::frame::cut;
use crate::glob::{Part, is_match, read_parts};
use crate::heard::{Heard, hear};
use crate::life::{Kept, is_past};
use crate::limits::{CELLS, LONGEST};
use crate::outside::Outside;
use crate::reply::{Refusal, Reply, write};
use crate::request::{Action, Change, Question, Request, Sweep, Timed};
use crate::value::{Done, change_value, look};
use mely_event::Memory;
use mely_net::{Asked, Cut, Service};
use std::alloc::Global;
use std::collections::{BTreeMap, VecDeque};

/// Values under keys.
pub type Values = BTreeMap<Vec<u8>, Kept>;

/// What a cell has.
#[derive(Drop)]
pub struct Cell {
    /// The latest moment at which it was asked, in milliseconds since 1970.
    pub now: u64,

    /// Also those values whose time was over then, until their keys are asked again.
    pub values: Values,
}

/// A store of values under keys, and what is around it.
#[derive(Drop)]
pub struct Store<O> {
    pub outside: O,
}

/// A value, if its time isn't over.
fn alive(now: u64, value: Option<Kept>) -> Option<Kept>
    ensures { entry_in result ≡ there_at now (entry_in value) }
{
    match value {
        Some(kept) if !is_past(now, kept.until) => Some(kept),
        _ => None,
    }
}

/// Takes the value of a key out, where it has one.
fn take_out(values: &mut Values, now: u64, key: &[u8]) -> Option<Kept>
    ensures value { entry_in result ≡ value_at now values.old key.now }
    ensures puts { Puts key.now None values.old values.new }
{
    alive(now, values.remove(key))
}

/// Puts a value, where there is one, under a key that has none.
fn put_in(values: &mut Values, key: Vec<u8>, value: Option<Kept>) -> Result<(), Memory>
    requires { entry_at values.old key.items ≡ None }
    ensures { OnOk result (Puts key.items (entry_in value) values.old values.new) }
{
    if let Some(value) = value {
        values.insert(key, value)?;
    }
    Ok(())
}

/// The value of a key changes.
fn make(
    alloc: Global,
    values: &mut Values,
    now: u64,
    key: Vec<u8>,
    change: Change,
) -> Result<Reply, Memory>
    ensures { IfOk result (IsServed now key.items (deed_of_change change) values.old values.new) }
{
    let before = take_out(values, now, key.as_slice());
    let Done { value, reply } = change_value(alloc, now, before, change)?;
    put_in(values, key, value)?;
    Ok(reply)
}

/// Whether there is a value whose time is over.
fn is_gone(now: u64, value: Option<&Kept>) -> bool
    ensures { let entry = entry_in (option_copied value.entry) in
        there_at now entry ≡ (if result then None else entry) }
{
    match value {
        Some(kept) => is_past(now, kept.until),
        None => false,
    }
}

/// The value of a key is dropped where its time is over.
fn sweep_key(values: &mut Values, now: u64, key: &[u8])
    ensures { Puts key.now (value_at now values.old key.now) values.old values.new }
{
    if is_gone(now, values.get(key)) {
        values.remove(key);
    }
}

/// The value of a key is looked at.
fn look_at(
    alloc: Global,
    values: &mut Values,
    now: u64,
    key: &[u8],
    question: Question,
) -> Result<Reply, Memory>
    ensures { IfOk result (IsServed now key.now (Looks question) values.old values.new) }
{
    sweep_key(values, now, key);
    look(alloc, now, values.get(key), question)
}

/// A key is asked.
fn serve_key(
    alloc: Global,
    values: &mut Values,
    now: u64,
    key: Vec<u8>,
    action: Action,
) -> Result<Reply, Memory>
    ensures { IfOk result (IsServed now key.items (deed_of action) values.old values.new) }
{
    match action {
        Action::Look(question) => look_at(alloc, values, now, key.as_slice(), question),
        Action::Make(change) => make(alloc, values, now, key, change),
    }
}

/// How many keys have a value whose time isn't over.
fn count_there(values: &Values, now: u64) -> usize
    ensures { result ≡ length (entries_there now values.now.entries) }
{
    let mut count: usize = 0;
    'entries: for (_, kept) in values.iter() {
        if !is_past(now, kept.until) {
            count += 1;
        }
    }
    count
}

/// A key is put behind others, where its value is there and a pattern matches it.
fn add_name(
    alloc: Global,
    parts: &[Part],
    now: u64,
    key: &Vec<u8>,
    kept: &Kept,
    keys: &mut Vec<Vec<u8>>,
) -> Result<(), Memory>
    ensures { OnOk result (map (λ key. key.items) keys.new.items
        ≡ map (λ key. key.items) keys.old.items
        ++ name_there now (map part_of parts.now) key.now kept.now) }
{
    if is_past(now, kept.until) || !is_match(parts, key.as_slice()) {
        return Ok(());
    }
    let copy = Vec::from_slice(alloc, key.as_slice())?;
    keys.push(copy)?;
    Ok(())
}

/// The keys that have a value whose time isn't over, and that the parts of a pattern match.
fn list_parts(
    alloc: Global,
    values: &Values,
    now: u64,
    parts: &[Part],
) -> Result<Vec<Vec<u8>>, Memory>
    ensures { IfOk result (λ keys. map (λ key. key.items) keys.items
        ≡ names_there now (map part_of parts.now) values.now.entries) }
{
    let mut keys = Vec::new(alloc);
    'entries: for (key, kept) in values.iter() {
        add_name(alloc, parts, now, key, kept, &mut keys)?;
    }
    Ok(keys)
}

/// The keys that have a value whose time isn't over, and that a pattern matches.
fn list_there(alloc: Global, values: &Values, now: u64, pattern: &[u8]) -> Result<Reply, Memory>
    ensures { IfOk result (λ reply. keys_in reply
        ≡ names_there now (parts_of pattern.now) values.now.entries) }
{
    let parts = read_parts(alloc, pattern)?;
    Ok(Reply::Keys(list_parts(alloc, values, now, parts.as_slice())?))
}

/// All keys of a cell are asked.
fn serve_all(values: &mut Values, now: u64, sweep: Sweep) -> Reply
    ensures { IsSwept now sweep values.old values.new result }
{
    match sweep {
        Sweep::Count => Reply::Count(count_there(values, now)),
        Sweep::Clear => {
            values.clear();
            Reply::Okay
        }
    }
}

/// A cell is asked at its moment.
fn serve_request(
    alloc: Global,
    values: &mut Values,
    now: u64,
    request: Request,
) -> Result<Reply, Memory>
    ensures { IfOk result (Grants now (wish_of request) values.old values.new) }
{
    match request {
        Request::Of(key, action) => serve_key(alloc, values, now, key, action),
        Request::All(sweep) => Ok(serve_all(values, now, sweep)),
        Request::List(pattern) => list_there(alloc, values, now, pattern.as_slice()),
    }
}

/// Each request gets the same moment.
fn time_all(alloc: Global, now: u64, asks: Vec<(u16, Request)>) -> Result<Vec<(u16, Timed)>, Memory>
    ensures { IfOk result (λ timed. timed.items ≡ timed_asks now asks.items) }
{
    let mut timed = Vec::new(alloc);
    let mut left = VecDeque::from(asks);
    'asks: while let Some((cell, request)) = left.pop_front() {
        timed.push((cell, Timed { now, request }))?;
    }
    Ok(timed)
}

/// What is asked gets its moment.
fn time(alloc: Global, now: u64, asked: Ask) -> Result<Asked<Timed, Reply>, Memory>
    ensures plan { IfOk result (λ timed. plan_timed timed ≡ plan_in asked) }
    ensures now { IfOk result (AreAt now) }
    ensures there { IsWhose CELLS asked → IfOk result (IsWhose CELLS) }
{
    match asked {
        Asked::At(cell, request) => Ok(Asked::At(cell, Timed { now, request })),
        Asked::Each(asks, reply) => Ok(Asked::Each(time_all(alloc, now, asks)?, reply)),
        Asked::Here(reply) => Ok(Asked::Here(reply)),
        Asked::Last(reply) => Ok(Asked::Last(reply)),
    }
}

/// What a frame asks.
///
/// # Errors
///
/// There was no memory.
pub fn ask_frame(alloc: Global, frame: &[u8]) -> Result<Ask, Memory>
    ensures asks { IfOk result (λ asked. plan_in asked ≡ plan_of frame.now) }
    ensures there { IfOk result (IsWhose CELLS) }
{
    match hear(alloc, frame)? {
        Heard::Words(words) => ask(alloc, words),
        Heard::Fault(fault) => Ok(Asked::Last(Reply::Refused(Refusal::Protocol(fault)))),
        Heard::Nothing => Ok(Asked::Last(Reply::Silence)),
    }
}

/// Whether a request asks that the store stops.
fn is_to_stop(asked: &Ask) -> bool {
    match asked {
        Asked::Last(Reply::Gone) => true,
        _ => false,
    }
}

impl<O: Outside> Service for Store<O> {
    type Request = Timed;

    type Reply = Reply;

    type Cell = Cell;

    ghost rules_of = { λ store. record {
      cells = CELLS;
      longest = LONGEST;
      cut = cut_of;
      Asks = IsAsked;
      Refuses = λ reply. shown_with reply []
          ≡ error (codes "Protocol error: too big request");
      Begins = λ number cell. cell.values.entries ≡ [];
      Serves = λ number before timed after reply. IsStep timed before after reply;
      shown = shown_with;
    } };

    fn cells(&self) -> u16 {
        CELLS
    }

    fn longest(&self) -> usize {
        LONGEST
    }

    fn cut(&self, bytes: &[u8]) -> Cut {
        cut(bytes)
    }

    fn ask(&self, alloc: Global, frame: &[u8]) -> Result<Asked<Timed, Reply>, Memory> {
        let asked = ask_frame(alloc, frame)?;
        if is_to_stop(&asked) {
            self.outside.stop();
        }
        time(alloc, self.outside.now(), asked)
    }

    fn refuse(&self, _alloc: Global) -> Result<Reply, Memory> {
        Ok(Reply::Refused(Refusal::LongRequest))
    }

    fn begin(&self, alloc: Global, _cell: u16) -> Result<Cell, Memory> {
        Ok(Cell {
            now: 0,
            values: BTreeMap::new(alloc),
        })
    }

    fn on(
        &self,
        alloc: Global,
        _cell: u16,
        cell: &mut Cell,
        timed: Timed,
    ) -> Result<Reply, Memory> {
        cell.now = cell.now.max(timed.now);
        serve_request(alloc, &mut cell.values, cell.now, timed.request)
    }

    fn write(&self, reply: &Reply, parts: &[Reply], out: &mut Vec<u8>) -> Result<(), Memory> {
        write(reply, parts, out)
    }

    ghost steady = { λ store. cut_of-steady };
}
