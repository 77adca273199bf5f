//! The queue of one colour.
ghost use Rattle.std.specs.Prelude.{◌≡◌, ◌<◌, ◌≤◌, ◌+◌, ◌-◌, ◌^◌, ◌++◌, ◌∷◌, [], ℕ, List, Option, length, take, drop, sum, min, OnOk, OnErr, IfOk, IfErr, vec_len, vec_capacity};

use mely_event::{Event, Memory, Unregistered};
use std::alloc::Global;
use std::collections::VecDeque;
use std::marker::Model;

/// Moves the first items to the end of a vector that has room for them.
fn move_front<T>(from: &mut VecDeque<T>, to: &mut Vec<T>, count: usize)
    requires there { count ≤ length from.old.items }
    requires room { vec_len to.old + count ≤ vec_capacity to.old }
    ensures moved { to.new.items ≡ to.old.items ++ take count from.old.items }
    ensures left { from.new.items ≡ drop count from.old.items }
{
    for _ in 0..count {
        if let Some(item) = from.pop_front() {
            to.push_reserved(item);
        }
    }
}

/// Takes the first numbers away, and answers their sum.
fn drop_front(from: &mut VecDeque<u32>, count: usize) -> u128
    requires { count ≤ length from.old.items }
    ensures value { result ≡ sum (take count from.old.items) }
    ensures left { from.new.items ≡ drop count from.old.items }
{
    let mut taken = 0u128;
    for _ in 0..count {
        if let Some(weight) = from.pop_front() {
            taken += u128::from(weight);
        }
    }
    taken
}

/// The events that wait on one colour with their loads, in the order in which they were registered,
/// and how many events were registered, started and finished on it.
///
/// Its time left is kept as events come and go, and is at every moment the sum of the
/// weights of those that wait.
#[derive(Drop)]
pub struct ColourQueue<P> {
    events: VecDeque<(Event, Option<P>)>,
    weights: VecDeque<u32>,
    alloc: Global,
    started: u64,
    finished: u64,
    time_left: u128,
}

impl<P> Model for ColourQueue<P> {
    ghost use Rattle.mely_queue.specs.ColourQueue.{ColourQueueState};

    ghost Value = { ColourQueueState P };

    ghost use Rattle.std.specs.Prelude.{◌≡◌, ◌≤◌, ◌<◌, ◌+◌, ◌^◌, length, sum};
    ghost use Rattle.mely_queue.specs.Invariant.{IsConsistent};

    ghost view = { λ q. record {
      events = q.events.items;
      weights = q.weights.items;
      started = q.started;
      finished = q.finished;
    } };

    ghost invariant = { λ q.
        IsConsistent q.events.items q.weights.items q.started q.finished q.time_left };
}

impl<P> ColourQueue<P> {
    ghost use Rattle.mely_queue.specs.ColourQueue.{ColourQueueState, registered_in, after_push, after_take, finished_by};

    /// A queue on which nothing waits and nothing was registered. It takes no memory.
    pub fn new(alloc: Global) -> ColourQueue<P>
        ensures { result ≡ record { events = []; weights = []; started = 0; finished = 0 } }
    {
        ColourQueue {
            events: VecDeque::new(alloc),
            weights: VecDeque::new(alloc),
            alloc,
            started: 0,
            finished: 0,
            time_left: 0,
        }
    }

    /// Adds an event of this weight at the back.
    ///
    /// # Errors
    ///
    /// There was no memory: the event and its load are handed back, and the queue is as it was.
    pub fn push(
        &mut self,
        event: Event,
        load: Option<P>,
        weight: u32,
    ) -> Result<(), Unregistered<P>>
        requires { registered_in self.old < 2 ^ 64 - 1 }
        ensures ok { OnOk result (self.new ≡ after_push self.old event load weight) }
        ensures err { OnErr result (self.new ≡ self.old) }
        ensures back { IfErr result (λ refused. (refused.event ≡ event) × (refused.load ≡ load)) }
    {
        if self.weights.reserve(1).is_err() {
            return Err(Unregistered { event, load });
        }
        if let Err(refused) = self.events.push_back((event, load)) {
            let (event, load) = refused.value;
            return Err(Unregistered { event, load });
        }
        self.weights.push_back_reserved(weight);
        self.time_left += u128::from(weight);
        Ok(())
    }

    /// The sum of the weights of the events that wait.
    pub fn time_left(&self) -> u128
        ensures { result ≡ sum self.now.weights }
    {
        self.time_left
    }

    /// How many events wait.
    pub fn len(&self) -> usize
        ensures len { result ≡ length self.now.events }
        ensures weights { result ≡ length self.now.weights }
    {
        self.events.len()
    }

    /// How many events were registered so far.
    pub fn registered(&self) -> u64
        ensures { result ≡ registered_in self.now }
    {
        self.started + self.events.len() as u64
    }

    /// How many of them were taken.
    pub fn started(&self) -> u64
        ensures { result ≡ self.now.started }
    {
        self.started
    }

    /// How many of those were counted as finished.
    pub fn finished(&self) -> u64
        ensures value { result ≡ self.now.finished }
        ensures bound { result ≤ self.now.started }
    {
        self.finished
    }

    /// Takes the first events, `batch` of them or all that wait, and counts them as started. The
    /// time left falls by their weights.
    ///
    /// # Errors
    ///
    /// There was no memory: the queue is as it was.
    pub fn take_up_to(&mut self, batch: u16) -> Result<Vec<(Event, Option<P>)>, Memory>
        requires { 1 ≤ batch }
        ensures first { IfOk result (λ events. events.items ≡ take batch self.old.events) }
        ensures rest { OnOk result (self.new
            ≡ after_take self.old (min batch (length self.old.events))) }
        ensures err { OnErr result (self.new ≡ self.old) }
    {
        let count = self.count_in(batch);
        let mut first = Vec::with_capacity(self.alloc, count)?;
        self.start(&mut first, count);
        Ok(first)
    }

    /// Takes the first events as [`take_up_to`](ColourQueue::take_up_to) does, into an empty vector
    /// whose room is used again: whoever hands the vector of a turn that is finished to the next
    /// one takes memory for neither.
    ///
    /// # Errors
    ///
    /// There was no memory: the queue is as it was, and the vector is empty.
    pub fn take_into(
        &mut self,
        batch: u16,
        first: &mut Vec<(Event, Option<P>)>,
    ) -> Result<(), Memory>
        requires some { 1 ≤ batch }
        requires empty { first.old.items ≡ [] }
        ensures first { OnOk result (first.new.items ≡ take batch self.old.events) }
        ensures rest { OnOk result (self.new
            ≡ after_take self.old (min batch (length self.old.events))) }
        ensures err { OnErr result (self.new ≡ self.old) }
        ensures none { OnErr result (first.new.items ≡ []) }
    {
        let count = self.count_in(batch);
        first.reserve(count)?;
        self.start(first, count);
        Ok(())
    }

    /// How many events a take of this batch moves.
    fn count_in(&self, batch: u16) -> usize
        ensures { result ≡ min batch (length self.now.events) }
    {
        (batch as usize).min(self.events.len())
    }

    /// Moves the first events to the end of a vector that has room for them, and counts them as
    /// started.
    fn start(&mut self, first: &mut Vec<(Event, Option<P>)>, count: usize)
        requires there { count ≤ length self.old.events }
        requires room { vec_len first.old + count ≤ vec_capacity first.old }
        ensures first { first.new.items ≡ first.old.items ++ take count self.old.events }
        ensures rest { self.new ≡ after_take self.old count }
    {
        move_front(&mut self.events, first, count);
        self.time_left -= drop_front(&mut self.weights, count);
        self.started += count as u64;
    }

    /// Counts `count` further events as finished, of those that were started. It takes no memory.
    pub fn finish(&mut self, count: u16)
        requires { self.old.finished + count ≤ self.old.started }
        ensures { self.new ≡ finished_by self.old count }
    {
        self.finished += u64::from(count);
    }

    /// The events that wait, with their loads. It takes no memory.
    pub fn into_events(self) -> Vec<(Event, Option<P>)>
        ensures { result.items ≡ self.events }
    {
        self.events.into_vec()
    }
}
