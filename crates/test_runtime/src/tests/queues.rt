//! A queue and a turn with ample memory.
ghost use Rattle.std.specs.Prelude.{◌≡◌, [], IfSome, length};

use mely_event::{Colour, Event, Fits, Logged, TrailLog};
use mely_queue::{ColourQueue, Turn};
use std::alloc::Global;

const FIRST: Event = Event { handler: 0, arg: 7 };

const SECOND: Event = Event { handler: 1, arg: 8 };

/// A queue of the two events, the first of weight 30 with a load, the second of weight 80; or none
/// where one of them isn't registered.
fn two_queued(alloc: Global) -> Option<ColourQueue<u8>>
    ensures events { IfSome result (λ queue. length queue.events ≡ 2) }
    ensures first { IfSome result (λ queue. (queue.started ≡ 0) × (queue.finished ≡ 0)) }
{
    let mut queue = ColourQueue::new(alloc);
    queue.push(FIRST, Some(1), 30).ok()?;
    queue.push(SECOND, None, 80).ok()?;
    Some(queue)
}

/// Whether a queue has this time left and so many events, of which so many were registered, started
/// and finished.
fn has(queue: &ColourQueue<u8>, time_left: u128, events: usize, counts: [u64; 3]) -> bool {
    queue.time_left() == time_left
        && queue.len() == events
        && queue.registered() == counts[0]
        && queue.started() == counts[1]
        && queue.finished() == counts[2]
}

/// Whether these are one event, with this load.
fn are(events: &[(Event, Option<u8>)], event: Event, load: Option<u8>) -> bool {
    events.len() == 1 && events[0].0 == event && events[0].1 == load
}

/// What a queue of the two events has at first, after a take of the first of them, and after its
/// finish.
fn falls(alloc: Global) -> Option<bool> {
    let mut queue = two_queued(alloc)?;
    let is_new = has(&queue, 110, 2, [2, 0, 0]);
    let taken = queue.take_up_to(1).ok()?;
    let is_taken = are(&taken, FIRST, Some(1)) && has(&queue, 80, 1, [2, 1, 0]);
    queue.finish(1);
    let is_finished = has(&queue, 80, 1, [2, 1, 1]);
    Some(is_new && is_taken && is_finished && are(&queue.into_events(), SECOND, None))
}

#[test]
fn the_time_left_falls_as_the_first_event_is_taken(rt: HostRuntime) {
    assert!(rt; falls(rt.alloc()) == Some(true));
}

/// Whether this is the next event of a turn, with this load, through the bounds.
fn hands<S: Fits<u8>>(turn: &mut Turn<S, u8>, event: Event, load: Option<u8>) -> bool
    ensures { turn.new.state ≡ turn.old.state }
{
    match turn.next() {
        Some((next, its)) => next == event && its == load,
        None => false,
    }
}

/// A turn of both events on core 5 for colour 2.
fn turn_of_two(alloc: Global) -> Option<Turn<Logged<u8>, u8>> {
    let state = Logged {
        log: TrailLog::new(Colour(2)),
        value: 0,
    };
    let mut queue = two_queued(alloc)?;
    let events = queue.take_up_to(2).ok()?;
    Some(Turn::new(Colour(2), 5, state, events))
}

/// Whether this turn of both events hands each out once, in order, and its state is handed back.
fn hands_out(mut turn: Turn<Logged<u8>, u8>) -> bool {
    let is_new = turn.colour() == Colour(2) && turn.core() == 5 && turn.count() == 2;
    let is_first = hands(&mut turn, FIRST, Some(1)) && turn.left() == 1;
    turn.state().log.push(FIRST);
    turn.state().value = 7;
    let is_second = hands(&mut turn, SECOND, None);
    let is_last = turn.next().is_none();
    let state = turn.into_state();
    let is_back = state.log.colour() == Colour(2) && state.value == 7;
    is_new && is_first && is_second && is_last && is_back
}

/// Whether a new turn of both events hands them out so.
fn hands_both_out(alloc: Global) -> bool {
    match turn_of_two(alloc) {
        Some(turn) => hands_out(turn),
        None => false,
    }
}

#[test]
fn a_turn_hands_out_each_event_once_in_order(rt: HostRuntime) {
    assert!(rt; hands_both_out(rt.alloc()));
}

/// A turn of the one event that a vector has hands it out, and gives the vector back with no event
/// in it.
fn handed_out_of(room: Vec<(Event, Option<u8>)>) -> Option<Vec<(Event, Option<u8>)>>
    requires { length room.items ≡ 1 }
    ensures { IfSome result (λ room. room.items ≡ []) }
{
    let mut turn = Turn::new(Colour(2), 5, TrailLog::new(Colour(2)), room);
    let is_first = hands(&mut turn, FIRST, Some(1));
    let (state, room) = turn.into_parts();
    if is_first && state.colour() == Colour(2) && room.is_empty() {
        Some(room)
    } else {
        None
    }
}

/// Whether the vector of a turn serves the next.
fn serves_again(alloc: Global) -> Option<bool> {
    let mut queue = two_queued(alloc)?;
    let mut room = Vec::new(alloc);
    queue.take_into(1, &mut room).ok()?;
    let is_first = are(&room, FIRST, Some(1)) && queue.time_left() == 80;
    let mut room = handed_out_of(room)?;
    let had = room.capacity();
    queue.take_into(5, &mut room).ok()?;
    Some(is_first && are(&room, SECOND, None) && room.capacity() == had)
}

#[test]
fn the_vector_of_a_turn_serves_the_next(rt: HostRuntime) {
    assert!(rt; serves_again(rt.alloc()) == Some(true));
}
