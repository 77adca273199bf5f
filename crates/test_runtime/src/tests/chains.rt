ghost use Rattle.std.specs.Prelude.{◌≡◌};

use mely_core::CoreQueue;
use mely_event::{Colour, Mark, Memory, There};
use std::alloc::Global;

/// The mark of a period that began at 0.
pub(super) fn mark(colour: u16, worth: u128) -> Mark
    ensures { result ≡ record { colour = record { 0 = colour }; started = 0; worth = worth } }
{
    Mark {
        colour: Colour(colour),
        started: 0,
        worth,
    }
}

/// A core queue can be handed to a thread, and so be kept behind a lock.
fn across<T: Send>(value: T) -> T
    ensures { result ≡ value }
{
    value
}

/// A call of a core queue of four colours, with what it answers. A mark stands as its colour and
/// its worth, since all begin at 0.
#[derive(Clone, Copy)]
enum Call {
    /// A push of a mark, and whether there was none of its colour.
    Push(u16, u128, bool),

    /// A report of a colour, when its mark began and its worth, and whether the mark was there.
    Retell(u16, u64, u128, bool),

    At(usize, Option<(u16, u128)>),
    IsEmpty(bool),
    Pick(Option<(u16, u128)>),
    Pop(Option<(u16, u128)>),
}

fn marked(of: Option<(u16, u128)>) -> Option<Mark> {
    match of {
        Some((colour, worth)) => Some(mark(colour, worth)),
        None => None,
    }
}

/// What a push of a mark answers where there is none of its colour, and where there is one.
fn pushed(mark: Mark, is_new: bool) -> Result<(), There> {
    if is_new { Ok(()) } else { Err(There { mark }) }
}

/// Makes a call, and says whether it answers so.
fn answers(queue: &mut CoreQueue, call: Call) -> bool
    requires { queue.old.colours ≡ 4 }
    ensures { queue.new.colours ≡ 4 }
{
    match call {
        Call::Push(colour, worth, is_new) if colour < 4 => {
            let mark = mark(colour, worth);
            queue.push(mark) == pushed(mark, is_new)
        }
        Call::Retell(colour, started, worth, found) if colour < 4 => {
            queue.retell(Colour(colour), started, worth) == found
        }
        Call::At(place, of) => queue.at(place) == marked(of),
        Call::IsEmpty(empty) => queue.is_empty() == empty,
        Call::Pick(of) => queue.pick() == marked(of),
        Call::Pop(of) => queue.pop() == marked(of),
        Call::Push(..) | Call::Retell(..) => false,
    }
}

/// The first of these calls of a new queue of four colours and cost 20, of which so many are pinned,
/// that doesn't answer so.
fn first_wrong(alloc: Global, pinned: u32, calls: &[Call]) -> Result<Option<usize>, Memory> {
    let mut queue = across(CoreQueue::new(alloc, 4, 20, pinned)?);
    'calls: for (number, call) in calls.iter().enumerate() {
        if !answers(&mut queue, *call) {
            return Ok(Some(number));
        }
    }
    Ok(None)
}

static HIGHEST_FIRST: [Call; 20] = [
    Call::Push(0, 30, true),
    Call::Push(1, 20, true),
    Call::Push(2, 50, true),
    Call::Push(3, 90, true),
    Call::Retell(0, 0, 45, true),
    Call::Retell(0, 1, 90, false),
    Call::Push(1, 20, false),
    Call::At(0, Some((0, 45))),
    Call::At(1, Some((1, 20))),
    Call::At(2, Some((2, 50))),
    Call::At(3, Some((3, 90))),
    Call::At(4, None),
    Call::IsEmpty(false),
    Call::Pick(Some((3, 90))),
    Call::Pick(Some((2, 50))),
    Call::Pick(Some((0, 45))),
    Call::Pick(None),
    Call::Pop(Some((1, 20))),
    Call::Pop(None),
    Call::IsEmpty(true),
];

#[test]
fn a_thief_takes_from_the_highest_class_and_the_core_runs_the_rest(rt: HostRuntime) {
    assert!(rt; first_wrong(rt.alloc(), 0, &HIGHEST_FIRST) == Ok(None));
}

static TWO_ARE_PINNED: [Call; 10] = [
    Call::Push(0, 90, true),
    Call::Push(1, 90, true),
    Call::Push(2, 90, true),
    Call::Push(3, 90, true),
    Call::Retell(1, 0, 100, true),
    Call::Pick(Some((2, 90))),
    Call::Pick(Some((3, 90))),
    Call::Pick(None),
    Call::Pop(Some((0, 90))),
    Call::Pop(Some((1, 100))),
];

#[test]
fn a_thief_takes_no_pinned_colour(rt: HostRuntime) {
    assert!(rt; first_wrong(rt.alloc(), 2, &TWO_ARE_PINNED) == Ok(None));
}

/// The number of colours there are.
const ALL: u32 = 65_536;

/// Pushes the mark (c, 0, 30) of every colour, upwards, and says whether each is new.
fn push_all(queue: &mut CoreQueue) -> bool
    requires { queue.old.colours ≡ ALL }
    ensures { queue.new.colours ≡ ALL }
{
    'colours: for number in 0..ALL {
        if queue.push(mark(number as u16, 30)).is_err() {
            return false;
        }
    }
    true
}

/// Reports of every colour that it is worth 90, downwards, and says whether each is there.
fn retell_all(queue: &mut CoreQueue) -> bool
    requires { queue.old.colours ≡ ALL }
    ensures { queue.new.colours ≡ ALL }
{
    'colours: for number in 0..ALL {
        let colour = Colour((ALL - 1 - number) as u16);
        if !queue.retell(colour, 0, 90) {
            return false;
        }
    }
    true
}

/// Picks every colour, and says whether the last comes first, each worth 90.
fn pick_all(queue: &mut CoreQueue) -> bool
    requires { queue.old.colours ≡ ALL }
    ensures { queue.new.colours ≡ ALL }
{
    'colours: for number in 0..ALL {
        let colour = (ALL - 1 - number) as u16;
        if queue.pick() != Some(mark(colour, 90)) {
            return false;
        }
    }
    true
}

/// Whether every colour is pushed, told of and picked, so often, and none is left each time.
fn goes_round(alloc: Global, times: u32) -> Result<bool, Memory> {
    let mut queue = CoreQueue::new(alloc, ALL, 20, 0)?;
    'rounds: for _ in 0..times {
        let is_round = push_all(&mut queue) && retell_all(&mut queue) && pick_all(&mut queue);
        if !is_round || queue.pick() != None || queue.pop() != None {
            return Ok(false);
        }
    }
    Ok(true)
}

#[test]
fn every_colour_is_pushed_told_of_and_picked_a_hundred_times(rt: HostRuntime) {
    assert!(rt; goes_round(rt.alloc(), 100) == Ok(true));
}
