//! What is counted of one colour, entry by entry.
ghost use Rattle.std.specs.Prelude.{◌≡◌, ◌<◌, ◌≤◌, ◌↔◌, ◌+◌, ◌++◌, ◌∷◌, [], IsTrue, length, take};
ghost use Rattle.mely_history.specs.Entries.{colour_of, registration_on};
ghost use Rattle.mely_history.specs.History.{registered_of, weight};
ghost use Rattle.mely_history.specs.ColourCounts.{Tells, Allows, PassesOver};

use crate::entry::Entry;
use crate::setup::Setup;
use mely_event::{Colour, Event};

/// What entries say of one colour, in numbers.
#[derive(Clone, Copy)]
pub(crate) struct ColourCounts {
    owner: u16,
    last: Option<(u16, u16)>,
    registered: usize,
    begun: usize,
    ended: usize,
    worth: u128,

    /// The place of the entries behind which all registrations of the colour wait.
    front: usize,
}

/// The event that an entry registers on a colour.
fn registration(entry: &Entry, colour: Colour) -> Option<Event>
    ensures { result ≡ registration_on colour entry.now }
{
    match entry {
        Entry::Reg {
            colour: registered,
            event,
            ..
        } if registered.0 == colour.0 => Some(*event),
        _ => None,
    }
}

/// The weight of an event, and 0 where its handler is not in the table.
fn weight_in(setup: &Setup, event: Event) -> u32
    ensures { result ≡ weight setup.now event }
{
    let handlers = setup.handlers();
    if (event.handler as usize) < handlers.len() {
        handlers.weight(event.handler)
    } else {
        0
    }
}

/// Walks over the next registrations of a colour, and answers the place
/// behind them and their weight.
fn pass_over(
    setup: &Setup,
    entries: &[Entry],
    colour: Colour,
    from: usize,
    count: u16,
) -> (usize, u128)
    requires within { from ≤ length entries.now }
    requires there { length (registered_of (take from entries.now) colour) + count
        ≤ length (registered_of entries.now colour) }
    ensures { PassesOver setup.now entries.now colour from count result.0 result.1 }
{
    let mut passed = 0u16;
    let mut sum = 0u128;
    for place in from..entries.len() {
        if passed == count {
            return (place, sum);
        }
        if let Some(event) = registration(&entries[place], colour) {
            sum += u128::from(weight_in(setup, event));
            passed += 1;
        }
    }
    (entries.len(), sum)
}

impl ColourCounts {
    /// What no entries say of a colour.
    pub(crate) fn new(setup: &Setup, colour: Colour) -> ColourCounts
        ensures { Tells setup.now [] colour result }
    {
        ColourCounts {
            owner: colour.0 % setup.cores(),
            last: None,
            registered: 0,
            begun: 0,
            ended: 0,
            worth: 0,
            front: 0,
        }
    }

    /// Whether the colour rests, with something queued.
    fn is_ready(&self) -> bool
        ensures { IsTrue result ↔ ((self.now.begun ≡ self.now.ended)
            × (self.now.begun < self.now.registered)) }
    {
        self.begun == self.ended && self.begun < self.registered
    }

    /// Whether an entry of the colour may follow.
    pub(crate) fn allows(&self, setup: &Setup, entry: &Entry) -> bool
        requires begun { self.now.begun ≤ self.now.registered }
        requires ended { self.now.ended ≤ self.now.begun }
        ensures { IsTrue result ↔ Allows setup.now self.now entry.now }
    {
        match *entry {
            Entry::Reg { colour, event, .. } => {
                u32::from(colour.0) < setup.colours()
                    && (event.handler as usize) < setup.handlers().len()
            }
            Entry::Take { core, count, .. } => {
                let waiting = self.registered - self.begun;
                core == self.owner
                    && self.is_ready()
                    && count as usize == waiting.min(setup.batch() as usize)
            }
            Entry::Fin { core, count, .. } => {
                self.last == Some((core, count)) && self.begun - self.ended == count as usize
            }
            Entry::Steal { colour, from, to } => {
                u32::from(colour.0) >= setup.pinned()
                    && from == self.owner
                    && to != from
                    && to < setup.cores()
                    && self.is_ready()
                    && self.worth > u128::from(setup.steal_cost())
            }
        }
    }

    /// Counts one more entry of the colour, which may follow the others.
    pub(crate) fn add(&mut self, setup: &Setup, before: &[Entry], entry: &Entry)
        requires tells { Tells setup.now before.now (colour_of entry.now) self.old }
        requires few { length before.now < usize.MAX }
        requires may { Allows setup.now self.old entry.now }
        ensures { Tells setup.now (before.now ++ entry.now ∷ []) (colour_of entry.now) self.new }
    {
        match *entry {
            Entry::Reg { event, .. } => {
                self.registered += 1;
                self.worth += u128::from(weight_in(setup, event));
            }
            Entry::Take {
                colour,
                core,
                count,
            } => {
                let (front, taken) = pass_over(setup, before, colour, self.front, count);
                self.front = front;
                self.begun += count as usize;
                self.worth -= taken;
                self.last = Some((core, count));
            }
            Entry::Fin { count, .. } => self.ended += count as usize,
            Entry::Steal { to, .. } => self.owner = to,
        }
    }
}
