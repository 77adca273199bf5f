//! What is kept of one colour.
ghost use Rattle.std.specs.Prelude.{◌≡◌, ◌<◌, ◌-◌, ◌↔◌, [], IsTrue, None, OnOk, length, take, drop, sum};
ghost use Rattle.mely_event.specs.declared.colour.Colour.{Colour};
ghost use Rattle.mely_history.specs.ColourAccount.{account_of};
ghost use Rattle.mely_history.specs.History.{weight};
ghost use Rattle.mely_check.specs.Watches.{Tells, Allows, Follows};

use mely_event::Event;
use mely_history::{Entry, Setup};
use std::alloc::{AllocError, Global};
use std::collections::VecDeque;

/// What is kept of one colour: who owns it, the core and the number of events of the take that it
/// runs on, and the weights of its queued events, with their sum.
#[derive(Drop)]
pub(crate) struct Watch {
    owner: u16,
    running: Option<(u16, u16)>,
    queued: VecDeque<u32>,
    worth: u64,
}

/// The weight of an event, and 0 where its handler is not in the table.
fn weight_in(setup: &Setup, event: Event) -> u32
    ensures { result ≡ weight setup.now event }
{
    let handlers = setup.handlers();
    if (event.handler as usize) < handlers.len() {
        handlers.weight(event.handler)
    } else {
        0
    }
}

impl Watch {
    /// A colour of which nothing was heard.
    pub(crate) fn new(alloc: Global, setup: &Setup, colour: u16) -> Watch
        ensures { (c : Colour) → c.0 ≡ colour → Tells setup.now (account_of setup.now [] c) result }
    {
        Watch {
            owner: colour % setup.cores(),
            running: None,
            queued: VecDeque::new(alloc),
            worth: 0,
        }
    }

    /// Whether the colour rests, with something queued.
    fn is_ready(&self) -> bool
        ensures { IsTrue result ↔ ((self.now.running ≡ None) × (0 < length self.now.queued.items)) }
    {
        self.running.is_none() && !self.queued.is_empty()
    }

    /// Whether an entry of the colour may follow.
    pub(crate) fn allows(&self, setup: &Setup, entry: &Entry) -> bool
        ensures { IsTrue result ↔ Allows setup.now self.now entry.now }
    {
        match *entry {
            Entry::Reg { colour, event, .. } => {
                u32::from(colour.0) < setup.colours()
                    && (event.handler as usize) < setup.handlers().len()
            }
            Entry::Take { core, count, .. } => {
                core == self.owner
                    && self.is_ready()
                    && count as usize == self.queued.len().min(setup.batch() as usize)
            }
            Entry::Fin { core, count, .. } => self.running == Some((core, count)),
            Entry::Steal { colour, from, to } => {
                u32::from(colour.0) >= setup.pinned()
                    && from == self.owner
                    && to != from
                    && to < setup.cores()
                    && self.is_ready()
                    && self.worth > u64::from(setup.steal_cost())
            }
        }
    }

    /// Whether nothing of the colour runs or waits.
    pub(crate) fn is_drained(&self) -> bool
        ensures { IsTrue result ↔ ((self.now.running ≡ None) × (self.now.queued.items ≡ [])) }
    {
        self.running.is_none() && self.queued.is_empty()
    }

    /// Goes on behind an entry of the colour, which may follow.
    pub(crate) fn add(&mut self, setup: &Setup, entry: &Entry) -> Result<(), AllocError>
        ensures { OnOk result (Follows setup.now self.old entry.now self.new) }
    {
        match *entry {
            Entry::Reg { event, .. } => {
                let weight = weight_in(setup, event);
                self.queued.push_back(weight)?;
                self.worth = self.worth.saturating_add(u64::from(weight));
            }
            Entry::Take { core, count, .. } => {
                self.drop_first(count);
                self.running = Some((core, count));
            }
            Entry::Fin { .. } => self.running = None,
            Entry::Steal { to, .. } => self.owner = to,
        }
        Ok(())
    }

    /// Takes the first so many queued events away, or all that there are.
    fn drop_first(&mut self, count: u16)
        ensures owner { self.new.owner ≡ self.old.owner }
        ensures queued { self.new.queued.items ≡ drop count self.old.queued.items }
        ensures worth { self.new.worth ≡ self.old.worth - sum (take count self.old.queued.items) }
    {
        for _ in 0..count {
            if let Some(weight) = self.queued.pop_front() {
                self.worth = self.worth.saturating_sub(u64::from(weight));
            }
        }
    }
}
