//! What the lock of a chain keeps.
ghost use Rattle.std.specs.Prelude.{◌≡◌, ◌<◌, IfSome};

use crate::chain_note::ChainNote;
use mely_core::CoreQueue;
use mely_event::{Colour, Kept, Mark, Memory, There};
use mely_log::Log;
use std::alloc::Global;
use std::marker::Model;

/// What stays the same of a chain behind its lock. It is for contracts
/// alone: no value of it is made.
pub struct ChainFrame {
    pub colours: u32,
    pub cost: u32,
    pub pinned: u32,
}

/// A chain as its lock keeps it, in a box. Its history is the list of its changes,
/// by which it is what it is.
#[derive(Drop)]
pub struct KeptChain {
    queue: Box<CoreQueue>,

    /// The length of `log`, which has no bytes at a run.
    count: u64,

    /// The changes, each with the number of the pass that made it. It is for contracts
    /// alone and holds no bytes.
    log: Log<(u16, ChainNote)>,
}

impl Model for KeptChain {
    ghost use Rattle.std.specs.Prelude.{◌≡◌, length};
    ghost use Rattle.mely_kept_chain.specs.Frames.{chain_after, numbers_of};
    ghost use Rattle.mely_kept_chain.specs.KeptChain.{KeptChainState};

    ghost Value = { KeptChainState };

    ghost view = { λ k. record { has = k.queue.value; changes = k.log.items } };

    ghost invariant = { λ k. (length k.log.items ≡ k.count)
        × (k.queue.value ≡ chain_after (numbers_of k.queue.value) k.log.items) };
}

impl Kept for KeptChain {
    ghost use Rattle.mely_kept_chain.specs.Frames.{chain_frame};

    type Note = (u16, ChainNote);

    type Frame = ChainFrame;

    ghost history_of = { λ k. k.changes };

    ghost pass_of = { λ change. change.0 };

    ghost frame_of = { chain_frame };

    fn notes(&self) -> u64 {
        self.count
    }
}

impl KeptChain {
    ghost use Rattle.std.specs.Prelude.{◌+◌, ◌^◌, ◌↔◌, [], IfOk, IsTrue, is_some, length, slice_get};
    ghost use Rattle.mely_core.specs.CoreQueue.{empty_core};
    ghost use Rattle.mely_kept_chain.specs.Chains.{PushesAt, PopsAt, RetellsAt, PicksAt};
    ghost use Rattle.mely_kept_chain.specs.Frames.{chain_frame};

    /// An empty chain for its lock.
    ///
    /// # Errors
    ///
    /// There was no memory: the chain is dropped.
    pub fn new(alloc: Global, queue: CoreQueue) -> Result<KeptChain, Memory>
        requires { queue ≡ empty_core queue.colours queue.cost queue.pinned }
        ensures { IfOk result (λ kept. kept ≡ record { has = queue; changes = [] }) }
    {
        Ok(KeptChain {
            queue: Box::new(alloc, queue)?,
            count: 0,
            log: Log::new(),
        })
    }

    /// The chain alone, once its lock is closed: its changes were for contracts.
    pub fn into_queue(self) -> CoreQueue
        ensures { result ≡ self.has }
    {
        let KeptChain {
            queue,
            count: _,
            log: _,
        } = self;
        Box::into_inner(queue)
    }

    /// Whether its history is as long as one can be counted.
    pub fn is_full(&self) -> bool
        ensures full { IsTrue result ↔ (length self.now.changes + 1 ≡ 2 ^ 64) }
        ensures counted { length self.now.changes < 2 ^ 64 }
    {
        self.count == u64::MAX
    }

    /// Puts a mark at the back, unless its colour has one there already, which is no change.
    pub fn push(&mut self, mark: Mark, by: u16) -> Result<(), There>
        requires colour { mark.colour.0 < self.old.has.colours }
        requires room { length self.old.changes + 1 < 2 ^ 64 }
        ensures frame { chain_frame self.new ≡ chain_frame self.old }
        ensures does { PushesAt (chain_frame self.old) by mark result
            self.old.changes self.new.changes }
    {
        self.queue.push(mark)?;
        self.log.push(&(by, ChainNote::Pushed(mark)));
        self.count += 1;
        Ok(())
    }

    /// Whether there is more than one mark.
    pub fn is_crowded(&self) -> bool
        ensures { result ≡ is_some (slice_get self.now.has.chain 1) }
    {
        self.queue.at(1).is_some()
    }

    /// Whether there is no mark.
    pub fn is_empty(&self) -> bool
        ensures { IsTrue result ↔ (self.now.has.chain ≡ []) }
    {
        self.queue.is_empty()
    }

    /// Takes the mark at the front; nothing, and no change, where the chain is empty.
    pub fn pop(&mut self, by: u16) -> Option<Mark>
        requires room { length self.old.changes + 1 < 2 ^ 64 }
        ensures frame { chain_frame self.new ≡ chain_frame self.old }
        ensures mark { IfSome result (λ mark. mark.colour.0 < self.old.has.colours) }
        ensures does { PopsAt (chain_frame self.old) by result self.old.changes self.new.changes }
    {
        let mark = self.queue.pop()?;
        self.log.push(&(by, ChainNote::Popped(mark)));
        self.count += 1;
        Some(mark)
    }

    /// Tells the mark of a colour how many of its events were begun and what they are worth. It is
    /// false, and no change, where the colour has no mark in the chain.
    pub fn retell(&mut self, colour: Colour, started: u64, worth: u128, by: u16) -> bool
        requires colour { colour.0 < self.old.has.colours }
        requires room { length self.old.changes + 1 < 2 ^ 64 }
        ensures frame { chain_frame self.new ≡ chain_frame self.old }
        ensures does { RetellsAt (chain_frame self.old) by colour started worth result
            self.old.changes self.new.changes }
    {
        if !self.queue.retell(colour, started, worth) {
            return false;
        }
        self.log
            .push(&(by, ChainNote::Retold(colour, started, worth)));
        self.count += 1;
        true
    }

    /// Takes the first mark of the highest class that has one; nothing, and no change,
    /// where thieves may have none.
    pub fn pick(&mut self, by: u16) -> Option<Mark>
        requires room { length self.old.changes + 1 < 2 ^ 64 }
        ensures frame { chain_frame self.new ≡ chain_frame self.old }
        ensures mark { IfSome result (λ mark. mark.colour.0 < self.old.has.colours) }
        ensures does { PicksAt (chain_frame self.old) by result self.old.changes self.new.changes }
    {
        let mark = self.queue.pick()?;
        self.log.push(&(by, ChainNote::Picked(mark)));
        self.count += 1;
        Some(mark)
    }
}
