//! A chain of marks with its stealing queue.
ghost use Rattle.std.specs.Prelude.{◌≡◌, ◌<◌, ◌≤◌, ◌↔◌, None, Some, [], ◌∷◌, ◌++◌, All, IfOk, IfErr, OnOk, OnErr, IfSome, IsErr, IsNone, IsSome, IsTrue, MatchOption, is_some, slice_get};
ghost use Rattle.mely_steal.specs.Marks.{mark_of, without, after_replacement};
ghost use Rattle.mely_steal.specs.StealQueue.{after_entry, after_mark_change, pick_of};

use mely_event::{Colour, Mark, Memory, There};
use mely_steal::{ColourList, StealTable};
use std::alloc::Global;
use std::marker::Model;

/// The marks of the ready colours of a core, at most one a colour: the chain, whose front is the
/// next to run, and the stealing queue, which has the marks of the chain that are worth more than a
/// steal costs and whose colours aren't pinned, in the order in which each entered its class.
///
/// The chain and each class of the stealing queue are lists by links, and both share one table of
/// marks. It has room for a mark of every colour from the start, so no call but
/// [`CoreQueue::new`] takes memory, and each but [`CoreQueue::at`] touches a fixed number of
/// places (see [`StealTable`]).
#[derive(Drop)]
pub struct CoreQueue {
    chain: ColourList,
    worthy: StealTable,
}

impl Model for CoreQueue {
    ghost use Rattle.mely_core.specs.CoreQueue.{CoreQueueState, HoldTogether};

    ghost Value = { CoreQueueState };

    ghost use Rattle.std.specs.Prelude.{◌≡◌};
    ghost use Rattle.mely_core.specs.CoreQueue.{chain_of};

    ghost view = { λ q. chain_of q.chain.list q.worthy };

    ghost invariant = { λ q. HoldTogether (chain_of q.chain.list q.worthy)
        × (q.chain.colours ≡ q.worthy.colours) };
}

impl CoreQueue {
    ghost use Rattle.mely_core.specs.CoreQueue.{CoreQueueState, HoldTogether, KeepsNumbers, empty_core, told_of};

    /// An empty chain with room for this many colours, at this cost of a steal, in the unit of the
    /// weights of events. The colours below `pinned` are never stolen.
    ///
    /// # Errors
    ///
    /// There was no memory.
    pub fn new(alloc: Global, colours: u32, cost: u32, pinned: u32) -> Result<CoreQueue, Memory>
        ensures empty { IfOk result (λ queue. queue ≡ empty_core colours cost pinned) }
        ensures together { IfOk result (λ queue. HoldTogether queue) }
    {
        let chain = ColourList::new(alloc, colours)?;
        let worthy = StealTable::new(alloc, colours, cost, pinned)?;
        Ok(CoreQueue { chain, worthy })
    }

    /// Adds a mark at the back of the chain.
    ///
    /// # Errors
    ///
    /// A mark of its colour is in the chain: the mark is handed back, and nothing changed.
    pub fn push(&mut self, mark: Mark) -> Result<(), There>
        requires { mark.colour.0 < self.old.colours }
        ensures ok { let worthy = after_entry self.old.cost self.old.pinned mark self.old.worthy in
            let chain = self.old.chain ++ mark ∷ [] in
            OnOk result (self.new ≡ record self.old { chain = chain; worthy = worthy }) }
        ensures there { IsErr result ↔ IsSome (mark_of mark.colour self.old.chain) }
        ensures back { IfErr result (λ there. there.mark ≡ mark) }
        ensures err { OnErr result (self.new ≡ self.old) }
        ensures same { KeepsNumbers self.old self.new }
        ensures together { HoldTogether self.new }
    {
        if self.of(mark.colour).is_some() {
            return Err(There { mark });
        }
        self.chain.push(mark.colour);
        self.worthy.enter(mark);
        Ok(())
    }

    /// Takes the front of the chain, and answers nothing exactly where the chain is empty.
    pub fn pop(&mut self) -> Option<Mark>
        ensures front { let chain = self.old.chain in
            MatchOption result (chain ≡ []) (λ mark. chain ≡ mark ∷ self.new.chain) }
        ensures rest { MatchOption result (self.new ≡ self.old) (λ mark.
            let worthy = without mark.colour self.old.worthy in
            self.new ≡ record self.old { chain = self.new.chain; worthy = worthy }) }
        ensures mark { IfSome result (λ mark. mark.colour.0 < self.old.colours) }
        ensures same { KeepsNumbers self.old self.new }
        ensures together { HoldTogether self.new }
    {
        let colour = self.chain.first()?;
        let mark = self.worthy.mark(colour);
        self.chain.remove(colour);
        self.worthy.remove(colour);
        Some(mark)
    }

    /// Reports that a colour of which `started` events had been started is worth this much. Where
    /// the chain has a mark of the colour with the same `started`, the mark's worth becomes the
    /// greater of the two, and the answer is true. Otherwise the report is late: nothing changes,
    /// and the answer is false.
    pub fn retell(&mut self, colour: Colour, started: u64, worth: u128) -> bool
        requires { colour.0 < self.old.colours }
        ensures answer { result ≡ is_some (told_of colour started worth self.old.chain) }
        ensures told { let report = told_of colour started worth self.old.chain in
            MatchOption report (self.new ≡ self.old) (λ told.
            let worthy = after_mark_change self.old.cost self.old.pinned told self.old.worthy in
            let chain = after_replacement told self.old.chain in
            self.new ≡ record self.old { chain = chain; worthy = worthy }) }
        ensures same { KeepsNumbers self.old self.new }
        ensures together { HoldTogether self.new }
    {
        match self.of(colour) {
            Some(mark) if mark.started == started => {
                let told = Mark {
                    worth: mark.worth.max(worth),
                    ..mark
                };
                self.worthy.change(told);
                true
            }
            _ => false,
        }
    }

    /// Takes the first mark of the highest class out of the stealing queue and out of the chain,
    /// and answers nothing exactly where no mark of the chain whose colour isn't pinned is worth
    /// more than a steal costs.
    pub fn pick(&mut self) -> Option<Mark>
        ensures value { result ≡ pick_of self.old.cost self.old.worthy }
        ensures none { let cost = self.old.cost in let pinned = self.old.pinned in
            IsNone result ↔ All (λ m. pinned ≤ m.colour.0 → m.worth ≤ cost) self.old.chain }
        ensures chained { IfSome result (λ mark. mark_of mark.colour self.old.chain ≡ Some mark) }
        ensures colour { IfSome result (λ mark. mark.colour.0 < self.old.colours) }
        ensures paying { IfSome result (λ mark. self.old.cost < mark.worth) }
        ensures unpinned { IfSome result (λ mark. self.old.pinned ≤ mark.colour.0) }
        ensures rest { MatchOption result (self.new ≡ self.old) (λ mark.
            let chain = without mark.colour self.old.chain in
            let worthy = without mark.colour self.old.worthy in
            self.new ≡ record self.old { chain = chain; worthy = worthy }) }
        ensures same { KeepsNumbers self.old self.new }
        ensures together { HoldTogether self.new }
    {
        let picked = self.worthy.pick()?;
        self.chain.remove(picked.colour);
        Some(picked)
    }

    /// The mark at this place of the chain, and nothing exactly where the chain isn't longer. The
    /// next to run is at place 0.
    pub fn at(&self, place: usize) -> Option<Mark>
        ensures value { result ≡ slice_get self.now.chain place }
        ensures together { HoldTogether self.now }
    {
        let colour = self.chain.at(place)?;
        Some(self.worthy.mark(colour))
    }

    /// Whether the chain is empty.
    pub fn is_empty(&self) -> bool
        ensures value { IsTrue result ↔ (self.now.chain ≡ []) }
        ensures together { HoldTogether self.now }
    {
        self.chain.is_empty()
    }

    /// The mark of a colour in the chain.
    fn of(&self, colour: Colour) -> Option<Mark>
        requires { colour.0 < self.now.colours }
        ensures { result ≡ mark_of colour self.now.chain }
    {
        if self.chain.contains(colour) {
            Some(self.worthy.mark(colour))
        } else {
            None
        }
    }
}
