//! The marks that may be stolen.
ghost use Rattle.std.specs.Prelude.{◌≡◌, ◌<◌, ◌≤◌, ◌↔◌, None, [], IfOk, IfSome, IsNone, MatchOption};
ghost use Rattle.mely_steal.specs.Marks.{mark_of, without};
ghost use Rattle.mely_steal.specs.StealQueue.{after_entry, after_mark_change, pick_of, empty_worthy};

use crate::steal_table::StealTable;
use mely_event::{Colour, Mark, Memory};
use std::alloc::Global;
use std::marker::Model;

/// The marks of a core that may be stolen, by what they are worth.
///
/// It is a list of marks of classes 1 to 3, at most one a colour, in the order in which each
/// entered its class. A colour that is pinned to its core never has a mark there. It has room for a
/// mark of every colour from the start, so no call but [`StealQueue::new`] takes memory, and each
/// touches a fixed number of places (see [`StealTable`]).
#[derive(Drop)]
pub struct StealQueue {
    table: StealTable,
}

impl Model for StealQueue {
    ghost use Rattle.mely_steal.specs.StealQueue.{StealQueueState};

    ghost Value = { StealQueueState };

    ghost use Rattle.mely_steal.specs.StealTable.{AreStealable, worthy_of};

    ghost view = { λ q. worthy_of q.table };

    ghost invariant = { λ q. AreStealable q.table };
}

impl StealQueue {
    ghost use Rattle.mely_steal.specs.StealQueue.{StealQueueState, AreWorthy};

    /// An empty list with room for this many colours, at this cost of a steal, in the unit of the
    /// weights of events. The colours below `pinned` are never stolen.
    ///
    /// # Errors
    ///
    /// There was no memory.
    pub fn new(alloc: Global, colours: u32, cost: u32, pinned: u32) -> Result<StealQueue, Memory>
        ensures { IfOk result (λ queue. queue ≡ empty_worthy colours cost pinned) }
    {
        let table = StealTable::new(alloc, colours, cost, pinned)?;
        Ok(StealQueue { table })
    }

    /// Adds a mark at the end, unless its class is 0 or its colour is pinned. No mark of
    /// its colour is there yet.
    pub fn enter(&mut self, mark: Mark)
        requires below { mark.colour.0 < self.old.colours }
        requires absent { mark_of mark.colour self.old.marks ≡ None }
        ensures after { let marks = after_entry self.old.cost self.old.pinned mark self.old.marks in
            self.new ≡ record self.old { marks = marks } }
        ensures pinned { mark.colour.0 < self.old.pinned → self.new ≡ self.old }
        ensures worthy { AreWorthy self.new }
    {
        self.table.enter(mark);
    }

    /// Replaces the mark of this mark's colour. Where the class stays the same the mark keeps its
    /// place; where it differs the mark moves to the end, or out where the new class is 0. Where no
    /// mark of the colour is there the mark enters. Nothing changes where the colour is pinned.
    pub fn change(&mut self, mark: Mark)
        requires { mark.colour.0 < self.old.colours }
        ensures after { let old = self.old in
            self.new ≡ record old { marks = after_mark_change old.cost old.pinned mark old.marks } }
        ensures pinned { mark.colour.0 < self.old.pinned → self.new ≡ self.old }
        ensures worthy { AreWorthy self.new }
    {
        self.table.change(mark);
    }

    /// Takes the mark of a colour out. Nothing changes where there is none, so nothing
    /// where the colour is pinned.
    pub fn remove(&mut self, colour: Colour)
        requires { colour.0 < self.old.colours }
        ensures pinned { colour.0 < self.old.pinned → self.new ≡ self.old }
        ensures after { self.new ≡ record self.old { marks = without colour self.old.marks } }
        ensures worthy { AreWorthy self.new }
    {
        self.table.remove(colour);
    }

    /// Takes out the first mark of the highest class, and answers nothing exactly
    /// where the list is empty.
    pub fn pick(&mut self) -> Option<Mark>
        ensures value { result ≡ pick_of self.old.cost self.old.marks }
        ensures none { IsNone result ↔ (self.old.marks ≡ []) }
        ensures colour { IfSome result (λ mark. mark.colour.0 < self.old.colours) }
        ensures paying { IfSome result (λ mark. self.old.cost < mark.worth) }
        ensures unpinned { IfSome result (λ mark. self.old.pinned ≤ mark.colour.0) }
        ensures after { MatchOption result (self.new ≡ self.old) (λ mark.
            self.new ≡ record self.old { marks = without mark.colour self.old.marks }) }
        ensures worthy { AreWorthy self.new }
    {
        self.table.pick()
    }
}
