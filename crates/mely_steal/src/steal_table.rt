//! The last mark of each colour, and by classes those that may be stolen.
ghost use Rattle.std.specs.Prelude.{◌≡◌, ◌<◌, ◌≤◌, ◌==◌, None, IfOk, IfSome, MatchOption, find, length, min, option_map, ℕ, if◌then◌else◌};
ghost use Rattle.std.specs.Option.{option_or};
ghost use Rattle.mely_steal.specs.Marks.{mark_of, without};
ghost use Rattle.mely_steal.specs.StealQueue.{after_entry, after_mark_change, is_worthy, pick_of};
ghost use Rattle.mely_steal.specs.Classes as classes_of;
ghost use Rattle.mely_steal.specs.Entering.{class_in, joined_by, moved_to};

use crate::class::class_of;
use crate::classes::Classes;
use crate::mark_table::MarkTable;
use mely_event::{Colour, Mark, Memory};
use std::alloc::Global;
use std::marker::Model;

/// The class in which a mark may be stolen, and 0 where it may not: its colour is pinned, or its
/// time left doesn't pay for a steal.
fn stealing_class(mark: &Mark, cost: u32, pinned: u32) -> u8
    ensures { let class = classes_of.class_of mark.now.worth cost in
        result ≡ (if is_worthy cost pinned mark.now then class else 0) }
{
    if u32::from(mark.colour.0) < pinned {
        0
    } else {
        class_of(mark.worth, cost)
    }
}

/// The first colour of the highest class that has one.
fn first_of_highest(classes: &Classes) -> Option<u16>
    ensures value { let entries = classes.now.entries in
        let entry = λ (class : ℕ). find (λ entry. entry.class == class) entries in
        let first = λ (class : ℕ). option_map (λ entry. entry.colour) (entry class) in
        result ≡ option_or (option_or (first 3) (first 2)) (first 1) }
    ensures within { IfSome result (λ colour. colour < classes.now.places) }
{
    if let Some(colour) = classes.first(3) {
        return Some(colour);
    }
    if let Some(colour) = classes.first(2) {
        return Some(colour);
    }
    classes.first(1)
}

/// Adds a colour, which is in no class, at the end of a class; to none where the class is 0.
fn add_to(classes: &mut Classes, class: u8, colour: u16)
    requires class { class ≤ 3 }
    requires place { colour < classes.old.places }
    requires absent { class_in colour classes.old.entries ≡ 0 }
    ensures { let entries = joined_by class colour classes.old.entries in
        classes.new ≡ record classes.old { entries = entries } }
{
    if class > 0 {
        classes.enter(class, colour);
    }
}

/// Moves a colour to the end of a class, and out of all where the class is 0. It stays where it is
/// already in the class.
fn move_to(classes: &mut Classes, class: u8, colour: u16)
    requires class { class ≤ 3 }
    requires place { colour < classes.old.places }
    ensures { let entries = moved_to class colour classes.old.entries in
        classes.new ≡ record classes.old { entries = entries } }
{
    if classes.class_of(colour) != class {
        classes.remove(colour);
        add_to(classes, class, colour);
    }
}

/// The last mark of each colour, and by classes those that may be stolen: what a
/// stealing queue is made of, and what the chain of a core shares with its stealing
/// queue, so that a mark is kept once.
///
/// Each class is a list by links, and every call but [`StealTable::new`] touches a fixed number of
/// places and takes no memory. The one exception is an entering when the numbers of enterings are
/// used up, after 2^64 - 1 of them with no moment at which the queue was empty: then the marks that
/// are there are numbered anew.
#[derive(Drop)]
pub struct StealTable {
    marks: MarkTable,
    classes: Classes,
    colours: u32,
    cost: u32,
    pinned: u32,
}

impl Model for StealTable {
    ghost use Rattle.mely_steal.specs.StealTable.{StealTableState, AreStealable};

    ghost Value = { StealTableState };

    ghost use Rattle.std.specs.Prelude.{◌≡◌, length, min};
    ghost use Rattle.mely_steal.specs.declared.links.TheConstants.{MAX_PLACES};

    ghost view = { λ t. record {
      marks = t.marks;
      entries = t.classes.entries;
      colours = t.colours;
      cost = t.cost;
      pinned = t.pinned;
    } };

    ghost invariant = { λ t. AreStealable (record {
      marks = t.marks;
      entries = t.classes.entries;
      colours = t.colours;
      cost = t.cost;
      pinned = t.pinned;
    }) × (length t.marks.started ≡ min t.colours MAX_PLACES)
        × (t.classes.places ≡ min t.colours MAX_PLACES) };
}

impl StealTable {
    ghost use Rattle.mely_steal.specs.StealTable.{AreStealable, KeepsNumbers, SetsMark, StealTableState, mark_in, worthy_of};
    ghost use Rattle.mely_steal.specs.StealQueue.{empty_worthy};

    /// A table for this many colours, of which none may be stolen yet, at this cost of a steal, in
    /// the unit of the weights of events. The colours below `pinned` are never stolen.
    ///
    /// # Errors
    ///
    /// There was no memory.
    pub fn new(alloc: Global, colours: u32, cost: u32, pinned: u32) -> Result<StealTable, Memory>
        ensures empty { IfOk result (λ table. worthy_of table ≡ empty_worthy colours cost pinned) }
        ensures stealable { IfOk result (λ table. AreStealable table) }
    {
        Ok(StealTable {
            marks: MarkTable::new(alloc, colours)?,
            classes: Classes::new(alloc, colours)?,
            colours,
            cost,
            pinned,
        })
    }

    /// The last mark of a colour. Where none was written, it is one with nothing
    /// started and nothing left.
    pub fn mark(&self, colour: Colour) -> Mark
        requires { colour.0 < self.now.colours }
        ensures value { result ≡ mark_in self.now.marks colour.0 }
        ensures stealable { AreStealable self.now }
    {
        self.marks.of(colour)
    }

    /// Writes the mark of a colour that may not be stolen yet, and adds it at the end of its
    /// class where it may be stolen.
    pub fn enter(&mut self, mark: Mark)
        requires below { mark.colour.0 < self.old.colours }
        requires absent { mark_of mark.colour (worthy_of self.old).marks ≡ None }
        ensures marks { SetsMark mark self.old.marks self.new.marks }
        ensures worthy { let old = worthy_of self.old in
            let marks = after_entry old.cost old.pinned mark old.marks in
            worthy_of self.new ≡ record old { marks = marks } }
        ensures same { KeepsNumbers self.old self.new }
        ensures stealable { AreStealable self.new }
    {
        self.marks.set(mark);
        let class = stealing_class(&mark, self.cost, self.pinned);
        add_to(&mut self.classes, class, mark.colour.0);
    }

    /// Writes the mark of a colour. Within its class it keeps its place; where it may be stolen and
    /// was in another class or in none it goes to the end of its class, and out of the classes
    /// where it may not be stolen.
    pub fn change(&mut self, mark: Mark)
        requires { mark.colour.0 < self.old.colours }
        ensures marks { SetsMark mark self.old.marks self.new.marks }
        ensures worthy { let old = worthy_of self.old in
            let marks = after_mark_change old.cost old.pinned mark old.marks in
            worthy_of self.new ≡ record old { marks = marks } }
        ensures same { KeepsNumbers self.old self.new }
        ensures stealable { AreStealable self.new }
    {
        self.marks.set(mark);
        let class = stealing_class(&mark, self.cost, self.pinned);
        move_to(&mut self.classes, class, mark.colour.0);
    }

    /// Takes a colour out of the classes. Nothing changes where it is in none.
    pub fn remove(&mut self, colour: Colour)
        requires { colour.0 < self.old.colours }
        ensures marks { self.new.marks ≡ self.old.marks }
        ensures worthy { let marks = without colour (worthy_of self.old).marks in
            worthy_of self.new ≡ record (worthy_of self.old) { marks = marks } }
        ensures same { KeepsNumbers self.old self.new }
        ensures stealable { AreStealable self.new }
    {
        self.classes.remove(colour.0);
    }

    /// Takes out the first colour of the highest class that has one.
    pub fn pick(&mut self) -> Option<Mark>
        ensures value { result ≡ pick_of self.old.cost (worthy_of self.old).marks }
        ensures mark { IfSome result (λ mark. mark ≡ mark_in self.old.marks mark.colour.0) }
        ensures colour { IfSome result (λ mark. mark.colour.0 < self.old.colours) }
        ensures marks { self.new.marks ≡ self.old.marks }
        ensures worthy { MatchOption result (self.new ≡ self.old) (λ mark.
            let marks = without mark.colour (worthy_of self.old).marks in
            worthy_of self.new ≡ record (worthy_of self.old) { marks = marks }) }
        ensures same { KeepsNumbers self.old self.new }
        ensures stealable { AreStealable self.new }
    {
        let colour = first_of_highest(&self.classes)?;
        let mark = self.marks.of(Colour(colour));
        self.classes.remove(colour);
        Some(mark)
    }
}
