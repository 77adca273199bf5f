//! How far a journal was read.
ghost use Rattle.std.specs.Prelude.{◌≡◌, ◌<◌, ◌≤◌, ◌+◌, ◌-◌, ◌++◌, ◌∷◌, ◌↔◌, [], List, ℕ, MatchBool, MatchOption, IfNone, OnSome, IsTrue};
ghost use Rattle.std.specs.Bool.{OnFalse, OnTrue};

use crate::reading::{Line, read_line};

/// How many shards a journal is to have, how many have begun, how many entries of the last one are
/// still to come, how many there were in all, and the number of the next line.
#[derive(Clone, Copy, Debug)]
pub(crate) struct Place {
    pub(crate) shards: u16,
    pub(crate) begun: u16,
    pub(crate) left: u64,
    pub(crate) entries: u32,
    pub(crate) number: u32,
    ghost shards_in: { shards < 65536 },
    ghost begun_few: { begun ≤ shards },
    ghost entries_few: { entries < number },
    ghost number_in: { number ≤ 4294967295 },
}

impl Place {
    ghost use Rattle.mely_check.specs.Journals.{IsLine, BeginsJournal, join_lines, line_limit};
    ghost use Rattle.mely_check.specs.Reading.{Says};
    ghost use Rattle.mely_check.specs.Walks.{IsAt, MayNotStand, MayStand, Moves};

    /// The place before the first line of a journal of so many shards.
    pub(crate) fn new(shards: u16) -> Place
        ensures at { IsAt [] result }
        ensures shards { result.shards ≡ shards }
    {
        Place {
            shards,
            begun: 0,
            left: 0,
            entries: 0,
            number: 1,
        }
    }

    /// Goes on behind a line with its LF and answers what it says, or nothing
    /// where it may not stand here.
    pub(crate) fn step(&mut self, line: &[u8]) -> Option<Line>
        requires { IsLine line.now }
        ensures stands { (lines : List (List ℕ)) (at : IsAt lines self.old)
            → MatchOption result (MayNotStand lines line.now self.old)
            (MayStand lines line.now self.old at self.new) }
        ensures shards { self.new.shards ≡ self.old.shards }
        ensures kept { IfNone result (self.new ≡ self.old) }
        ensures counted { OnSome result (self.new.number ≡ self.old.number + 1) }
    {
        if self.number == u32::MAX {
            return None;
        }
        let said = read_line(line)?;
        if self.goes_on(line, &said) {
            Some(said)
        } else {
            None
        }
    }

    /// Goes on behind a line that says this, if it may stand here.
    fn goes_on(&mut self, line: &[u8], said: &Line) -> bool
        requires is_line { IsLine line.now }
        requires says { Says line.now said.now }
        requires within { self.old.number < line_limit }
        ensures stands { (lines : List (List ℕ)) (at : IsAt lines self.old)
            → MatchBool result (MayStand lines line.now self.old at self.new said.now)
            (MayNotStand lines line.now self.old) }
        ensures shards { self.new.shards ≡ self.old.shards }
        ensures kept { OnFalse result (self.new ≡ self.old) }
        ensures counted { OnTrue result (self.new.number ≡ self.old.number + 1) }
    {
        let _ = line;
        match *said {
            Line::Shard(number, count) => self.begin(number, count),
            Line::Entry(_) => self.count_entry(),
        }
    }

    /// Begins a shard, if one may begin here.
    fn begin(&mut self, number: u16, count: u64) -> bool
        requires { self.old.number < line_limit }
        ensures { MatchBool result
            ((self.old.left ≡ 0) × (number ≡ self.old.begun) × (self.old.begun < self.old.shards)
            × Moves self.old self.new (self.old.begun + 1) count self.old.entries)
            ((self.new ≡ self.old)
            × (self.old.left ≡ 0 → number ≡ self.old.begun
            → self.old.begun < self.old.shards → ⊥)) }
    {
        if self.left > 0 || self.begun == self.shards || number != self.begun {
            return false;
        }
        self.begun += 1;
        self.left = count;
        self.number += 1;
        true
    }

    /// Counts an entry, if one may stand here.
    fn count_entry(&mut self) -> bool
        requires { self.old.number < line_limit }
        ensures { MatchBool result
            ((0 < self.old.left)
            × Moves self.old self.new self.old.begun (self.old.left - 1) (self.old.entries + 1))
            ((self.new ≡ self.old) × (self.old.left ≡ 0)) }
    {
        if self.left == 0 {
            return false;
        }
        self.left -= 1;
        self.entries += 1;
        self.number += 1;
        true
    }

    /// Whether all shards were read whole.
    pub(crate) fn is_whole(&self) -> bool
        ensures { IsTrue result ↔ ((self.now.left ≡ 0) × (self.now.begun ≡ self.now.shards)) }
    {
        self.left == 0 && self.begun == self.shards
    }
}
