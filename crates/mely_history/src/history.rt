//! A history as it is kept.
ghost use Rattle.std.specs.Prelude.{◌≡◌, ◌<◌, ◌≤◌, ◌+◌, ◌++◌, ◌∷◌, [], length, OnOk, OnErr, option_copied};
ghost use Rattle.std.specs.Option.{option_map};
ghost use Rattle.mely_history.specs.Kept.{limit_of, shown_of};

use crate::entry::Entry;
use mely_event::Memory;
use mely_log::Log;
use std::alloc::Global;
use std::marker::Model;

/// The most entries of a history that is listed, 2^27: a call that would need one more answers want
/// of memory.
///
/// Nothing promises that a run ends. Two idle cores may steal one colour from each other for ever,
/// and each steal appends an entry; so a listed run of that kind ends with want of memory, long
/// before the memory of the machine does.
pub const MAX_ENTRIES: u64 = 134_217_728;

/// The most entries of a history that is not listed, 2^63: at a thousand million a second it is
/// reached after 292 years.
pub const MAX_NOTES: u64 = 9_223_372_036_854_775_808;

/// The history of a shard: what contracts read of it, and the entries themselves where the setup
/// asks for them.
///
/// Contracts see the entries as `items`, whether or not they are listed, and `most`: how many there
/// may be before memory is asked for. One that isn't listed takes no memory, however long it grows.
#[derive(Debug, Drop)]
pub struct History {
    notes: Log<Entry>,
    count: u64,
    list: Option<Vec<Entry>>,
}

impl Model for History {
    ghost use Rattle.mely_history.specs.Kept.{HistoryState};

    ghost Value = { HistoryState };

    ghost use Rattle.std.specs.Prelude.{is_some};
    ghost use Rattle.mely_history.specs.Keeping.{most_of, IsWellKept};

    ghost view = { λ h. record {
      items = h.notes.items;
      listed = is_some h.list;
      most = most_of h.list;
    } };

    ghost invariant = { λ h. IsWellKept h.notes.items h.count h.list };
}

impl History {
    /// A history without entries, which is listed or not. It takes no memory.
    pub fn new(alloc: Global, listed: bool) -> History
        ensures none { result.items ≡ [] }
        ensures listed { result.listed ≡ listed }
        ensures within { result.most ≤ limit_of listed }
    {
        let list = if listed { Some(Vec::new(alloc)) } else { None };
        History {
            notes: Log::new(),
            count: 0,
            list,
        }
    }

    /// How many entries there are.
    pub fn len(&self) -> u64
        ensures { result ≡ length self.now.items }
    {
        self.count
    }

    /// The entries, the oldest first, where they are listed.
    pub fn entries(&self) -> Option<&[Entry]>
        ensures { option_copied result ≡ shown_of self.now }
    {
        match &self.list {
            Some(list) => Some(list.as_slice()),
            None => None,
        }
    }

    /// The entries, the oldest first, where they are listed.
    pub fn into_entries(self) -> Option<Vec<Entry>>
        ensures { option_map (λ list. list.items) result ≡ shown_of self }
    {
        let History {
            notes: _,
            count: _,
            list,
        } = self;
        list
    }

    /// Makes room for this many entries more, where they stay within the limit. One that isn't
    /// listed has it already.
    ///
    /// # Errors
    ///
    /// There was no memory, or so many are over the limit: there was no room for them.
    #[inline(always)]
    pub fn reserve(&mut self, more: u64) -> Result<(), Memory>
        ensures room { OnOk result (length self.new.items + more ≤ self.new.most) }
        ensures full { OnErr result (self.old.most < length self.old.items + more) }
        ensures not_lower { self.old.most ≤ self.new.most }
        ensures within { self.new.most ≤ limit_of self.new.listed }
        ensures same { self.new ≡ record self.old { most = self.new.most } }
    {
        let Some(list) = &mut self.list else {
            if more > MAX_NOTES - self.count {
                return Err(Memory);
            }
            return Ok(());
        };
        if more > MAX_ENTRIES - self.count {
            return Err(Memory);
        }
        list.reserve(more as usize)?;
        Ok(())
    }

    /// Adds an entry for which there is room. It takes no memory.
    #[inline(always)]
    pub fn push(&mut self, entry: Entry)
        requires { length self.old.items < self.old.most }
        ensures { self.new ≡ record self.old { items = self.old.items ++ entry ∷ [] } }
    {
        self.notes.push(&entry);
        self.count += 1;
        if let Some(list) = &mut self.list {
            list.push_reserved(entry);
        }
    }
}
