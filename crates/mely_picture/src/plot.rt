//! What is kept of a history until it is drawn.
ghost use Rattle.std.specs.Prelude.{◌≡◌, ◌<◌, ◌≤◌, [], ◌∷◌, ◌++◌, ℕ, List, IfOk, OnOk, length};
ghost use Rattle.mely_picture.specs.Buckets.{exact_limit};

use crate::counts::Counts;
use mely_history::{Entry, Setup};
use std::alloc::{AllocError, Global};

/// The most entries of a history that is drawn entry by entry.
const EXACT_LIMIT: usize = 4_096;

/// A short history.
#[derive(Drop)]
pub(crate) struct ShortHistory {
    pub(crate) entries: Vec<Entry>,
    ghost few: { length entries.items ≤ exact_limit },
}

impl ShortHistory {
    /// Adds an entry, where there is room for it.
    fn add(&mut self, entry: &Entry) -> Result<(), AllocError>
        ensures { OnOk result (length self.old.entries.items < exact_limit
            → self.new.entries.items ≡ self.old.entries.items ++ entry.now ∷ []) }
    {
        if self.entries.len() < EXACT_LIMIT {
            self.entries.push(*entry)?;
        }
        Ok(())
    }
}

/// What is kept of a history: all of its entries where they are few, and else counts of them.
#[derive(Drop)]
pub(crate) enum Plot {
    Whole(ShortHistory),
    Counted(Counts),
}

impl Plot {
    ghost use Rattle.mely_history.specs.declared.entry.Entry.{Entry as EntryValue};
    ghost use Rattle.mely_picture.specs.Plots.{IsPlot};

    /// What is kept of a history of so many entries, of which none was heard.
    pub(crate) fn new(alloc: Global, setup: &Setup, entries: u64) -> Result<Plot, AllocError>
        ensures { IfOk result (λ plot. IsPlot setup.now entries [] plot) }
    {
        if entries <= EXACT_LIMIT as u64 {
            return Ok(Plot::Whole(ShortHistory {
                entries: Vec::new(alloc),
            }));
        }
        Ok(Plot::Counted(Counts::new(alloc, setup, entries)?))
    }

    /// Goes on behind the next entry.
    pub(crate) fn add(&mut self, setup: &Setup, entry: &Entry) -> Result<(), AllocError>
        ensures { (entries : ℕ) (history : List EntryValue)
            → IsPlot setup.now entries history self.old → length history < entries
            → OnOk result (IsPlot setup.now entries (history ++ entry.now ∷ []) self.new) }
    {
        match self {
            Plot::Whole(history) => history.add(entry),
            Plot::Counted(counts) => {
                counts.add(setup, entry);
                Ok(())
            }
        }
    }
}
