//! What is kept of a long history.
ghost use Rattle.std.specs.Prelude.{◌≡◌, ◌<◌, ◌*◌, [], ◌∷◌, ◌++◌, ℕ, List, IfOk, length};

use mely_history::{Entry, Setup};
use std::alloc::{AllocError, Global};

/// How many buckets a long history is cut into.
pub(crate) const BUCKETS: u16 = 128;

/// How many classes of colours there are.
pub(crate) const CLASSES: usize = 17;

/// How many entries of a history are in each part of its buckets: for each core, in it for each
/// bucket, in it for each class of colours.
#[derive(Drop)]
pub(crate) struct Counts {
    pub(crate) cores: u16,

    /// How many entries there will be, or `u32::MAX` where that is less.
    pub(crate) entries: u32,

    /// How many entries a bucket has.
    pub(crate) width: u32,

    /// How many entries were counted.
    pub(crate) heard: u32,

    pub(crate) cells: Vec<u32>,
    ghost some: { 0 < width },
    ghost many: { length cells.items ≡ 2176 * cores },
}

impl Counts {
    ghost use Rattle.mely_history.specs.declared.entry.Entry.{Entry as EntryValue};
    ghost use Rattle.mely_picture.specs.Plots.{IsCounted, AddsOne};

    /// Counts for a history of so many entries, of which none was counted.
    pub(crate) fn new(alloc: Global, setup: &Setup, entries: u64) -> Result<Counts, AllocError>
        ensures { IfOk result (λ counts. IsCounted setup.now entries [] counts) }
    {
        let cores = setup.cores();
        let entries = u64::min(entries, u64::from(u32::MAX)) as u32;
        Ok(Counts {
            cores,
            entries,
            width: entries.saturating_sub(1) / u32::from(BUCKETS) + 1,
            heard: 0,
            cells: vec![in alloc; 0; 2_176 * cores as usize]?,
        })
    }

    /// Counts the next entry.
    pub(crate) fn add(&mut self, setup: &Setup, entry: &Entry)
        ensures { (entries : ℕ) (history : List EntryValue)
            → IsCounted setup.now entries history self.old
            → IsCounted setup.now entries (history ++ entry.now ∷ []) self.new }
    {
        let at = self.heard;
        self.heard = at.saturating_add(1);
        self.count(setup, at, entry);
    }

    /// Counts the entry at a place in its cell, if it has one: what is registered from outside is of
    /// no core.
    fn count(&mut self, setup: &Setup, at: u32, entry: &Entry)
        ensures cells { AddsOne setup.now self.old.width self.old.cores at entry.now
            self.old.cells.items self.new.cells.items }
        ensures cores { self.new.cores ≡ self.old.cores }
        ensures entries { self.new.entries ≡ self.old.entries }
        ensures width { self.new.width ≡ self.old.width }
        ensures heard { self.new.heard ≡ self.old.heard }
    {
        let bucket = at / self.width;
        let core = entry.pass();
        if core >= self.cores {
            return;
        }
        if bucket >= u32::from(BUCKETS) {
            return;
        }
        let class = usize::min(setup.place_of(entry.colour()), CLASSES - 1);
        let cell = CLASSES * (usize::from(BUCKETS) * core as usize + bucket as usize) + class;
        self.cells[cell] = self.cells[cell].saturating_add(1);
    }
}
