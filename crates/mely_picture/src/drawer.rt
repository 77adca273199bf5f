//! Who hears a journal to draw it.
ghost use Rattle.std.specs.Prelude.{◌≡◌, ◌<◌, ◌≤◌, [], ◌∷◌, ◌++◌, List, IfOk, OnOk, None, Some, MatchOption, length};

use crate::plot::Plot;
use mely_check::{Line, Listener};
use mely_history::Setup;
use std::alloc::{AllocError, Global};

/// The most histories that are kept.
const MOST: usize = 65_536;

/// Hears a journal, and keeps of each history what is drawn of it.
#[derive(Drop)]
pub(crate) struct Drawer {
    alloc: Global,
    pub(crate) setup: Setup,

    /// The histories that were heard whole.
    pub(crate) plots: Vec<Plot>,

    /// The one that is being heard.
    pub(crate) open_plot: Option<Plot>,
    ghost few: { length plots.items ≤ 65536 },
}

impl Drawer {
    ghost use Rattle.mely_history.specs.declared.entry.Entry.{Entry as EntryValue};
    ghost use Rattle.mely_check.specs.Hearing.{Walk, start, MayCome, with_line};
    ghost use Rattle.mely_check.specs.declared.reading.Line.TheVariants as line;
    ghost use Rattle.mely_picture.specs.Plots.{Keeps, ArePlots, KeepsAll};

    /// A drawer that has heard nothing.
    pub(crate) fn new(alloc: Global, setup: &Setup) -> Drawer
        ensures heard { Keeps start result }
        ensures setup { result.setup ≡ setup.now }
    {
        Drawer {
            alloc,
            setup: *setup,
            plots: Vec::new(alloc),
            open_plot: None,
        }
    }

    /// Puts the history that is being heard to the others.
    fn close(&mut self) -> Result<(), AllocError>
        ensures closed { OnOk result (MatchOption self.old.open_plot
            (self.new.plots.items ≡ self.old.plots.items)
            (λ plot. length self.old.plots.items < 65536
            → self.new.plots.items ≡ self.old.plots.items ++ plot ∷ [])) }
        ensures setup { self.new.setup ≡ self.old.setup }
    {
        if let Some(plot) = self.open_plot.take() {
            if self.plots.len() < MOST {
                self.plots.push(plot)?;
            }
        }
        Ok(())
    }

    /// Goes on behind the line with which a shard begins that has so many entries.
    fn begin(&mut self, number: u16, count: u64) -> Result<(), AllocError>
        ensures heard { (walk : Walk) → MayCome walk (line.Shard number count)
            → Keeps walk self.old
            → OnOk result (Keeps (with_line walk (line.Shard number count)) self.new) }
        ensures setup { self.new.setup ≡ self.old.setup }
    {
        let _ = number;
        self.close()?;
        let plot = Plot::new(self.alloc, &self.setup, count)?;
        self.open_plot = Some(plot);
        Ok(())
    }

    /// What was kept of the histories.
    pub(crate) fn into_plots(mut self) -> Result<Vec<Plot>, AllocError>
        ensures are { IfOk result (λ plots. (histories : List (List EntryValue))
            → KeepsAll histories self → length histories ≤ 65536
            → ArePlots self.setup histories plots.items) }
        ensures few { IfOk result (λ plots. length plots.items ≤ 65536) }
    {
        self.close()?;
        Ok(self.plots)
    }
}

impl Listener for Drawer {
    ghost use Rattle.mely_picture.specs.Plots.{Keeps};

    type Frame = Setup;

    ghost frame_of = { λ self. self.setup };

    ghost Heard = { Keeps };

    fn hear(&mut self, said: &Line) -> Result<(), AllocError> {
        match *said {
            Line::Shard(number, count) => {
                self.begin(number, count)?;
                Ok(())
            }
            Line::Entry(entry) => {
                if let Some(plot) = &mut self.open_plot {
                    plot.add(&self.setup, &entry)?;
                }
                Ok(())
            }
        }
    }
}
