//! Judging entries one after the other.
ghost use Rattle.std.specs.Prelude.{◌≡◌, ◌<◌, ◌≤◌, ◌%◌, ◌^◌, ◌↔◌, ℕ, List, IsTrue, MatchBool, IfOk, OnOk, length, replicate};
ghost use Rattle.mely_event.specs.declared.colour.Colour.{Colour};
ghost use Rattle.mely_history.specs.Setup.{shape_of, colours_of};
ghost use Rattle.mely_history.specs.ColourAccount.{account_of};
ghost use Rattle.mely_check.specs.Judges.{Hears, HearsLine, Judges, AddsTo, Counts, MayHear, AreInitialWatches, IsDrainedAt, IsOpenAt, IsFirstOpen};
ghost use Rattle.mely_check.specs.Watches.{Tells};

use crate::fault::CheckFault;
use crate::reading::Line;
use crate::report::CoreReport;
use crate::watch::Watch;
use mely_history::{Entry, Setup};
use std::alloc::{AllocError, Global};

/// What was heard of a journal: what is kept of each colour, what each core ran and stole, and the
/// line of the first entry that isn't allowed, from which on nothing is heard.
#[derive(Drop)]
pub(crate) struct Judge {
    setup: Setup,
    watches: Vec<Watch>,
    cores: Vec<CoreReport>,
    fault: Option<u32>,
}

/// The report of a core that did nothing.
const NOTHING: CoreReport = CoreReport {
    ran: 0,
    stolen_in: 0,
    stolen_out: 0,
};

/// What is kept of each colour before the first entry.
fn initial_watches(alloc: Global, setup: &Setup) -> Result<Vec<Watch>, AllocError>
    ensures { IfOk result (λ watches.
        AreInitialWatches setup.now (colours_of setup.now) watches.items) }
{
    let mut watches = Vec::new(alloc);
    for colour in 0..setup.colours() {
        watches.push(Watch::new(alloc, setup, colour as u16))?;
    }
    Ok(watches)
}

/// Adds to what a core ran and stole, where there is that core.
fn add_to(cores: &mut [CoreReport], core: u16, more: CoreReport)
    ensures { AddsTo cores.old core more cores.new }
{
    let index = usize::from(core);
    if index < cores.len() {
        let report = cores[index];
        cores[index] = CoreReport {
            ran: report.ran.saturating_add(more.ran),
            stolen_in: report.stolen_in.saturating_add(more.stolen_in),
            stolen_out: report.stolen_out.saturating_add(more.stolen_out),
        };
    }
}

/// Counts an entry for the cores that it names.
fn count(cores: &mut [CoreReport], entry: &Entry)
    ensures { Counts cores.old entry.now cores.new }
{
    match *entry {
        Entry::Reg { .. } | Entry::Take { .. } => {}
        Entry::Fin { core, count, .. } => {
            let ran = u64::from(count);
            add_to(cores, core, CoreReport { ran, ..NOTHING });
        }
        Entry::Steal { from, to, .. } => {
            add_to(
                cores,
                to,
                CoreReport {
                    stolen_in: 1,
                    ..NOTHING
                },
            );
            add_to(
                cores,
                from,
                CoreReport {
                    stolen_out: 1,
                    ..NOTHING
                },
            );
        }
    }
}

impl Judge {
    /// A judge that has heard nothing: each colour is with its first owner,
    /// and no entry was counted.
    pub(crate) fn new(alloc: Global, setup: &Setup) -> Result<Judge, AllocError>
        ensures setup { IfOk result (λ judge. judge.setup ≡ setup.now) }
        ensures fault { IfOk result (λ judge. judge.fault ≡ None) }
        ensures watches { IfOk result (λ judge.
            AreInitialWatches setup.now (colours_of setup.now) judge.watches.items) }
        ensures cores { IfOk result (λ judge. judge.cores.items
            ≡ replicate (shape_of setup.now).cores NOTHING) }
    {
        Ok(Judge {
            setup: *setup,
            watches: initial_watches(alloc, setup)?,
            cores: vec![in alloc; NOTHING; setup.cores() as usize]?,
            fault: None,
        })
    }

    /// Whether an entry of the last of so many shards is allowed.
    fn allows(&self, begun: u16, entry: &Entry) -> bool
        ensures { IsTrue result ↔ MayHear self.now begun entry.now }
    {
        let colour = entry.colour().0;
        match self.watches.get(colour as usize) {
            Some(watch) => {
                colour % self.setup.shards() + 1 == begun && watch.allows(&self.setup, entry)
            }
            None => false,
        }
    }

    /// Hears one more entry, which is of the last of so many shards and stands on this line.
    fn hear(&mut self, begun: u16, line: u32, entry: &Entry) -> Result<(), AllocError>
        ensures { OnOk result (Hears self.old begun line entry.now self.new) }
    {
        if self.fault.is_some() {
            return Ok(());
        }
        if !self.allows(begun, entry) {
            self.fault = Some(line);
            return Ok(());
        }
        self.watches[entry.colour().0 as usize].add(&self.setup, entry)?;
        count(&mut self.cores, entry);
        Ok(())
    }

    /// Hears what a line says, which is of the last of so many shards.
    pub(crate) fn hear_line(
        &mut self,
        begun: u16,
        number: u32,
        said: &Line,
    ) -> Result<(), AllocError>
        ensures { OnOk result (HearsLine self.old begun number said.now self.new) }
    {
        match said {
            Line::Shard(..) => Ok(()),
            Line::Entry(entry) => self.hear(begun, number, entry),
        }
    }

    /// Whether all that was heard is legal, and nothing runs or waits.
    ///
    /// # Errors
    ///
    /// An entry isn't allowed, or a colour runs or has something queued.
    pub(crate) fn verdict(&self) -> Result<(), CheckFault>
        ensures { Judges self.now result }
    {
        if let Some(line) = self.fault {
            return Err(CheckFault::NotLegal { line });
        }
        if let Some(colour) = self.first_open() {
            return Err(CheckFault::NotDrained { colour });
        }
        Ok(())
    }

    /// Whether nothing of a colour runs or waits.
    fn is_drained(&self, colour: u32) -> bool
        ensures { MatchBool result (IsDrainedAt self.now.watches.items colour)
            (IsOpenAt self.now.watches.items colour) }
    {
        match self.watches.get(colour as usize) {
            Some(watch) => watch.is_drained(),
            None => true,
        }
    }

    /// The least colour that runs or has something queued.
    fn first_open(&self) -> Option<u16>
        ensures { IsFirstOpen self.now.watches.items (colours_of self.now.setup) result }
    {
        for colour in 0..self.setup.colours() {
            if !self.is_drained(colour) {
                return Some(colour as u16);
            }
        }
        None
    }

    /// What each core ran and stole.
    pub(crate) fn into_reports(self) -> Vec<CoreReport>
        ensures { result ≡ self.cores }
    {
        self.cores
    }
}
