//! That what a run leaves can be read again: its numbers are those of their types.
ghost use Rattle.std.specs.Prelude.{◌≡◌, ◌<◌, true, map};
ghost use Rattle.std.specs.List.{AllByRecursion};
ghost use Rattle.mely_check.specs.Journals.{IsFit, IsFitHistory};

use mely_history::{Entry, History};

/// Three numbers of 16 bits are within their range.
fn three_fit(first: u16, second: u16, third: u16)
    ensures { (first < 65536) × (second < 65536) × (third < 65536) }
{}

/// The numbers of a registration are within their ranges.
fn four_fit(colour: u16, handler: u8, arg: u16, by: u16)
    ensures { (colour < 65536) × (handler < 256) × (arg < 65536) × (by < 65536) }
{}

/// The numbers of an entry are within the ranges of a journal's.
fn entry_fits(entry: &Entry)
    ensures { IsFit entry.now }
{
    match *entry {
        Entry::Reg { colour, event, by } => four_fit(colour.0, event.handler, event.arg, by),
        Entry::Take {
            colour,
            core,
            count,
        } => three_fit(colour.0, core, count),
        Entry::Fin {
            colour,
            core,
            count,
        } => three_fit(colour.0, core, count),
        Entry::Steal { colour, from, to } => three_fit(colour.0, from, to),
    }
}

/// The numbers of a history are within the ranges of a journal's.
fn history_fits(history: &[Entry])
    ensures { IsFitHistory history.now }
{
    let _count = history.len();
    for entry in history {
        entry_fits(entry);
    }
}

/// The numbers of all histories, which are listed, are within the ranges of a journal's, as their
/// types have no others. It reads each entry once, as a contract knows of a number's range only where it is read.
fn histories_fit(histories: &[History])
    requires { AllByRecursion (λ history. history.listed ≡ true) histories.now }
    ensures { AllByRecursion IsFitHistory (map (λ history. history.items) histories.now) }
{
    for history in histories {
        match history.entries() {
            Some(entries) => history_fits(entries),
            None => unreachable!(),
        }
    }
}

/// The numbers of all histories are so where their journal is asked for, and they are listed.
pub(crate) fn journal_fits(histories: &[History], journal: bool)
    requires { AllByRecursion (λ history. history.listed ≡ journal) histories.now }
    ensures { journal ≡ true
        → AllByRecursion IsFitHistory (map (λ history. history.items) histories.now) }
{
    if journal {
        histories_fit(histories);
    }
}
