//! Judging a list of entries: whether it is a legal history.
ghost use Rattle.std.specs.Prelude.{◌≡◌, ◌<◌, ◌≤◌, ◌↔◌, ℕ, IsTrue, Option, length, take, slice_get, Any};
ghost use Rattle.mely_event.specs.declared.colour.Colour.{Colour};
ghost use Rattle.mely_history.specs.declared.entry.Entry.{Entry};
ghost use Rattle.mely_history.specs.Entries.{colour_of};
ghost use Rattle.mely_history.specs.Judging.{Judges, IsColourFault, HasColour};

use crate::colour_counts::ColourCounts;
use crate::entry::Entry;
use crate::judged::Judged;
use crate::setup::Setup;
use mely_event::Colour;

/// Whether some entry is of the colour. It looks at the last entries first, since a colour that was
/// there is mostly not far behind.
fn occurs_in(entries: &[Entry], colour: Colour) -> bool
    ensures { IsTrue result ↔ HasColour colour entries.now }
{
    entries
        .iter()
        .rev()
        .any(|entry| entry.colour().0 == colour.0)
}

/// The first place below `until` whose entry is of the colour and may not follow the entries before
/// it; `until` where there is none. The colour does not occur before `from`.
fn first_fault(setup: &Setup, history: &[Entry], from: usize, until: usize, colour: Colour) -> usize
    requires within { (from ≤ until) × (until ≤ length history.now) }
    requires none { ¬ HasColour colour (take from history.now) }
    ensures { IsColourFault setup.now history.now colour until result }
{
    let mut counts = ColourCounts::new(setup, colour);
    for at in from..until {
        let entry = history[at];
        if entry.colour().0 == colour.0 {
            if !counts.allows(setup, &entry) {
                return at;
            }
            counts.add(setup, &history[..at], &entry);
        }
    }
    until
}

/// Whether each entry is allowed after the entries before it, and where the
/// first stands that is not.
///
/// It takes no memory. Each colour is followed alone, from the place where it first occurs, so the
/// time is at most proportional to the length of the history times the number of colours that occur
/// in it.
pub fn judge(setup: &Setup, history: &[Entry]) -> Judged
    ensures { Judges setup.now history.now result }
{
    let mut until = history.len();
    for at in 0..history.len() {
        let colour = history[at].colour();
        if at < until && !occurs_in(&history[..at], colour) {
            until = first_fault(setup, history, at, until, colour);
        }
    }
    if until < history.len() {
        Judged::NotAllowed { at: until }
    } else {
        Judged::Legal
    }
}
