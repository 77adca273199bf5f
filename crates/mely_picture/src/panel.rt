//! The panels of a picture, one for each shard.
ghost use Rattle.std.specs.Prelude.{◌≡◌, ◌<◌, ◌≤◌, ◌+◌, ◌*◌, ◌++◌, ◌^◌, OnOk, length};
ghost use Rattle.mely_picture.specs.Layout.{panel_height as height_of_panel};
ghost use Rattle.mely_picture.specs.Texts.{heading, row_text, rows_text, panel_text};
ghost use Rattle.mely_picture.specs.Shown.{counts_panel, plot_panel, plots_from};
ghost use Rattle.mely_picture.specs.Drawings.{text_limit};

use crate::bucket::push_bucket_panel;
use crate::counts::Counts;
use crate::digits::{push_numbered, push_word};
use crate::layout::{STEP, row_top};
use crate::mark::push_marks;
use crate::part::Scale;
use crate::plot::Plot;
use mely_history::{Entry, Setup};
use std::alloc::AllocError;

/// The height of a panel: its heading, a row for each core, and room below.
pub fn panel_height(cores: u16) -> u64
    ensures value { result ≡ height_of_panel cores }
    ensures range { result < 2 ^ 22 }
{
    48 + 40 * u64::from(cores)
}

/// Adds the panels of all shards, from this upper edge on.
pub fn push_panels(
    text: &mut Vec<u8>,
    setup: &Setup,
    top: u64,
    plots: &[Plot],
) -> Result<(), AllocError>
    requires top { top < 2 ^ 36 }
    requires few { length plots.now ≤ text_limit }
    ensures { OnOk result (text.new.items ≡ text.old.items
        ++ plots_from setup.now top 0 plots.now) }
{
    let mut top = top;
    for (number, plot) in plots.iter().enumerate() {
        push_plot(text, setup, top, number as u32, plot)?;
        top += panel_height(setup.cores());
    }
    Ok(())
}

/// Adds the panel of a shard, by what was kept of its history.
fn push_plot(
    text: &mut Vec<u8>,
    setup: &Setup,
    top: u64,
    number: u32,
    plot: &Plot,
) -> Result<(), AllocError>
    requires { top < 2 ^ 40 }
    ensures { OnOk result (text.new.items
        ≡ text.old.items ++ plot_panel setup.now top number plot.now) }
{
    match plot {
        Plot::Whole(history) => {
            push_panel(text, setup.cores(), top, number as u64, &history.entries)
        }
        Plot::Counted(counts) => push_counted(text, setup, top, number, counts),
    }
}

/// Adds the panel of a shard in buckets, by the counts of its history.
fn push_counted(
    text: &mut Vec<u8>,
    setup: &Setup,
    top: u64,
    number: u32,
    counts: &Counts,
) -> Result<(), AllocError>
    requires { top < 2 ^ 40 }
    ensures { OnOk result (text.new.items
        ≡ text.old.items ++ counts_panel setup.now top number counts.now) }
{
    let colours = setup.colours();
    let shards = setup.shards();
    let scale = Scale {
        number,
        shards,
        entries: counts.entries,
        width: counts.width,
    };
    push_bucket_panel(text, colours, top, &scale, counts)?;
    Ok(())
}

/// Adds the panel of a shard: its heading, a row for each core, and the marks of its history.
fn push_panel(
    text: &mut Vec<u8>,
    cores: u16,
    top: u64,
    number: u64,
    history: &[Entry],
) -> Result<(), AllocError>
    requires top { top < 2 ^ 40 }
    requires short { length history.now ≤ text_limit }
    ensures { OnOk result (text.new.items
        ≡ text.old.items ++ panel_text cores top number history.now) }
{
    push_heading(text, top, number, history.len() as u64)?;
    push_rows(text, top, history.len() as u64, cores)?;
    push_marks(text, top, history)?;
    Ok(())
}

/// Adds the heading of a panel.
fn push_heading(text: &mut Vec<u8>, top: u64, number: u64, entries: u64) -> Result<(), AllocError>
    requires { top < 2 ^ 40 }
    ensures { OnOk result (text.new.items ≡ text.old.items ++ heading top number entries) }
{
    push_numbered(text, b"<text class='head' x='16' y='", top + 20)?;
    push_numbered(text, b"'>shard ", number)?;
    push_numbered(text, b", entries ", entries)?;
    push_word(text, b"</text>\n")?;
    Ok(())
}

/// Adds a row for each core.
pub fn push_rows(text: &mut Vec<u8>, top: u64, entries: u64, cores: u16) -> Result<(), AllocError>
    requires top { top < 2 ^ 40 }
    requires short { entries ≤ text_limit }
    ensures { OnOk result (text.new.items ≡ text.old.items ++ rows_text top entries cores) }
{
    for core in 0..cores {
        push_row(text, top, entries, core)?;
    }
    Ok(())
}

/// Adds the row of a core, as long as a history of so many entries.
fn push_row(text: &mut Vec<u8>, top: u64, entries: u64, core: u16) -> Result<(), AllocError>
    requires top { top < 2 ^ 40 }
    requires short { entries ≤ text_limit }
    ensures { OnOk result (text.new.items ≡ text.old.items ++ row_text top entries core) }
{
    let row = row_top(top, core);
    push_numbered(text, b"<text x='16' y='", row + 20)?;
    push_numbered(text, b"'>core ", core as u64)?;
    push_numbered(text, b"</text><rect class='row' x='76' y='", row)?;
    push_numbered(text, b"' width='", STEP * entries)?;
    push_word(text, b"' height='32'/>\n")?;
    Ok(())
}
