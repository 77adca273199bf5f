//! Panels in buckets.
ghost use Rattle.std.specs.Prelude.{◌≡◌, ◌<◌, ◌≤◌, ◌+◌, ◌*◌, ◌++◌, ◌^◌, OnOk, length};
ghost use Rattle.mely_picture.specs.BucketTexts.{column_from, columns_text, core_text, cores_text, rest_note, bucket_heading, bucket_panel};
ghost use Rattle.mely_picture.specs.Plots.{cells_at};

use crate::counts::{BUCKETS, CLASSES, Counts};
use crate::digits::{push_numbered, push_word};
use crate::layout::row_top;
use crate::panel::push_rows;
use crate::part::{Part, Scale, colour_at, push_part};
use std::alloc::AllocError;

/// How many entries of a short history are as wide as a panel in buckets.
pub const PANEL_WIDTH: u64 = 32;

/// Adds the panel of a shard whose history is kept as counts, where there are so many colours.
pub fn push_bucket_panel(
    text: &mut Vec<u8>,
    colours: u32,
    top: u64,
    scale: &Scale,
    counts: &Counts,
) -> Result<(), AllocError>
    requires { top < 2 ^ 40 }
    ensures { OnOk result (text.new.items ≡ text.old.items
        ++ bucket_panel counts.now.cores colours top scale.now (cells_at counts.now.cells.items)) }
{
    push_bucket_heading(text, top, scale, colours)?;
    push_rows(text, top, PANEL_WIDTH, counts.cores)?;
    push_cores(text, top, scale, counts.cores, &counts.cells)?;
    Ok(())
}

/// Adds the heading of a panel in buckets.
fn push_bucket_heading(
    text: &mut Vec<u8>,
    top: u64,
    scale: &Scale,
    colours: u32,
) -> Result<(), AllocError>
    requires { top < 2 ^ 40 }
    ensures { OnOk result (text.new.items
        ≡ text.old.items ++ bucket_heading top scale.now colours) }
{
    push_numbered(text, b"<text class='head' x='16' y='", top + 20)?;
    push_numbered(text, b"'>shard ", scale.number as u64)?;
    push_numbered(text, b", entries ", scale.entries as u64)?;
    push_numbered(text, b", in buckets of ", scale.width as u64)?;
    push_rest_note(text, scale, colours)?;
    push_word(text, b"</text>\n")?;
    Ok(())
}

/// Adds that the last class is grey, where there are colours in it.
fn push_rest_note(text: &mut Vec<u8>, scale: &Scale, colours: u32) -> Result<(), AllocError>
    ensures { OnOk result (text.new.items ≡ text.old.items ++ rest_note scale.now colours) }
{
    let least = colour_at(scale, CLASSES - 1);
    if least < u64::from(colours) {
        push_numbered(text, b"; grey: the colours from ", least)?;
        push_word(text, b" on")?;
    }
    Ok(())
}

/// Adds the rows of so many cores, whose counts stand one behind another.
fn push_cores(
    text: &mut Vec<u8>,
    top: u64,
    scale: &Scale,
    cores: u16,
    cells: &[u32],
) -> Result<(), AllocError>
    requires top { top < 2 ^ 40 }
    requires many { length cells.now ≡ 2176 * cores }
    ensures { OnOk result (text.new.items ≡ text.old.items
        ++ cores_text top scale.now (cells_at cells.now) cores) }
{
    for core in 0..cores {
        push_core(text, top, scale, core, cells)?;
    }
    Ok(())
}

/// Adds the row of a core.
fn push_core(
    text: &mut Vec<u8>,
    top: u64,
    scale: &Scale,
    core: u16,
    cells: &[u32],
) -> Result<(), AllocError>
    requires top { top < 2 ^ 40 }
    requires many { 2176 * core + 2176 ≤ length cells.now }
    ensures { OnOk result (text.new.items ≡ text.old.items
        ++ core_text top scale.now core (cells_at cells.now core)) }
{
    push_numbered(text, b"<svg x='76' y='", row_top(top, core))?;
    push_numbered(
        text,
        b"' width='896' height='32' viewBox='0 0 128 ",
        scale.width as u64,
    )?;
    push_word(
        text,
        b"' preserveAspectRatio='none' shape-rendering='crispEdges'>\n",
    )?;
    push_columns(text, scale, core, cells)?;
    push_word(text, b"</svg>\n")?;
    Ok(())
}

/// Adds the columns of a core's row.
fn push_columns(
    text: &mut Vec<u8>,
    scale: &Scale,
    core: u16,
    cells: &[u32],
) -> Result<(), AllocError>
    requires { 2176 * core + 2176 ≤ length cells.now }
    ensures { OnOk result (text.new.items ≡ text.old.items
        ++ columns_text scale.now core (cells_at cells.now core) 128) }
{
    for bucket in 0..BUCKETS {
        let first = CLASSES * (usize::from(BUCKETS) * core as usize + bucket as usize);
        push_column(text, scale, core, bucket, &cells[first..first + CLASSES])?;
    }
    Ok(())
}

/// Adds a column: a part for each class, one upon another.
fn push_column(
    text: &mut Vec<u8>,
    scale: &Scale,
    core: u16,
    bucket: u16,
    counts: &[u32],
) -> Result<(), AllocError>
    requires { length counts.now ≤ 17 }
    ensures { OnOk result (text.new.items ≡ text.old.items
        ++ column_from scale.now core bucket 0 0 counts.now) }
{
    let mut below = 0;
    for (class, count) in counts.iter().enumerate() {
        let count = *count;
        let part = Part {
            core,
            bucket,
            class,
            below,
            count,
        };
        push_part(text, scale, &part)?;
        below += u64::from(count);
    }
    Ok(())
}
