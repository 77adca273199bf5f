//! Bars.
ghost use Rattle.std.specs.Prelude.{◌≡◌, ◌<◌, ◌≤◌, ◌++◌, ◌^◌, OnOk};
ghost use Rattle.mely_picture.specs.Marks.{bar as bar_mark};
ghost use Rattle.mely_picture.specs.Texts.{bar_title, bar_shape, bar_label, mark_text};
ghost use Rattle.mely_picture.specs.Drawings.{text_limit};

use crate::digits::{push_numbered, push_word};
use crate::layout::{STEP, hue_of, left_of, row_top};
use std::alloc::AllocError;

/// A turn: a core runs so many events of a colour, from its take to its finish.
#[derive(Clone, Copy, Debug, PartialEq, Eq)]
pub struct Bar {
    pub colour: u16,
    pub core: u16,
    pub count: u16,

    /// The place of the take among the entries of its shard, counted from 0.
    pub begin: u64,

    /// The place of the finish.
    pub end: u64,
}

/// Adds a bar.
pub fn push_bar(text: &mut Vec<u8>, top: u64, bar: &Bar) -> Result<(), AllocError>
    requires top { top < 2 ^ 40 }
    requires order { bar.now.begin ≤ bar.now.end }
    requires place { bar.now.end ≤ text_limit }
    ensures { OnOk result (text.new.items ≡ text.old.items ++ mark_text top (bar_mark bar.now)) }
{
    push_bar_title(text, bar)?;
    push_bar_shape(text, top, bar)?;
    push_bar_label(text, top, bar)?;
    Ok(())
}

/// Adds what a bar says under the pointer.
fn push_bar_title(text: &mut Vec<u8>, bar: &Bar) -> Result<(), AllocError>
    ensures { OnOk result (text.new.items ≡ text.old.items ++ bar_title bar.now) }
{
    push_numbered(text, b"<g><title>entry ", bar.begin)?;
    push_numbered(text, b" to ", bar.end)?;
    push_numbered(text, b": colour ", bar.colour as u64)?;
    push_numbered(text, b", core ", bar.core as u64)?;
    push_numbered(text, b", count ", bar.count as u64)?;
    push_word(text, b"</title>")?;
    Ok(())
}

/// Adds the bar itself, in the row of its core and the hue of its colour.
fn push_bar_shape(text: &mut Vec<u8>, top: u64, bar: &Bar) -> Result<(), AllocError>
    requires top { top < 2 ^ 40 }
    requires order { bar.now.begin ≤ bar.now.end }
    requires place { bar.now.end ≤ text_limit }
    ensures { OnOk result (text.new.items ≡ text.old.items ++ bar_shape top bar.now) }
{
    push_numbered(text, b"<rect class='bar' x='", left_of(bar.begin))?;
    push_numbered(text, b"' y='", row_top(top, bar.core))?;
    push_numbered(text, b"' width='", STEP * (bar.end - bar.begin))?;
    push_numbered(text, b"' height='32' rx='3' fill='hsl(", hue_of(bar.colour))?;
    push_word(text, b",70%,65%)'/>")?;
    Ok(())
}

/// Adds what stands on a bar: its colour, and below it the count.
fn push_bar_label(text: &mut Vec<u8>, top: u64, bar: &Bar) -> Result<(), AllocError>
    requires top { top < 2 ^ 40 }
    requires order { bar.now.begin ≤ bar.now.end }
    requires place { bar.now.end ≤ text_limit }
    ensures { OnOk result (text.new.items ≡ text.old.items ++ bar_label top bar.now) }
{
    let middle = left_of(bar.begin) + 14 * (bar.end - bar.begin);
    let row = row_top(top, bar.core);
    push_numbered(text, b"<text class='on' x='", middle)?;
    push_numbered(text, b"' y='", row + 14)?;
    push_numbered(text, b"'>", bar.colour as u64)?;
    push_numbered(text, b"</text><text class='on' x='", middle)?;
    push_numbered(text, b"' y='", row + 27)?;
    push_numbered(text, b"'>x", bar.count as u64)?;
    push_word(text, b"</text></g>\n")?;
    Ok(())
}
