//! Arrows.
ghost use Rattle.std.specs.Prelude.{◌≡◌, ◌<◌, ◌≤◌, ◌++◌, ◌^◌, OnOk};
ghost use Rattle.mely_picture.specs.Marks.{arrow as arrow_mark};
ghost use Rattle.mely_picture.specs.Texts.{arrow_title, arrow_shape, mark_text};
ghost use Rattle.mely_picture.specs.Drawings.{text_limit};

use crate::digits::{push_numbered, push_word};
use crate::layout::{hue_of, left_of, row_top};
use std::alloc::AllocError;

/// A steal: a colour goes over from one core to another.
#[derive(Clone, Copy, Debug, PartialEq, Eq)]
pub struct Arrow {
    pub colour: u16,
    pub from: u16,
    pub to: u16,

    /// The place of the steal among the entries of its shard, counted from 0.
    pub at: u64,
}

/// Adds an arrow from the middle of one row to the middle of another.
pub fn push_arrow(text: &mut Vec<u8>, top: u64, arrow: &Arrow) -> Result<(), AllocError>
    requires top { top < 2 ^ 40 }
    requires place { arrow.now.at ≤ text_limit }
    ensures { OnOk result (text.new.items
        ≡ text.old.items ++ mark_text top (arrow_mark arrow.now)) }
{
    push_arrow_title(text, arrow)?;
    push_arrow_shape(text, top, arrow)?;
    Ok(())
}

/// Adds the arrow itself.
fn push_arrow_shape(text: &mut Vec<u8>, top: u64, arrow: &Arrow) -> Result<(), AllocError>
    requires top { top < 2 ^ 40 }
    requires place { arrow.now.at ≤ text_limit }
    ensures { OnOk result (text.new.items ≡ text.old.items ++ arrow_shape top arrow.now) }
{
    push_numbered(
        text,
        b"<path class='steal' stroke='hsl(",
        hue_of(arrow.colour),
    )?;
    push_numbered(
        text,
        b",70%,50%)' marker-end='url(#tip)' d='M ",
        left_of(arrow.at) + 14,
    )?;
    push_numbered(text, b" ", row_top(top, arrow.from) + 16)?;
    push_numbered(text, b" V ", row_top(top, arrow.to) + 16)?;
    push_word(text, b"'/></g>\n")?;
    Ok(())
}

/// Adds what an arrow says under the pointer.
fn push_arrow_title(text: &mut Vec<u8>, arrow: &Arrow) -> Result<(), AllocError>
    ensures { OnOk result (text.new.items ≡ text.old.items ++ arrow_title arrow.now) }
{
    push_numbered(text, b"<g><title>entry ", arrow.at)?;
    push_numbered(text, b": colour ", arrow.colour as u64)?;
    push_numbered(text, b", stolen from core ", arrow.from as u64)?;
    push_numbered(text, b" by core ", arrow.to as u64)?;
    push_word(text, b"</title>")?;
    Ok(())
}
