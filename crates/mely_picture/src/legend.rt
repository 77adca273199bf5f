//! The legend of a picture.
ghost use Rattle.std.specs.Prelude.{◌≡◌, ◌<◌, ◌≤◌, ◌+◌, ◌++◌, ◌∷◌, [], IfOk, OnOk, length};
ghost use Rattle.std.specs.List.{flat_map};
ghost use Rattle.mely_picture.specs.Marks.{taken_colour, with_new, has};
ghost use Rattle.mely_picture.specs.Texts.{legend_item, legend_from};
ghost use Rattle.mely_picture.specs.Pictures.{if_there, own_colours};
ghost use Rattle.mely_picture.specs.Shown.{plot_colours, shown_legend};
ghost use Rattle.mely_picture.specs.Drawings.{text_limit};

use crate::digits::{push_numbered, push_word};
use crate::layout::hue_of;
use crate::plot::Plot;
use mely_history::{Entry, Setup};
use std::alloc::{AllocError, Global};

/// How many colours of a shard have a class of their own.
const OWN_CLASSES: u32 = 16;

/// The colours that the panels show, each once, in the order in which they come first.
pub fn shown_colours(alloc: Global, setup: &Setup, plots: &[Plot]) -> Result<Vec<u16>, AllocError>
    requires { length plots.now ≤ text_limit }
    ensures are { IfOk result (λ colours. colours.items ≡ shown_legend setup.now plots.now) }
    ensures few { IfOk result (λ colours. length colours.items ≤ 4294967296) }
{
    let mut colours = Vec::new(alloc);
    for (number, plot) in plots.iter().enumerate() {
        add_plot(&mut colours, setup, number as u32, plot)?;
    }
    Ok(colours)
}

/// Adds the colours that a panel shows and that aren't there yet.
fn add_plot(
    colours: &mut Vec<u16>,
    setup: &Setup,
    number: u32,
    plot: &Plot,
) -> Result<(), AllocError>
    ensures are { OnOk result (colours.new.items
        ≡ with_new colours.old.items (plot_colours setup.now number plot.now)) }
    ensures few { OnOk result (length colours.new.items ≤ length colours.old.items + 65536) }
{
    match plot {
        Plot::Whole(history) => add_colours(colours, &history.entries),
        Plot::Counted(_) => add_own(colours, setup.shards(), setup.colours(), number),
    }
}

/// Adds the colours of a shard that have a class of their own, where there are so many colours.
fn add_own(colours: &mut Vec<u16>, shards: u16, count: u32, number: u32) -> Result<(), AllocError>
    requires { count ≤ 65536 }
    ensures are { OnOk result (colours.new.items
        ≡ with_new colours.old.items (own_colours shards count number 16)) }
    ensures few { OnOk result (length colours.new.items ≤ length colours.old.items + 16) }
{
    for place in 0..OWN_CLASSES {
        let colour = u64::from(number) + u64::from(shards) * u64::from(place);
        add_within(colours, count, colour)?;
    }
    Ok(())
}

/// Adds a colour, if there are so many and it isn't there yet.
fn add_within(colours: &mut Vec<u16>, count: u32, colour: u64) -> Result<(), AllocError>
    requires { count ≤ 65536 }
    ensures are { OnOk result (colours.new.items
        ≡ with_new colours.old.items (if_there count colour)) }
    ensures few { OnOk result (length colours.new.items ≤ length colours.old.items + 1) }
{
    if colour >= u64::from(count) {
        return Ok(());
    }
    add_number(colours, colour as u16)?;
    Ok(())
}

/// Adds the colours of a history's bars that aren't there yet.
fn add_colours(colours: &mut Vec<u16>, history: &[Entry]) -> Result<(), AllocError>
    ensures are { OnOk result (colours.new.items
        ≡ with_new colours.old.items (flat_map taken_colour history.now)) }
    ensures few { OnOk result
        (length colours.new.items ≤ length colours.old.items + length history.now) }
{
    for entry in history {
        add_colour(colours, entry)?;
    }
    Ok(())
}

/// Adds the colour of an entry that takes some of it, if it isn't there yet.
fn add_colour(colours: &mut Vec<u16>, entry: &Entry) -> Result<(), AllocError>
    ensures are { OnOk result (colours.new.items
        ≡ with_new colours.old.items (taken_colour entry.now)) }
    ensures few { OnOk result (length colours.new.items ≤ length colours.old.items + 1) }
{
    match *entry {
        Entry::Take { colour, .. } => add_number(colours, colour.0),
        _ => Ok(()),
    }
}

/// Adds a number, if it isn't there yet.
fn add_number(numbers: &mut Vec<u16>, number: u16) -> Result<(), AllocError>
    ensures are { OnOk result (numbers.new.items
        ≡ with_new numbers.old.items (number ∷ [])) }
    ensures few { OnOk result (length numbers.new.items ≤ length numbers.old.items + 1) }
{
    if is_there(numbers, number) {
        return Ok(());
    }
    numbers.push(number)?;
    Ok(())
}

/// Whether a number is one of these.
fn is_there(numbers: &[u16], number: u16) -> bool
    ensures { result ≡ has number numbers.now }
{
    for other in numbers {
        if *other == number {
            return true;
        }
    }
    false
}

/// Adds the legend of these colours.
pub fn push_legend(text: &mut Vec<u8>, colours: &[u16]) -> Result<(), AllocError>
    requires { length colours.now ≤ 4294967296 }
    ensures { OnOk result (text.new.items ≡ text.old.items ++ legend_from 0 colours.now) }
{
    for (at, colour) in colours.iter().enumerate() {
        push_item(text, at as u64, *colour)?;
    }
    Ok(())
}

/// Adds a colour of the legend, at its place there.
fn push_item(text: &mut Vec<u8>, at: u64, colour: u16) -> Result<(), AllocError>
    requires { at < 4294967296 }
    ensures { OnOk result (text.new.items ≡ text.old.items ++ legend_item at colour) }
{
    let left = 16 + 100 * (at % 6);
    let top = 14 + 24 * (at / 6);
    push_numbered(text, b"<rect class='bar' width='14' height='14' x='", left)?;
    push_numbered(text, b"' y='", top)?;
    push_numbered(text, b"' fill='hsl(", hue_of(colour))?;
    push_numbered(text, b",70%,65%)'/><text x='", left + 20)?;
    push_numbered(text, b"' y='", top + 12)?;
    push_numbered(text, b"'>colour ", colour as u64)?;
    push_word(text, b"</text>\n")?;
    Ok(())
}
