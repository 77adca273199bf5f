//! The whole of a picture.
ghost use Rattle.std.specs.Prelude.{◌≡◌, ◌<◌, ◌≤◌, ◌++◌, ◌^◌, IfOk, OnOk, length};
ghost use Rattle.mely_picture.specs.Layout.{picture_width as width_of_picture, panels_top as top_of_panels};
ghost use Rattle.mely_picture.specs.Texts.{opening};
ghost use Rattle.mely_picture.specs.Shown.{plot_width, widest_plot, shown_with, shown_picture};
ghost use Rattle.mely_picture.specs.Drawings.{text_limit};

use crate::bucket::PANEL_WIDTH;
use crate::digits::{push_numbered, push_word};
use crate::layout::STEP;
use crate::legend::{push_legend, shown_colours};
use crate::panel::{panel_height, push_panels};
use crate::plot::Plot;
use mely_history::Setup;
use std::alloc::{AllocError, Global};

/// The style: of the page, of the text, of the rows, of bars, of what stands on them, of arrows.
const STYLE: &[u8] = b"<style>.page{fill:#fff}text{fill:#222}.head{font-weight:bold}.row{fill:#eee}\
.bar{stroke:#222;stroke-width:.5}.on{fill:#111;text-anchor:middle;font-size:11px}\
.steal{fill:none;stroke-width:2.5}.tip{fill:#222}\
@media(prefers-color-scheme:dark){.page{fill:#16181c}text{fill:#ddd}.row{fill:#2a2e35}\
.on{fill:#111}.tip{fill:#ddd}}</style>\n";

/// The tip of an arrow, and the page.
const PAGE: &[u8] = b"<defs><marker id='tip' markerWidth='12' markerHeight='12' refX='9' refY='5' \
orient='auto' markerUnits='userSpaceOnUse'><path class='tip' d='M 0 0 L 10 5 L 0 10 z'/>\
</marker></defs>\n<rect class='page' width='100%' height='100%'/>\n";

/// The picture of a run, as SVG: a legend, and a panel for each shard, by what was kept of their
/// histories in their order.
///
/// # Errors
///
/// An allocation was refused.
pub fn make_picture(alloc: Global, setup: &Setup, plots: &[Plot]) -> Result<Vec<u8>, AllocError>
    requires { length plots.now ≤ text_limit }
    ensures { IfOk result (λ text. text.items ≡ shown_picture setup.now plots.now) }
{
    let colours = shown_colours(alloc, setup, plots)?;
    let mut text = Vec::new(alloc);
    push_picture(&mut text, setup, &colours, plots)?;
    Ok(text)
}

/// Adds the picture with a legend of these colours.
fn push_picture(
    text: &mut Vec<u8>,
    setup: &Setup,
    colours: &[u16],
    plots: &[Plot],
) -> Result<(), AllocError>
    requires few { length colours.now ≤ 4294967296 }
    requires few_plots { length plots.now ≤ text_limit }
    ensures { OnOk result (text.new.items ≡ text.old.items
        ++ shown_with setup.now colours.now plots.now) }
{
    let cores = setup.cores();
    let top = panels_top(colours.len() as u64);
    let width = picture_width(widest(plots));
    let height = top + panel_height(cores) * plots.len() as u64;
    push_opening(text, width, height)?;
    push_word(text, STYLE)?;
    push_word(text, PAGE)?;
    push_legend(text, colours)?;
    push_panels(text, setup, top, plots)?;
    push_word(text, b"</svg>\n")?;
    Ok(())
}

/// The upper edge of the first panel, below a legend of so many colours.
fn panels_top(colours: u64) -> u64
    requires { colours ≤ 4294967296 }
    ensures value { result ≡ top_of_panels colours }
    ensures range { result < 2 ^ 36 }
{
    14 + 24 * ((colours + 5) / 6)
}

/// The width of a picture whose longest history has so many entries.
fn picture_width(longest: u64) -> u64
    requires { longest ≤ text_limit }
    ensures { result ≡ width_of_picture longest }
{
    u64::max(632, 92 + STEP * longest)
}

/// How many entries the widest panel is wide.
fn widest(plots: &[Plot]) -> u64
    ensures value { result ≡ widest_plot plots.now }
    ensures range { result ≤ text_limit }
{
    let mut most = 0;
    for plot in plots {
        most = u64::max(most, width_of(plot));
    }
    most
}

/// How many entries a panel is wide.
fn width_of(plot: &Plot) -> u64
    ensures value { result ≡ plot_width plot.now }
    ensures range { result ≤ text_limit }
{
    match plot {
        Plot::Whole(history) => history.entries.len() as u64,
        Plot::Counted(_) => PANEL_WIDTH,
    }
}

/// Adds the beginning of a picture of this size.
fn push_opening(text: &mut Vec<u8>, width: u64, height: u64) -> Result<(), AllocError>
    ensures { OnOk result (text.new.items ≡ text.old.items ++ opening width height) }
{
    push_numbered(
        text,
        b"<svg xmlns='http://www.w3.org/2000/svg' width='",
        width,
    )?;
    push_numbered(text, b"' height='", height)?;
    push_numbered(text, b"' viewBox='0 0 ", width)?;
    push_numbered(text, b" ", height)?;
    push_word(text, b"' font-family='sans-serif' font-size='12'>\n")?;
    Ok(())
}
