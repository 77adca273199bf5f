//! Drawing a printed journal.
ghost use Rattle.std.specs.Prelude.{◌≡◌, ◌≢◌, ℕ, List, Err, IfOk};
ghost use Rattle.mely_history.specs.declared.setup.Setup.{Setup as SetupValue};
ghost use Rattle.mely_check.specs.declared.fault.CheckFault.TheVariants as check;
ghost use Rattle.sws_link.specs.Counts.{HasCause};
ghost use Rattle.mely_picture.specs.Drawings.{Draws, DrawsTold, DrawsRuns, IsDrawing, IsKept, IsPictureOf};

use crate::drawer::Drawer;
use crate::fault::DrawFault;
use crate::picture::make_picture;
use mely_check::{CheckFault, hear_journal};
use mely_history::Setup;
use std::alloc::{AllocError, Global};
use sws_link::{Put, Sink, Source};

/// Reads a journal once, to its end, and then writes the picture of its run, as SVG.
///
/// What is read is not kept: of each history there are its first entries, up to 4,096, or, where it
/// has more, the counts of its buckets.
///
/// # Errors
///
/// The first of these that holds. `Check(Read)` only where the source failed in this call; `Check`
/// of another fault where the checker finds that of the text. So far nothing was written. `Write`
/// only where the sink failed in this call: then a front of the picture was written.
/// `Check(Memory)` where an allocation was refused, with nothing or a front of the picture written.
pub fn draw_journal<R: Source, O: Sink>(
    alloc: Global,
    setup: &Setup,
    source: &mut R,
    sink: &mut O,
) -> Result<(), DrawFault>
    ensures draws { DrawsTold setup.now (R.left source.old) (O.written sink.old)
        (O.written sink.new) result }
    ensures runs { DrawsRuns setup.now (R.left source.old) result }
    ensures read_cause { HasCause (R.faults source.old) (R.faults source.new)
        (result ≡ Err (DrawFault.Check check.Read)) }
    ensures write_cause { HasCause (O.faults sink.old) (O.faults sink.new)
        (result ≡ Err DrawFault.Write) }
{
    let mut drawer = Drawer::new(alloc, setup);
    match hear_journal(alloc, setup, source, &mut drawer) {
        Ok(_) => write_picture(alloc, drawer, sink),
        Err(fault) => Err(DrawFault::Check(fault)),
    }
}

/// Writes the picture of what was heard.
fn write_picture<O: Sink>(alloc: Global, drawer: Drawer, sink: &mut O) -> Result<(), DrawFault>
    ensures draws { (setup : SetupValue) (text : List ℕ) → IsKept setup text drawer
        → Draws setup text (O.written sink.old) (O.written sink.new) result }
    ensures drawing { IsDrawing result }
    ensures no_read { result ≢ Err (DrawFault.Check check.Read) }
    ensures write_cause { HasCause (O.faults sink.old) (O.faults sink.new)
        (result ≡ Err DrawFault.Write) }
{
    let Ok(picture) = picture_of(alloc, drawer) else {
        return Err(DrawFault::Check(CheckFault::Memory));
    };
    match sink.write_all(&picture) {
        Put::Done => Ok(()),
        Put::Failed => Err(DrawFault::Write),
        Put::Memory => Err(DrawFault::Check(CheckFault::Memory)),
    }
}

/// The picture of what was heard.
fn picture_of(alloc: Global, drawer: Drawer) -> Result<Vec<u8>, AllocError>
    ensures { IfOk result (λ picture. IsPictureOf drawer picture.items) }
{
    let setup = drawer.setup;
    let plots = drawer.into_plots()?;
    let picture = make_picture(alloc, &setup, &plots)?;
    Ok(picture)
}
