//! How a run ends: its output is handed over, and its fault is said.
ghost use Rattle.std.specs.Prelude.{◌≡◌, false, map, string_bytes, OnOk};
ghost use Rattle.std.specs.Io.KnownBytes.{Appends};
ghost use Rattle.sws_link.specs.Counts.{HasCause};
ghost use Rattle.sws_top.specs.Faults.{status_of};
ghost use Rattle.sws_top.specs.Hands.{hands};
ghost use Rattle.sws_command.specs.Ends.{last_fault, said_of, RunsToEnd};

use std::io::{self, Write};
use std::sync::Wait;
use std::thread::Threads;
use sws_conn::{Conn, Talk};
use sws_files::StdSink;
use sws_gopher::GopherConn;
use sws_link::{Folder, Sink, Source, World};
use sws_top::{TopFault, sws};

/// A sink whose output is to be handed over at the end.
pub trait Ending: Sink {
    /// Hands over what was collected, and says whether all was written since the sink was made.
    fn finish(&mut self) -> bool
        ensures { HasCause (Self.faults self.old) (Self.faults self.new) (result ≡ false) };
}

impl<'o, W: Write + Drop> Ending for StdSink<'o, W> {
    fn finish(&mut self) -> bool {
        StdSink::finish(self)
    }
}

/// The fault of a run, by its outcome and by whether its output was handed over at the end.
fn fault_at_last(fault: Option<TopFault>, is_whole: bool) -> Option<TopFault>
    ensures { result ≡ last_fault fault is_whole }
{
    match fault {
        None if !is_whole => Some(TopFault::WriteFault),
        fault => fault,
    }
}

/// Runs the words on these objects, hands over what they wrote, and answers the fault of the run,
/// if it has one: that of its outcome, or one of writing where there is none but the output
/// couldn't be handed over.
pub fn run_to_end<
    T: AllocGlobal + Threads + Wait + Sync,
    F: Folder,
    R: Source,
    W: World + Drop + Send,
    O: Ending,
>(
    rt: &T,
    words: &[String],
    folder: &mut F,
    source: &mut R,
    world: W,
    out: &mut O,
) -> Option<TopFault>
where
    W::Link: Send,
    ensures { RunsToEnd F.Folder R.Source W.World W.Link.Link O.Sink
        ⟦<Conn<'static, W::Link> as Talk<W::Link>>⟧
        ⟦<GopherConn<'static, W::Link> as Talk<W::Link>>⟧
        (hands folder.old source.old out.old) (hands folder.new source.new out.new)
        world (map string_bytes words.now) result }
{
    let outcome = sws(rt, words, folder, source, world, out);
    let is_whole = out.finish();
    fault_at_last(outcome.fault, is_whole)
}

/// The status that the program ends with.
pub fn status_at_last(fault: Option<TopFault>) -> u8
    ensures { result ≡ status_of fault }
{
    match fault {
        None => 0,
        Some(fault) => fault.status(),
    }
}

/// Says a fault, in a line.
pub fn say<E: Write>(errors: &mut E, fault: TopFault) -> io::Result<()>
    ensures { OnOk result (Appends (E.contents errors.old) (E.contents errors.new)
        (said_of fault)) }
{
    writeln!(errors, "{fault}")
}
