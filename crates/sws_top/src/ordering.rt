//! The top call: from the words to the command that they order.
ghost use Rattle.std.specs.Prelude.{◌≡◌, ◌≢◌, ℕ, List, Some, None, map, string_bytes};
ghost use Rattle.sws_words.specs.Orders.{order_of, Order as OrderValue};
ghost use Rattle.sws_words.specs.Told.{order_view};
ghost use Rattle.sws_top.specs.Causes.{HasCauses, IsDone, IsSound, NothingFailed};
ghost use Rattle.sws_top.specs.Faults.{status_of};
ghost use Rattle.sws_top.specs.Hands.{hands};
ghost use Rattle.sws_top.specs.Printed.{PrintsJournal};
ghost use Rattle.sws_top.specs.Ran.{IsRefused, Ran, RanAs};
ghost use Rattle.sws_top.specs.Ranges.{IsInRange};

use crate::answering::answer;
use crate::benching::bench_shape;
use crate::checking::check;
use crate::faults::TopFault;
use crate::gophering::{Gophering, gopher};
use crate::outcomes::Outcome;
use crate::replaying::{Replaying, replay_source};
use crate::serving::{Serving, serve};
use std::sync::Wait;
use std::thread::Threads;
use sws_conn::{Conn, Talk};
use sws_gopher::GopherConn;
use sws_link::{Folder, Sink, Source, World};
use sws_words::{Order, WordFault, read_words};

/// Runs the command that the words say, and says how that ended.
///
/// The words are those behind the program's name. The order is: words, site, the hall of Gopher,
/// reading the source, script, run, output; the first fault decides. `answer` answers what was read
/// before it tells a fault of the source; the others write nothing before their run has ended well.
///
/// # Errors
///
/// - `Usage` (status 2) exactly where the words are no command line; nothing is
///   opened, read or written.
/// - `BadScript` (3) exactly where this line is the first outside the grammar, and no earlier one
///   begins connection 1,025.
/// - `ReadFault` (4) only where the folder or the source failed in this call.
/// - `WriteFault` (5) only where the sink failed in this call.
/// - `WorldFault` (6) only where the world failed in this call.
/// - `Memory` (7) where an allocation was refused, in place of whatever else would have come.
/// - `SiteFull` (8) exactly at the first file that is more than a site holds;
///   nothing is read or written.
/// - `TooMany` (9) exactly where this line begins connection 1,025, and no earlier
///   one is outside the grammar.
/// - `BadJournal` (10), `NotLegal` (11) and `NotDrained` (12) exactly where the source's bytes are
///   no accepted journal, and the first of these three that is so of them.
/// - `Apart` (13) never: no run loses a connection, on one worker or on several.
pub fn sws<
    T: AllocGlobal + Threads + Wait + Sync,
    F: Folder,
    R: Source,
    W: World + Drop + Send,
    O: Sink,
>(rt: &T, words: &[String], folder: &mut F, source: &mut R, world: W, out: &mut O) -> Outcome<W>
where
    W::Link: Send,
    ensures status { result.status ≡ status_of result.fault }
    ensures usage { result.fault ≡ Some TopFault.Usage
        → order_of (map string_bytes words.now) ≡ None }
    ensures refused { order_of (map string_bytes words.now) ≡ None
        → IsRefused (hands folder.old source.old out.old)
        (hands folder.new source.new out.new) world result }
    ensures ran { (order : OrderValue) → order_of (map string_bytes words.now) ≡ Some order
        → Ran F.Folder R.Source W.World W.Link.Link O.Sink
        ⟦<Conn<'static, W::Link> as Talk<W::Link>>⟧
        ⟦<GopherConn<'static, W::Link> as Talk<W::Link>>⟧
        (hands folder.old source.old out.old) (hands folder.new source.new out.new)
        world result order }

    // what it prints as a journal is one that `check` accepts
    ensures accepted { (order : OrderValue) (sent : List ℕ)
        → order_of (map string_bytes words.now) ≡ Some order
        → result.fault ≡ None → O.written out.old ≡ Some sent
        → PrintsJournal R.Source O.Sink (hands folder.old source.old out.old)
        (hands folder.new source.new out.new) sent order }
    ensures causes { HasCauses F.Folder R.Source W.World O.Sink
        (hands folder.old source.old out.old) (hands folder.new source.new out.new)
        world result }
    ensures lost { (conn : ℕ) → result.fault ≢ Some (TopFault.Apart conn) }

    // words in the grammar, a site, a script and a journal as they must be, and no fault outside
    ensures complete { (order : OrderValue) → order_of (map string_bytes words.now) ≡ Some order
        → IsSound F.Folder R.Source W.World O.Sink
        (hands folder.old source.old out.old) (hands folder.new source.new out.new)
        world result order
        → NothingFailed F.Folder R.Source W.World O.Sink
        (hands folder.old source.old out.old) (hands folder.new source.new out.new)
        world result
        → IsDone F.Folder R.Source W.World O.Sink
        (hands folder.old source.old out.old) (hands folder.new source.new out.new)
        world result }
{
    match read_words(rt.alloc(), words) {
        Ok(order) => run(rt, &order, folder, source, world, out),
        Err(WordFault::Usage) => Outcome::without_run(world, Err(TopFault::Usage)),
        Err(WordFault::Memory) => Outcome::without_run(world, Err(TopFault::Memory)),
    }
}

/// Runs an order with what it needs of the outside, and leaves the rest alone.
fn run<
    T: AllocGlobal + Threads + Wait + Sync,
    F: Folder,
    R: Source,
    W: World + Drop + Send,
    O: Sink,
>(rt: &T, order: &Order, folder: &mut F, source: &mut R, world: W, out: &mut O) -> Outcome<W>
where
    W::Link: Send,
    requires range { IsInRange (order_view order.now) }
    ensures status { result.status ≡ status_of result.fault }
    ensures ran { RanAs F.Folder R.Source W.World W.Link.Link O.Sink
        ⟦<Conn<'static, W::Link> as Talk<W::Link>>⟧
        ⟦<GopherConn<'static, W::Link> as Talk<W::Link>>⟧
        (hands folder.old source.old out.old) (hands folder.new source.new out.new)
        world result (order_view order.now) }
{
    match order {
        Order::Answer { folder: path, date } => {
            let ended = answer(rt.alloc(), path.as_str(), *date, folder, source, out);
            Outcome::without_run(world, ended)
        }
        Order::Replay {
            folder: path,
            shape,
            date,
            journal,
            schedule,
            log,
        } => {
            let how = Replaying {
                shape: *shape,
                journal: *journal,
                schedule: *schedule,
                log: *log,
            };
            let ended = replay_source(rt, path.as_str(), *date, &how, folder, source, out);
            Outcome::without_run(world, ended)
        }
        Order::Serve {
            folder: path,
            port,
            connections,
            shape,
            date,
            log,
        } => {
            let how = Serving {
                port: *port,
                connections: *connections,
                shape: *shape,
                log: *log,
            };
            serve(rt, path.as_str(), *date, &how, folder, world, out)
        }
        Order::Bench {
            connections,
            number,
            shape,
        } => {
            let ended = bench_shape(rt, *connections, *number, shape, out);
            Outcome::without_run(world, ended)
        }
        Order::Check {
            connections,
            shape,
            log,
        } => {
            let ended = check(rt.alloc(), *connections, *log, shape, source, out);
            Outcome::without_run(world, ended)
        }
        Order::Gopher {
            folder: path,
            host,
            port,
            connections,
            shape,
            journal,
        } => {
            let how = Gophering {
                host: host.as_str(),
                port: *port,
                connections: *connections,
                shape: *shape,
                journal: *journal,
            };
            gopher(rt, path.as_str(), &how, folder, source, world, out)
        }
    }
}
