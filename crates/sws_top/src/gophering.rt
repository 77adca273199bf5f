//! The command `gopher`: a script, run in memory, or connections from outside, out of the hall of a
//! site.
ghost use Rattle.std.specs.Prelude.{◌≡◌, ◌≤◌, IfSome, length};
ghost use Rattle.sws_gopher.specs.Halls.{host_limit};
ghost use Rattle.sws_top.specs.Faults.{fault_of, status_of};
ghost use Rattle.sws_top.specs.Hands.{hands};
ghost use Rattle.sws_top.specs.RanGopher.{RanGopher, RanGopherScript, RanGopherServe};
ghost use Rattle.sws_top.specs.Ranges.{IsBetween, IsRunShape};
ghost use Rattle.sws_link.specs.Limits.{conn_limit};

use crate::faults::TopFault;
use crate::outcomes::Outcome;
use crate::replaying::replay_script;
use crate::serving::{Serving, serve_hall};
use crate::sites::open_site;
use mely_history::Shape;
use std::sync::Wait;
use std::thread::Threads;
use sws_conn::Talk;
use sws_gopher::{GopherConn, Hall};
use sws_link::{Folder, MemLink, Sink, Source, World};

/// Where clients are told to come, and what is run.
#[derive(Clone, Copy, Debug)]
pub struct Gophering<'h> {
    /// The name of the host that menus give, at most 255 bytes.
    pub host: &'h str,
    /// The port that menus give, 1 to 65,535, at which connections from outside come in.
    pub port: u16,
    /// How many connections from outside are served, 1 to 1,024; without it a script is run.
    pub connections: Option<u16>,
    pub shape: Shape,
    /// Whether the histories of a script's run are written too.
    pub journal: bool,
}

/// Runs `gopher`: on the site of the folder, in its hall, the script that the source gives, or the
/// connections that the world gives.
pub fn gopher<
    T: AllocGlobal + Threads + Wait + Sync,
    F: Folder,
    R: Source,
    W: World + Drop + Send,
    O: Sink,
>(
    rt: &T,
    path: &str,
    how: &Gophering<'_>,
    folder: &mut F,
    source: &mut R,
    world: W,
    out: &mut O,
) -> Outcome<W>
where
    W::Link: Send,
    requires host { length how.now.host.now ≤ host_limit }
    requires shape { IsRunShape how.now.shape }
    requires connections { IfSome how.now.connections (IsBetween 1 conn_limit) }
    ensures status { result.status ≡ status_of result.fault }
    ensures ran { RanGopher F.Folder R.Source W.World W.Link.Link O.Sink
        ⟦<GopherConn<'static, W::Link> as Talk<W::Link>>⟧
        (hands folder.old source.old out.old) (hands folder.new source.new out.new) world result
        path.now how.now.host.now how.now.port how.now.connections how.now.shape
        how.now.journal }
{
    match how.connections {
        None => {
            let ended = gopher_source(rt, path, how, folder, source, out);
            Outcome::without_run(world, ended)
        }
        Some(connections) => { gopher_world(rt, path, how, connections, folder, world, out) }
    }
}

/// Runs the script that the source gives.
fn gopher_source<T: AllocGlobal + Threads + Wait + Sync, F: Folder, R: Source, O: Sink>(
    rt: &T,
    path: &str,
    how: &Gophering<'_>,
    folder: &mut F,
    source: &mut R,
    out: &mut O,
) -> Result<(), TopFault>
    requires host { length how.now.host.now ≤ host_limit }
    requires shape { IsRunShape how.now.shape }
    ensures { RanGopherScript F.Folder R.Source O.Sink (hands folder.old source.old out.old)
        (hands folder.new source.new out.new) (fault_of result)
        path.now how.now.host.now how.now.port how.now.shape how.now.journal }
{
    let alloc = rt.alloc();
    let site = match open_site(alloc, path, None, folder) {
        Ok(site) => site,
        Err(fault) => return Err(fault),
    };
    let Ok(hall) = Hall::new(alloc, &site, how.host, how.port) else {
        return Err(TopFault::Memory);
    };
    replay_script::<T, GopherConn<'_, MemLink>, R, O>(
        rt,
        &hall,
        &how.shape,
        how.journal,
        false,
        source,
        out,
    )
}

/// Serves so many connections that the world gives, without a log.
fn gopher_world<T: AllocGlobal + Threads + Wait + Sync, F: Folder, W: World + Drop + Send, O: Sink>(
    rt: &T,
    path: &str,
    how: &Gophering<'_>,
    connections: u16,
    folder: &mut F,
    world: W,
    out: &mut O,
) -> Outcome<W>
where
    W::Link: Send,
    requires host { length how.now.host.now ≤ host_limit }
    requires shape { IsRunShape how.now.shape }
    requires connections { IsBetween 1 conn_limit connections }
    ensures status { result.status ≡ status_of result.fault }
    ensures ran { RanGopherServe F.Folder W.World W.Link.Link O.Sink
        ⟦<GopherConn<'static, W::Link> as Talk<W::Link>>⟧
        folder.old folder.new out.old out.new world result
        path.now how.now.host.now how.now.port connections how.now.shape }
{
    let alloc = rt.alloc();
    let site = match open_site(alloc, path, None, folder) {
        Ok(site) => site,
        Err(fault) => return Outcome::without_run(world, Err(fault)),
    };
    let Ok(hall) = Hall::new(alloc, &site, how.host, how.port) else {
        return Outcome::without_run(world, Err(TopFault::Memory));
    };
    let serving = Serving {
        port: how.port,
        connections,
        shape: how.shape,
        log: false,
    };
    serve_hall::<T, W, GopherConn<'_, W::Link>, O>(rt, &hall, &serving, world, out)
}
