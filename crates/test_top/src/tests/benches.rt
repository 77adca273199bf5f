//! What no clause says: the numbers of worked rows.
ghost use Rattle.std.specs.Prelude.{◌≡◌, ◌≤◌, ◌+◌, None};
ghost use Rattle.mely_history.specs.Setup.{first_out_of_range};

use mely_history::Shape;
use std::alloc::Global;
use std::sync::Wait;
use std::thread::Threads;
use sws_bench::{bench, bench_script};
use sws_link::SureSink;
use sws_replay::RunFault;
use sws_script::{Item, ScriptConn};

const ONE_WORKER: Shape = Shape {
    cores: 1,
    shards: 1,
    batch: 10,
    steal_cost: 20,
    group: 4,
};

const EIGHT_WORKERS: Shape = Shape {
    cores: 8,
    shards: 4,
    batch: 10,
    steal_cost: 20,
    group: 4,
};

/// One request in pieces of 23 bytes.
static PIECES: [&[u8]; 2] = [b"GET /f0.txt HTTP/1.1\r\nH", b"ost: b\r\n\r\n"];

/// Whether a connection sends these pieces, and no others.
fn sends(conn: &ScriptConn, pieces: &[&[u8]]) -> bool {
    let mut places = pieces.iter();
    for item in conn.items.as_slice() {
        match (item, places.next()) {
            (Item::Send(piece), Some(want)) if piece.bytes() == *want => {}
            _ => return false,
        }
    }
    places.next().is_none()
}

/// Whether the script of a bench of one connection has one, which sends these pieces.
fn is_drawn(alloc: Global, pieces: &[&[u8]]) -> bool {
    match bench_script(alloc, 1, 1) {
        Ok(conns) => match conns.as_slice() {
            [conn] => sends(conn, pieces),
            _ => false,
        },
        Err(_) => false,
    }
}

#[test]
fn one_connection(rt: HostRuntime) {
    assert!(rt; is_drawn(rt.alloc(), &PIECES));
}

/// Whether this is written of a bench on so many workers and shards.
fn is_summed_up<R: Threads + Wait + Sync>(
    rt: &R,
    alloc: Global,
    connections: u16,
    number: u32,
    shape: &Shape,
    summary: &[u8],
) -> Result<bool, RunFault>
    requires few { connections ≤ 1024 }
    requires shape { first_out_of_range shape.now (connections + 2) 1 ≡ None }
{
    let mut sink = SureSink::new(alloc);
    bench(rt, alloc, connections, number, shape, &mut sink)?;
    Ok(sink.written() == summary)
}

/// One request is answered, with a file.
const ONE: &[u8] = b"connections 1 done 1 idle 0 fault 0\nread 33 written 142\n";

/// Many connections on several workers, with the numbers that another program found.
const MANY: &[u8] = b"connections 1024 done 1024 idle 0 fault 0\nread 152988 written 2382941\n";

#[test]
fn connections_are_counted(rt: HostRuntime) {
    assert!(rt; is_summed_up(&rt, rt.alloc(), 1, 1, &ONE_WORKER, ONE) == Ok(true));
    assert!(rt; is_summed_up(&rt, rt.alloc(), 1024, 7, &EIGHT_WORKERS, MANY) == Ok(true));
}
