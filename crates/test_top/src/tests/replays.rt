//! What the run of a script leaves, and connections of which each waits for the other.
ghost use Rattle.std.specs.Prelude.{◌≡◌, ◌≤◌, ◌+◌, None, length};
ghost use Rattle.mely_history.specs.Setup.{first_out_of_range};
ghost use Rattle.sws_script.specs.Inputs.{IsInput};

use super::THREE_SHOWN;
use super::meeting::{MeetingConn, Room};
use super::replaying::site;
use super::watched::setup_of;
use mely_history::Shape;
use std::process::Abort;
use std::sync::Wait;
use std::thread::Threads;
use sws_conn::End;
use sws_link::{MemSink, Sink, SureSink};
use sws_replay::{RunFault, replay, replay_talks, run_script};
use sws_script::{Input, parse};

/// The script of three connections: a request for the first file, one for the empty file, and none.
const THREE: &[u8] =
    b"sws-script 1\nconn\nsend GET / HTTP/1.1~Host: x~~\nconn\nsend GET /empty.css HTTP/1.1~Host: x~~\nconn\n";

/// Two workers, which steal what is worth more than 5.
const TWO: Shape = Shape {
    cores: 2,
    shards: 1,
    batch: 10,
    steal_cost: 5,
    group: 4,
};

/// The input of a text for so many workers.
fn parsed(rt: &(impl AllocGlobal + Abort), text: &[u8], schedule: bool, cores: u16) -> Input
    ensures input { IsInput schedule cores result }
    ensures few { length result.conns ≤ 1024 }
{
    match parse(rt.alloc(), text, schedule, cores) {
        Ok(input) => input,
        Err(_) => panic!(rt; "the text spells no input"),
    }
}

/// The input of a text for a run of this shape.
fn read(rt: &(impl AllocGlobal + Abort), text: &[u8], schedule: bool, shape: &Shape) -> Input
    ensures input { IsInput schedule shape.now.cores result }
    ensures few { length result.conns ≤ 1024 }
    ensures shape { first_out_of_range shape.now (length result.conns + 2) 1 ≡ None }
{
    let input = parsed(rt, text, schedule, shape.cores);
    setup_of(rt, shape, input.conns.as_slice().len() as u32 + 2);
    input
}

/// Replays a script on this shape, with or without its journal.
fn replayed<O: Sink>(
    rt: &(impl AllocGlobal + Abort + Threads + Wait + Sync),
    script: &[u8],
    shape: &Shape,
    journal: bool,
    sink: &mut O,
) -> Result<(), RunFault> {
    let input = read(rt, script, false, shape);
    let conns = input.conns.as_slice();
    replay(
        rt,
        rt.alloc(),
        &site(rt),
        shape,
        conns,
        journal,
        false,
        sink,
    )
}

/// How a connection has ended, and how many bytes were read of it and written to it.
type Left = (Option<End>, u64, u64);

/// Whether a run of a script on two workers leaves these.
fn leaves(
    rt: &(impl AllocGlobal + Abort + Threads + Wait + Sync),
    script: &[u8],
    wanted: &[Left],
) -> bool {
    let input = read(rt, script, false, &TWO);
    let site = site(rt);
    let conns = input.conns.as_slice();
    let Ok(run) = run_script(rt, rt.alloc(), &site, &TWO, conns, false, false) else {
        return false;
    };
    for (conn, left) in run.served.iter().zip(wanted) {
        if (conn.end, conn.read, conn.written) != *left {
            return false;
        }
    }
    run.served.len() == wanted.len()
}

/// What the script of three connections leaves.
static THREE_LEAVE: [Left; 3] = [
    (Some(End::Done), 27, 79),
    (Some(End::Done), 36, 75),
    (Some(End::Done), 0, 0),
];

#[test]
fn a_run_leaves_what_was_served(rt: HostRuntime) {
    assert!(rt; leaves(&rt, THREE, &THREE_LEAVE));
}

/// Whether a replay with its journal tells of a sink that fails at its second call, and leaves a front of
/// the transcript there.
fn is_sink_told(rt: &(impl AllocGlobal + Abort + Threads + Wait + Sync)) -> bool {
    let mut failing = Vec::new(rt.alloc());
    failing.push(2).expect(rt, "memory");
    let mut sink = MemSink::new(rt.alloc(), failing);
    let wrote = replayed(rt, THREE, &TWO, true, &mut sink);
    wrote == Err(RunFault::Write)
        && sink.written().starts_with(b"conn 0 done 79\n")
        && THREE_SHOWN.starts_with(sink.written())
}

#[test]
fn a_sink_that_fails_is_told(rt: HostRuntime) {
    assert!(rt; is_sink_told(&rt));
}

/// Two connections of one byte each.
const TWO_BYTES: &[u8] = b"sws-script 1\nconn\nsend a\nconn\nsend b\n";

/// Whether a script is replayed so in a room, on two workers.
fn is_replayed_in<R: AllocGlobal + Abort + Threads + Wait + Sync>(
    rt: &R,
    room: &Room<'_>,
    script: &[u8],
    shown: &[u8],
) -> bool {
    let input = read(rt, script, false, &TWO);
    let conns = input.conns.as_slice();
    let mut sink = SureSink::new(rt.alloc());
    let wrote = replay_talks::<R, MeetingConn<'_>, SureSink>(
        rt,
        rt.alloc(),
        room,
        &TWO,
        conns,
        false,
        false,
        &mut sink,
    );
    wrote == Ok(()) && sink.written() == shown
}

/// Each of two connections waits at its first read for the other, which one worker alone never reads:
/// so a replay on two workers has two threads. Those of HTTP and of a bench are made by the same call
/// of connections that none can see from outside.
#[test]
fn two_workers_replay_at_once(rt: HostRuntime) {
    let room = Room::new(&rt);
    let shown = b"conn 0 done 0\nconn 1 done 0\n";
    assert!(rt; is_replayed_in(&rt, &room, TWO_BYTES, shown));
    assert!(rt; !room.was_missed());
}
