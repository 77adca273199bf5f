//! The server at work: on several workers, with want of memory and links that fail, each connection is
//! served as if it were alone; rooms of clients over the same links; and what no row of `run_cases`
//! shows of the commands: that several workers serve and replay at once, what a run of a script leaves,
//! the requests of a bench, the lines of all faults, and clients over sockets.

mod benches;
mod chat;
mod failing;
mod faults;
mod logged;
mod meeting;
mod replaying;
mod replays;
mod serving;
mod sockets;
mod threading;
mod wanting;
mod watched;

use mely_history::Shape;
use replaying::{Client, Part};
use std::process::Abort;
use sws_conn::End;
use sws_engine::Ended;
use watched::Watched;

/// A request for the first file, its answer, and the same that closes.
const G: &[u8] = b"GET / HTTP/1.1\r\nHost: x\r\n\r\n";

const A: &[u8] =
    b"HTTP/1.1 200 OK\r\nServer: sws\r\nContent-Type: text/html\r\nContent-Length: 3\r\n\r\nhi\n";

const GET_EMPTY: &[u8] = b"GET /empty.css HTTP/1.1\r\nHost: x\r\n\r\n";

const EMPTY: &[u8] =
    b"HTTP/1.1 200 OK\r\nServer: sws\r\nContent-Type: text/css\r\nContent-Length: 0\r\n\r\n";

/// A client that asks for the first file.
const ASKS: Client = (&[Part::Send(G)], None, None);

/// Three clients: one asks for the first file, one for the empty file, and one for nothing.
static THREE: [Client; 3] = [
    ASKS,
    (&[Part::Send(GET_EMPTY)], None, None),
    (&[], None, None),
];

/// The shape that a replay has where nothing is said.
const PLAIN: Shape = Shape {
    cores: 1,
    shards: 1,
    batch: 10,
    steal_cost: 20,
    group: 4,
};

/// How a connection ended, and what it was written.
type Left<'a> = (End, &'a [u8]);

/// Whether a run left these connections.
fn have_left(ended: &Ended<Watched<'_>>, rows: &[Left]) -> bool {
    for (served, &(end, written)) in ended.served.iter().zip(rows) {
        let is_written = match &served.link {
            Some(link) => link.written() == written,
            None => false,
        };
        if !is_written || served.end != Some(end) || served.stray != None {
            return false;
        }
    }
    ended.served.len() == rows.len()
}

/// These bytes, each so often, one after another.
fn joined(rt: &(impl AllocGlobal + Abort), pieces: &[(&[u8], usize)]) -> Vec<u8> {
    let mut bytes: Vec<u8> = Vec::new(rt.alloc());
    for &(piece, times) in pieces {
        let repeated = piece.repeat(rt.alloc(), times).expect(rt, "memory");
        bytes.extend_from_slice(&repeated).expect(rt, "memory");
    }
    bytes
}

const BOTH: &[u8] = b"GET / HTTP/1.1\r\nHost: x\r\n\r\nHEAD /a/b.txt HTTP/1.1\r\nHost: x\r\n\r\n";

/// What the three clients leave.
const THREE_SHOWN: &[u8] =
    b"conn 0 done 79\n| HTTP/1.1 200 OK~\n| Server: sws~\n| Content-Type: text/html~\n| Content-Length: 3~\n| ~\n| hi\\n\nconn 1 done 75\n| HTTP/1.1 200 OK~\n| Server: sws~\n| Content-Type: text/css~\n| Content-Length: 0~\n| ~\nconn 2 done 0\n";
