//! The connections of a bench.
ghost use Rattle.std.specs.Prelude.{◌≡◌, ◌≤◌, ◌<◌, ◌++◌, ℕ, [], false, length, map, IfOk, OnOk};
ghost use Rattle.std.specs.List.{flat_map};
ghost use Rattle.sws_script.specs.Inputs.{IsInput};
ghost use Rattle.sws_bench.specs.Draws.{behind, draws_from};
ghost use Rattle.sws_bench.specs.BenchScript.{request, pieces, sends, conn_from, behind_conn, bench_conns};

use crate::draws::Draws;
use itoa::Buffer;
use std::alloc::{AllocError, Global};
use sws_link::Memory;
use sws_script::{Bytes, Item, ScriptConn, Sequence};

/// So many connections with the requests that the number draws: they are those of a
/// script, in whichever run.
pub fn bench_script(alloc: Global, connections: u16, number: u32) -> Result<Vec<ScriptConn>, Memory>
    ensures conns { IfOk result (λ conns. conns.items ≡ bench_conns number connections) }
    ensures input { IfOk result (λ conns. (cores : ℕ)
        → IsInput false cores (record { steps = []; conns = conns.items })) }
{
    let conns = generate(alloc, connections, number)?;
    Ok(conns)
}

/// So many connections, by the draws that begin with the number.
pub(crate) fn generate(
    alloc: Global,
    connections: u16,
    number: u32,
) -> Result<Vec<ScriptConn>, AllocError>
    ensures { IfOk result (λ conns. conns.items ≡ bench_conns number connections) }
{
    let mut draws = Draws::new(number);
    let mut conns = Vec::new(alloc);
    'connections: for _ in 0..connections {
        let conn = conn(alloc, &mut draws)?;
        conns.push(conn)?;
    }
    Ok(conns)
}

/// The next connection.
fn conn(alloc: Global, draws: &mut Draws) -> Result<ScriptConn, AllocError>
    ensures conn { IfOk result (λ conn. conn ≡ conn_from draws.old.state) }
    ensures state { OnOk result (draws.new.state ≡ behind_conn draws.old.state) }
{
    let count = 1 + draws.next() % 8;
    let bytes = requests(alloc, draws, count)?;
    let size = 1 + draws.next() % 64;
    let items = pieces(alloc, &bytes, size as usize)?;
    Ok(ScriptConn {
        step: None,
        cut: None,
        items: Sequence::new(items),
    })
}

/// So many requests, one behind the other.
fn requests(alloc: Global, draws: &mut Draws, count: u32) -> Result<Vec<u8>, AllocError>
    ensures bytes { IfOk result (λ bytes. bytes.items
        ≡ flat_map request (draws_from draws.old.state count)) }
    ensures state { OnOk result (draws.new.state ≡ behind draws.old.state count) }
{
    let mut bytes = Vec::new(alloc);
    'requests: for _ in 0..count {
        push_request(&mut bytes, draws.next())?;
    }
    Ok(bytes)
}

/// Adds the request of a draw.
fn push_request(bytes: &mut Vec<u8>, draw: u32) -> Result<(), AllocError>
    ensures { OnOk result (bytes.new.items ≡ bytes.old.items ++ request draw) }
{
    bytes.extend_from_slice(b"GET /f")?;
    bytes.extend_from_slice(Buffer::new().format(draw % 20).as_bytes())?;
    bytes.extend_from_slice(b".txt HTTP/1.1\r\nHost: b\r\n\r\n")?;
    Ok(())
}

/// The bytes in pieces of this size.
fn pieces(alloc: Global, bytes: &[u8], size: usize) -> Result<Vec<Item>, AllocError>
    requires { 0 < size }
    ensures { IfOk result (λ items. items.items ≡ sends (pieces size bytes.now)) }
{
    let mut items = Vec::new(alloc);
    'pieces: for piece in bytes.chunks(size) {
        items.push(Item::Send(Bytes::new(Vec::from_slice(alloc, piece)?)))?;
    }
    Ok(items)
}
