//! Scripts and schedules, as they are read and printed.
use std::process::Abort;
use sws_link::World;
use sws_script::{Input, Item, ScriptConn, parse, print, script_world};

/// The script of three connections.
const SCRIPT: &[u8] =
    b"sws-script 1\nconn\nsend GET / HTTP/1.1~Host: x~~\nconn\nsend GET /empty.css HTTP/1.1~Host: x~~\nconn\n";

/// A schedule before a script with a line of each kind.
const SCHEDULE: &[u8] =
    b"sws-schedule 1\nstep 0 6\nstep 1 12\nend\nsws-script 1\nconn\nstep 1\ncut 7\nsend \\n\\r\\t\\\\\\~\\x00\\xff \nfill 65536\npause 1000\nsend  a \nfault\n";

/// What a text spells.
fn read(rt: &(impl AllocGlobal + Abort), text: &[u8], schedule: bool) -> Input {
    parse(rt.alloc(), text, schedule, 2).expect(rt, "the text spells no input")
}

/// Whether a text is read and then printed so.
fn is_printed_so(
    rt: &(impl AllocGlobal + Abort),
    text: &[u8],
    schedule: bool,
    want: &[u8],
) -> bool {
    let input = read(rt, text, schedule);
    let printed = print(rt.alloc(), &input, schedule).expect(rt, "memory");
    printed.as_slice() == want
}

#[test]
fn what_is_printed_is_what_was_read(rt: HostRuntime) {
    assert!(rt; is_printed_so(&rt, SCRIPT, false, SCRIPT));
    let short = &SCRIPT[..SCRIPT.len() - 1];
    assert!(rt; is_printed_so(&rt, short, false, SCRIPT));
    assert!(rt; is_printed_so(&rt, SCHEDULE, true, SCHEDULE));
}

/// How many links the world of these connections has.
fn links_of(rt: &(impl AllocGlobal + Abort), conns: &[ScriptConn]) -> Option<u16> {
    if conns.len() > 65_535 {
        return None;
    }
    let world = script_world(rt.alloc(), conns).expect(rt, "memory");
    Some(world.total())
}

#[test]
fn a_script_has_a_world_of_its_connections(rt: HostRuntime) {
    let input = read(&rt, SCRIPT, false);
    assert!(rt; input.conns.as_slice().len() == 3);
    assert!(rt; links_of(&rt, input.conns.as_slice()) == Some(3));
}

/// A script of one piece.
const PIECE: &[u8] = b"sws-script 1\nconn\nsend \\x41~\\x0d\\n";

/// Whether each line of each connection sends these bytes.
fn sends(conns: &[ScriptConn], bytes: &[u8]) -> bool {
    for conn in conns {
        for item in conn.items.as_slice() {
            match item {
                Item::Send(piece) if piece.bytes() == bytes => {}
                _ => return false,
            }
        }
    }
    true
}

#[test]
fn a_piece_has_the_bytes_of_its_text(rt: HostRuntime) {
    let input = read(&rt, PIECE, false);
    assert!(rt; sends(input.conns.as_slice(), b"A\r\n\r\n"));
    assert!(rt; is_printed_so(&rt, PIECE, false, b"sws-script 1\nconn\nsend A~~\n"));
}
