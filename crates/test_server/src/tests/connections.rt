//! The steps of a connection, and its window.
ghost use Rattle.std.specs.Prelude.{◌≡◌, false};
ghost use Rattle.sws_link.specs.MemWorlds.{IsInitialSureLink};

mod talks;

use super::files::{THREE_FILES, site_of};
use super::links::{Item, failing_link, sure_link};
use std::process::Abort;
use sws_conn::{Conn, End, Next, Window};
use sws_link::{LinkRead, MemLink, SureLink};
use sws_site::Site;

const GET: &[u8] = b"GET / HTTP/1.1\r\nHost: x\r\n\r\n";

const GET_AND_CLOSE: &[u8] = b"GET / HTTP/1.1\r\nHost: x\r\nConnection: close\r\n\r\n";

const ANSWER: &[u8] =
    b"HTTP/1.1 200 OK\r\nServer: sws\r\nContent-Type: text/html\r\nContent-Length: 3\r\n\r\nhi\n";

const CLOSING_ANSWER: &[u8] =
    b"HTTP/1.1 200 OK\r\nServer: sws\r\nConnection: close\r\nContent-Type: text/html\r\nContent-Length: 3\r\n\r\nhi\n";

/// The steps of a connection of one request.
static STEPS: [Next; 11] = [
    Next::Parse,
    Next::Look,
    Next::Write,
    Next::Write,
    Next::Parse,
    Next::Read,
    Next::Wait,
    Next::Parse,
    Next::Close,
    Next::Nothing,
    Next::Nothing,
];

/// Whether a connection waits for a link, and takes this one.
fn opens_so(conn: &mut Conn<'_, SureLink>, link: SureLink) -> bool
    requires { IsInitialSureLink link }
{
    let waits = conn.pending() == Next::Open && conn.step() == Next::Open;
    waits && conn.open(link).is_ok()
}

/// Whether the steps of a connection are these.
fn steps_so(conn: &mut Conn<'_, SureLink>, steps: &[Next]) -> bool {
    for step in steps {
        if conn.step() != *step {
            return false;
        }
    }
    true
}

/// Whether a connection is done, took and wrote so many bytes, and has shut its link.
fn has_ended(conn: &Conn<'_, SureLink>, read: u64, written: u64) -> bool {
    let Some(link) = conn.link() else {
        return false;
    };
    conn.end() == Some(End::Done)
        && conn.read() == read
        && conn.written() == written
        && link.written() == ANSWER
        && link.is_shut()
}

/// Whether a connection of one request waits for its link, makes these steps, takes no other link
/// and gives its own back.
fn goes_so(rt: &(impl AllocGlobal + Abort), site: &Site, steps: &[Next]) -> bool {
    let mut conn: Conn<'_, SureLink> = Conn::new(rt.alloc(), site).expect(rt, "memory");
    opens_so(&mut conn, sure_link(rt, GET, 1, 0, None))
        && steps_so(&mut conn, steps)
        && has_ended(&conn, 27, 79)
        && conn.open(sure_link(rt, b"", 0, 0, None)).is_err()
        && conn.into_link().is_some()
}

#[test]
fn a_connection_does_one_step_at_a_time(rt: HostRuntime) {
    let site = site_of(&rt, &THREE_FILES, None);
    assert!(rt; goes_so(&rt, &site, &STEPS));
}

/// A piece of bytes of many values.
fn mixed(rt: &(impl AllocGlobal + Abort), count: usize) -> Vec<u8> {
    let mut bytes = Vec::new(rt.alloc());
    for i in 0..count {
        bytes.push((i % 251) as u8).expect(rt, "memory");
    }
    bytes
}

/// What is done with a window, and what comes of it.
#[derive(Clone, Copy)]
enum Turn {
    /// One read of at most 4,096 bytes into it.
    Fill(LinkRead),

    /// So many of its bytes are dropped.
    Drop(usize),

    /// How many bytes it has.
    Length(usize),
}

/// Does this with the window, and says whether it comes so.
fn comes_so(window: &mut Window, link: &mut MemLink, turn: Turn) -> bool
    requires { link.old.shut ≡ false }
    ensures { link.new.shut ≡ false }
{
    let len = window.bytes().len();
    match turn {
        Turn::Fill(answer) if len <= 8192 => window.fill(link, 4096) == answer,
        Turn::Drop(count) if count <= len => {
            window.drop_front(count);
            true
        }
        Turn::Length(count) => len == count,
        Turn::Fill(_) | Turn::Drop(_) => false,
    }
}

/// Does this with the window in turn, and says whether it all comes so and these bytes are left.
fn leaves(window: &mut Window, link: &mut MemLink, turns: &[Turn], bytes: &[u8]) -> bool
    requires { link.old.shut ≡ false }
    ensures { link.new.shut ≡ false }
{
    'turns: for turn in turns {
        if !comes_so(window, link, *turn) {
            return false;
        }
    }
    window.bytes() == bytes
}

/// A window takes less than a head and one read, and then another.
static FILLS: [Turn; 7] = [
    Turn::Fill(LinkRead::Took(4096)),
    Turn::Fill(LinkRead::Took(4095)),
    Turn::Fill(LinkRead::Took(4096)),
    Turn::Length(12287),
    Turn::Drop(12287),
    Turn::Length(0),
    Turn::Fill(LinkRead::Took(4096)),
];

/// Whether a window takes this piece behind what it had, and keeps it where nothing more comes.
fn window_holds(rt: &(impl AllocGlobal + Abort), piece: &[u8]) -> bool {
    let items = [
        Item::Fill(4096),
        Item::Fill(4095),
        Item::Fill(4096),
        Item::Bytes(piece),
    ];
    let mut link = failing_link(rt, &items, &[]);
    let mut window = Window::new(rt.alloc()).expect(rt, "memory");
    leaves(&mut window, &mut link, &FILLS, piece)
        && leaves(&mut window, &mut link, &[Turn::Fill(LinkRead::End)], piece)
}

#[test]
fn a_window_holds_less_than_a_head_and_one_read(rt: HostRuntime) {
    assert!(rt; window_holds(&rt, &mixed(&rt, 4096)));
}

/// A window slides twice.
static SLIDES: [Turn; 4] = [
    Turn::Fill(LinkRead::Took(4096)),
    Turn::Fill(LinkRead::Took(4096)),
    Turn::Drop(8000),
    Turn::Fill(LinkRead::Took(4096)),
];

static SLIDES_AGAIN: [Turn; 2] = [Turn::Drop(4200), Turn::Fill(LinkRead::Took(4096))];

/// Whether a window that slides twice over these bytes has the right ones of them.
fn window_slides(rt: &(impl AllocGlobal + Abort), all: &[u8]) -> bool {
    if all.len() != 16384 {
        return false;
    }
    let mut link = failing_link(rt, &[Item::Bytes(all)], &[]);
    let mut window = Window::new(rt.alloc()).expect(rt, "memory");
    leaves(&mut window, &mut link, &SLIDES, &all[8000..12288])
        && leaves(&mut window, &mut link, &SLIDES_AGAIN, &all[12200..])
}

#[test]
fn a_window_keeps_its_bytes_when_it_slides(rt: HostRuntime) {
    assert!(rt; window_slides(&rt, &mixed(&rt, 16384)));
}
