//! Bytes that slide through a room of a fixed size.
ghost use Rattle.std.specs.Prelude.{◌≡◌, ◌≤◌, ◌<◌, ◌+◌, [], false, None, length, drop, IfOk};
ghost use Rattle.sws_link.specs.Links.{read_fault};
ghost use Rattle.sws_request.specs.Head.{head_limit};
ghost use Rattle.sws_steps.specs.Step.{read_limit};
ghost use Rattle.sws_conn.specs.Windows.{Fills, ReadsAt};

use std::alloc::Global;
use std::marker::Model;
use sws_link::{Link, LinkRead, Memory};

/// The size of the room: what is left of a head, and one read behind it.
const ROOM: usize = 12288;

/// Bytes at some place in a room of 12,288 bytes, which contracts see as a list.
///
/// A read goes straight into the room behind the bytes. They are moved to the front of the room
/// only at the start of a `fill` that finds too little room behind them.
#[derive(Drop)]
pub struct Window {
    room: Vec<u8>,
    start: usize,
    end: usize,
}

impl Model for Window {
    ghost use Rattle.std.specs.Prelude.{List, ℕ};

    ghost Value = { List ℕ };

    ghost use Rattle.sws_conn.specs.WindowRooms.{bytes_of, IsInRoom};

    ghost view = { bytes_of };

    ghost invariant = { IsInRoom };
}

impl Window {
    /// A window without bytes. All its room is made here; where that was
    /// refused, the answer is `Memory`.
    pub fn new(alloc: Global) -> Result<Window, Memory>
        ensures { IfOk result (λ window. window ≡ []) }
    {
        Ok(Window {
            room: vec![in alloc; 0u8; ROOM]?,
            start: 0,
            end: 0,
        })
    }

    /// The bytes, in order.
    pub fn bytes(&self) -> &[u8]
        ensures { result.now ≡ self.now }
    {
        &self.room[self.start..self.end]
    }

    /// Makes one read of the link, of at most `most` bytes, straight behind the bytes that are
    /// there. The answer is the link's own.
    pub fn fill<L: Link>(&mut self, link: &mut L, most: usize) -> LinkRead
        requires some { 0 < most }
        requires few { most ≤ read_limit }
        requires short { length self.old ≤ head_limit }
        requires not_shut { L.is_shut link.old ≡ false }
        ensures fills { Fills L.Link self.old link.old most result self.new link.new }
        ensures since { (first : L) → L.since first None link.old
            → L.since first (read_fault result) link.new }
    {
        if ROOM - self.end < most {
            self.room.copy_within(self.start..self.end, 0);
            self.end -= self.start;
            self.start = 0;
        }
        let answer = read_at(link, &mut self.room, self.end, most);
        if let LinkRead::Took(count) = answer {
            self.end += count;
        }
        answer
    }

    /// Drops so many bytes at the front.
    pub fn drop_front(&mut self, n: usize)
        requires { n ≤ length self.old }
        ensures { self.new ≡ drop n self.old }
    {
        self.start += n;
    }
}

/// One read of the link into a part of the room.
fn read_at<L: Link>(link: &mut L, room: &mut [u8], at: usize, most: usize) -> LinkRead
    requires some { 0 < most }
    requires fits { at + most ≤ length room.old }
    requires not_shut { L.is_shut link.old ≡ false }
    ensures reads { ReadsAt L.Link link.old at most result link.new room.old room.new }
    ensures since { (first : L) → L.since first None link.old
        → L.since first (read_fault result) link.new }
{
    link.read(&mut room[at..at + most])
}
