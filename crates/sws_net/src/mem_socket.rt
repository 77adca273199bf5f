//! A socket in memory.
ghost use Rattle.std.specs.Prelude.{◌≡◌, ◌<◌, ◌≤◌, [], ◌++◌, Some, true, false, length, take, drop, min, IfOk};
ghost use Rattle.std.specs.Bool.{OnTrue, OnFalse};
ghost use Rattle.sws_link.specs.Links.{IsReadWithin, IsWriteWithin};
ghost use Rattle.sws_net.specs.Invariant.{kept_limit};
ghost use Rattle.sws_net.specs.Sockets.{Receives, Sends, Finishes};

use crate::socket::Socket;
use std::alloc::{AllocError, Global};
use std::marker::Model;
use sws_link::{LinkRead, LinkWrite};

/// How many bytes may come with the end.
const MAX_LAST: usize = 4096;

/// Gives its input to the reads, and keeps what is sent; a contract sees all of it.
#[derive(Drop)]
pub struct MemSocket {
    alloc: Global,
    input: Vec<u8>,
    taken: usize,
    sent: Vec<u8>,

    /// How many bytes the sends to come take at most, the last one first.
    rooms: Vec<usize>,
    last: [u8; MAX_LAST],
    last_len: usize,
    is_shut: bool,
}

impl Model for MemSocket {
    ghost use Rattle.std.specs.Prelude.{◌≤◌, length};
    ghost use Rattle.sws_net.specs.MemSocket.{MemSocketState};

    ghost Value = { MemSocketState };

    ghost use Rattle.sws_net.specs.MemSocketViews.{shown_mem_socket, IsMemSocket};

    ghost view = { shown_mem_socket };

    ghost invariant = { IsMemSocket };
}

/// Copies as many of the bytes behind the first `taken` as there is room for, and says how many
/// these are.
fn copy_behind(bytes: &[u8], taken: usize, into: &mut [u8]) -> usize
    requires { taken ≤ length bytes.now }
    ensures count { result ≡ min (length into.old) (length (drop taken bytes.now)) }
    ensures copied { take result into.new ≡ take result (drop taken bytes.now) }
{
    let left = &bytes[taken..];
    let count = left.len().min(into.len());
    into[..count].copy_from_slice(&left[..count]);
    count
}

/// Two pieces as one.
fn joined(alloc: Global, first: &[u8], second: &[u8]) -> Result<Vec<u8>, AllocError>
    ensures { IfOk result (λ whole. whole.items ≡ first.now ++ second.now) }
{
    let mut whole = Vec::new(alloc);
    whole.extend_from_slice(first)?;
    whole.extend_from_slice(second)?;
    Ok(whole)
}

/// Puts so many bytes of two pieces behind the others, and answers whether there was memory.
fn push_front(alloc: Global, sent: &mut Vec<u8>, first: &[u8], second: &[u8], count: usize) -> bool
    requires { count ≤ length (first.now ++ second.now) }
    ensures pushed { OnTrue result
        (sent.new.items ≡ sent.old.items ++ take count (first.now ++ second.now)) }
    ensures not_pushed { OnFalse result (sent.new.items ≡ sent.old.items) }
{
    match joined(alloc, first, second) {
        Ok(whole) => sent.extend_from_slice(&whole[..count]).is_ok(),
        Err(_) => false,
    }
}

impl MemSocket {
    /// A socket whose peer sends the input and no more. A send takes at most as many bytes as the
    /// last of the rooms says, which then goes; once these are gone it takes all.
    pub fn new(alloc: Global, input: Vec<u8>, rooms: Vec<usize>) -> MemSocket
        ensures tells { result.tells
            ≡ record { taken = []; left = input.items; sent = [] } }
        ensures not_shut { result.is_shut ≡ false }
    {
        MemSocket {
            alloc,
            input,
            taken: 0,
            sent: Vec::new(alloc),
            rooms,
            last: [0; MAX_LAST],
            last_len: 0,
            is_shut: false,
        }
    }

    /// What was sent before the end.
    pub fn sent(&self) -> &[u8] {
        &self.sent
    }

    /// What was sent with the end.
    pub fn last(&self) -> &[u8] {
        &self.last[..self.last_len]
    }

    /// Whether the connection was ended.
    pub fn is_shut(&self) -> bool
        ensures { result ≡ self.now.is_shut }
    {
        self.is_shut
    }

    /// How much of so many bytes the next send takes.
    fn next_room(&mut self, count: usize) -> usize
        ensures no_more { result ≤ count }
        ensures same { self.new ≡ self.old }
    {
        match self.rooms.pop() {
            Some(room) => room.min(count),
            None => count,
        }
    }
}

impl Socket for MemSocket {
    ghost tells = { λ socket. Some socket.tells };

    ghost is_shut = { λ socket. socket.is_shut };

    fn receive(&mut self, into: &mut [u8]) -> LinkRead {
        let count = copy_behind(&self.input, self.taken, into);
        if count == 0 {
            return LinkRead::End;
        }
        self.taken += count;
        LinkRead::Took(count)
    }

    fn send(&mut self, first: &[u8], second: &[u8]) -> LinkWrite {
        let count = self.next_room(first.len() + second.len());
        if count == 0 {
            return LinkWrite::NotReady;
        }
        if push_front(self.alloc, &mut self.sent, first, second, count) {
            return LinkWrite::Wrote(count);
        }
        LinkWrite::Memory
    }

    fn finish(&mut self, last: &[u8]) {
        self.last[..last.len()].copy_from_slice(last);
        self.last_len = last.len();
        self.is_shut = true;
    }
}
