//! A link that keeps heads back, over any socket.
ghost use Rattle.std.specs.Prelude.{◌≡◌, ◌<◌, [], true, false, length};
ghost use Rattle.sws_link.specs.Counts.{kept_count};
ghost use Rattle.sws_link.specs.Links.{IsReadWithin, IsWriteWithin, LinkTakes, LinkPuts, Reads, Writes, Shuts};
ghost use Rattle.sws_net.specs.Sockets.{link_tells, IsReceived, KeepsOrSends};

use crate::kept::Kept;
use crate::socket::Socket;
use std::alloc::Global;
use sws_link::{Link, LinkRead, LinkWrite};

/// A link over a socket, which counts the socket's errors and how often it was not ready.
///
/// **Heads go with their bodies.** A small piece that begins a response is kept back, and
/// goes to the socket with the piece behind it, by one call. It goes alone where a read or
/// the end comes instead. What is kept back counts as written. Of the piece behind it, only
/// what the socket took does.
///
/// **Answers may go together.** A link that holds answers keeps the small pieces behind it back
/// too, up to 4,096 bytes in all, so that the answers to requests that came together go out
/// together. A read hands them on before it looks for more.
#[derive(Drop)]
pub struct KeptLink<S: Socket + Drop> {
    socket: S,
    kept: Kept,

    /// Whether a piece was taken in part, so that the next one is the rest of it.
    in_piece: bool,

    /// Whether pieces behind a kept one are kept too.
    holds: bool,
    faults: u64,
    waits: u64,
}

/// How many bytes a head has at most that is kept by a link which holds no answers. Every head of a
/// response has fewer.
const MAX_HEAD: usize = 512;

/// How it went to hand on what was kept.
enum Handed {
    /// Nothing is kept any more.
    All,

    /// The socket doesn't take all of it yet.
    NotYet,

    /// The socket failed, or had no memory.
    Failed,
}

/// Hands what is kept to the socket.
fn hand_on<S: Socket>(socket: &mut S, kept: &mut Kept) -> Handed
    requires { S.is_shut socket.old ≡ false }
    ensures same { link_tells (S.tells socket.new) kept.new
        ≡ link_tells (S.tells socket.old) kept.old }
    ensures all { result ≡ Handed.All → kept.new ≡ [] }
    ensures not_shut { S.is_shut socket.new ≡ false }
{
    if kept.is_empty() {
        return Handed::All;
    }
    match socket.send(kept.bytes(), &[]) {
        LinkWrite::Wrote(count) => {
            kept.take_off(count);
            if kept.is_empty() {
                return Handed::All;
            }
            Handed::NotYet
        }
        LinkWrite::NotReady => Handed::NotYet,
        LinkWrite::Failed | LinkWrite::Memory => Handed::Failed,
    }
}

/// Reads what has come. What is kept goes first, since the peer may be waiting for it.
fn read_behind<S: Socket>(socket: &mut S, kept: &mut Kept, into: &mut [u8]) -> LinkRead
    requires room { 0 < length into.old }
    requires not_shut { S.is_shut socket.old ≡ false }
    ensures fits { IsReadWithin result (length into.old) }
    ensures takes { LinkTakes (link_tells (S.tells socket.old) kept.old)
        (link_tells (S.tells socket.new) kept.new) (length into.old) result into.new }
    ensures first { IsReceived result → kept.new ≡ [] }
    ensures not_shut { S.is_shut socket.new ≡ false }
{
    match hand_on(socket, kept) {
        Handed::All => socket.receive(into),
        Handed::NotYet => LinkRead::NotReady,
        Handed::Failed => LinkRead::Failed,
    }
}

/// Hands over a piece behind what is kept. It counts from where the kept bytes end.
fn send_behind<S: Socket>(socket: &mut S, kept: &mut Kept, piece: &[u8]) -> LinkWrite
    requires some { 0 < length piece.now }
    requires not_shut { S.is_shut socket.old ≡ false }
    ensures fits { IsWriteWithin result (length piece.now) }
    ensures puts { LinkPuts (link_tells (S.tells socket.old) kept.old)
        (link_tells (S.tells socket.new) kept.new) result piece.now }
    ensures keeps { KeepsOrSends kept.old true false result piece.now kept.new }
    ensures not_shut { S.is_shut socket.new ≡ false }
{
    let len = kept.bytes().len();
    match socket.send(kept.bytes(), piece) {
        LinkWrite::Wrote(count) => {
            if count > len {
                kept.clear();
                return LinkWrite::Wrote(count - len);
            }
            kept.take_off(count);
            LinkWrite::NotReady
        }
        LinkWrite::NotReady => LinkWrite::NotReady,
        LinkWrite::Failed => LinkWrite::Failed,
        LinkWrite::Memory => LinkWrite::Memory,
    }
}

/// Hands over a piece, with what is kept before it; or keeps it, where it is
/// small and begins a response, or stands behind kept ones of a link that holds answers.
fn write_behind<S: Socket>(
    socket: &mut S,
    kept: &mut Kept,
    in_piece: bool,
    holds: bool,
    piece: &[u8],
) -> LinkWrite
    requires some { 0 < length piece.now }
    requires not_shut { S.is_shut socket.old ≡ false }
    ensures fits { IsWriteWithin result (length piece.now) }
    ensures puts { LinkPuts (link_tells (S.tells socket.old) kept.old)
        (link_tells (S.tells socket.new) kept.new) result piece.now }
    ensures keeps { KeepsOrSends kept.old in_piece holds result piece.now kept.new }
    ensures not_shut { S.is_shut socket.new ≡ false }
{
    let may_keep = holds || (kept.is_empty() && piece.len() <= MAX_HEAD);
    if !in_piece && may_keep && kept.keep(piece) {
        return LinkWrite::Wrote(piece.len());
    }
    send_behind(socket, kept, piece)
}

impl<S: Socket + Drop> KeptLink<S> {
    /// A link that keeps nothing yet, and holds answers or doesn't.
    pub fn new(alloc: Global, socket: S, holds: bool) -> KeptLink<S>
        ensures socket { result.socket ≡ socket }
        ensures nothing_kept { result.kept ≡ [] }
        ensures begins { result.in_piece ≡ false }
        ensures holds { result.holds ≡ holds }
        ensures no_faults_yet { result.faults ≡ 0 }
        ensures no_waits_yet { result.waits ≡ 0 }
    {
        KeptLink {
            socket,
            kept: Kept::new(alloc),
            in_piece: false,
            holds,
            faults: 0,
            waits: 0,
        }
    }

    /// The socket.
    pub fn socket(&self) -> &S
        ensures { result.now ≡ self.now.socket }
    {
        &self.socket
    }
}

impl<S: Socket + Drop> Link for KeptLink<S> {
    ghost tells = { λ link. link_tells (S.tells link.socket) link.kept };

    ghost faults = { λ link. kept_count link.faults };

    ghost is_shut = { λ link. S.is_shut link.socket };

    ghost waits = { λ link. kept_count link.waits };

    ghost since = { λ _ _ _. Unit {0} };

    /// Reads what has come, behind what is kept: nothing is, once something came.
    fn read(&mut self, into: &mut [u8]) -> LinkRead
        requires room { 0 < length into.old }
        requires not_shut { S.is_shut self.old.socket ≡ false }
        ensures first { IsReceived result → self.new.kept ≡ [] }
        ensures reads { Reads (λ link. link_tells (S.tells link.socket) link.kept)
            (λ link. S.is_shut link.socket) (λ link. kept_count link.faults)
            (λ link. kept_count link.waits) self.old (length into.old) result into.new self.new }
    {
        match read_behind(&mut self.socket, &mut self.kept, into) {
            LinkRead::Took(count) => LinkRead::Took(count),
            LinkRead::End => LinkRead::End,
            LinkRead::NotReady => {
                self.waits = self.waits.saturating_add(1);
                LinkRead::NotReady
            }
            LinkRead::Failed => {
                self.faults = self.faults.saturating_add(1);
                LinkRead::Failed
            }
        }
    }

    /// Keeps the piece, where it is small and begins a response or is held behind one, or hands it
    /// over behind what is kept.
    fn write(&mut self, bytes: &[u8]) -> LinkWrite
        requires some { 0 < length bytes.now }
        requires not_shut { S.is_shut self.old.socket ≡ false }
        ensures keeps { KeepsOrSends self.old.kept self.old.in_piece self.old.holds result
            bytes.now self.new.kept }
        ensures writes { Writes (λ link. link_tells (S.tells link.socket) link.kept)
            (λ link. S.is_shut link.socket) (λ link. kept_count link.faults)
            (λ link. kept_count link.waits) self.old bytes.now result self.new }
    {
        let (in_piece, holds) = (self.in_piece, self.holds);
        match write_behind(&mut self.socket, &mut self.kept, in_piece, holds, bytes) {
            LinkWrite::Wrote(count) => {
                self.in_piece = count < bytes.len();
                LinkWrite::Wrote(count)
            }
            LinkWrite::Memory => LinkWrite::Memory,
            LinkWrite::NotReady => {
                // The socket may have taken all that was kept, so the piece isn't to be kept next
                // time.
                self.in_piece = true;
                self.waits = self.waits.saturating_add(1);
                LinkWrite::NotReady
            }
            LinkWrite::Failed => {
                self.faults = self.faults.saturating_add(1);
                LinkWrite::Failed
            }
        }
    }

    /// Ends the connection behind what is kept.
    fn shut(&mut self)
        requires { S.is_shut self.old.socket ≡ false }
        ensures handed_on { self.new.kept ≡ [] }
        ensures shuts { Shuts (λ link. link_tells (S.tells link.socket) link.kept)
            (λ link. S.is_shut link.socket) (λ link. kept_count link.faults)
            (λ link. kept_count link.waits) self.old self.new }
    {
        self.socket.finish(self.kept.bytes());
        self.kept.clear();
    }
}
