//! What a link asks of a socket.
ghost use Rattle.std.specs.Prelude.{◌≡◌, ◌<◌, ◌≤◌, ◌++◌, Option, Bool, true, false, length};
ghost use Rattle.sws_link.specs.Links.{IsReadWithin, IsWriteWithin};
ghost use Rattle.sws_net.specs.Invariant.{kept_limit};
ghost use Rattle.sws_net.specs.Sockets.{SocketContents, Receives, Sends, Finishes};

use sws_link::{LinkRead, LinkWrite};

/// The two ways of a connection, as the machine has them: nothing is kept back here.
pub trait Socket {
    /// What was taken of what the peer sends, what is left of it, and what the socket took to be
    /// sent, where these are known.
    ghost tells: { Self → Option SocketContents };

    /// Whether the connection was ended. Then nothing is received or sent any more.
    ghost is_shut: { Self → Bool };

    /// Takes at least one of the bytes that are left, and at most as many as there is room for,
    /// unless the socket is at the end, not ready, or at fault.
    fn receive(&mut self, into: &mut [u8]) -> LinkRead
        requires room { 0 < length into.old }
        requires not_shut { is_shut self.old ≡ false }
        ensures fits { IsReadWithin result (length into.old) }
        ensures bytes { Receives (tells self.old) (tells self.new) result into.new }
        ensures not_shut { is_shut self.new ≡ false };

    /// Hands over two pieces as one, the second behind the first; either may be empty. The socket
    /// takes at least one byte, and as many as it has room for, unless it isn't ready or at fault;
    /// then it takes nothing.
    fn send(&mut self, first: &[u8], second: &[u8]) -> LinkWrite
        requires some { 0 < length (first.now ++ second.now) }
        requires not_shut { is_shut self.old ≡ false }
        ensures fits { IsWriteWithin result (length (first.now ++ second.now)) }
        ensures bytes { Sends (tells self.old) (tells self.new) result
            (first.now ++ second.now) }
        ensures not_shut { is_shut self.new ≡ false };

    /// Ends the connection, behind these few last bytes, which are the socket's to send.
    fn finish(&mut self, last: &[u8])
        requires few { length last.now ≤ kept_limit }
        requires not_shut { is_shut self.old ≡ false }
        ensures bytes { Finishes (tells self.old) (tells self.new) last.now }
        ensures shut { is_shut self.new ≡ true };
}
