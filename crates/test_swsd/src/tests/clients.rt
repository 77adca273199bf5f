//! Clients on this machine, who ask for the index.

use std::io::{self, Read, Write};
use std::net::{SocketAddr, TcpListener, TcpStream};

const REQUEST: &[u8] = b"GET / HTTP/1.1\r\nHost: x\r\nConnection: close\r\n\r\n";

/// The response but for the date of the site, which is between the two.
const HEAD: &[u8] = b"HTTP/1.1 200 OK\r\nServer: sws\r\nConnection: close\r\nLast-Modified: ";

const REST: &[u8] = b" GMT\r\nContent-Type: text/html\r\nContent-Length: 3\r\n\r\nhi\n";

/// How many bytes both have, and the date between them.
const LENGTH: usize = 144;

/// A listener at a free port of this machine, and its address.
pub(super) fn listen(rt: &HostRuntime) -> io::Result<(TcpListener, SocketAddr)> {
    let listener = TcpListener::bind(rt, SocketAddr::from(([127, 0, 0, 1], 0)))?;
    let address = listener.local_addr()?;
    Ok((listener, address))
}

/// Whether this is the response, with a date.
fn is_response(back: &[u8]) -> bool {
    back.starts_with(HEAD) && back.ends_with(REST) && back.len() == LENGTH
}

/// Sends a request, and reads what comes back to the end.
fn exchange(rt: &HostRuntime, mut stream: &TcpStream, request: &[u8]) -> io::Result<Vec<u8>> {
    stream.write_all(request)?;
    let mut back = Vec::new(rt.alloc());
    stream.read_to_end(&mut back)?;
    Ok(back)
}

/// Sends a request on a connection of its own, and reads what comes back to the end. A client that
/// is refused has an error.
pub(super) fn ask(rt: &HostRuntime, address: SocketAddr, request: &[u8]) -> io::Result<Vec<u8>> {
    let stream = TcpStream::connect(rt, address)?;
    exchange(rt, &stream, request)
}

/// Whether a client that asks for the index is answered as it should be.
fn is_answered(rt: &HostRuntime, address: SocketAddr) -> bool {
    match ask(rt, address, REQUEST) {
        Ok(back) => is_response(back.as_slice()),
        Err(_) => false,
    }
}

/// How many of so many clients, one after another, are answered as they should be.
pub(super) fn ask_all(rt: &HostRuntime, address: SocketAddr, clients: u64) -> u64 {
    let mut answered = 0u64;
    for _ in 0..clients {
        if is_answered(rt, address) {
            answered = answered.saturating_add(1);
        }
    }
    answered
}
