//! The sockets that all worlds of a door share.
ghost use Rattle.std.specs.Prelude.{◌≡◌, ◌↔◌, IsSome, IfSome};
ghost use Rattle.std.specs.Net.Socket.{socket_port};
ghost use Rattle.sws_net.specs.Listening.{IsAll, IsAllOfIpv4};

use crate::errors::{has_no_such_address, is_in_use};
use mio::net;
use std::net::{Ipv4Addr, Shutdown, SocketAddr, TcpListener, TcpStream};
use std::os::fd::OwnedFd;
use std::{fs, io};

/// Where Linux says whether `[::]` takes IPv6 alone.
const IPV6_ALONE: &str = "/proc/sys/net/ipv6/bindv6only";

/// Listens at this address, with the longest queue of connections that the machine allows. The
/// listener doesn't block.
fn bind(rt: &HostRuntime, address: SocketAddr) -> io::Result<TcpListener> {
    Ok(TcpListener::from(net::TcpListener::bind(rt, address)?))
}

/// Whether the machine says that `[::]` takes IPv6 alone. Where it doesn't say, it takes both, as by
/// Linux's default.
fn is_ipv6_alone(rt: &HostRuntime) -> bool {
    match fs::read_to_string(rt, IPV6_ALONE) {
        Ok(said) => said.as_str().starts_with('1'),
        Err(_) => false,
    }
}

/// Listens at this address, or in its place at the one that stands for it where the machine has no
/// IPv6.
fn listen_at(rt: &HostRuntime, address: SocketAddr) -> io::Result<TcpListener> {
    match bind(rt, address) {
        Ok(listener) => Ok(listener),
        Err(error) => match other_address(address) {
            Some(other) if has_no_such_address(&error) => bind(rt, other),
            _ => Err(error),
        },
    }
}

/// Listens at this address, and keeps the listeners behind those that are there: one, or two for
/// `[::]` where the machine is set so that it takes IPv6 alone. They don't block. Where the machine
/// has no IPv6, `[::]` stands for `0.0.0.0`.
///
/// # Errors
///
/// The machine refuses it, as where another program listens there.
pub fn listen(
    rt: &HostRuntime,
    address: SocketAddr,
    listeners: &mut Vec<TcpListener>,
) -> io::Result<()> {
    let listener = listen_at(rt, address)?;
    let other = other_address(listener.local_addr()?);
    listeners.push(listener)?;
    let Some(other) = other else {
        return Ok(());
    };
    // The port is taken where `[::]` takes IPv4 too.
    match bind(rt, other) {
        Ok(listener) => Ok(listeners.push(listener)?),
        Err(error) if is_in_use(&error) && !is_ipv6_alone(rt) => Ok(()),
        Err(error) if has_no_such_address(&error) => Ok(()),
        Err(error) => Err(error),
    }
}

/// Where a machine without IPv6 listens in place of `[::]`: at all addresses that it has, by the
/// same port. No other address has one that stands for it.
pub fn other_address(address: SocketAddr) -> Option<SocketAddr>
    ensures all { IsSome result ↔ IsAll address }
    ensures ipv4 { IfSome result IsAllOfIpv4 }
    ensures port { IfSome result (λ other. socket_port other ≡ socket_port address) }
{
    match address {
        SocketAddr::V6(v6) if v6.ip().is_unspecified() => {
            Some(SocketAddr::from((Ipv4Addr::UNSPECIFIED, v6.port())))
        }
        _ => None,
    }
}

/// Ends a listener for all that own it: whoever comes from now on is refused, and whoever waits in
/// its queue is cut off. Linux ends one as it ends a stream, and only for streams is there a call.
pub fn end_listening(listener: &TcpListener) -> io::Result<()> {
    let socket = OwnedFd::from(listener.try_clone()?);
    TcpStream::from(socket).shutdown(Shutdown::Both)
}
