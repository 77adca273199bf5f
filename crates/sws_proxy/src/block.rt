//! Headers of version 2.
ghost use Rattle.std.specs.Prelude.{◌≡◌, ◌≤◌, length};
ghost use Rattle.sws_proxy.specs.Blocks.{is_sound, addresses_length, source_octets, IsNamed, TellsBlock};

use crate::proxied::Proxied;
use std::net::{IpAddr, Ipv4Addr, Ipv6Addr};

/// How many bytes a header has at most.
pub const LONGEST: usize = 536;

/// How many bytes stand before the block.
const FIXED: usize = 16;

/// The versions and commands: a proxy speaks for itself, or for the client that it names.
const LOCAL: u8 = 0x20;

const PROXY: u8 = 0x21;

/// The families: TCP over IPv4 and IPv6.
const TCP4: u8 = 0x11;

const TCP6: u8 = 0x21;

/// How many bytes the addresses have that a block is to begin with.
fn addresses(command: u8, family: u8) -> usize
    ensures { result ≡ addresses_length command family }
{
    if command == PROXY && family == TCP4 {
        return 12;
    }
    if command == PROXY && family == TCP6 {
        return 36;
    }
    0
}

/// Whether a header may have these bytes, and so many in its block.
fn may_be(command: u8, family: u8, size: usize) -> bool
    requires { size ≤ 65535 }
    ensures { result ≡ is_sound command family size }
{
    (command == LOCAL || command == PROXY)
        && FIXED + size <= LONGEST
        && addresses(command, family) <= size
}

/// Whom a block names.
fn source(command: u8, family: u8, block: &[u8]) -> Option<IpAddr>
    requires { addresses_length command family ≤ length block.now }
    ensures { IsNamed (source_octets command family block.now) result }
{
    if command == PROXY && family == TCP4 {
        let octets = *block.first_chunk::<4>()?;
        return Some(IpAddr::V4(Ipv4Addr::from_octets(octets)));
    }
    if command == PROXY && family == TCP6 {
        let octets = *block.first_chunk::<16>()?;
        return Some(IpAddr::V6(Ipv6Addr::from_octets(octets)));
    }
    None
}

/// What bytes tell that begin with the signature.
pub fn read_block(bytes: &[u8]) -> Proxied
    ensures { TellsBlock bytes.now result }
{
    if bytes.len() < FIXED {
        return Proxied::More;
    }
    let (command, family) = (bytes[12], bytes[13]);
    let size = bytes[14] as usize * 256 + bytes[15] as usize;
    if !may_be(command, family, size) {
        return Proxied::Bad;
    }
    if bytes.len() < FIXED + size {
        return Proxied::More;
    }
    let block = &bytes[FIXED..FIXED + size];
    Proxied::Whole(source(command, family, block), FIXED + size)
}
