//! Headers of version 1.
ghost use Rattle.std.specs.Prelude.{◌≡◌, ◌≤◌, length, Option, MatchOption, IsTrue, ◌↔◌};
ghost use Rattle.std.specs.declared.net.ip_addr.IpAddr.{IpAddr};
ghost use Rattle.sws_proxy.specs.Lines.{before, behind, IsAddress, IsPort, AreEnds, IsTcp, TextNames, LineNames, first_line, TellsLine};

use crate::proxied::Proxied;
use memchr::memchr;
use std::net::{IpAddr, Ipv4Addr, Ipv6Addr};
use sws_text::read_decimal;

/// How many bytes a line has at most, with its end.
const LONGEST_LINE: usize = 107;

/// What stands before and behind the first such byte.
fn cut(byte: u8, text: &[u8]) -> (&[u8], &[u8])
    ensures before { result.0.now ≡ before byte text.now }
    ensures behind { result.1.now ≡ behind byte text.now }
    ensures within { length result.0.now ≤ length text.now }
{
    match memchr(byte, text) {
        Some(at) => (&text[..at], &text[at + 1..]),
        None => (text, &text[text.len()..]),
    }
}

/// The address that a word writes.
fn address(is_ipv6: bool, word: &[u8]) -> Option<IpAddr>
    ensures { MatchOption result ((a : IpAddr) → IsAddress is_ipv6 word.now a → ⊥)
        (IsAddress is_ipv6 word.now) }
{
    if is_ipv6 {
        match Ipv6Addr::parse_ascii(word) {
            Ok(address) => Some(IpAddr::V6(address)),
            Err(_) => None,
        }
    } else {
        match Ipv4Addr::parse_ascii(word) {
            Ok(address) => Some(IpAddr::V4(address)),
            Err(_) => None,
        }
    }
}

/// Whether a word writes a port.
fn is_port(word: &[u8]) -> bool
    ensures { IsTrue result ↔ IsPort word.now }
{
    read_decimal(word, 65_535).is_some()
}

/// The first of two addresses with their ports.
fn first_end(is_ipv6: bool, words: &[u8]) -> Option<IpAddr>
    ensures { MatchOption result ((a : IpAddr) → AreEnds is_ipv6 words.now a → ⊥)
        (AreEnds is_ipv6 words.now) }
{
    let (source, rest) = cut(b' ', words);
    let (target, rest) = cut(b' ', rest);
    let (source_port, target_port) = cut(b' ', rest);
    if !is_port(source_port) || !is_port(target_port) {
        return None;
    }
    if address(is_ipv6, target).is_none() {
        return None;
    }
    address(is_ipv6, source)
}

/// The client of a connection over TCP, in a text that begins with these words.
fn tcp(is_ipv6: bool, first: &[u8], text: &[u8]) -> Option<IpAddr>
    ensures { MatchOption result ((a : IpAddr) → IsTcp is_ipv6 first.now text.now a → ⊥)
        (IsTcp is_ipv6 first.now text.now) }
{
    if !text.starts_with(first) {
        return None;
    }
    first_end(is_ipv6, &text[first.len()..])
}

/// Whom a line without its end names, or nothing where it is none.
fn read_text(text: &[u8]) -> Option<Option<IpAddr>>
    ensures { MatchOption result ((client : Option IpAddr) → TextNames text.now client → ⊥)
        (TextNames text.now) }
{
    if text.starts_with(b"PROXY UNKNOWN") {
        return Some(None);
    }
    match tcp(false, b"PROXY TCP4 ", text) {
        Some(client) => Some(Some(client)),
        None => match tcp(true, b"PROXY TCP6 ", text) {
            Some(client) => Some(Some(client)),
            None => None,
        },
    }
}

/// Whom a line without its LF names, or nothing where it is none.
fn read_whole(line: &[u8]) -> Option<Option<IpAddr>>
    ensures { MatchOption result ((client : Option IpAddr) → LineNames line.now client → ⊥)
        (LineNames line.now) }
{
    if !line.ends_with(b"\r") {
        return None;
    }
    match read_text(&line[..line.len() - 1]) {
        Some(client) => Some(client),
        None => None,
    }
}

/// The line, as far as it has come, within what it may have at most.
fn line_of(bytes: &[u8]) -> &[u8]
    ensures line { result.now ≡ first_line bytes.now }
    ensures within { length result.now ≤ length bytes.now }
    ensures few { length result.now ≤ 107 }
{
    if bytes.len() <= LONGEST_LINE {
        return cut(b'\n', bytes).0;
    }
    cut(b'\n', &bytes[..LONGEST_LINE]).0
}

/// What bytes tell that begin as a line.
pub fn read_line(bytes: &[u8]) -> Proxied
    ensures { TellsLine bytes.now result }
{
    let line = line_of(bytes);
    if line.len() >= LONGEST_LINE {
        return Proxied::Bad;
    }
    if line.len() >= bytes.len() {
        return Proxied::More;
    }
    match read_whole(line) {
        Some(client) => Proxied::Whole(client, line.len() + 1),
        None => Proxied::Bad,
    }
}
