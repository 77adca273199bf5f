//! The rounds: a link, and a connection over it.
ghost use Rattle.std.specs.Prelude.{◌≡◌, false, IfSome};
ghost use Rattle.sws_link.specs.Links.{IsInitialLink};
ghost use Rattle.sws_link.specs.MemLinks.{mem_link_tells};

use crate::browser::{HEAD, small_site};
use std::alloc::Global;
use sws_conn::serve_one;
use sws_link::{LinkItem, MemLink};
use sws_site::Site;

/// So many heads come behind one another.
const HEADS: usize = 64;

/// All heads, one after another.
fn all_heads(alloc: Global) -> Option<Vec<u8>> {
    let mut bytes = Vec::new(alloc);
    for _ in 0..HEADS {
        bytes.extend_from_slice(HEAD).ok()?;
    }
    Some(bytes)
}

/// The bytes, cut into pieces of the size.
fn items_of(alloc: Global, bytes: &[u8], piece: usize) -> Option<Vec<LinkItem>> {
    let mut items = Vec::new(alloc);
    for part in bytes.chunks(piece.max(1)) {
        items
            .push(LinkItem::Bytes(Vec::from_slice(alloc, part).ok()?))
            .ok()?;
    }
    Some(items)
}

/// A link that gives the bytes in such pieces.
fn link_of(alloc: Global, bytes: &[u8], piece: usize) -> Option<MemLink>
    ensures initial { IfSome result (λ link. IsInitialLink (mem_link_tells link)) }
    ensures not_shut { IfSome result (λ link. link.shut ≡ false) }
{
    let size = if piece == 0 { bytes.len() } else { piece };
    let items = items_of(alloc, bytes, size)?;
    Some(MemLink::new(alloc, items, None, None, Vec::new(alloc)))
}

/// One round, and how many bytes were written in it.
fn round(alloc: Global, site: &Site, is_served: bool, bytes: &[u8], piece: usize) -> Option<usize> {
    let link = link_of(alloc, bytes, piece)?;
    if !is_served {
        return Some(link.written().len());
    }
    match serve_one(alloc, site, link) {
        Ok((link, _)) => Some(link.written().len()),
        Err(_) => None,
    }
}

/// Runs so many rounds, and answers how many bytes were written in all; nothing for want of memory.
pub fn run(alloc: Global, is_served: bool, rounds: u32, piece: usize) -> Option<u64> {
    let site = small_site(alloc)?;
    let bytes = all_heads(alloc)?;
    let mut written = 0u64;
    for _ in 0..rounds {
        let count = round(alloc, &site, is_served, bytes.as_slice(), piece)?;
        written = written.saturating_add(count as u64);
    }
    Some(written)
}
