//! The script of the clients.
ghost use Rattle.std.specs.Prelude.{◌≡◌, ◌≤◌, IfOk, IfSome, length};
ghost use Rattle.std.specs.List.{AllByRecursion};
ghost use Rattle.sws_link.specs.MemWorlds.{IsInitialMemLink};

use mely_event::Memory;
use std::alloc::Global;
use sws_link::{LinkItem, MemLink};

/// How many clients there are.
pub const CLIENTS: u16 = 8;

/// What one client sends, of the lines of a script; `None` where a line is of none.
///
/// # Errors
///
/// There was no memory.
fn read_client(alloc: Global, text: &str, client: u16) -> Result<Option<Vec<u8>>, Memory> {
    let mut sent = Vec::new(alloc);
    'lines: for line in text.lines() {
        let Some((number, says)) = line.split_once(' ') else {
            return Ok(None);
        };
        let Ok(number) = number.parse::<u16>() else {
            return Ok(None);
        };
        if number >= CLIENTS {
            return Ok(None);
        }
        if number == client {
            sent.extend_from_slice(says.as_bytes())?;
            sent.push(b'\n')?;
        }
    }
    Ok(Some(sent))
}

/// The link of a client that sends this at once, and takes 7 bytes at a time.
///
/// # Errors
///
/// There was no memory.
fn link_of(alloc: Global, sent: Vec<u8>) -> Result<MemLink, Memory>
    ensures { IfOk result IsInitialMemLink }
{
    let mut items = Vec::new(alloc);
    items.push(LinkItem::Wait(1))?;
    items.push(LinkItem::Bytes(sent))?;
    items.push(LinkItem::Wait(2))?;
    Ok(MemLink::new(alloc, items, Some(7), None, Vec::new(alloc)))
}

/// The links of all clients, by their lines of a script; `None` where it is no text or a line is
/// wrong.
///
/// # Errors
///
/// There was no memory.
pub fn read_script(alloc: Global, bytes: &[u8]) -> Result<Option<Vec<MemLink>>, Memory>
    ensures initial { IfOk result (λ read. IfSome read (λ links.
        AllByRecursion IsInitialMemLink links.items)) }
    ensures few { IfOk result (λ read. IfSome read (λ links. length links.items ≤ 8)) }
{
    let Ok(text) = str::from_utf8(bytes) else {
        return Ok(None);
    };
    let mut links = Vec::new(alloc);
    'clients: for client in 0..CLIENTS {
        let Some(sent) = read_client(alloc, text, client)? else {
            return Ok(None);
        };
        links.push(link_of(alloc, sent)?)?;
    }
    Ok(Some(links))
}
