//! The world of a script.
ghost use Rattle.std.specs.Prelude.{◌≡◌, ◌≤◌, ◌<◌, ◌++◌, ℕ, List, Bool, length, map, IfOk, OnOk};
ghost use Rattle.sws_link.specs.LinkItems.{item_of};
ghost use Rattle.sws_link.specs.Worlds.{AreScripted};
ghost use Rattle.sws_link.specs.MemWorlds.{mem_world_tells};
ghost use Rattle.sws_script.specs.Inputs.{IsInput};
ghost use Rattle.sws_script.specs.Scripted.{fill_pieces_by, link_items, link_of, world_of, told_of};

use crate::{Item, ScriptConn};
use std::alloc::{AllocError, Global};
use sws_link::{LinkItem, MemLink, MemWorld, Memory};

/// The most bytes of a piece of a filling.
const PIECE: u32 = 4_096;

/// The world of a script: a link for each connection, in their order, of which none was accepted
/// and nothing was taken or written. No call of the world fails, and a call of a link does by the
/// lines of its connection alone.
///
/// There are at most 65,535 connections. Where they are those of an input, the world tells
/// the answers of each link.
pub fn script_world(alloc: Global, conns: &[ScriptConn]) -> Result<MemWorld, Memory>
    requires { length conns.now ≤ 65535 }
    ensures world { IfOk result (λ world. world ≡ world_of conns.now) }
    ensures tells { IfOk result (λ world. (schedule : Bool) (cores : ℕ) (steps : List (ℕ × ℕ))
        → IsInput schedule cores (record { steps = steps; conns = conns.now })
        → mem_world_tells world ≡ told_of conns.now) }
    ensures scripted { IfOk result (λ world. (schedule : Bool) (cores : ℕ) (steps : List (ℕ × ℕ))
        → IsInput schedule cores (record { steps = steps; conns = conns.now })
        → AreScripted (mem_world_tells world).coming) }
{
    let links = script_links(alloc, conns)?;
    Ok(MemWorld::new(links, Vec::new(alloc)))
}

/// The links of the connections.
fn script_links(alloc: Global, conns: &[ScriptConn]) -> Result<Vec<MemLink>, AllocError>
    ensures { IfOk result (λ links. links.items ≡ map link_of conns.now) }
{
    let mut links = Vec::new(alloc);
    for conn in conns {
        links.push(script_link(alloc, conn)?)?;
    }
    Ok(links)
}

/// The link of a connection, of which nothing was taken or written, and whose calls
/// fail by its lines alone.
fn script_link(alloc: Global, conn: &ScriptConn) -> Result<MemLink, AllocError>
    ensures { IfOk result (λ link. link ≡ link_of conn.now) }
{
    let mut items = Vec::new(alloc);
    for item in conn.items.as_slice() {
        push_item(alloc, &mut items, item)?;
    }
    Ok(MemLink::new(alloc, items, conn.step, conn.cut, Vec::new(alloc)))
}

/// Adds what an item gives.
fn push_item(alloc: Global, items: &mut Vec<LinkItem>, item: &Item) -> Result<(), AllocError>
    ensures { OnOk result (map item_of items.new.items
        ≡ map item_of items.old.items ++ link_items item.now) }
{
    match item {
        Item::Send(bytes) => {
            items.push(LinkItem::Bytes(Vec::from_slice(alloc, bytes.bytes())?))?;
            Ok(())
        }
        Item::Fill(count) => push_filling(items, PIECE, *count),
        Item::Pause(count) => {
            items.push(LinkItem::Wait(*count))?;
            Ok(())
        }
        Item::Fault => {
            items.push(LinkItem::Fail)?;
            Ok(())
        }
    }
}

/// Adds a filling in pieces of this many bytes, and one of what is left.
fn push_filling(items: &mut Vec<LinkItem>, piece: u32, count: u32) -> Result<(), AllocError>
    requires { 0 < piece }
    ensures { OnOk result (map item_of items.new.items
        ≡ map item_of items.old.items ++ fill_pieces_by piece count) }
{
    'pieces: for _ in 0..count / piece {
        items.push(LinkItem::Fill(piece))?;
    }
    if count % piece != 0 {
        items.push(LinkItem::Fill(count % piece))?;
    }
    Ok(())
}
