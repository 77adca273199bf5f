//! Menus.
ghost use Rattle.std.specs.Prelude.{◌≡◌, ◌++◌, IfOk, OnOk, map, option_map, if◌then◌else◌};
ghost use Rattle.std.specs.List.{list_all, slice_split, position};
ghost use Rattle.std.specs.Fmt.{decimal};
ghost use Rattle.sws_gopher.specs.Texts.{line_end};
ghost use Rattle.sws_gopher.specs.Menus.{item_in as item_in_folder, items_of, selector_to, tabbed, menu_line, menu_of, is_listed, is_text, is_slash, is_shown, is_part};

use crate::address::Address;
use crate::kind::Kind;
use crate::texts::LAST_LINE;
use itoa::Buffer;
use std::alloc::{AllocError, Global};
use std::collections::BTreeSet;
use sws_site::{Site, content_type_of};

/// An item of a menu: what is displayed of it, and what it is.
pub(crate) type Item<'s> = (&'s [u8], Kind);

/// The menu of the folder of this path, which is empty or ends with a slash: a line for each item,
/// with the address at which it is to be had, and the line of one full stop.
pub(crate) fn menu_in(alloc: Global, at: &Address<'_>, folder: &[u8]) -> Result<Vec<u8>, AllocError>
    ensures { IfOk result (λ menu. menu.items ≡ menu_of at.now folder.now) }
{
    let items = items_in(alloc, at.site, folder)?;
    let mut menu = Vec::new(alloc);
    'items: for item in &items {
        push_item(&mut menu, at, folder, item)?;
    }
    menu.extend_from_slice(LAST_LINE)?;
    Ok(menu)
}

/// Adds the line of an item.
fn push_item(
    menu: &mut Vec<u8>,
    at: &Address<'_>,
    folder: &[u8],
    item: &Item<'_>,
) -> Result<(), AllocError>
    ensures { OnOk result (menu.new.items ≡ menu.old.items
        ++ menu_line at.now folder.now (item.now.0.now, item.now.1)) }
{
    let (name, kind) = *item;
    menu.push(kind.sign())?;
    menu.extend_from_slice(name)?;
    push_selector(menu, folder, name, kind)?;
    push_address(menu, at)?;
    Ok(())
}

/// Adds TAB and the selector of an item.
fn push_selector(
    menu: &mut Vec<u8>,
    folder: &[u8],
    name: &[u8],
    kind: Kind,
) -> Result<(), AllocError>
    ensures { OnOk result (menu.new.items ≡ menu.old.items
        ++ tabbed (selector_to folder.now (name.now, kind))) }
{
    menu.extend_from_slice(b"\t/")?;
    menu.extend_from_slice(folder)?;
    menu.extend_from_slice(name)?;
    menu.extend_from_slice(kind.slash_after())?;
    Ok(())
}

/// Adds TAB and where an item is to be had, and ends the line.
fn push_address(menu: &mut Vec<u8>, at: &Address<'_>) -> Result<(), AllocError>
    ensures { OnOk result (menu.new.items ≡ menu.old.items
        ++ (tabbed at.now.host ++ (tabbed (decimal at.now.port) ++ line_end))) }
{
    menu.push(b'\t')?;
    menu.extend_from_slice(at.host)?;
    menu.push(b'\t')?;
    menu.extend_from_slice(Buffer::new().format(at.port).as_bytes())?;
    menu.extend_from_slice(b"\r\n")?;
    Ok(())
}

/// What lies directly in the folder of this path, each once, in order.
pub(crate) fn items_in<'s>(
    alloc: Global,
    site: &'s Site,
    folder: &[u8],
) -> Result<BTreeSet<Item<'s>>, AllocError>
    ensures { IfOk result (λ items.
        map (λ item. (item.0.now, item.1)) items.keys ≡ items_of site.now.files folder.now) }
{
    let mut items = BTreeSet::new(alloc);
    'files: for i in 0..site.files() {
        if let Some(item) = item_in(folder, site.name_at(i)) {
            items.insert(item)?;
        }
    }
    Ok(items)
}

/// What is to be seen in a folder of a file of this name.
fn item_in<'s>(folder: &[u8], name: &'s [u8]) -> Option<Item<'s>>
    ensures { option_map (λ item. (item.0.now, item.1)) result
        ≡ item_in_folder folder.now name.now }
{
    if !is_shown_in_menus(name) {
        return None;
    }
    let rest = name.strip_prefix(folder)?;
    match first_slash(rest) {
        Some(at) => Some((&rest[..at], Kind::Folder)),
        None => Some((rest, kind_of(name))),
    }
}

/// Where the first slash stands.
fn first_slash(path: &[u8]) -> Option<usize>
    ensures { result ≡ position is_slash path.now }
{
    path.iter().position(|byte| *byte == b'/')
}

/// What a file of this name is.
fn kind_of(name: &[u8]) -> Kind
    ensures { result ≡ (if is_text name.now then Kind.Text else Kind.Binary) }
{
    if is_sent_as_text(name) {
        return Kind::Text;
    }
    Kind::Binary
}

/// Whether a file of this name is sent as a text.
pub(crate) fn is_sent_as_text(name: &[u8]) -> bool
    ensures { result ≡ is_text name.now }
{
    content_type_of(name).starts_with(b"text/")
}

/// Whether a file of this name is listed.
fn is_shown_in_menus(name: &[u8]) -> bool
    ensures { result ≡ is_listed name.now }
{
    is_all_shown(name) && has_all_parts(name)
}

/// Whether a name has no control byte.
fn is_all_shown(name: &[u8]) -> bool
    ensures { result ≡ list_all is_shown name.now }
{
    name.iter().all(|byte| *byte >= b' ' && *byte != 127)
}

/// Whether no part of a name is empty.
fn has_all_parts(name: &[u8]) -> bool
    ensures { result ≡ list_all is_part (slice_split is_slash name.now) }
{
    name.split(|byte| *byte == b'/')
        .all(|part| !part.is_empty())
}
