//! Preparing the texts and menus of a site.
ghost use Rattle.std.specs.Prelude.{◌≡◌, ◌<◌, IfOk, IfSome, OnOk, length, slice_get};
ghost use Rattle.std.specs.Str.{bytes_eq};
ghost use Rattle.sws_gopher.specs.Halls.{KeepsTexts, AddsText, KeepsMenus, AreMenus, AddsMenus, path_of_key, lies_in};

use crate::address::Address;
use crate::menus::{is_sent_as_text, menu_in};
use crate::texts::text_in;
use std::alloc::{AllocError, Global};
use std::collections::BTreeMap;
use sws_site::Site;

/// Bytes that were prepared, by names.
pub(crate) type Prepared = BTreeMap<Vec<u8>, Vec<u8>>;

/// The texts of a site's files, by their names: of files of one name that of the first. The last
/// files are put first, and an earlier one takes the place of a later one.
pub(crate) fn prepare_texts(alloc: Global, site: &Site) -> Result<Prepared, AllocError>
    ensures { IfOk result (λ texts. KeepsTexts site.now.files texts) }
{
    let mut texts = BTreeMap::new(alloc);
    let mut start = site.files();
    'files: while start > 0 {
        start -= 1;
        add_text(alloc, site, start, &mut texts)?;
    }
    Ok(texts)
}

/// Adds the text of a file, if it is sent as one.
fn add_text(alloc: Global, site: &Site, i: usize, texts: &mut Prepared) -> Result<(), AllocError>
    requires { i < length site.now.files }
    ensures { OnOk result (IfSome (slice_get site.now.files i)
        (λ file. AddsText file texts.old texts.new)) }
{
    let name = site.name_at(i);
    if is_sent_as_text(name) {
        let text = text_in(alloc, site.page_at(i).body())?;
        texts.insert(Vec::from_slice(alloc, name)?, text)?;
    }
    Ok(())
}

/// The menus of a site's folders, by the paths of these without their last slashes. The whole site
/// is the folder of the empty path.
pub(crate) fn prepare_menus(alloc: Global, at: &Address<'_>) -> Result<Prepared, AllocError>
    ensures { IfOk result (KeepsMenus at.now) }
{
    let mut menus = BTreeMap::new(alloc);
    add_menu(alloc, at, b"", b"", &mut menus)?;
    'files: for i in 0..at.site.files() {
        add_menus_along(alloc, at, at.site.name_at(i), &mut menus)?;
    }
    Ok(menus)
}

/// Adds the menus of the folders in which a file of this name lies.
fn add_menus_along(
    alloc: Global,
    at: &Address<'_>,
    name: &[u8],
    menus: &mut Prepared,
) -> Result<(), AllocError>
    requires { AreMenus at.now menus.old }
    ensures adds { OnOk result (AddsMenus at.now
        (λ key. lies_in key name.now) menus.old menus.new) }
{
    'slashes: for end in 1..name.len() {
        if name[end] == b'/' {
            add_menu(alloc, at, &name[..end], &name[..end + 1], menus)?;
        }
    }
    Ok(())
}

/// Adds the menu of the folder of this key, which has this path, unless it is there.
fn add_menu(
    alloc: Global,
    at: &Address<'_>,
    key: &[u8],
    path: &[u8],
    menus: &mut Prepared,
) -> Result<(), AllocError>
    requires path { path.now ≡ path_of_key key.now }
    requires menus { AreMenus at.now menus.old }
    ensures { OnOk result (AddsMenus at.now
        (bytes_eq key.now) menus.old menus.new) }
{
    if menus.contains_key(key) {
        return Ok(());
    }
    let menu = menu_in(alloc, at, path)?;
    menus.insert(Vec::from_slice(alloc, key)?, menu)?;
    Ok(())
}
