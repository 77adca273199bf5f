//! What answers are taken from.
ghost use Rattle.std.specs.Prelude.{◌≡◌, ◌≢◌, ◌≤◌, [], Some, IsSome, IfOk, length, option_map};
ghost use Rattle.sws_gopher.specs.Halls.{IsHall, host_limit, menu_of_key, text_named as text_by_name};
ghost use Rattle.sws_gopher.specs.Texts.{without_last};
ghost use Rattle.sws_gopher.specs.Menus.{place_of, menu_of};
ghost use Rattle.sws_gopher.specs.Replies.{reply_of, reply_to, reply_to_folder, without_first_slash};

use crate::address::Address;
use crate::menus::is_sent_as_text;
use crate::preparing::{Prepared, prepare_menus, prepare_texts};
use std::alloc::{AllocError, Global};
use std::marker::Model;
use sws_link::Memory;
use sws_parts::Parts;
use sws_site::Site;

/// The answer where there is nothing of a selector.
pub(crate) const NOT_FOUND: &[u8] = b"3not found\t\terror.host\t1\r\n.\r\n";

/// A site with the address at which it is to be had, and all that its answers need: its files that
/// are texts as they are sent, and the menus of its folders. So an answer takes no memory.
#[derive(Drop)]
pub struct Hall<'s> {
    site: &'s Site,
    host: Vec<u8>,
    port: u16,
    texts: Prepared,
    menus: Prepared,
}

impl<'s> Model for Hall<'s> {
    ghost use Rattle.sws_gopher.specs.Menus.{Place};

    ghost Value = { Place };

    ghost use Rattle.sws_gopher.specs.HallFields.{place_in, IsPrepared};

    ghost view = { place_in };

    ghost invariant = { IsPrepared };
}

impl<'s> Hall<'s> {
    /// Prepares the texts and menus of a site, with the address that menus give. They have at most
    /// twice the bytes of the files and the names, so about three times the site is in memory then.
    ///
    /// `host` has at most 255 bytes. It isn't looked up.
    ///
    /// # Errors
    ///
    /// There was no memory.
    pub fn new(alloc: Global, site: &'s Site, host: &str, port: u16) -> Result<Hall<'s>, Memory>
        requires { length host.now ≤ host_limit }
        ensures { IfOk result (λ hall. hall ≡ place_of site.now host.now port) }
    {
        let hall = prepare(alloc, site, host.as_bytes(), port)?;
        Ok(hall)
    }

    /// A law, which does nothing when it runs: what a hall holds is within the limits of a site.
    pub fn limits(&self)
        ensures { IsHall self.now }
    {
        let _ = &self.port;
    }
}

/// The hall of this site and address.
fn prepare<'s>(
    alloc: Global,
    site: &'s Site,
    host: &[u8],
    port: u16,
) -> Result<Hall<'s>, AllocError>
    requires { length host.now ≤ host_limit }
    ensures { IfOk result (λ hall. hall ≡ place_of site.now host.now port) }
{
    site.limits();
    let texts = prepare_texts(alloc, site)?;
    let menus = prepare_menus(alloc, &Address { site, host, port })?;
    let host = Vec::from_slice(alloc, host)?;
    Ok(Hall {
        site,
        host,
        port,
        texts,
        menus,
    })
}

/// The answer to a selector: the menu of a folder, a file, or that there is neither. It takes no
/// memory, and time in the logarithm of the number of files.
pub fn reply<'h>(hall: &'h Hall<'_>, selector: &[u8]) -> Parts<'h>
    ensures { result ≡ record { head = []; body = reply_of hall.now selector.now } }
{
    Parts::new(b"", bytes_for(hall, without_first(selector)))
}

/// The answer to a selector without its first slash.
fn bytes_for<'h>(hall: &'h Hall<'_>, name: &[u8]) -> &'h [u8]
    ensures { result.now ≡ reply_to hall.now name.now }
{
    if name.is_empty() {
        return whole_menu(hall);
    }
    match hall.site.lookup(name) {
        Some(_) if is_sent_as_text(name) => text_named(hall, name),
        Some(page) => page.body(),
        None => menu_of_folder(hall, name),
    }
}

/// The text of the file of this name.
fn text_named<'h>(hall: &'h Hall<'_>, name: &[u8]) -> &'h [u8]
    requires { IsSome (text_by_name hall.now.files name.now) }
    ensures { Some result.now ≡ text_by_name hall.now.files name.now }
{
    match hall.texts.get(name) {
        Some(text) => text,
        None => unreachable!(),
    }
}

/// The menu of the whole site.
fn whole_menu<'h>(hall: &'h Hall<'_>) -> &'h [u8]
    ensures { result.now ≡ menu_of hall.now [] }
{
    match kept_menu(hall, b"") {
        Some(menu) => menu,
        None => unreachable!(),
    }
}

/// The menu of the folder of this name, or that there is none.
fn menu_of_folder<'h>(hall: &'h Hall<'_>, name: &[u8]) -> &'h [u8]
    requires { name.now ≢ [] }
    ensures { result.now ≡ reply_to_folder hall.now name.now }
{
    if name == b"/".as_slice() {
        return NOT_FOUND;
    }
    match kept_menu(hall, without_last_slash(name)) {
        Some(menu) => menu,
        None => NOT_FOUND,
    }
}

/// The menu of the folder of this path without its last slash, if there is that folder.
fn kept_menu<'h>(hall: &'h Hall<'_>, key: &[u8]) -> Option<&'h [u8]>
    ensures { option_map (λ menu. menu.now) result ≡ menu_of_key hall.now key.now }
{
    match hall.menus.get(key) {
        Some(menu) => Some(menu),
        None => None,
    }
}

/// A name without one slash at its end.
fn without_last_slash(name: &[u8]) -> &[u8]
    ensures { result.now ≡ without_last 47 name.now }
{
    name.strip_suffix(b"/").unwrap_or(name)
}

/// A selector without one slash at its front.
fn without_first(selector: &[u8]) -> &[u8]
    ensures { result.now ≡ without_first_slash selector.now }
{
    selector.strip_prefix(b"/").unwrap_or(selector)
}
