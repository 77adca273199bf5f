//! Where a site is to be had.
use std::marker::Model;
use sws_site::Site;

/// A site at the address that its menus give.
#[derive(Drop)]
pub(crate) struct Address<'s> {
    pub site: &'s Site,
    pub host: &'s [u8],
    pub port: u16,
}

impl<'s> Model for Address<'s> {
    ghost use Rattle.sws_gopher.specs.Menus.{Place, place_of};

    ghost Value = { Place };

    ghost view = { λ at. place_of at.site.now at.host.now at.port };
}
