//! Gopher (RFC 1436) out of a loaded site: a second protocol beside HTTP.
//!
//! A client sends one line, a *selector*, and gets one answer, with which the connection ends: the
//! menu of a folder, a file, or that there is neither. A [`Hall`] is a site at an address, with all
//! texts and menus prepared, so that [`reply`] answers a selector without taking memory; a menu
//! lists each name once ([`laws::a_menu_lists_each_name_once`]). A
//! [`GopherConn`] is a connection over a link, a step at a time: the connection of `sws_steps` over
//! what [`Gopher`] says.
//!
//! ```text
//! let hall = Hall::new(alloc, &site, "localhost", 70)?;
//! let parts = reply(&hall, b"/a/"); // the menu of the folder a
//! ```
#![tactic(auto)]

mod address;
mod gopher;
mod hall;
mod kind;
pub mod laws;
mod menus;
mod preparing;
mod texts;

pub use gopher::{Gopher, GopherConn};
pub use hall::{Hall, reply};
pub use kind::Kind;
