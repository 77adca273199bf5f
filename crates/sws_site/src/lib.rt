//! The files of a site, with the heads of the responses that send them.
//!
//! A site is loaded once from a [`Folder`](sws_link::Folder), within limits: names have at most 1,024
//! bytes, and a plain site has at most 4,096 files and 268,435,456 bytes of contents, any other what
//! its options say, up to 1,048,576 and 8,589,934,592. All that a response needs is built then: the two heads of each file, with and without `Connection: close`, those that say
//! that a file was not modified, the responses that refuse, and those that redirect to folders. So a
//! server answers out of a site without taking memory and without copying a byte: every head and
//! every body is lent. The head of a response about a part of a file has numbers of the request in
//! it: [`write_head`] writes it into a room of its own, and takes no memory either.
//!
//! [`SiteOptions`] say what a site does beyond a plain one, which [`Site::load`] makes, and how much
//! it holds. Among them
//! are [`Additions`]: header lines that stand in every head, media types, and for how long files may
//! be kept, by the ends of their names.
//!
//! ```text
//! let site = Site::load(alloc, &mut folder, Some(784111777))?;
//! match site.lookup(b"index.html") {
//!     Some(page) => send(page.head(HeadKind { changed: true, closes: false }), page.body()),
//!     None => {
//!         let (head, body) = site.refusal(Status::NotFound, false);
//!         send(head, body);
//!     }
//! }
//! ```
#![tactic(auto)]

mod additions;
mod age_faults;
mod built_responses;
mod content_types;
mod folders;
mod head_kinds;
mod header_faults;
mod header_lines;
mod heads;
mod loading;
mod more_types;
mod options;
mod own_ages;
mod own_types;
mod pages;
mod refusals;
mod site_faults;
mod sites;
mod statuses;
mod stored;
mod tokens;
mod type_faults;

pub use additions::Additions;
pub use age_faults::AgeFault;
pub use content_types::content_type_of;
pub use head_kinds::HeadKind;
pub use header_faults::HeaderFault;
pub use header_lines::HeaderLines;
pub use heads::{ContentRange, HeadParts, MAX_MEDIA_TYPE, write_head};
pub use options::SiteOptions;
pub use own_ages::OwnAges;
pub use own_types::OwnTypes;
pub use pages::Page;
pub use site_faults::SiteFault;
pub use sites::Site;
pub use statuses::{Body, Status, StatusRow};
pub use type_faults::TypeFault;
