//! What is sent for one head, and whether the connection ends with it.

use sws_parts::Parts;

/// What is sent for a head, lent for `'s`, the life of the site.
#[derive(Drop)]
pub struct Answer<'s> {
    /// The head and the body.
    pub parts: Parts<'s>,
    /// The connection ends after them.
    pub closes: bool,
    /// The status code: 200, 206, 301, 304, 400, 404, 405, 416, 431 or 501.
    pub code: u16,
}

/// How the answer ends that stands in some parts.
#[derive(Clone, Copy)]
pub struct Answered {
    /// The connection ends after it.
    pub closes: bool,
    /// The status code, as that of an [`Answer`].
    pub code: u16,
}
