//! Which of the heads that are built for a file a response begins with.

/// Which head of a page a response begins with.
#[derive(Clone, Copy, Debug, PartialEq, Eq)]
pub struct HeadKind {
    /// The file is sent: a head of 200. Else the file was not modified: a head of 304.
    pub changed: bool,
    /// The connection ends with the response.
    pub closes: bool,
}
