//! What a site does beyond sending its files, how much it holds, and how much of a connection it
//! serves.
ghost use Rattle.std.specs.Prelude.{◌≡◌, IfOk};
ghost use Rattle.sws_site.specs.Options.{plain_options};

use crate::additions::Additions;
use std::alloc::{AllocError, Global};

/// What a site does beyond sending the files that are asked for by their names, how much it holds,
/// and how much of a connection is served out of it.
///
/// A plain site, which [`Site::load`](crate::Site::load) makes, does none of these, holds 4,096
/// files and 268,435,456 bytes of contents, and of each of its connections 65,536 bytes count and 64
/// requests are answered.
#[derive(Drop)]
pub struct SiteOptions {
    /// The dot segments of a path are removed before its file is looked for (RFC 3986, section
    /// 5.2.4).
    pub removes_dot_segments: bool,
    /// More extensions of names have a media type of their own.
    pub knows_more_types: bool,
    /// The file `404.html` at the top of the folder, where there is one, is the content of each
    /// response that no file has the name.
    pub sends_not_found_page: bool,
    /// A path that names a folder with an index, and lacks the slash at its end, is answered by a
    /// redirect to the path with the slash (RFC 9110, section 15.4.2).
    pub redirects_to_folders: bool,
    /// A request is refused that another server may read otherwise: its host has a byte that no host
    /// has, or the length of its content is no number, or is given twice, or beside a coding
    /// (RFC 9112, sections 3.2 and 6.3).
    pub refuses_ambiguous: bool,
    /// The connection of an HTTP/1.0 client that asks for it stays open, and each response after
    /// which a connection stays open says so (RFC 9112, section 9.3).
    pub keeps_alive: bool,
    /// A request for a part of a file on the condition `If-Range` gets that part where the condition
    /// names the site's date as its responses have it, and else the whole file (RFC 9110, section
    /// 13.1.5). Without this it gets the whole file whatever the condition is.
    pub reads_if_range: bool,
    /// How many requests of a connection are answered, of which the last closes it: 1 to 65,535,
    /// and 0 means 1.
    pub answers: u16,
    /// How many bytes of a connection count: 1 to 4,294,967,295, and 0 means 1.
    pub input: u32,
    /// How many files the site holds at most: 0 to 1,048,576, and any larger number means that.
    pub max_files: u32,
    /// How many bytes their contents have together at most: 0 to 8,589,934,592, and any larger
    /// number means that.
    pub max_bytes: u64,
    /// What the owner of the site adds to its responses.
    pub added: Additions,
}

impl SiteOptions {
    /// The options of a plain site.
    pub fn plain(alloc: Global) -> SiteOptions
        ensures { result ≡ plain_options }
    {
        SiteOptions {
            removes_dot_segments: false,
            knows_more_types: false,
            sends_not_found_page: false,
            redirects_to_folders: false,
            refuses_ambiguous: false,
            keeps_alive: false,
            reads_if_range: false,
            answers: 64,
            input: 65536,
            max_files: 4096,
            max_bytes: 268_435_456,
            added: Additions::none(alloc),
        }
    }

    /// The same options once more.
    pub fn copy(&self, alloc: Global) -> Result<SiteOptions, AllocError>
        ensures { IfOk result (λ copied. copied ≡ self.now) }
    {
        Ok(SiteOptions {
            removes_dot_segments: self.removes_dot_segments,
            knows_more_types: self.knows_more_types,
            sends_not_found_page: self.sends_not_found_page,
            redirects_to_folders: self.redirects_to_folders,
            refuses_ambiguous: self.refuses_ambiguous,
            keeps_alive: self.keeps_alive,
            reads_if_range: self.reads_if_range,
            answers: self.answers,
            input: self.input,
            max_files: self.max_files,
            max_bytes: self.max_bytes,
            added: self.added.copy(alloc)?,
        })
    }
}
