//! The folders of a site, and the responses that redirect to them (RFC 9110, section 15.4.2).
ghost use Rattle.std.specs.Prelude.{◌≡◌, ◌≤◌, true, IfOk, length, string_bytes};
ghost use Rattle.sws_site.specs.Folders.{redirects_to, folder_path, redirect_head};
ghost use Rattle.sws_site.specs.Redirects.{HasRedirect};

use crate::built_responses::BuiltResponse;
use crate::heads::{HeadParts, write_head};
use crate::options::SiteOptions;
use crate::statuses::Status;
use percent_encoding::{AsciiSet, NON_ALPHANUMERIC, ascii_set, percent_encode};
use std::alloc::{AllocError, Global};

/// The ASCII bytes that a path has escaped: all but the unreserved ones (RFC 3986, section 2.3) and
/// the slash.
const ESCAPED: AsciiSet = ascii_set!(
    NON_ALPHANUMERIC
        .remove(b'-')
        .remove(b'.')
        .remove(b'/')
        .remove(b'_')
        .remove(b'~')
);

/// How many bytes the lines have with which each redirect begins: the status line, and that which
/// names the server.
const FIRST_LINES: usize = 45;

/// The content of each redirect.
const MOVED: &[u8] = b"301 Moved Permanently\n";

/// Whether a site with these options redirects to the folder of the index of this name.
fn redirects_to(options: &SiteOptions, index: &[u8]) -> bool
    ensures redirects { result ≡ redirects_to options.now index.now }
    ensures long { result ≡ true → 11 ≤ length index.now }
{
    options.redirects_to_folders && index.ends_with(b"/index.html") && !index.starts_with(b"/")
}

/// The path of the folder of the index of this name.
fn folder_path(alloc: Global, index: &[u8]) -> Result<String, AllocError>
    requires { 10 ≤ length index.now }
    ensures { IfOk result (λ path. string_bytes path ≡ folder_path index.now) }
{
    let mut path = String::new(alloc);
    path.push_str("/")?;
    percent_encode(&index[..index.len() - 10], ESCAPED).append_to(&mut path)?;
    Ok(path)
}

/// The head of the response that redirects to this path, whose length isn't limited, of a site with
/// these options.
fn redirect_head(
    alloc: Global,
    options: &SiteOptions,
    path: &[u8],
    closes: bool,
) -> Result<Vec<u8>, AllocError>
    ensures { IfOk result (λ head. head.items ≡ redirect_head options.now path.now closes) }
{
    let own = write_head(&HeadParts {
        options,
        status: Status::MovedPermanently,
        closes,
        date: &None,
        max_age: None,
        range: None,
        media_type: b"text/plain",
        len: MOVED.len(),
    });
    let lines = own.bytes();
    let mut head = Vec::new(alloc);
    head.extend_from_slice(&lines[..FIRST_LINES])?;
    head.extend_from_slice(b"Location: ")?;
    head.extend_from_slice(path)?;
    head.extend_from_slice(b"\r\n")?;
    head.extend_from_slice(&lines[FIRST_LINES..])?;
    head.shrink_to_fit();
    Ok(head)
}

/// The response that redirects to the folder of the index of this name, where a site with these
/// options does so.
pub(crate) fn redirect(
    alloc: Global,
    options: &SiteOptions,
    index: &[u8],
) -> Result<Option<BuiltResponse>, AllocError>
    ensures { IfOk result (HasRedirect options.now (redirects_to options.now index.now)
        (folder_path index.now)) }
{
    if !redirects_to(options, index) {
        return Ok(None);
    }
    let path = folder_path(alloc, index)?;
    let body = Vec::from_slice(alloc, MOVED)?;
    let open_head = redirect_head(alloc, options, path.as_bytes(), false)?;
    let closing_head = redirect_head(alloc, options, path.as_bytes(), true)?;
    Ok(Some(BuiltResponse {
        body,
        open_head,
        closing_head,
    }))
}
