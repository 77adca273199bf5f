//! Writing the head of a response, line by line.
ghost use Rattle.std.specs.Prelude.{◌≡◌, ◌≤◌, ◌+◌, ◌++◌, Option, length};
ghost use Rattle.sws_site.specs.ResponseHeads.{lines_text, line_end, connection_lines, last_modified_lines, cache_lines, allow_lines, range_text, range_lines, media_type_and_len_lines, content_lines, head_text};
ghost use Rattle.sws_site.specs.HeadParts.{head_of};

use crate::options::SiteOptions;
use crate::statuses::{Body, Status};
use httpdate::HttpDate;
use sws_parts::{MAX_OWN_HEAD, OwnHead};

/// The most bytes of the media type of a content.
pub const MAX_MEDIA_TYPE: usize = 80;

/// Which part of a file a response is about, as its `Content-Range` says (RFC 9110, section 14.4).
/// Bytes are counted from 0.
#[derive(Clone, Copy, Debug, PartialEq, Eq)]
pub enum ContentRange {
    /// The response has the bytes from the first to the last.
    Selected {
        /// The place of the first byte of the part.
        first: u64,
        /// The place of its last byte.
        last: u64,
        /// How many bytes the whole file has.
        len: u64,
    },
    /// The file has no such bytes as the request asks for.
    NoSuch {
        /// How many bytes the whole file has.
        len: u64,
    },
}

/// What a head says, beside what all heads say.
#[derive(Clone, Copy)]
pub struct HeadParts<'a> {
    /// What the site does, of which come the lines that its owner adds.
    pub options: &'a SiteOptions,
    /// The status, whose row says which of the lines below there are.
    pub status: Status,
    /// The connection ends with the response.
    pub closes: bool,
    /// When the site was last modified, if that is known.
    pub date: &'a Option<HttpDate>,
    /// For how many seconds a file may be kept, if that is said.
    pub max_age: Option<u32>,
    /// Which part of a file the response is about, if it is about a part.
    pub range: Option<ContentRange>,
    /// The media type of the content.
    pub media_type: &'a [u8],
    /// How many bytes the content has.
    pub len: usize,
}

/// Adds a line that is made of these two parts.
fn add_line(head: &mut OwnHead, name: &[u8], value: &[u8])
    requires { length head.old + length ((name.now ++ value.now) ++ line_end) ≤ MAX_OWN_HEAD }
    ensures { head.new ≡ head.old ++ ((name.now ++ value.now) ++ line_end) }
{
    head.put(name);
    head.put(value);
    head.put(b"\r\n");
}

/// Says that the connection ends, if it does, and else that it stays open, where that is said.
fn add_connection(head: &mut OwnHead, closes: bool, says_kept: bool)
    requires { length head.old + length (lines_text (connection_lines closes says_kept))
        ≤ MAX_OWN_HEAD }
    ensures { head.new ≡ head.old ++ lines_text (connection_lines closes says_kept) }
{
    if closes {
        add_line(head, b"Connection: ", b"close");
    } else if says_kept {
        add_line(head, b"Connection: ", b"keep-alive");
    }
}

/// Says when the site was last modified, where the response has the date and it is known.
fn add_last_modified(head: &mut OwnHead, is_dated: bool, date: &Option<HttpDate>)
    requires { length head.old + length (lines_text (last_modified_lines is_dated date.now))
        ≤ MAX_OWN_HEAD }
    ensures { head.new ≡ head.old ++ lines_text (last_modified_lines is_dated date.now) }
{
    if !is_dated {
        return;
    }
    if let Some(date) = date {
        add_line(head, b"Last-Modified: ", &date.to_bytes());
    }
}

/// Says for how many seconds the response may be kept, where its status has the date and the site
/// says so.
fn add_cache(head: &mut OwnHead, is_dated: bool, max_age: &Option<u32>)
    requires { length head.old + length (lines_text (cache_lines is_dated max_age.now))
        ≤ MAX_OWN_HEAD }
    ensures { head.new ≡ head.old ++ lines_text (cache_lines is_dated max_age.now) }
{
    if !is_dated {
        return;
    }
    if let Some(seconds) = max_age {
        head.put(b"Cache-Control: max-age=");
        head.put_number(u64::from(*seconds));
        head.put(b"\r\n");
    }
}

/// Says which methods a file has, where the request has another.
fn add_allow(head: &mut OwnHead, lists_methods: bool)
    requires { length head.old + length (lines_text (allow_lines lists_methods)) ≤ MAX_OWN_HEAD }
    ensures { head.new ≡ head.old ++ lines_text (allow_lines lists_methods) }
{
    if lists_methods {
        add_line(head, b"Allow: ", b"GET, HEAD");
    }
}

/// Writes which part of the file it is.
fn put_range(head: &mut OwnHead, range: &ContentRange)
    requires { length head.old + length (range_text range.now) ≤ MAX_OWN_HEAD }
    ensures { head.new ≡ head.old ++ range_text range.now }
{
    match range {
        ContentRange::Selected { first, last, len } => {
            head.put_number(*first);
            head.put(b"-");
            head.put_number(*last);
            head.put(b"/");
            head.put_number(*len);
        }
        ContentRange::NoSuch { len } => {
            head.put(b"*/");
            head.put_number(*len);
        }
    }
}

/// Says which part of the file the response is about, where it is about one.
fn add_range(head: &mut OwnHead, has_range: bool, range: &Option<ContentRange>)
    requires { length head.old + length (lines_text (range_lines has_range range.now))
        ≤ MAX_OWN_HEAD }
    ensures { head.new ≡ head.old ++ lines_text (range_lines has_range range.now) }
{
    if !has_range {
        return;
    }
    if let Some(range) = range {
        head.put(b"Content-Range: bytes ");
        put_range(head, range);
        head.put(b"\r\n");
    }
}

/// Says of which media type the content is, and how long.
fn add_media_type_and_len(head: &mut OwnHead, media_type: &[u8], len: usize)
    requires { length head.old + length (lines_text (media_type_and_len_lines media_type.now len))
        ≤ MAX_OWN_HEAD }
    ensures { head.new ≡ head.old ++ lines_text (media_type_and_len_lines media_type.now len) }
{
    add_line(head, b"Content-Type: ", media_type);
    head.put(b"Content-Length: ");
    head.put_number(len as u64);
    head.put(b"\r\n");
}

/// Tells of the content, where there is any.
fn add_content(head: &mut OwnHead, body: Body, media_type: &[u8], len: usize)
    requires { length head.old + length (lines_text (content_lines body media_type.now len))
        ≤ MAX_OWN_HEAD }
    ensures { head.new ≡ head.old ++ lines_text (content_lines body media_type.now len) }
{
    match body {
        Body::Nothing => {}
        Body::WholeFile => add_media_type_and_len(head, media_type, len),
        Body::PartOfFile => add_media_type_and_len(head, media_type, len),
        Body::StatusText => add_media_type_and_len(head, media_type, len),
    }
}

/// The head of these parts, which has room. It takes no memory.
///
/// Every head has room whose media type is that of a page or `text/plain`, as a law has it that
/// proofs can cite (`head_text-short`).
pub fn write_head(parts: &HeadParts<'_>) -> OwnHead
    requires { length (head_text (head_of parts.now)) ≤ MAX_OWN_HEAD }
    ensures { result ≡ head_text (head_of parts.now) }
{
    let row = parts.status.row();
    let mut head = OwnHead::new();
    add_line(&mut head, b"HTTP/1.1 ", row.text);
    add_line(&mut head, b"Server: ", b"sws");
    add_connection(&mut head, parts.closes, parts.options.keeps_alive);
    add_last_modified(&mut head, row.is_dated, parts.date);
    add_cache(&mut head, row.is_dated, &parts.max_age);
    add_allow(&mut head, row.lists_methods);
    add_range(&mut head, row.has_range, &parts.range);
    add_content(&mut head, row.body, parts.media_type, parts.len);
    head.put(parts.options.added.headers.text());
    head.put(b"\r\n");
    head
}
