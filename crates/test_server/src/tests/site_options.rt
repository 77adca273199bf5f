//! What a site does beyond a plain one.

use super::answers::{answered, sends};
use super::files::files_of;
use std::process::Abort;
use sws_answer::ask;
use sws_link::{Folder, SureFolder};
use sws_site::{Additions, Site, SiteOptions};

/// The options of a site that does all that a site can, with these additions.
pub(super) fn all(added: Additions) -> SiteOptions {
    SiteOptions {
        removes_dot_segments: true,
        knows_more_types: true,
        sends_not_found_page: true,
        redirects_to_folders: true,
        refuses_ambiguous: true,
        keeps_alive: true,
        reads_if_range: true,
        answers: 1000,
        input: 4_194_304,
        max_files: 65_536,
        max_bytes: 1_073_741_824,
        added,
    }
}

/// The site of these files with these options. Its date is that of the examples of RFC 9110.
pub(super) fn site_with(
    rt: &(impl AllocGlobal + Abort),
    rows: &[(&[u8], &[u8])],
    options: SiteOptions,
) -> Site {
    let mut folder = SureFolder::new(rt.alloc(), files_of(rt, rows));
    folder.open("site");
    Site::load_with(rt.alloc(), &mut folder, Some(784111777), options).expect(rt, "a site")
}

/// The site of these files that does all that a site can, and to which nothing is added.
fn site_with_all(rt: &(impl AllocGlobal + Abort), rows: &[(&[u8], &[u8])]) -> Site {
    site_with(rt, rows, all(Additions::none(rt.alloc())))
}

/// Whether the site answers this head with this response.
pub(super) fn is_sent(
    rt: &(impl AllocGlobal + Abort),
    site: &Site,
    head: &[u8],
    response: &[u8],
) -> bool {
    sends(&mut answered(rt, site, &ask(head), false).parts, response)
}

/// Whether the site answers this head with this body.
fn has_body(rt: &(impl AllocGlobal + Abort), site: &Site, head: &[u8], body: &[u8]) -> bool {
    let mut parts = answered(rt, site, &ask(head), false).parts;
    parts.advance(parts.front().len());
    parts.front() == body
}

/// Files that contain their names.
static FILES: [(&[u8], &[u8]); 9] = [
    (b"Packages", b"Packages"),
    (b"a/g", b"a/g"),
    (b"b/c/g.", b"b/c/g."),
    (b"b/c/..g", b"b/c/..g"),
    (b"b/c/index.html", b"b/c/index.html"),
    (b"b/g", b"b/g"),
    (b"b/index.html", b"b/index.html"),
    (b"g", b"g"),
    (b"mid/6", b"mid/6"),
];

/// Requests for targets with dot segments, and the files that these name: the two examples of RFC
/// 3986, section 5.2.4, then what `apt` asks for, some of section 5.4, and others.
static TARGETS: [(&[u8], &[u8]); 12] = [
    (b"GET /a/b/c/./../../g HTTP/1.1\r\nHost: h\r\n\r\n", b"a/g"),
    (
        b"GET /mid/content=5/../6 HTTP/1.1\r\nHost: h\r\n\r\n",
        b"mid/6",
    ),
    (b"GET /./Packages HTTP/1.1\r\nHost: h\r\n\r\n", b"Packages"),
    (b"GET /b/c/../g HTTP/1.1\r\nHost: h\r\n\r\n", b"b/g"),
    (
        b"GET /b/c/./ HTTP/1.1\r\nHost: h\r\n\r\n",
        b"b/c/index.html",
    ),
    (b"GET /b/c/. HTTP/1.1\r\nHost: h\r\n\r\n", b"b/c/index.html"),
    (b"GET /b/c/.. HTTP/1.1\r\nHost: h\r\n\r\n", b"b/index.html"),
    (b"GET /b/c/../../../g HTTP/1.1\r\nHost: h\r\n\r\n", b"g"),
    (b"GET /b/c/g. HTTP/1.1\r\nHost: h\r\n\r\n", b"b/c/g."),
    (b"GET /b/c/..g HTTP/1.1\r\nHost: h\r\n\r\n", b"b/c/..g"),
    (b"GET /b//../g?q=/../ HTTP/1.1\r\nHost: h\r\n\r\n", b"b/g"),
    (b"GET /%2e%2E/g HTTP/1.1\r\nHost: h\r\n\r\n", b"g"),
];

#[test]
fn dot_segments_are_removed(rt: HostRuntime) {
    let site = site_with_all(&rt, &FILES);
    for &(head, name) in &TARGETS {
        assert!(rt; has_body(&rt, &site, head, name));
    }
}

/// Whether the first file of this name has this media type.
fn has_type(site: &Site, name: &[u8], media_type: &[u8]) -> bool {
    match site.lookup(name) {
        Some(page) => page.media_type() == media_type,
        None => false,
    }
}

/// Names with the types that are registered for their extensions.
static TYPES: [(&[u8], &[u8]); 12] = [
    (b"a.html", b"text/html"),
    (b"a.mjs", b"text/javascript"),
    (b"A.WEBP", b"image/webp"),
    (b"a.woff2", b"font/woff2"),
    (b"a.woff", b"font/woff"),
    (b"a.mp4", b"video/mp4"),
    (b"a.webmanifest", b"application/manifest+json"),
    (b"a.tar.gz", b"application/gzip"),
    (b"a.pem", b"application/x-x509-ca-cert"),
    (
        b"a.docx",
        b"application/vnd.openxmlformats-officedocument.wordprocessingml.document",
    ),
    (b"a.odt", b"application/vnd.oasis.opendocument.text"),
    (b"a.none", b"application/octet-stream"),
];

#[test]
fn more_types_are_known(rt: HostRuntime) {
    let site = site_with_all(&rt, &TYPES);
    for &(name, media_type) in &TYPES {
        assert!(rt; has_type(&site, name, media_type));
    }
}

/// Folders with an index and without one; a name that begins with a slash, as no file of a machine
/// does.
static FOLDERS: [(&[u8], &[u8]); 6] = [
    (b"docs/index.html", b"docs\n"),
    (b"a b/\xC3\xA9/index.html", b"e\n"),
    (b"bare/x.txt", b"x\n"),
    (b"%/index.html", b"percent\n"),
    (b"/host/index.html", b"host\n"),
    (b"index.html", b"top\n"),
];

/// The response that no file has the name.
static NOT_FOUND: &[u8] =
    b"HTTP/1.1 404 Not Found\r\nServer: sws\r\nConnection: keep-alive\r\nContent-Type: text/plain\r\nContent-Length: 14\r\n\r\n404 Not Found\n";

/// Heads of requests, and the responses to them. A folder is redirected to by its own path, whatever
/// the target looked like (RFC 9110, sections 10.2.2 and 15.4.2).
static REDIRECTS: [(&[u8], &[u8]); 8] = [
    (
        b"GET /docs HTTP/1.1\r\nHost: h\r\n\r\n",
        b"HTTP/1.1 301 Moved Permanently\r\nServer: sws\r\nLocation: /docs/\r\nConnection: keep-alive\r\nContent-Type: text/plain\r\nContent-Length: 22\r\n\r\n301 Moved Permanently\n",
    ),
    (
        b"GET /docs?x=1 HTTP/1.1\r\nHost: h\r\n\r\n",
        b"HTTP/1.1 301 Moved Permanently\r\nServer: sws\r\nLocation: /docs/\r\nConnection: keep-alive\r\nContent-Type: text/plain\r\nContent-Length: 22\r\n\r\n301 Moved Permanently\n",
    ),
    (
        b"HEAD /docs HTTP/1.1\r\nHost: h\r\nConnection: close\r\n\r\n",
        b"HTTP/1.1 301 Moved Permanently\r\nServer: sws\r\nLocation: /docs/\r\nConnection: close\r\nContent-Type: text/plain\r\nContent-Length: 22\r\n\r\n",
    ),
    (
        b"GET http://other/x/../%64ocs HTTP/1.1\r\nHost: h\r\nRange: bytes=0-1\r\n\r\n",
        b"HTTP/1.1 301 Moved Permanently\r\nServer: sws\r\nLocation: /docs/\r\nConnection: keep-alive\r\nContent-Type: text/plain\r\nContent-Length: 22\r\n\r\n301 Moved Permanently\n",
    ),
    (
        b"GET /a%20b/%c3%a9 HTTP/1.1\r\nHost: h\r\n\r\n",
        b"HTTP/1.1 301 Moved Permanently\r\nServer: sws\r\nLocation: /a%20b/%C3%A9/\r\nConnection: keep-alive\r\nContent-Type: text/plain\r\nContent-Length: 22\r\n\r\n301 Moved Permanently\n",
    ),
    (
        b"GET /% HTTP/1.1\r\nHost: h\r\n\r\n",
        b"HTTP/1.1 301 Moved Permanently\r\nServer: sws\r\nLocation: /%25/\r\nConnection: keep-alive\r\nContent-Type: text/plain\r\nContent-Length: 22\r\n\r\n301 Moved Permanently\n",
    ),
    (
        b"GET /docs/ HTTP/1.1\r\nHost: h\r\n\r\n",
        b"HTTP/1.1 200 OK\r\nServer: sws\r\nConnection: keep-alive\r\nLast-Modified: Sun, 06 Nov 1994 08:49:37 GMT\r\nContent-Type: text/html\r\nContent-Length: 5\r\n\r\ndocs\n",
    ),
    (
        b"POST /docs HTTP/1.1\r\nHost: h\r\n\r\n",
        b"HTTP/1.1 405 Method Not Allowed\r\nServer: sws\r\nConnection: keep-alive\r\nAllow: GET, HEAD\r\nContent-Type: text/plain\r\nContent-Length: 23\r\n\r\n405 Method Not Allowed\n",
    ),
];

/// Heads of requests for what is no file, and no folder with an index.
static NO_REDIRECTS: [&[u8]; 5] = [
    b"GET /bare HTTP/1.1\r\nHost: h\r\n\r\n",
    b"GET //docs HTTP/1.1\r\nHost: h\r\n\r\n",
    b"GET //host HTTP/1.1\r\nHost: h\r\n\r\n",
    b"GET /host HTTP/1.1\r\nHost: h\r\n\r\n",
    b"GET /docs/index.html/ HTTP/1.1\r\nHost: h\r\n\r\n",
];

#[test]
fn folders_are_redirected_to(rt: HostRuntime) {
    let site = site_with_all(&rt, &FOLDERS);
    for &(head, response) in &REDIRECTS {
        assert!(rt; is_sent(&rt, &site, head, response));
    }
    for head in &NO_REDIRECTS {
        assert!(rt; is_sent(&rt, &site, head, NOT_FOUND));
    }
}

/// A site with a page for names that no file has.
static PAGES: [(&[u8], &[u8]); 3] = [
    (b"404.html", b"<p>Lost?\n"),
    (b"docs/404.html", b"docs\n"),
    (b"a", b"a"),
];

/// Heads of requests, and the responses to them. The page is sent whole, whatever part of it or
/// condition on it the request names.
static LOST: [(&[u8], &[u8]); 6] = [
    (
        b"GET /none HTTP/1.1\r\nHost: h\r\n\r\n",
        b"HTTP/1.1 404 Not Found\r\nServer: sws\r\nConnection: keep-alive\r\nContent-Type: text/html\r\nContent-Length: 9\r\n\r\n<p>Lost?\n",
    ),
    (
        b"HEAD /docs/none HTTP/1.1\r\nHost: h\r\n\r\n",
        b"HTTP/1.1 404 Not Found\r\nServer: sws\r\nConnection: keep-alive\r\nContent-Type: text/html\r\nContent-Length: 9\r\n\r\n",
    ),
    (
        b"GET /docs HTTP/1.0\r\nRange: bytes=0-1\r\nIf-Modified-Since: Sun, 06 Nov 1994 08:49:37 GMT\r\n\r\n",
        b"HTTP/1.1 404 Not Found\r\nServer: sws\r\nConnection: close\r\nContent-Type: text/html\r\nContent-Length: 9\r\n\r\n<p>Lost?\n",
    ),
    (
        b"GET /404.html HTTP/1.1\r\nHost: h\r\n\r\n",
        b"HTTP/1.1 200 OK\r\nServer: sws\r\nConnection: keep-alive\r\nLast-Modified: Sun, 06 Nov 1994 08:49:37 GMT\r\nContent-Type: text/html\r\nContent-Length: 9\r\n\r\n<p>Lost?\n",
    ),
    (
        b"GET /none HTTP/1.1\r\n\r\n",
        b"HTTP/1.1 400 Bad Request\r\nServer: sws\r\nConnection: close\r\nContent-Type: text/plain\r\nContent-Length: 16\r\n\r\n400 Bad Request\n",
    ),
    (
        b"GET /a HTTP/1.1\r\nHost: h\r\nRange: bytes=5-\r\n\r\n",
        b"HTTP/1.1 416 Range Not Satisfiable\r\nServer: sws\r\nConnection: keep-alive\r\nContent-Range: bytes */1\r\nContent-Type: text/plain\r\nContent-Length: 26\r\n\r\n416 Range Not Satisfiable\n",
    ),
];

#[test]
fn a_page_tells_that_no_file_has_the_name(rt: HostRuntime) {
    let site = site_with_all(&rt, &PAGES);
    for &(head, response) in &LOST {
        assert!(rt; is_sent(&rt, &site, head, response));
    }
}

/// The same of a plain site.
static PLAIN_NOT_FOUND: &[u8] =
    b"HTTP/1.1 404 Not Found\r\nServer: sws\r\nContent-Type: text/plain\r\nContent-Length: 14\r\n\r\n404 Not Found\n";

/// Heads of requests that a plain site answers by the line that tells 404.
static PLAIN: [&[u8]; 2] = [
    b"GET /docs HTTP/1.1\r\nHost: h\r\n\r\n",
    b"GET /none HTTP/1.1\r\nHost: h\r\n\r\n",
];

/// Whether a site answers these so.
fn is_plain(rt: &(impl AllocGlobal + Abort), site: &Site) -> bool {
    for head in &PLAIN {
        if !is_sent(rt, site, head, PLAIN_NOT_FOUND) {
            return false;
        }
    }
    true
}

#[test]
fn a_plain_site_has_neither(rt: HostRuntime) {
    let site = site_with(&rt, &FOLDERS, SiteOptions::plain(rt.alloc()));
    assert!(rt; is_plain(&rt, &site));
    let site = site_with(&rt, &PAGES, SiteOptions::plain(rt.alloc()));
    assert!(rt; is_plain(&rt, &site));
}

/// A file of ten bytes.
static TEN: [(&[u8], &[u8]); 1] = [(b"a", b"0123456789")];

/// Heads of requests, and the responses of a site that lets old clients keep their connections: of
/// HTTP/1.0 with and without the wish, with both wishes, and of HTTP/1.1 (RFC 9112, section 9.3).
static KEPT: [(&[u8], &[u8]); 5] = [
    (
        b"HEAD /a HTTP/1.0\r\nConnection: keep-alive\r\n\r\n",
        b"HTTP/1.1 200 OK\r\nServer: sws\r\nConnection: keep-alive\r\nLast-Modified: Sun, 06 Nov 1994 08:49:37 GMT\r\nContent-Type: application/octet-stream\r\nContent-Length: 10\r\n\r\n",
    ),
    (
        b"HEAD /a HTTP/1.0\r\nConnection: x\r\nCONNECTION: y ,Keep-Alive\r\n\r\n",
        b"HTTP/1.1 200 OK\r\nServer: sws\r\nConnection: keep-alive\r\nLast-Modified: Sun, 06 Nov 1994 08:49:37 GMT\r\nContent-Type: application/octet-stream\r\nContent-Length: 10\r\n\r\n",
    ),
    (
        b"HEAD /a HTTP/1.0\r\n\r\n",
        b"HTTP/1.1 200 OK\r\nServer: sws\r\nConnection: close\r\nLast-Modified: Sun, 06 Nov 1994 08:49:37 GMT\r\nContent-Type: application/octet-stream\r\nContent-Length: 10\r\n\r\n",
    ),
    (
        b"HEAD /a HTTP/1.0\r\nConnection: keep-alive, close\r\n\r\n",
        b"HTTP/1.1 200 OK\r\nServer: sws\r\nConnection: close\r\nLast-Modified: Sun, 06 Nov 1994 08:49:37 GMT\r\nContent-Type: application/octet-stream\r\nContent-Length: 10\r\n\r\n",
    ),
    (
        b"GET /a HTTP/1.1\r\nHost: h\r\nRange: bytes=2-3\r\nIf-Range: Sun, 06 Nov 1994 08:49:37 GMT\r\n\r\n",
        b"HTTP/1.1 206 Partial Content\r\nServer: sws\r\nConnection: keep-alive\r\nLast-Modified: Sun, 06 Nov 1994 08:49:37 GMT\r\nContent-Range: bytes 2-3/10\r\nContent-Type: application/octet-stream\r\nContent-Length: 2\r\n\r\n23",
    ),
];

/// Conditions on a range that don't hold of a site of this date: a later date, an earlier one, the
/// same one in another form, a tag, and two (RFC 9110, section 13.1.5).
static WHOLE: [&[u8]; 5] = [
    b"GET /a HTTP/1.1\r\nHost: h\r\nRange: bytes=2-3\r\nIf-Range: Sun, 06 Nov 1994 08:49:38 GMT\r\n\r\n",
    b"GET /a HTTP/1.1\r\nHost: h\r\nRange: bytes=2-3\r\nIf-Range: Sun, 06 Nov 1994 08:49:36 GMT\r\n\r\n",
    b"GET /a HTTP/1.1\r\nHost: h\r\nRange: bytes=2-3\r\nIf-Range: Sunday, 06-Nov-94 08:49:37 GMT\r\n\r\n",
    b"GET /a HTTP/1.1\r\nHost: h\r\nRange: bytes=2-3\r\nIf-Range: \"x\"\r\n\r\n",
    b"GET /a HTTP/1.1\r\nHost: h\r\nRange: bytes=2-3\r\nIf-Range: Sun, 06 Nov 1994 08:49:37 GMT\r\nIf-Range: Sun, 06 Nov 1994 08:49:37 GMT\r\n\r\n",
];

/// The response to them.
static ALL_TEN: &[u8] =
    b"HTTP/1.1 200 OK\r\nServer: sws\r\nConnection: keep-alive\r\nLast-Modified: Sun, 06 Nov 1994 08:49:37 GMT\r\nContent-Type: application/octet-stream\r\nContent-Length: 10\r\n\r\n0123456789";

#[test]
fn old_connections_and_conditions_on_a_range(rt: HostRuntime) {
    let site = site_with_all(&rt, &TEN);
    for &(head, response) in &KEPT {
        assert!(rt; is_sent(&rt, &site, head, response));
    }
    for head in &WHOLE {
        assert!(rt; is_sent(&rt, &site, head, ALL_TEN));
    }
}
