//! What loading, looking up and the prebuilt heads give with ample memory.

use super::files::{THREE_FILES, load, site_of};
use std::alloc::Global;
use sws_link::{Folder, Got, NextFile, Opened};
use sws_site::{HeadKind, Site, SiteFault, SiteOptions};

const OPEN: HeadKind = HeadKind {
    changed: true,
    closes: false,
};

/// Whether the first file of this name has these contents.
fn has_file(site: &Site, name: &[u8], contents: &[u8]) -> bool {
    match site.lookup(name) {
        Some(page) => page.body() == contents,
        None => false,
    }
}

/// Whether the first file of this name is sent with this head.
fn has_head(site: &Site, name: &[u8], kind: HeadKind, head: &[u8]) -> bool {
    match site.lookup(name) {
        Some(page) => page.head(kind) == head,
        None => false,
    }
}

/// Whether the file at a place has this name.
fn has_name_at(site: &Site, place: usize, name: &[u8]) -> bool {
    place < site.files() && site.name_at(place) == name
}

/// Whether the file at a place has these contents.
fn has_page_at(site: &Site, place: usize, contents: &[u8]) -> bool {
    place < site.files() && site.page_at(place).body() == contents
}

const TEXT_HEAD: &[u8] =
    b"HTTP/1.1 200 OK\r\nServer: sws\r\nContent-Type: text/plain\r\nContent-Length: 10\r\n\r\n";

/// Whether a site has three files, no date, no other file, and a text with its head.
fn has_three_files(site: &Site) -> bool {
    site.files() == 3
        && site.date() == None
        && site.lookup(b"a").is_none()
        && has_file(site, b"a/b.txt", b"0123456789")
        && has_head(site, b"a/b.txt", OPEN, TEXT_HEAD)
}

#[test]
fn three_files_are_loaded_and_found(rt: HostRuntime) {
    let site = site_of(&rt, &THREE_FILES, None);
    assert!(rt; has_three_files(&site));
}

/// Two files of a name, and another between them.
static TWO_OF_A_NAME: [(&[u8], &[u8]); 3] = [(b"a", b"first"), (b"b", b"other"), (b"a", b"second")];

/// Whether a site has the three files, each at its place, and finds the first of a name.
fn finds_the_first(site: &Site) -> bool {
    site.files() == 3
        && has_name_at(site, 1, b"b")
        && has_page_at(site, 1, b"other")
        && has_name_at(site, 2, b"a")
        && has_page_at(site, 2, b"second")
        && has_file(site, b"a", b"first")
}

#[test]
fn the_first_of_two_files_of_a_name_is_found(rt: HostRuntime) {
    let site = site_of(&rt, &TWO_OF_A_NAME, None);
    assert!(rt; finds_the_first(&site));
}

/// The head and the body that refuse a method.
static NOT_ALLOWED: (&[u8], &[u8]) = (
    b"HTTP/1.1 405 Method Not Allowed\r\nServer: sws\r\nConnection: close\r\nAllow: GET, HEAD\r\nContent-Type: text/plain\r\nContent-Length: 23\r\n\r\n",
    b"405 Method Not Allowed\n",
);

/// Codes, whether the response closes, and how many bytes it has.
static LENGTHS: [(u16, bool, usize); 5] = [
    (400, true, 122),
    (404, false, 99),
    (405, true, 154),
    (431, true, 162),
    (501, false, 111),
];

/// Whether the code is one that `fixed` takes, and its response has so many bytes.
fn is_fixed_length(site: &Site, code: u16, closes: bool, len: usize) -> bool {
    if !matches!(code, 400 | 404 | 405 | 431 | 501) {
        return false;
    }
    let (head, body) = site.fixed(code, closes);
    head.len().saturating_add(body.len()) == len
}

/// Whether a method is refused with this head and this body.
fn refuses_methods_so(site: &Site, head: &[u8], body: &[u8]) -> bool {
    let (front, rest) = site.fixed(405, true);
    front == head && rest == body
}

/// Whether each response that refuses has as many bytes as it should, and a method is refused so.
fn refuses_so(site: &Site) -> bool {
    for &(code, closes, len) in &LENGTHS {
        if !is_fixed_length(site, code, closes, len) {
            return false;
        }
    }
    site.date() == Some(784111777) && refuses_methods_so(site, NOT_ALLOWED.0, NOT_ALLOWED.1)
}

#[test]
fn responses_that_refuse_are_the_same_for_each_site(rt: HostRuntime) {
    let site = site_of(&rt, &[], Some(784111777));
    assert!(rt; refuses_so(&site));
}

/// A folder that gives files of the same length without holding them. Their names have one
/// byte, but for the last one's.
#[derive(Drop)]
struct Vast {
    files: u32,
    last_name: usize,
    contents: usize,
    left: usize,
    at_file: bool,
}

impl Folder for Vast {
    ghost use Rattle.std.specs.Prelude.{None};
    ghost use Rattle.sws_link.specs.Counts.{no_faults};

    ghost tells = { λ folder. None };

    ghost at_file = { λ folder. folder.at_file };

    ghost faults = { λ folder. no_faults };

    fn open(&mut self, _path: &str) -> Opened {
        Opened::Memory
    }

    fn next(&mut self, _name: &mut [u8; 1024]) -> NextFile {
        self.at_file = self.files > 0;
        if self.files == 0 {
            return NextFile::End;
        }
        self.files -= 1;
        self.left = self.contents;
        NextFile::File {
            len: if self.files == 0 { self.last_name } else { 1 },
        }
    }

    fn read(&mut self, into: &mut [u8]) -> Got {
        if self.left == 0 {
            return Got::End;
        }
        let count = self.left.min(into.len());
        self.left -= count;
        Got::Took(count)
    }
}

impl Vast {
    /// A folder of so many files, of which none was given.
    fn new(files: u32, last_name: usize, contents: usize) -> Vast {
        Vast {
            files,
            last_name,
            contents,
            left: 0,
            at_file: false,
        }
    }
}

/// How many files are loaded of such a folder by a plain site, or by one that holds so many files and
/// bytes.
fn loaded(
    alloc: Global,
    limits: Option<(u32, u64)>,
    folder: &mut Vast,
) -> Result<usize, SiteFault> {
    match load_within(alloc, limits, folder) {
        Ok(site) => Ok(site.files()),
        Err(fault) => Err(fault),
    }
}

/// The site of such a folder.
fn load_within(
    alloc: Global,
    limits: Option<(u32, u64)>,
    folder: &mut Vast,
) -> Result<Site, SiteFault> {
    let Some((max_files, max_bytes)) = limits else {
        return load(alloc, folder, None);
    };
    let mut options = SiteOptions::plain(alloc);
    options.max_files = max_files;
    options.max_bytes = max_bytes;
    Site::load_with(alloc, folder, None, options)
}

/// How many files and bytes a site holds, or nothing for a plain one; how many files there are, how
/// long the name of the last one is, and how many bytes each has; and what comes of loading them.
static LIMITS: [(
    Option<(u32, u64)>,
    (u32, usize, usize),
    Result<usize, SiteFault>,
); 11] = [
    (Some((3, 1000)), (3, 1, 10), Ok(3)),
    (
        Some((3, 1000)),
        (4, 1, 10),
        Err(SiteFault::TooManyFiles { count: 4 }),
    ),
    (Some((1000, 30)), (3, 1, 10), Ok(3)),
    (
        Some((1000, 29)),
        (3, 1, 10),
        Err(SiteFault::TooManyBytes { number: 3 }),
    ),
    (
        Some((0, 0)),
        (1, 1, 10),
        Err(SiteFault::TooManyFiles { count: 1 }),
    ),
    (Some((5000, 50_000)), (5000, 1, 10), Ok(5000)),
    (None, (4096, 1024, 0), Ok(4096)),
    (None, (3, 1024, 100_000), Ok(3)),
    // The first file that meets a limit is named.
    (
        None,
        (4097, 1, 0),
        Err(SiteFault::TooManyFiles { count: 4097 }),
    ),
    (
        None,
        (4097, 1025, 0),
        Err(SiteFault::TooManyFiles { count: 4097 }),
    ),
    (None, (2, 1025, 0), Err(SiteFault::LongName { number: 2 })),
];

#[test]
fn a_site_holds_as_much_as_its_limits_say(rt: HostRuntime) {
    for (row, &(limits, (files, last_name, contents), ends)) in LIMITS.iter().enumerate() {
        let mut folder = Vast::new(files, last_name, contents);
        assert!(rt;
            loaded(rt.alloc(), limits, &mut folder) == ends,
            "row {row}"
        );
    }
}
