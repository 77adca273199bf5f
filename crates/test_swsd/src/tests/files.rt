//! Files of the machine that are no folder of files, names that are hidden, a file by which somebody asks
//! for something, and addresses.

use std::fs;
use std::net::SocketAddr;
use sws_files::{FileFolder, ReloadFile, is_asking, is_hidden};
use sws_link::{Folder, NextFile, Opened};
use sws_net::other_address;

/// What is no folder: a device, a file, nothing at all, and an empty path.
static NO_FOLDERS: [&str; 5] = [
    "/dev/null",
    "/dev/zero",
    "/proc/self/status",
    "/nowhere/at/all",
    "",
];

/// Whether a path isn't opened, and gives no file.
fn is_not_opened(rt: &HostRuntime, path: &str) -> bool {
    let mut folder = FileFolder::new(rt);
    folder.open(path) == Opened::Failed && folder.next(&mut [0; 1024]) == NextFile::End
}

#[test]
fn what_is_no_folder_is_not_opened(rt: HostRuntime) {
    for &path in &NO_FOLDERS {
        assert!(rt; is_not_opened(&rt, path), "{path}");
    }
}

/// Names, whether each is in the folder itself, and whether it is hidden.
static NAMES: [(&str, bool, bool); 8] = [
    ("index.html", true, false),
    (".git", true, true),
    (".well-known", true, false),
    (".well-known", false, true),
    (".well-known2", true, true),
    (".", true, true),
    ("", true, false),
    ("a.well-known", false, false),
];

#[test]
fn names_that_begin_with_a_dot_are_hidden(rt: HostRuntime) {
    for &(name, is_top, hidden) in &NAMES {
        assert!(rt; is_hidden(name, is_top) == hidden, "{name}");
    }
}

/// Whether a file that is there asks for nothing at first, nor where it has gone, but where it was
/// made and where it was written.
fn is_asking_so(rt: &HostRuntime, path: &str, file: &ReloadFile) -> bool {
    let first = file.first();
    let same = file.mark(rt);
    let is_gone = fs::remove_file(rt, path).is_ok();
    let gone = file.mark(rt);
    let is_made = fs::write(rt, path, b"").is_ok();
    let made = file.mark(rt);
    let is_written = fs::write(rt, path, b"again").is_ok();
    let written = file.mark(rt);
    let none = is_asking(first, same) || is_asking(first, gone);
    let both = is_asking(gone, made) && is_asking(made, written);
    is_gone && is_made && is_written && both && !none
}

#[test]
fn a_file_asks_each_time_that_it_is_made_or_written(rt: HostRuntime) {
    let path = "sockets_reload";
    assert!(rt; fs::write(&rt, path, b"").is_ok());
    let file = ReloadFile::new(
        &rt,
        String::from_str(rt.alloc(), path).expect(&rt, "memory"),
    );
    assert!(rt; is_asking_so(&rt, path, &file));
    assert!(rt; fs::remove_file(&rt, path).is_ok());
}

/// Addresses, and the one that is listened at where there is no IPv6.
static ADDRESSES: [(&str, Option<&str>); 5] = [
    ("[::]:8080", Some("0.0.0.0:8080")),
    ("[::]:0", Some("0.0.0.0:0")),
    ("[::1]:80", None),
    ("0.0.0.0:80", None),
    ("127.0.0.1:80", None),
];

fn address_of(text: &str) -> Option<SocketAddr> {
    text.parse::<SocketAddr>().ok()
}

/// Whether this is the other address of one.
fn is_other(text: &str, other: Option<&str>) -> bool {
    match (address_of(text), other) {
        (Some(address), Some(other)) => other_address(address) == address_of(other),
        (Some(address), None) => other_address(address) == None,
        (None, _) => false,
    }
}

#[test]
fn all_addresses_have_others_where_there_is_no_ipv6(rt: HostRuntime) {
    for &(address, other) in &ADDRESSES {
        assert!(rt; is_other(address, other), "{address}");
    }
}
