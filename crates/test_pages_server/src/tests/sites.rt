//! The page of `sws_site`, and the site of the pages above it.
use std::alloc::{AllocError, Global};
use std::test::Fail;
use sws_link::SureFolder;
use sws_site::{HeadKind, Site, SiteFault, Status};

/// Names with their contents, as a folder takes them.
type Files = Vec<(Vec<u8>, Vec<u8>)>;

/// A page, and a file below a folder.
fn files_of(alloc: Global) -> Result<Files, AllocError> {
    let mut files = Vec::new(alloc);
    files.push((b"index.html".to_vec(alloc)?, b"hi\n".to_vec(alloc)?))?;
    files.push((b"a/b.txt".to_vec(alloc)?, b"0123456789".to_vec(alloc)?))?;
    Ok(files)
}

/// The site of these files, which has no date.
pub(super) fn site_of(alloc: Global) -> Result<Site, SiteFault> {
    let mut folder = SureFolder::new(alloc, files_of(alloc)?);
    Site::load(alloc, &mut folder, None)
}

/// What is done with a response.
fn send(_head: &[u8], _body: &[u8]) {}

const OPEN: HeadKind = HeadKind {
    changed: true,
    closes: false,
};

const HEAD: &[u8] =
    b"HTTP/1.1 200 OK\r\nServer: sws\r\nLast-Modified: Sun, 06 Nov 1994 08:49:37 GMT\r\n\
Content-Type: text/html\r\nContent-Length: 3\r\n\r\n";

#[test]
fn a_page_is_looked_up(rt: HostRuntime) -> Result<(), Fail> {
    let alloc = rt.alloc();
    let mut folder = SureFolder::new(alloc, files_of(alloc)?);
    let site = Site::load(alloc, &mut folder, Some(784111777))?;
    match site.lookup(b"index.html") {
        Some(page) => send(
            page.head(HeadKind {
                changed: true,
                closes: false,
            }),
            page.body(),
        ),
        None => {
            let (head, body) = site.refusal(Status::NotFound, false);
            send(head, body);
        }
    }
    match site.lookup(b"index.html") {
        Some(page) => {
            assert!(rt; page.head(OPEN) == HEAD);
            assert!(rt; page.body() == b"hi\n".as_slice());
        }
        None => assert!(rt; false),
    }
    Ok(())
}
