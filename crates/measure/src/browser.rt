//! What a browser asks, and the site that answers it.

use std::alloc::Global;
use sws_link::SureFolder;
use sws_site::Site;

/// What a browser asks for the page of a folder.
pub const HEAD: &[u8] = b"GET / HTTP/1.1\r\nHost: localhost:8080\r\n\
User-Agent: Mozilla/5.0 (X11; Linux x86_64; rv:128.0) Gecko/20100101 Firefox/128.0\r\n\
Accept: text/html,application/xhtml+xml,application/xml;q=0.9,*/*;q=0.8\r\n\
Accept-Language: en-US,en;q=0.5\r\nAccept-Encoding: gzip, deflate, br\r\n\
Connection: keep-alive\r\nUpgrade-Insecure-Requests: 1\r\n\
Sec-Fetch-Dest: document\r\nSec-Fetch-Mode: navigate\r\n\r\n";

/// A site of one small page.
pub fn small_site(alloc: Global) -> Option<Site> {
    let mut files = Vec::new(alloc);
    let name = Vec::from_slice(alloc, b"index.html").ok()?;
    let page = Vec::from_slice(alloc, b"hi\n").ok()?;
    files.push((name, page)).ok()?;
    let mut folder = SureFolder::new(alloc, files);
    Site::load(alloc, &mut folder, None).ok()
}
