//! The page of `sws_conn`.
ghost use Rattle.std.specs.Prelude.{◌≡◌, false};
ghost use Rattle.sws_link.specs.Links.{IsInitialLink};

use super::sites::site_of;
use std::alloc::Global;
use std::fmt::Debug;
use std::test::Fail;
use sws_conn::{Conn, End};
use sws_link::{Link, LinkItem, MemLink};
use sws_site::Site;

/// Runs a connection over a link to its end: how it ended, and the link.
fn served<L: Link + Debug + Drop>(
    alloc: Global,
    site: Site,
    link: L,
) -> Result<(Option<End>, Option<L>), Fail>
    requires initial { IsInitialLink (L.tells link) }
    requires not_shut { L.is_shut link ≡ false }
{
    let mut conn = Conn::new(alloc, &site)?;
    conn.open(link)?;
    while conn.end().is_none() {
        conn.step();
    }
    Ok((conn.end(), conn.into_link()))
}

const RESPONSE: &[u8] =
    b"HTTP/1.1 200 OK\r\nServer: sws\r\nContent-Type: text/html\r\nContent-Length: 3\r\n\r\nhi\n";

#[test]
fn a_connection_is_run_to_its_end(rt: HostRuntime) -> Result<(), Fail> {
    let site = site_of(rt.alloc())?;
    let mut items = Vec::new(rt.alloc());
    items.push(LinkItem::Bytes(b"GET / HTTP/1.1\r\nHost: x\r\n\r\n".to_vec(rt.alloc())?))?;
    let link = MemLink::new(rt.alloc(), items, None, None, Vec::new(rt.alloc()));
    let (end, link) = served(rt.alloc(), site, link)?;
    let link = link.ok_or("no link")?;
    assert!(rt; end == Some(End::Done));
    assert!(rt; link.written() == RESPONSE);
    Ok(())
}
