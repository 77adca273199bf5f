//! The page of `sws_gopher`.
use super::sites::site_of;
use std::test::Fail;
use sws_gopher::{Hall, reply};

#[test]
fn a_selector_is_answered(rt: HostRuntime) -> Result<(), Fail> {
    let alloc = rt.alloc();
    let site = site_of(alloc)?;
    let hall = Hall::new(alloc, &site, "localhost", 70)?;
    let parts = reply(&hall, b"/a/"); // the menu of the folder a
    assert!(rt; parts.front() == b"0b.txt\t/a/b.txt\tlocalhost\t70\r\n.\r\n".as_slice());
    Ok(())
}
