//! The page of `sws_text`.
use std::test::Fail;
use sws_text::push_text;

#[test]
fn a_line_is_pushed_as_a_text(rt: HostRuntime) -> Result<(), Fail> {
    let alloc = rt.alloc();
    let mut text = Vec::new(alloc);
    push_text(&mut text, b"GET /\r\n")?; // GET /~
    assert!(rt; text.as_slice() == b"GET /~".as_slice());
    Ok(())
}
