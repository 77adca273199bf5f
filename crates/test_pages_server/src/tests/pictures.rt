//! The page of `mely_picture`.
use super::journals::{journal_of, setup_of};
use mely_picture::draw_journal;
use std::test::Fail;
use sws_link::SureSink;

#[test]
fn a_journal_is_drawn(rt: HostRuntime) -> Result<(), Fail> {
    let alloc = rt.alloc();
    let setup = setup_of()?;
    let mut source = journal_of(alloc)?;
    let mut sink = SureSink::new(alloc);
    match draw_journal(alloc, &setup, &mut source, &mut sink) {
        Ok(()) => {}
        Err(fault) => eprintln!(rt; "{fault}")?,
    }
    assert!(rt; sink.written().starts_with(b"<svg "));
    assert!(rt; sink.written().ends_with(b"</svg>\n"));
    Ok(())
}
