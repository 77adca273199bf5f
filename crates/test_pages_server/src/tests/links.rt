//! The page of `sws_link`.
use std::alloc::Global;
use std::test::Fail;
use sws_link::{Got, Put, Sink, Source, SureSink, SureSource};

/// Copies all bytes, a piece after another.
fn copied(alloc: Global, bytes: Vec<u8>) -> SureSink {
    let mut source = SureSource::new(bytes);
    let mut sink = SureSink::new(alloc);
    let mut piece = [0; 4096];
    while let Got::Took(count) = source.read(&mut piece) {
        if sink.write_all(&piece[..count]) != Put::Done {
            break;
        }
    }
    sink
}

#[test]
fn a_source_is_copied_to_a_sink(rt: HostRuntime) -> Result<(), Fail> {
    let bytes = vec![in rt.alloc(); b'x'; 10_000]?;
    let sink = copied(rt.alloc(), bytes);
    assert!(rt; sink.written() == [b'x'; 10_000].as_slice());
    Ok(())
}
