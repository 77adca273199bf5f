//! A reader of the machine as a source.
ghost use Rattle.std.specs.Prelude.{None};
ghost use Rattle.sws_link.specs.Counts.{kept_count};

use std::io::Read;
use sws_link::{Got, Source};

/// Gives the bytes of a reader, of which nothing is known, and counts its errors.
#[derive(Drop)]
pub struct Input<R: Read + Drop> {
    reader: R,
    faults: u64,
}

impl<R: Read + Drop> Input<R> {
    pub fn new(reader: R) -> Self {
        Input { reader, faults: 0 }
    }
}

impl<R: Read + Drop> Source for Input<R> {
    ghost left = { λ _. None };

    ghost faults = { λ input. kept_count input.faults };

    fn read(&mut self, into: &mut [u8]) -> Got {
        match self.reader.read(into) {
            Ok(0) => Got::End,
            Ok(count) => Got::Took(count),
            Err(_) => {
                self.faults = self.faults.saturating_add(1);
                Got::Failed
            }
        }
    }
}
