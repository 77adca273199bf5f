//! A link over a source and a sink.
ghost use Rattle.std.specs.Prelude.{◌≡◌, ◌<◌, false, None, length};
ghost use Rattle.sws_link.specs.Counts.{no_faults};
ghost use Rattle.sws_link.specs.Links.{Writes, write_fault};
ghost use Rattle.sws_top.specs.Duplex.{IsLeftOf, IsWrittenBehind, WritesAll};

use crate::faults::TopFault;
use std::snapshot::Snapshot;
use sws_link::{Got, Link, LinkRead, LinkWrite, Put, Sink, Source};

/// Reads a source and writes to a sink, and keeps which of the two failed. It is never kept
/// waiting, and shuts neither.
#[derive(Drop)]
pub struct DuplexLink<'f, 'p, R: Source, O: Sink> {
    pub source: &'p mut R,
    pub out: &'p mut O,
    /// Both as they were when the link was made. They are for contracts alone and hold no bytes.
    pub first_source: &'f Snapshot<R>,
    pub first_out: &'f Snapshot<O>,
    /// The fault of the one that failed last.
    pub fault: Option<TopFault>,
    /// Whether it was shut.
    pub shut: bool,
    ghost left: { IsLeftOf (R.left first_source.now.value) (R.left source.now) },
    ghost written: { IsWrittenBehind (O.written first_out.now.value) (O.written out.now) },
}

impl<'f, 'p, R: Source, O: Sink> DuplexLink<'f, 'p, R, O> {
    /// A link of which nothing was taken or written. The last two are the source
    /// and the sink as they are.
    pub fn new(
        source: &'p mut R,
        out: &'p mut O,
        first_source: &'f Snapshot<R>,
        first_out: &'f Snapshot<O>,
    ) -> DuplexLink<'f, 'p, R, O>
        requires source { first_source.now.value ≡ source.old }
        requires out { first_out.now.value ≡ out.old }
        ensures same_source { result.source.ghost_name ≡ source.entry.ghost_name }
        ensures same_out { result.out.ghost_name ≡ out.entry.ghost_name }
        ensures source { (result.source.now ≡ source.old)
            × (result.first_source.now.value ≡ source.old) }
        ensures out { (result.out.now ≡ out.old) × (result.first_out.now.value ≡ out.old) }
        ensures not_shut { result.shut ≡ false }
    {
        DuplexLink {
            source,
            out,
            first_source,
            first_out,
            fault: None,
            shut: false,
        }
    }

    /// The same link with another fault.
    pub fn with_fault(self, fault: Option<TopFault>) -> DuplexLink<'f, 'p, R, O>
        ensures same_source { result.source.ghost_name ≡ self.entry.source.ghost_name }
        ensures same_out { result.out.ghost_name ≡ self.entry.out.ghost_name }
        ensures source { result.source.now ≡ self.entry.source.now }
        ensures out { result.out.now ≡ self.entry.out.now }
        ensures fault { result.fault ≡ fault }
    {
        let mut link = self;
        link.fault = fault;
        link
    }
}

impl<'f, 'p, R: Source, O: Sink> Link for DuplexLink<'f, 'p, R, O> {
    ghost use Rattle.sws_top.specs.declared.duplex_link.DuplexLink.{DuplexLink as DuplexLinkValue};
    ghost use Rattle.sws_top.specs.DuplexLink.{told_by_duplex, faults_of_duplex, StaysDuplex};

    ghost tells = { told_by_duplex R.Source O.Sink };

    ghost faults = { faults_of_duplex R.Source O.Sink };

    ghost is_shut = { λ link. link.shut };

    ghost waits = { λ link. no_faults };

    ghost since = { StaysDuplex R.Source O.Sink };

    /// Reads the source.
    fn read(&mut self, into: &mut [u8]) -> LinkRead {
        match self.source.read(into) {
            Got::Took(count) => LinkRead::Took(count),
            Got::End => LinkRead::End,
            Got::Failed => {
                self.fault = Some(TopFault::ReadFault);
                LinkRead::Failed
            }
        }
    }

    /// Writes all the bytes to the sink, by one `write_all`.
    fn write(&mut self, bytes: &[u8]) -> LinkWrite
        requires some { 0 < length bytes.now }
        requires not_shut { self.old.shut ≡ false }
        ensures writes { Writes (told_by_duplex R.Source O.Sink) (λ link.
            link.shut) (faults_of_duplex R.Source O.Sink) (λ link. no_faults)
            self.old bytes.now result self.new }
        ensures since { (first : DuplexLinkValue R O R.Source O.Sink)
            → StaysDuplex R.Source O.Sink first None self.old
            → StaysDuplex R.Source O.Sink first (write_fault result) self.new }
        ensures whole { WritesAll (O.written self.old.out.now)
            (O.written self.new.out.now) result bytes.now }
    {
        match self.out.write_all(bytes) {
            Put::Done => LinkWrite::Wrote(bytes.len()),
            Put::Failed => {
                self.fault = Some(TopFault::WriteFault);
                LinkWrite::Failed
            }
            Put::Memory => LinkWrite::Memory,
        }
    }

    /// Closes neither of the two: whoever handed them in goes on with them.
    fn shut(&mut self) {
        self.shut = true;
    }
}
