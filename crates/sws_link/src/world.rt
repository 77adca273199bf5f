//! What gives links: a listener, or a list in memory.
ghost use Rattle.std.specs.Prelude.{◌≡◌, ◌<◌};
ghost use Rattle.sws_link.specs.Counts.{Count};
ghost use Rattle.sws_link.specs.Worlds.{WorldContents, Listens, Polls, Accepts};

use crate::{Accepted, Link, Opened, Polled};

/// Gives links one after another, and says which of those that wait is ready.
///
/// A world tells how many links it gives in all since it was opened and how many of them were
/// accepted, its port, and whether it is scripted: then no call fails, each link comes at once, and
/// the first that waits is ready. Where it knows its links to come it tells the input of each, and
/// its answers where these are known.
pub trait World {
    type Link: Link + Drop;

    /// The links to come where these are known, total, accepted ones and port,
    /// and whether it is scripted.
    ghost tells: { Self → WorldContents };

    /// How often a call has failed.
    ghost faults: { Self → Count };

    /// How often a call had to answer that nothing has come yet.
    ghost waits: { Self → Count };

    /// Gives links at the port, so many in all, or as many as are to come where these are known and
    /// fewer. No link counts as accepted then. A world that isn't `Ready` is as before.
    fn open(&mut self, port: u16, total: u16) -> Opened
        ensures { Listens tells faults waits self.old port total result self.new };

    /// How many links it gives in all.
    fn total(&self) -> u16
        ensures { result ≡ (tells self.now).total };

    /// Which of those that wait may be ready: one of them, or none yet.
    fn poll(&mut self, waiting: &[u16]) -> Polled
        ensures { Polls tells faults waits self.old waiting.now result self.new };

    /// The next link, of which nothing was taken or written, which isn't shut, and whose
    /// counts begin, if it has come.
    fn accept(&mut self) -> Accepted<Self::Link>
        requires { (tells self.old).accepted < (tells self.old).total }
        ensures { Accepts tells faults waits
            Self.Link.tells Self.Link.is_shut Self.Link.faults Self.Link.waits
            self.old result self.new };
}
