//! What an author gives.
ghost use Rattle.std.specs.Prelude.{◌≡◌, ◌<◌, ◌++◌, ℕ, List, IfOk, OnOk, length};
ghost use Rattle.mely_net.specs.Cutting.{IsSteady, IsWithin};
ghost use Rattle.mely_net.specs.Rules.{Rules};
ghost use Rattle.mely_net.specs.Lines.{IsWhose};

use crate::asked::Asked;
use crate::cut::Cut;
use mely_event::Memory;
use std::alloc::Global;

/// A service over connections: how their bytes are cut into frames, what a frame asks and of which
/// cell or cells, and what a cell does with a request.
///
/// The cells share nothing: each has a value of its own, and answers one request after another.
/// Contracts see a service as its [`Rules`](../specs/Rules.antt).
pub trait Service {
    /// What a cell is asked.
    type Request: Drop;

    /// What is replied.
    type Reply: Drop;

    /// What a cell has.
    type Cell: Drop;

    /// What it promises.
    ghost rules_of: { Self → Rules Self.Request Self.Reply Self.Cell };

    /// How many cells there are.
    fn cells(&self) -> u16
        ensures { result ≡ (rules_of self.now).cells };

    /// How many bytes a frame has at most.
    fn longest(&self) -> usize
        ensures { result ≡ (rules_of self.now).longest };

    /// Where the first frame of some bytes ends. Bytes that come behind these don't change it, but
    /// for more that it wants.
    fn cut(&self, bytes: &[u8]) -> Cut
        ensures cut { result ≡ (rules_of self.now).cut bytes.now }
        ensures within { IsWithin result (length bytes.now) };

    /// What a frame asks.
    ///
    /// # Errors
    ///
    /// There was no memory: the connection ends.
    fn ask(&self, alloc: Global, frame: &[u8]) -> Result<Asked<Self::Request, Self::Reply>, Memory>
        ensures asks { IfOk result ((rules_of self.now).Asks frame.now) }
        ensures there { IfOk result (IsWhose (rules_of self.now).cells) };

    /// What is answered to bytes that begin with no frame, before the connection ends.
    ///
    /// # Errors
    ///
    /// There was no memory: the connection ends without.
    fn refuse(&self, alloc: Global) -> Result<Self::Reply, Memory>
        ensures { IfOk result (rules_of self.now).Refuses };

    /// What a cell begins with.
    ///
    /// # Errors
    ///
    /// There was no memory: nothing is served.
    fn begin(&self, alloc: Global, cell: u16) -> Result<Self::Cell, Memory>
        requires { cell < (rules_of self.now).cells }
        ensures { IfOk result ((rules_of self.now).Begins cell) };

    /// A cell is asked.
    ///
    /// # Errors
    ///
    /// There was no memory: nothing is known of the cell then, and the run won't end with Ok.
    fn on(
        &self,
        alloc: Global,
        cell: u16,
        value: &mut Self::Cell,
        request: Self::Request,
    ) -> Result<Self::Reply, Memory>
        requires { cell < (rules_of self.now).cells }
        ensures { IfOk result ((rules_of self.now).Serves cell value.old request value.new) };

    /// Puts the bytes of a reply behind others. Where a request asked several cells
    /// ([`Asked::Each`]) the reply is the one that its frame has, and its parts are what the cells
    /// replied, in order; else there are no parts.
    ///
    /// # Errors
    ///
    /// There was no memory: the connection ends, and nothing of these bytes is written.
    fn write(
        &self,
        reply: &Self::Reply,
        parts: &[Self::Reply],
        out: &mut Vec<u8>,
    ) -> Result<(), Memory>
        ensures { OnOk result (out.new.items
            ≡ out.old.items ++ (rules_of self.now).shown reply.now parts.now) };

    /// Cuts stand.
    ghost steady: { (service : Self) → IsSteady (rules_of service).cut };
}
