//! A request that asks several cells.
ghost use Rattle.std.specs.Prelude.{◌≡◌, ◌≤◌, ◌+◌, ◌++◌, ◌∷◌, [], IfOk, vec_capacity, vec_len};
ghost use Rattle.std.specs.VecDeque.{deque_len};
ghost use Rattle.mely_net.specs.Nexts.{IsNext};

use mely_event::Memory;
use std::alloc::Global;
use std::collections::VecDeque;
use std::marker::Model;

/// A request that asks several cells, while one of them is asked.
#[derive(Drop)]
pub(crate) struct Several<Q, P> {
    /// What is asked of whom behind it.
    left: VecDeque<(u16, Q)>,

    /// What the ones before it have replied, with room for what is still to come.
    parts: Vec<P>,
    reply: P,
}

impl<Q, P> Model for Several<Q, P> {
    ghost use Rattle.std.specs.Prelude.{◌<◌, ◌+◌, vec_capacity, vec_len};
    ghost use Rattle.std.specs.VecDeque.{deque_len};
    ghost use Rattle.mely_net.specs.Several.{SeveralState};

    ghost Value = { SeveralState Q P };

    ghost view = { λ several. record {
      left = several.left.items;
      parts = several.parts.items;
      reply = several.reply;
    } };

    ghost invariant = { λ several.
        vec_len several.parts + deque_len several.left < vec_capacity several.parts };
}

/// What is done next for a request that asks several cells.
#[derive(Drop)]
pub(crate) enum Next<Q, P> {
    /// This cell is asked this.
    Asks(u16, Q, Several<Q, P>),

    /// All were asked: the reply with its parts.
    Whole(P, Vec<P>),
}

/// What is done next where these are still to be asked.
fn turn<Q: Drop, P: Drop>(mut left: VecDeque<(u16, Q)>, parts: Vec<P>, reply: P) -> Next<Q, P>
    requires room { vec_len parts + deque_len left ≤ vec_capacity parts }
    ensures { IsNext left.items parts.items reply result }
{
    match left.pop_front() {
        Some((cell, request)) => {
            let several = Several { left, parts, reply };
            Next::Asks(cell, request, several)
        }
        None => Next::Whole(reply, parts),
    }
}

impl<Q: Drop, P: Drop> Several<Q, P> {
    /// What is done first for a request of these cells.
    ///
    /// # Errors
    ///
    /// There was no memory for the parts.
    pub(crate) fn begin(alloc: Global, asks: Vec<(u16, Q)>, reply: P) -> Result<Next<Q, P>, Memory>
        ensures { IfOk result (IsNext asks.items [] reply) }
    {
        let parts = Vec::with_capacity(alloc, asks.len())?;
        Ok(turn(VecDeque::from(asks), parts, reply))
    }

    /// The cell that was asked has replied.
    pub(crate) fn hear(self, part: P) -> Next<Q, P>
        ensures { IsNext self.left (self.parts ++ part ∷ []) self.reply result }
    {
        let Several {
            left,
            mut parts,
            reply,
        } = self;
        parts.push_reserved(part);
        turn(left, parts, reply)
    }
}
