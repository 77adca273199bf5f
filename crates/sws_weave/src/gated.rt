//! The server over a weave, with a gate before each handler.
ghost use Rattle.std.specs.Prelude.{◌≡◌, ◌≤◌, ◌+◌, ◌++◌, ◌∷◌, [], ℕ, List, Option, length};
ghost use Rattle.std.specs.List.{AllByRecursion};
ghost use Rattle.mely_worker.specs.Access.{FitsIn};
ghost use Rattle.sws_handlers.specs.Counting.{colours_over};
ghost use Rattle.sws_handlers.specs.Loads.{FitsTold};
ghost use Rattle.sws_handlers.specs.Tasks.{handler_count};

use mely_event::Event;
use mely_worker::{App, Gate, Outs};
use sws_conn::Talk;
use sws_handlers::{Load, Place, Sws};
use sws_link::{Link, World};

/// The server, which passes a gate of its own before each handler: the steps of a weave pass none.
///
/// A state doesn't know which core runs it, so the gate is told core 0. Where there are more, pass
/// an open one. What a handler does says of the gate that it was passed.
#[derive(Drop)]
pub struct Gated<'g, W, T, G> {
    pub(crate) app: Sws<W, T>,
    gate: &'g G,
}

impl<'g, W, T, G> Gated<'g, W, T, G> {
    ghost use Rattle.std.specs.Prelude.{◌≡◌};

    /// The server over so many links, with the access log or without, behind a gate.
    pub fn new(total: u16, log: bool, gate: &'g G) -> Gated<'g, W, T, G>
        ensures total { result.app.total ≡ total }
        ensures log { result.app.log ≡ log }
        ensures gate { result.gate.now ≡ gate.now }
    {
        Gated {
            app: Sws::new(total, log),
            gate,
        }
    }
}

impl<'g, W: World + Drop, T: Talk<W::Link> + Drop, G: Gate> App for Gated<'g, W, T, G> {
    type Load = Load<W, W::Link>;

    type State = Place<W, T>;

    ghost use Rattle.std.specs.Prelude.{◌≡◌, ◌≤◌, ◌+◌};
    ghost use Rattle.sws_handlers.specs.Handling.{Runs};
    ghost use Rattle.sws_handlers.specs.Counting.{colours_over};
    ghost use Rattle.sws_link.specs.Limits.{conn_limit};
    ghost use Rattle.sws_handlers.specs.Tasks.{handler_count};
    ghost use Rattle.sws_handlers.specs.PlaceFields.{frame_in};

    ghost colours_of = { λ gated. colours_over gated.app.total gated.app.log };

    ghost handlers_of = { λ gated. handler_count };

    ghost serves = { λ gated frame.
        ((W.tells frame.first).total ≡ gated.app.total) × (gated.app.total ≤ conn_limit) };

    ghost runs = { λ gated before event load after puts.
        (Runs W.World W.Link.Link T.Talk gated.app.log gated.app.total before event load after
        puts) × G.passes gated.gate.now 0 before.colour event };

    fn run(
        &self,
        state: &mut Place<W, T>,
        event: Event,
        load: Option<Load<W, W::Link>>,
        outs: &mut Outs<Load<W, W::Link>>,
    )
        requires serves { ((W.tells state.old.first).total ≡ self.now.app.total)
            × (self.now.app.total ≤ conn_limit) }
        requires empty { outs.old ≡ [] }
        requires fits { FitsTold W.World W.Link.Link T.Talk state.old.hall state.old.first
            state.old.colour event load }
        ensures ran { (Runs W.World W.Link.Link T.Talk self.now.app.log self.now.app.total state.old
            event load state.new outs.new)
            × G.passes self.now.gate.now 0 state.old.colour event }
        ensures colour { state.new.colour ≡ state.old.colour }
        ensures frame { frame_in state.new ≡ frame_in state.old }
        ensures trail { state.new.trail ≡ state.old.trail ++ event ∷ [] }
        ensures puts { AllByRecursion
            (FitsIn (colours_over self.now.app.total self.now.app.log) handler_count
            (FitsTold W.World W.Link.Link T.Talk state.old.hall state.old.first)) outs.new }
        ensures few { length outs.new ≤ 2 }
    {
        self.gate.pass(0, state.colour(), event);
        self.app.run(state, event, load, outs);
    }
}
