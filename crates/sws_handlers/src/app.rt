//! The server as an app of coloured events.
ghost use Rattle.std.specs.Prelude.{◌≡◌, ◌<◌, ◌≤◌, ◌+◌, ◌-◌, ◌++◌, ◌∷◌, [], ℕ, List, Option, length};
ghost use Rattle.std.specs.List.{AllByRecursion};
ghost use Rattle.mely_worker.specs.Access.{FitsIn};
ghost use Rattle.sws_handlers.specs.Counting.{colours_over};
ghost use Rattle.sws_handlers.specs.Loads.{FitsTold};
ghost use Rattle.sws_handlers.specs.Tasks.{handler_count};

use crate::accepting::run_accepting;
use crate::desk::run_desk;
use crate::load::Load;
use crate::logging::run_logging;
use crate::place::{Place, Role};
use crate::seating::serve;
use mely_event::{Colour, Event, Fits, Trail};
use mely_worker::{App, Outs};
use std::marker::PhantomData;
use std::sync::Mutex;
use sws_conn::Talk;
use sws_link::{Link, World};

/// The web server, over so many links: colour 0 asks which of the waiting connections is ready,
/// colour 1 accepts, and colour `2 + conn` is connection `conn`. With the access log, colour
/// `2 + total` keeps its lines.
#[derive(Drop)]
pub struct Sws<W, T> {
    /// How many links there are.
    pub total: u16,

    /// Whether the access log is kept.
    pub log: bool,
    of: PhantomData<Mutex<(W, T)>>,
}

impl<W, T> Sws<W, T> {
    /// The server over so many links, with the access log or without.
    pub fn new(total: u16, log: bool) -> Sws<W, T>
        ensures total { result.total ≡ total }
        ensures log { result.log ≡ log }
    {
        Sws {
            total,
            log,
            of: PhantomData,
        }
    }
}

impl<W: World + Drop, T: Talk<W::Link> + Drop> App for Sws<W, T> {
    type Load = Load<W, W::Link>;

    type State = Place<W, T>;

    ghost use Rattle.std.specs.Prelude.{◌≡◌, ◌≤◌, ◌+◌};
    ghost use Rattle.sws_handlers.specs.Handling.{Runs};
    ghost use Rattle.sws_handlers.specs.Counting.{colours_over};
    ghost use Rattle.sws_link.specs.Limits.{conn_limit};
    ghost use Rattle.sws_handlers.specs.Tasks.{handler_count};
    ghost use Rattle.sws_handlers.specs.PlaceFields.{frame_in};

    ghost colours_of = { λ app. colours_over app.total app.log };

    ghost handlers_of = { λ app. handler_count };

    ghost serves = { λ app frame.
        ((W.tells frame.first).total ≡ app.total) × (app.total ≤ conn_limit) };

    ghost runs = { λ app before event load after puts.
        Runs W.World W.Link.Link T.Talk app.log app.total before event load after puts };

    fn run(
        &self,
        state: &mut Place<W, T>,
        event: Event,
        load: Option<Load<W, W::Link>>,
        outs: &mut Outs<Load<W, W::Link>>,
    )
        requires serves { ((W.tells state.old.first).total ≡ self.now.total)
            × (self.now.total ≤ conn_limit) }
        requires empty { outs.old ≡ [] }
        requires fits { FitsTold W.World W.Link.Link T.Talk state.old.hall state.old.first
            state.old.colour event load }
        ensures ran { Runs W.World W.Link.Link T.Talk self.now.log self.now.total state.old event
            load state.new outs.new }
        ensures colour { state.new.colour ≡ state.old.colour }
        ensures frame { frame_in state.new ≡ frame_in state.old }
        ensures trail { state.new.trail ≡ state.old.trail ++ event ∷ [] }
        ensures puts { AllByRecursion
            (FitsIn (colours_over self.now.total self.now.log) handler_count
            (FitsTold W.World W.Link.Link T.Talk state.old.hall state.old.first)) outs.new }
        ensures few { length outs.new ≤ 2 }
    {
        // What holds of a run: a connection that has run isn't to be opened again.
        T::a_run_serves();
        let total = self.total;
        let log = self.log;
        state.trail.push(&event);
        match &mut *state.role {
            Role::Polling(desk) => run_desk(desk, event, load, outs),
            Role::Accepting => run_accepting(total, event, load, outs),
            Role::Talking(seat) => serve(seat, state.colour.0 - 2, total, log, event, load, outs),
            Role::Logging => run_logging(&mut state.lines, load),
        }
    }
}
