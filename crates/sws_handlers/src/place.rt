//! The state of a colour.
use crate::load::{Load, WorldLoad};
use crate::logging::KeptLines;
use crate::waiting::Waiting;
use mely_event::{Colour, Event, Fits, Trail};
use mely_log::Log;
use std::marker::Model;
use std::snapshot::Snapshot;
use sws_conn::{Next, Talk};
use sws_link::{Link, World};

/// What stays the same over a run: the hall, and the world as it was at first.
/// It is for contracts alone.
pub struct Frame<H, W> {
    pub hall: H,
    pub first: W,
}

/// The state of colour 0: the connections that wait, whether no more links come, and
/// the world, where it rests.
#[derive(Drop)]
pub struct Desk<W> {
    /// Those that wait for their links.
    pub waiting: Waiting,

    /// No more links come.
    pub last: bool,

    /// The world, where it rests.
    pub resting: Option<WorldLoad<W>>,
}

/// The state of a connection's colour: the connection, and the first event
/// that was not the due one.
#[derive(Drop)]
pub struct Seat<T> {
    /// The connection.
    pub talk: T,

    /// What its last step answered.
    pub next: Next,

    /// How many lines it has given, whether or not they are kept.
    pub answered: u16,

    /// The first event that was not the due one.
    pub stray: Option<Event>,
}

/// What a colour is for.
#[derive(Drop)]
pub enum Role<W, T> {
    Polling(Desk<W>),
    Accepting,
    Talking(Seat<T>),

    /// The access log is kept in the lines of the state.
    Logging,
}

/// The state of a colour.
#[derive(Drop)]
pub struct Place<W: World, T: Talk<W::Link>> {
    pub(crate) colour: Colour,

    /// The events that were run, for contracts alone.
    pub(crate) trail: Log<Event>,

    /// The lines of the access log, at the colour that keeps it.
    pub(crate) lines: KeptLines,
    pub(crate) hall: T::Hall,
    pub(crate) first: Snapshot<W>,

    /// It lies in a box, since a state is moved out of its shard and back in each turn.
    pub(crate) role: Box<Role<W, T>>,
}

impl<W: World, T: Talk<W::Link>> Model for Place<W, T> {
    ghost use Rattle.sws_handlers.specs.Place.{PlaceState};

    ghost Value = { PlaceState T.Contents W T };

    ghost use Rattle.sws_handlers.specs.PlaceFields.{state_of};
    ghost use Rattle.sws_handlers.specs.Invariant.{IsConsistent};

    ghost view = { λ place. state_of T.contents_of place };

    ghost invariant = { λ place.
        IsConsistent W.World W.Link.Link T.Talk (state_of T.contents_of place) };
}

impl<W: World, T: Talk<W::Link>> Place<W, T> {
    ghost use Rattle.std.specs.Prelude.{◌≡◌};

    /// The colour whose state it is.
    pub fn colour(&self) -> Colour
        ensures { result ≡ self.now.colour }
    {
        self.colour
    }
}

impl<W: World, T: Talk<W::Link>> Trail for Place<W, T> {
    type Frame = Frame<T::Contents, W>;

    ghost trail_of = { λ s. s.trail };

    ghost colour_of = { λ s. s.colour };

    ghost frame_of = { λ s. record { hall = s.hall; first = s.first } };
}

impl<W: World, T: Talk<W::Link>> Fits<Load<W, W::Link>> for Place<W, T> {
    ghost use Rattle.sws_handlers.specs.Loads.{FitsTold};

    ghost fits_under = { λ frame colour event load.
        FitsTold W.World W.Link.Link T.Talk frame.hall frame.first colour event load };
}
