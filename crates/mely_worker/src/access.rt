//! What a worker may call of shards and chains.
ghost use Rattle.std.specs.Prelude.{◌≡◌, ℕ, Bool, List, Option, Result, IfOk, IfSome, MatchResult};
ghost use Rattle.mely_event.specs.declared.colour.Colour.{Colour};
ghost use Rattle.mely_event.specs.declared.event.Event.{Event};
ghost use Rattle.mely_event.specs.declared.mark.Mark.{Mark};
ghost use Rattle.mely_event.specs.declared.there.There.{There};
ghost use Rattle.mely_event.specs.declared.unregistered.Unregistered.{Unregistered};
ghost use Rattle.mely_history.specs.declared.setup.Setup.{Setup};
ghost use Rattle.mely_history.specs.declared.registered.Registered.{Registered};
ghost use Rattle.mely_history.specs.declared.no_take.NoTake.{NoTake};
ghost use Rattle.mely_history.specs.declared.no_steal.NoSteal.{NoSteal};
ghost use Rattle.mely_history.specs.declared.stolen.Stolen.{Stolen};
ghost use Rattle.mely_history.specs.declared.after.After.{After};
ghost use Rattle.mely_queue.specs.Turn.{TurnState};
ghost use Rattle.mely_worker.specs.Access.{IsColour, IsCore, FitsSetup, Stays, StillOwes, IsTaken, IsSpent, NamesCore, GivesBack};

use mely_event::{Colour, Event, Fits, Mark, There, Unregistered};
use mely_history::{After, NoSteal, NoTake, Registered, Stolen};
use mely_queue::Turn;

/// The side of one core: what its worker may call of shards and chains.
///
/// An access tells contracts its setup, its core and the frame of its states, and for each call a
/// relation between what it was, the answer, and what it is afterwards. So
/// [`Worker::step`](crate::Worker::step) is one promise for every kind of access: over plain
/// values, behind locks, or scripted in a test.
pub trait Access<S: Fits<P>, P> {
    /// The shape, the colours and the handlers of the run, which no call changes.
    ghost setup_of: { Self → Setup };

    /// The core whose side this is.
    ghost core_of: { Self → ℕ };

    /// What all states have in common, which no call changes.
    ghost frame_of: { Self → S.Frame };

    /// A finish is owed of a turn of this colour, core and count, whose
    /// state is to have this trail.
    ghost owes: { Self → Colour → ℕ → ℕ → List Event → Type 0 };

    /// What every call keeps beside setup, core and frame, as the name of what is lent.
    ghost keeps: { Self → Self → Type 0 };

    /// What a registration does and answers.
    ghost registers: { Self → Colour → Event → Option P
        → Result Registered (Unregistered P) → Self → Type 0 };

    /// What a take does and answers.
    ghost takes: { Self → Colour → Result (TurnState S P) NoTake → Self → Type 0 };

    /// What a finish does and answers.
    ghost finishes: { Self → TurnState S P → After → Self → Type 0 };

    /// What a steal does and answers.
    ghost steals: { Self → Colour → Result Stolen NoSteal → Self → Type 0 };

    /// What a push on the chain of a core does and answers.
    ghost pushes: { Self → ℕ → Mark → Result (Unit {0}) There → Self → Type 0 };

    /// What a pop of the own chain does and answers.
    ghost pops: { Self → Option Mark → Self → Type 0 };

    /// What telling the chain of a core does and answers.
    ghost retells: { Self → ℕ → Colour → ℕ → ℕ → Bool → Self → Type 0 };

    /// What a pick from the chain of a core does and answers.
    ghost picks: { Self → ℕ → Option Mark → Self → Type 0 };

    /// The core whose side this is.
    fn core(&self) -> u16
        ensures { result ≡ core_of self.now };

    /// Registers an event behind the others of its colour.
    ///
    /// # Errors
    ///
    /// There was no memory: event and load are handed back.
    fn register(
        &mut self,
        colour: Colour,
        event: Event,
        load: Option<P>,
    ) -> Result<Registered, Unregistered<P>>
        requires own { IsCore (setup_of self.old) (core_of self.old) }
        requires fits { FitsSetup S.fits_under (setup_of self.old) (frame_of self.old)
            (colour, event, load) }
        ensures called { registers self.old colour event load result self.new }
        ensures answer { MatchResult result (NamesCore (setup_of self.old)) (GivesBack event load) }
        ensures stays { Stays setup_of core_of frame_of self.old self.new }
        ensures kept { keeps self.old self.new }
        ensures owed { StillOwes owes self.old self.new };

    /// Moves the state of a colour and its first events out, for this core to run them.
    ///
    /// # Errors
    ///
    /// Why nothing was taken; `Memory` is the last cause.
    fn take(&mut self, colour: Colour) -> Result<Turn<S, P>, NoTake>
        requires own { IsCore (setup_of self.old) (core_of self.old) }
        requires colour { IsColour (setup_of self.old) colour }
        ensures called { takes self.old colour result self.new }
        ensures turn { IfOk result (IsTaken S.Trail S.fits_under setup_of core_of frame_of owes
            self.old self.new colour) }
        ensures stays { Stays setup_of core_of frame_of self.old self.new }
        ensures kept { keeps self.old self.new }
        ensures owed { StillOwes owes self.old self.new };

    /// Takes the state of a turn home whose events were run. It takes no memory.
    fn finish(&mut self, turn: Turn<S, P>) -> After
        requires spent { IsSpent S.Trail setup_of frame_of owes self.old turn }
        ensures called { finishes self.old turn result self.new }
        ensures stays { Stays setup_of core_of frame_of self.old self.new }
        ensures kept { keeps self.old self.new };

    /// Moves a colour with all its queued events over to this core.
    ///
    /// # Errors
    ///
    /// Why nothing was stolen; `Memory` is the last cause.
    fn steal(&mut self, colour: Colour) -> Result<Stolen, NoSteal>
        requires own { IsCore (setup_of self.old) (core_of self.old) }
        requires colour { IsColour (setup_of self.old) colour }
        ensures called { steals self.old colour result self.new }
        ensures stays { Stays setup_of core_of frame_of self.old self.new }
        ensures kept { keeps self.old self.new }
        ensures owed { StillOwes owes self.old self.new };

    /// Puts a mark at the back of the chain of a core. It takes no memory.
    ///
    /// # Errors
    ///
    /// The chain has a mark of that colour already.
    fn push(&mut self, core: u16, mark: Mark) -> Result<(), There>
        requires core { IsCore (setup_of self.old) core }
        requires colour { IsColour (setup_of self.old) mark.colour }
        ensures called { pushes self.old core mark result self.new }
        ensures stays { Stays setup_of core_of frame_of self.old self.new }
        ensures kept { keeps self.old self.new }
        ensures owed { StillOwes owes self.old self.new };

    /// Takes the first mark off the own chain.
    fn pop(&mut self) -> Option<Mark>
        requires own { IsCore (setup_of self.old) (core_of self.old) }
        ensures called { pops self.old result self.new }
        ensures mark { IfSome result (λ mark. IsColour (setup_of self.old) mark.colour) }
        ensures stays { Stays setup_of core_of frame_of self.old self.new }
        ensures kept { keeps self.old self.new }
        ensures owed { StillOwes owes self.old self.new };

    /// Tells the chain of a core what a colour is worth now. Whether its mark was found there.
    fn retell(&mut self, core: u16, colour: Colour, started: u64, worth: u128) -> bool
        requires core { IsCore (setup_of self.old) core }
        requires colour { IsColour (setup_of self.old) colour }
        ensures called { retells self.old core colour started worth result self.new }
        ensures stays { Stays setup_of core_of frame_of self.old self.new }
        ensures kept { keeps self.old self.new }
        ensures owed { StillOwes owes self.old self.new };

    /// Takes the mark that is worth most off the chain of a core, if a worthy one is there.
    fn pick(&mut self, core: u16) -> Option<Mark>
        requires core { IsCore (setup_of self.old) core }
        ensures called { picks self.old core result self.new }
        ensures mark { IfSome result (λ mark. IsColour (setup_of self.old) mark.colour) }
        ensures stays { Stays setup_of core_of frame_of self.old self.new }
        ensures kept { keeps self.old self.new }
        ensures owed { StillOwes owes self.old self.new };

    /// No call at all keeps everything.
    ghost keeps_itself: { (a : Self) → keeps a a };
}
