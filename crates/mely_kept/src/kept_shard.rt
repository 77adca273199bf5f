//! What the lock of a shard keeps.
ghost use Rattle.std.specs.Prelude.{◌≡◌, ◌<◌, ◌≤◌, [], ◌∷◌, ◌++◌, List, IfOk, IfErr, OnOk, slice_get};

use mely_event::{Colour, Event, Fits, Kept, Memory, Trail, Unregistered};
use mely_history::{After, NoSteal, NoTake, Registered, Setup, Stolen};
use mely_log::Log;
use mely_note::{Note, Stamp};
use mely_queue::Turn;
use mely_shard::Shard;
use std::alloc::Global;
use std::marker::Model;
use std::snapshot::Snapshot;

/// What stays the same of a shard behind its lock. It is for contracts
/// alone: no value of it is made.
pub struct ShardFrame<S, F> {
    pub setup: Setup,
    pub shard: u16,
    pub states: F,

    /// The states that the colours of the shard were given at first, in ascending order.
    pub givens: Log<S>,
}

/// A shard as its lock keeps it, with the notes of its history. All its states have the frame of
/// the sample.
///
/// The shard lies in a box, so that going into the lock and out again moves a pointer.
#[derive(Drop)]
pub struct KeptShard<S: Fits<P>, P> {
    shard: Box<Shard<S, P>>,

    /// What went over at each entry of the shard's history. It is for contracts alone.
    notes: Log<Note<S, P>>,

    /// A state as it was given, for its frame: a shard without colours has none of its own. It is
    /// for contracts alone, and a snapshot of a snapshot, which each shard of a fleet can be given.
    sample: Snapshot<Snapshot<S>>,
}

impl<S: Fits<P>, P> Model for KeptShard<S, P> {
    ghost use Rattle.mely_shard.specs.Shard.{givens};
    ghost use Rattle.mely_kept.specs.Frames.{HaveFrame};
    ghost use Rattle.mely_kept.specs.KeptShard.{KeptShardState};
    ghost use Rattle.mely_note.specs.Notes.{Rise};
    ghost use Rattle.mely_note.specs.ShowsNotes.{ShowsNotes};

    ghost Value = { KeptShardState S P };

    ghost view = { λ k. record {
      has = k.shard.value;
      notes = k.notes.items;
      sample = k.sample.value.value;
    } };

    ghost invariant = { λ k.
        HaveFrame S.frame_of (S.frame_of k.sample.value.value) (givens k.shard.value)
        × ShowsNotes k.shard.value k.notes.items × Rise k.notes.items };
}

impl<S: Fits<P>, P> Kept for KeptShard<S, P> {
    ghost use Rattle.mely_note.specs.Notes.{noted_by};
    ghost use Rattle.mely_kept.specs.Frames.{shard_frame};

    type Note = Note<S, P>;

    type Frame = ShardFrame<S, S::Frame>;

    ghost history_of = { λ k. k.notes };

    ghost pass_of = { noted_by };

    ghost frame_of = { shard_frame S.frame_of };

    fn notes(&self) -> u64 {
        self.shard.history().len()
    }
}

impl<S: Fits<P>, P> KeptShard<S, P> {
    ghost use Rattle.mely_history.specs.Legal.{IsLegal, MayRegister};
    ghost use Rattle.mely_history.specs.Owing.{IsOwed};
    ghost use Rattle.mely_history.specs.Setup.{shape_of};
    ghost use Rattle.mely_lock.specs.Seen.{OthersSince};
    ghost use Rattle.mely_note.specs.Notes.{Rise, entries_of, noted_by, stamp_of};
    ghost use Rattle.mely_note.specs.declared.note.Note.{Note};
    ghost use Rattle.mely_shard.specs.Shard.{givens};
    ghost use Rattle.mely_kept.specs.Frames.{HaveFrame, IsColourOf, given_at, shard_frame};
    ghost use Rattle.mely_kept.specs.Calls.{RegistersAt, TakesAt, FinishesAt, StealsAt, IsDrainedAs};
    ghost use Rattle.mely_note.specs.ShowsNotes.{IsUntouched, ShowsNotes};

    /// A shard in which nothing was registered yet, and whose states have the frame of the sample.
    ///
    /// # Errors
    ///
    /// There was no memory: the shard is dropped. [`new_or_back`](KeptShard::new_or_back) hands it
    /// back.
    pub fn new(
        alloc: Global,
        shard: Shard<S, P>,
        sample: &Snapshot<S>,
    ) -> Result<KeptShard<S, P>, Memory>
    where
        S: Drop,
        P: Drop,
        requires framed { HaveFrame S.frame_of (S.frame_of sample.now.value) (givens shard) }
        requires untouched { IsUntouched shard }
        ensures { IfOk result (λ kept.
            kept ≡ record { has = shard; notes = []; sample = sample.now.value }) }
    {
        match KeptShard::new_or_back(alloc, shard, sample) {
            Ok(made) => Ok(made),
            Err(_) => Err(Memory),
        }
    }

    /// What [`new`](KeptShard::new) makes, or the shard again.
    ///
    /// # Errors
    ///
    /// There was no memory: the shard is handed back as it came.
    pub fn new_or_back(
        alloc: Global,
        shard: Shard<S, P>,
        sample: &Snapshot<S>,
    ) -> Result<KeptShard<S, P>, Shard<S, P>>
        requires framed { HaveFrame S.frame_of (S.frame_of sample.now.value) (givens shard) }
        requires untouched { IsUntouched shard }
        ensures made { IfOk result (λ kept.
            kept ≡ record { has = shard; notes = []; sample = sample.now.value }) }
        ensures back { IfErr result (λ back. back ≡ shard) }
    {
        match Box::new(alloc, shard) {
            Ok(shard) => Ok(KeptShard {
                shard,
                notes: Log::new(),
                sample: Snapshot::of(sample),
            }),
            Err(refused) => Err(refused.value),
        }
    }

    /// The states as they were given, in ascending order of their colours, of a shard in which
    /// nothing was noted. It takes no memory.
    pub fn into_givens(self) -> Vec<S>
    where
        S: Drop,
        P: Drop,
        requires { self.notes ≡ [] }
        ensures { result.items ≡ givens self.has }
    {
        let shard = self.into_shard();
        let _entries = shard.history();
        let (_, states, _) = shard.into_parts();
        states
    }

    /// The shard, once its lock is closed. Its states have still the frame that the lock was told,
    /// and its lanes have what the notes say.
    pub fn into_shard(self) -> Shard<S, P>
        ensures shard { result ≡ self.has }
        ensures framed { HaveFrame S.frame_of (S.frame_of self.sample) (givens result) }
        ensures legal { IsLegal result.setup result.history }
        ensures shown { ShowsNotes result self.notes }
        ensures rise { Rise self.notes }
    {
        let KeptShard {
            shard,
            notes: _,
            sample: _,
        } = self;
        let _entries = shard.history();
        Box::into_inner(shard)
    }

    /// Registers an event behind the others of its colour, by the pass of the number `by`,
    /// which knows of stamps up to this one. The colour is one of the shard, and the event fits its
    /// load.
    ///
    /// # Errors
    ///
    /// There was no memory, or the history is at its limit: the event and its load are handed back.
    pub fn register(
        &mut self,
        colour: Colour,
        event: Event,
        load: Option<P>,
        by: u16,
        known: &Stamp,
    ) -> Result<Registered, Unregistered<P>>
        requires own { IsColourOf (shard_frame S.frame_of self.old) colour }
        requires may { MayRegister self.old.has.setup colour event }
        requires fit { S.fits_under (S.frame_of self.old.sample) colour event load }
        ensures frame { shard_frame S.frame_of self.new ≡ shard_frame S.frame_of self.old }
        ensures does { RegistersAt self.old.has.setup by colour event load result
            self.old.notes self.new.notes }
        ensures legal { IsLegal self.old.has.setup (entries_of self.new.notes) }
        ensures rise { Rise self.new.notes }
        ensures above { (note : _) → self.new.notes ≡ self.old.notes ++ note ∷ []
            → known.now.number < stamp_of note }
    {
        let at = known.after(&self.notes);
        let note = Note::Reg {
            colour,
            event,
            load: Snapshot::of(&load),
            by,
            at: Snapshot::of(&at),
        };
        let reply = self.shard.register(colour, event, load, by)?;
        self.notes.push(&note);
        Ok(reply)
    }

    /// Moves the state of a colour and its first events out: the state that its last finish brought
    /// home, and the events with the loads that they were registered with.
    ///
    /// # Errors
    ///
    /// Those of [`Shard::take`].
    pub fn take(&mut self, colour: Colour, core: u16, known: &Stamp) -> Result<Turn<S, P>, NoTake>
        requires own { IsColourOf (shard_frame S.frame_of self.old) colour }
        ensures frame { shard_frame S.frame_of self.new ≡ shard_frame S.frame_of self.old }
        ensures does { TakesAt S.Trail S.fits_under self.old.has.setup (S.frame_of self.old.sample)
            (given_at (shard_frame S.frame_of self.old) colour) core colour result
            self.old.notes self.new.notes }
        ensures legal { IsLegal self.old.has.setup (entries_of self.new.notes) }
        ensures rise { Rise self.new.notes }
        ensures above { (note : _) → self.new.notes ≡ self.old.notes ++ note ∷ []
            → known.now.number < stamp_of note }
    {
        let _entries = self.shard.history();
        let turn = self.shard.take(colour, core)?;
        let at = known.after(&self.notes);
        self.notes.push(&Note::Take {
            colour,
            core,
            count: turn.count(),
            at: Snapshot::of(&at),
        });
        Ok(turn)
    }

    /// Takes the state of a turn home, whose finish is owed by what the core had seen.
    pub fn finish(&mut self, turn: Turn<S, P>, known: &Stamp) -> After
    where
        S: Drop,
        P: Drop,
        requires own { IsColourOf (shard_frame S.frame_of self.old) turn.colour }
        requires spent { turn.events ≡ [] }
        requires owed { (front : List (Note S P))
            × OthersSince noted_by turn.core front self.old.notes
            × IsOwed turn.core (entries_of front) turn.colour turn.core turn.count
            (S.trail_of turn.state) }
        requires coloured { S.colour_of turn.state ≡ turn.colour }
        requires framed { S.frame_of turn.state ≡ S.frame_of self.old.sample }
        ensures frame { shard_frame S.frame_of self.new ≡ shard_frame S.frame_of self.old }
        ensures does { FinishesAt self.old.has.setup turn.core turn result
            self.old.notes self.new.notes }
        ensures legal { IsLegal self.old.has.setup (entries_of self.new.notes) }
        ensures rise { Rise self.new.notes }
        ensures above { (note : _) → self.new.notes ≡ self.old.notes ++ note ∷ []
            → known.now.number < stamp_of note }
    {
        let mut turn = turn;
        let at = known.after(&self.notes);
        let note = Note::Fin {
            colour: turn.colour(),
            core: turn.core(),
            count: turn.count(),
            state: Snapshot::of(turn.state()),
            at: Snapshot::of(&at),
        };
        let _entries = self.shard.history();
        let after = self.shard.finish(turn);
        self.notes.push(&note);
        after
    }

    /// Moves a colour with all that is queued to another core.
    ///
    /// # Errors
    ///
    /// Those of [`Shard::steal`].
    pub fn steal(&mut self, colour: Colour, to: u16, known: &Stamp) -> Result<Stolen, NoSteal>
        requires own { IsColourOf (shard_frame S.frame_of self.old) colour }
        requires core { to < (shape_of self.old.has.setup).cores }
        ensures frame { shard_frame S.frame_of self.new ≡ shard_frame S.frame_of self.old }
        ensures does { StealsAt self.old.has.setup to colour result
            self.old.notes self.new.notes }
        ensures legal { IsLegal self.old.has.setup (entries_of self.new.notes) }
        ensures rise { Rise self.new.notes }
        ensures above { (note : _) → self.new.notes ≡ self.old.notes ++ note ∷ []
            → known.now.number < stamp_of note }
    {
        let stolen = self.shard.steal(colour, to)?;
        let at = known.after(&self.notes);
        self.notes.push(&Note::Steal {
            colour,
            from: stolen.from,
            to,
            at: Snapshot::of(&at),
        });
        Ok(stolen)
    }

    /// Makes room for this many entries.
    ///
    /// # Errors
    ///
    /// There was no memory, or so many are over the limit.
    pub fn reserve(&mut self, entries: usize) -> Result<(), Memory>
        ensures frame { shard_frame S.frame_of self.new ≡ shard_frame S.frame_of self.old }
        ensures notes { self.new.notes ≡ self.old.notes }
        ensures ok { OnOk result (entries ≤ self.new.has.spare) }
        ensures legal { IsLegal self.old.has.setup (entries_of self.new.notes) }
        ensures rise { Rise self.new.notes }
    {
        self.shard.reserve(entries)
    }

    /// Whether no colour runs and nothing is queued.
    pub fn is_drained(&self) -> bool
        ensures drained { IsDrainedAs result (entries_of self.now.notes) }
        ensures legal { IsLegal self.now.has.setup (entries_of self.now.notes) }
        ensures rise { Rise self.now.notes }
    {
        let _entries = self.shard.history();
        self.shard.is_drained()
    }
}
