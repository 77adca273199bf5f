//! Reading a journal byte by byte.
ghost use Rattle.std.specs.Prelude.{◌≡◌, ◌≢◌, ◌+◌, ◌≤◌, ◌++◌, ◌∷◌, [], ℕ, List, IfOk, OnOk, IfErr, MatchResult};

use crate::fault::CheckFault;
use crate::judge::Judge;
use crate::listener::Listener;
use crate::place::Place;
use crate::report::Report;
use mely_history::Setup;
use std::alloc::{AllocError, Global};

/// The most bytes of a line, with its LF.
const MAX_LINE: usize = 64;

/// What was read of a text: its whole lines, what was heard of their entries,
/// and the bytes behind them.
#[derive(Drop)]
pub(crate) struct Reader {
    place: Place,
    line: Vec<u8>,
    judge: Judge,
}

impl Reader {
    ghost use Rattle.mely_history.specs.Setup.{shape_of};
    ghost use Rattle.mely_history.specs.declared.setup.Setup.{Setup as SetupValue};
    ghost use Rattle.mely_check.specs.Extent.{IsFrom};
    ghost use Rattle.mely_check.specs.Journals.{IsLine};
    ghost use Rattle.mely_check.specs.Hearing.{Walk};
    ghost use Rattle.mely_check.specs.Walks.{IsAt};
    ghost use Rattle.mely_check.specs.Readers.{Stands, IsOpen, IsEnded, Refuses, Stops, IsHeard, Knows, Ends, nobody, reach};

    /// A reader that stands at the beginning of a journal of the setup.
    ///
    /// # Errors
    ///
    /// There was no memory.
    pub(crate) fn new(alloc: Global, setup: &Setup) -> Result<Reader, AllocError>
        ensures knows { IfOk result (Knows nobody setup.now []) }
        ensures open_line { IfOk result IsOpen }
        ensures shards { IfOk result (λ reader. reader.place.shards ≡ (shape_of setup.now).shards) }
    {
        Ok(Reader {
            place: Place::new(setup.shards()),
            line: Vec::new(alloc),
            judge: Judge::new(alloc, setup)?,
        })
    }

    /// Goes on behind a byte, and lets the listener hear the line that it ends, if it ends one.
    ///
    /// # Errors
    ///
    /// The line of the byte may not stand, or there was no memory.
    pub(crate) fn take<L: Listener>(&mut self, listener: &mut L, byte: u8) -> Result<(), CheckFault>
        requires { IsOpen self.old }
        ensures goes { (text : List ℕ) → Stands text self.old
            → MatchResult result (λ _. Stands (text ++ byte ∷ []) self.new)
            (Refuses self.old.place.shards (text ++ byte ∷ [])) }
        ensures knows { (setup : SetupValue) (text : List ℕ)
            → Knows (λ walk. L.Heard walk listener.old) setup text self.old
            → OnOk result (Knows (λ walk. L.Heard walk listener.new) setup (text ++ byte ∷ [])
            self.new) }
        ensures open_line { OnOk result (IsOpen self.new) }
        ensures further { OnOk result (reach self.old + 1 ≤ reach self.new) }
        ensures shards { self.new.place.shards ≡ self.old.place.shards }
        ensures frame { L.frame_of listener.new ≡ L.frame_of listener.old }
        ensures later { OnOk result (self.old.place.number ≤ self.new.place.number) }
        ensures from { IfErr result (IsFrom self.old.place.number) }
        ensures sound { IfErr result (λ fault. fault ≢ CheckFault.Read) }
    {
        if byte != b'\n' && self.line.len() + 1 == MAX_LINE {
            return Err(self.bad());
        }
        if self.line.push(byte).is_err() {
            return Err(CheckFault::Memory);
        }
        if byte == b'\n' {
            return self.end_line(listener);
        }
        Ok(())
    }

    /// Goes on behind a line, which has its LF, and lets the listener hear it.
    ///
    /// # Errors
    ///
    /// The line may not stand, or there was no memory.
    fn end_line<L: Listener>(&mut self, listener: &mut L) -> Result<(), CheckFault>
        requires { IsLine self.old.line.items }
        ensures goes { (lines : List (List ℕ)) → IsAt lines self.old.place
            → MatchResult result (λ _. IsAt (lines ++ self.old.line.items ∷ []) self.new.place)
            (Stops lines self.old.line.items self.old.place) }
        ensures hears { (setup : SetupValue) (lines : List (List ℕ))
            → IsHeard (λ walk. L.Heard walk listener.old) setup lines self.old.place self.old.judge
            → OnOk result (IsHeard (λ walk. L.Heard walk listener.new) setup
            (lines ++ self.old.line.items ∷ []) self.new.place self.new.judge) }
        ensures frame { L.frame_of listener.new ≡ L.frame_of listener.old }
        ensures empty { OnOk result (self.new.line.items ≡ []) }
        ensures counted { OnOk result (self.new.place.number ≡ self.old.place.number + 1) }
        ensures from { IfErr result (IsFrom self.old.place.number) }
        ensures sound { IfErr result (λ fault. fault ≢ CheckFault.Read) }
        ensures shards { self.new.place.shards ≡ self.old.place.shards }
    {
        let number = self.place.number;
        let Some(said) = self.place.step(&self.line) else {
            return Err(CheckFault::BadJournal { line: number });
        };
        let begun = self.place.begun;
        if self.judge.hear_line(begun, number, &said).is_err() {
            return Err(CheckFault::Memory);
        }
        if listener.hear(&said).is_err() {
            return Err(CheckFault::Memory);
        }
        self.line.clear();
        Ok(())
    }

    /// That the line that is being read may not stand here.
    fn bad(&self) -> CheckFault
        ensures { result ≡ CheckFault.BadJournal self.now.place.number }
    {
        CheckFault::BadJournal {
            line: self.place.number,
        }
    }

    /// Whether the text that ends here is the journal of a legal and drained run.
    ///
    /// # Errors
    ///
    /// A line isn't ended, or there are too few; an entry isn't allowed; a colour runs
    /// or has something queued.
    pub(crate) fn end(&self) -> Result<(), CheckFault>
        ensures ends { (setup : SetupValue) (text : List ℕ) → Knows nobody setup text self.now
            → self.now.place.shards ≡ (shape_of setup).shards → Ends setup text self.now result }
        ensures whole { OnOk result (IsEnded self.now) }
        ensures from { IfErr result (IsFrom self.now.place.number) }
        ensures sound { IfErr result (λ fault. fault ≢ CheckFault.Read) }
    {
        if !self.line.is_empty() || !self.place.is_whole() {
            return Err(self.bad());
        }
        self.judge.verdict()
    }

    /// The sums over all entries that were read, whether the journal was accepted or not.
    pub(crate) fn report(self) -> Report
        ensures entries { result.entries ≡ self.place.entries }
        ensures cores { result.cores.items ≡ self.judge.cores.items }
    {
        Report {
            entries: u64::from(self.place.entries),
            cores: self.judge.into_reports(),
        }
    }
}
