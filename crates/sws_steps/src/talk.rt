//! What a server asks of a connection, whatever it talks about.
ghost use Rattle.std.specs.Prelude.{false, Bool, ◌≡◌, ◌≢◌, ◌≤◌, ◌<◌, ◌+◌, ◌↔◌, [], ◌∷◌, ◌++◌, List, ℕ, Option, Some, None, IfOk, IfSome, IsSome, is_some, map};
ghost use Rattle.std.specs.Option.{option_copied};
ghost use Rattle.sws_link.specs.Scripts.{Script};
ghost use Rattle.sws_link.specs.Contents.{IsPrefix};
ghost use Rattle.sws_link.specs.Links.{IsInitialLink};
ghost use Rattle.sws_steps.specs.Outcome.{Outcome, UnlessMemory};
ghost use Rattle.sws_steps.specs.declared.Handler.{Handler};
ghost use Rattle.sws_steps.specs.Path.{TakesOff};
ghost use Rattle.sws_log.specs.declared.line.LogLine.{LogLine as LogLineValue};
ghost use Rattle.sws_steps.specs.Protocol.{most_input, most_output};
ghost use Rattle.sws_steps.specs.Logs.{Step, bit, IsLineOf, IsLogPrefix};
ghost use Rattle.sws_steps.specs.Talks.{TalkView, unopened_view, reported_next, reported_end, due, OpensTalk, HasNoStep, HasServed, ServesNow, path_to_come, IsDue, LinesServed, StepsServed};

use crate::{End, Next};
use std::alloc::Global;
use sws_link::{Link, Memory};
use sws_log::LogLine;

/// A connection over a link, a step at a time, which answers out of a hall
/// that it shares with others.
///
/// A talk tells contracts its hall, its link, how it stands, and which events it has run
/// since its link was given. What these events come to is said by laws: what was written
/// begins the responses to what was taken, and a link that told its answers to come gets
/// exactly its outcome, by its path.
///
/// Its answers may have lines in a log. Then each that was written whole gives its line, after the
/// step that wrote the last of it; the lines are numbered from 1, and the first of the log that
/// its protocol makes of the whole input.
pub trait Talk<L: Link>: Sized {
    /// What is lent to it, which the answers are taken from.
    type Hall: Copy + Drop;

    /// What that has, for contracts alone.
    type Contents;

    /// What a hall has.
    ghost contents_of: { Self.Hall → Self.Contents };

    /// What its hall has, which no call changes.
    ghost hall_of: { Self → Self.Contents };

    /// Its link, once it was given.
    ghost link_of: { Self → Option L };

    /// How it stands.
    ghost view_of: { Self → TalkView };

    /// It was given this link, which wasn't shut and of which nothing was taken or written, and has
    /// run these events since, of which the opening is the first.
    ghost has_run: { L → List Handler → Self → Type 0 };

    /// The rest of the path, where the link told its answers to come.
    ghost rest_of: { Self → Option (List Handler) };

    /// The responses to a list of bytes.
    ghost responses: { Self.Contents → List ℕ → List ℕ };

    /// The outcome of a scripted connection.
    ghost outcome: { Self.Contents → Script → Outcome };

    /// The path of a scripted connection.
    ghost path: { Self.Contents → Script → List Handler };

    /// The lines of a log that all answers to a list of bytes give, of the connection with this
    /// number.
    ghost log: { Self.Contents → ℕ → List ℕ → List LogLineValue };

    /// Whether the last step gave a line.
    ghost told: { Self → Bool };

    /// The steps of a scripted connection: its path, with which of them give a line.
    ghost steps: { Self.Contents → Script → List Step };

    /// How many bytes of a connection count.
    ghost input_limit: { Self.Contents → ℕ };

    /// How many bytes are written of one at most.
    ghost output_limit: { Self.Contents → ℕ };

    /// A talk that waits for its link. All room is made here that it will need; where that was
    /// refused, the answer is `Memory`.
    fn make(alloc: Global, hall: Self::Hall) -> Result<Self, Memory>
        ensures hall { IfOk result (λ talk. hall_of talk ≡ contents_of hall) }
        ensures link { IfOk result (λ talk. link_of talk ≡ None) }
        ensures view { IfOk result (λ talk. view_of talk ≡ unopened_view) };

    /// Gives the talk its link, which isn't shut and of which nothing was taken or written; hands
    /// it back where there is one already.
    fn open(&mut self, link: L) -> Result<Next, L>
        requires initial { IsInitialLink (L.tells link) }
        requires not_shut { L.is_shut link ≡ false }
        ensures opens { OpensTalk link_of view_of self.old link result self.new }
        ensures hall { hall_of self.new ≡ hall_of self.old }
        ensures told { IfOk result (λ _. told self.new ≡ false) }
        ensures runs { IfOk result (λ _. has_run link (Handler.Open ∷ []) self.new) };

    /// Does the pending step, and answers the next one: `Wait` where the link was not ready
    /// and the same step is pending. Before `open` and after the close it does nothing. An
    /// end that is known stays.
    fn step(&mut self) -> Next
        ensures told { result ≡ reported_next (view_of self.new) }
        ensures nothing { HasNoStep (view_of self.old).pending → self.new ≡ self.old }
        ensures hall { hall_of self.new ≡ hall_of self.old }
        ensures ended { (end : End) → (view_of self.old).end ≡ Some end
            → (view_of self.new).end ≡ Some end }
        ensures lines { (view_of self.new).lines
            ≡ (view_of self.old).lines + bit (told self.new) }
        ensures runs { (first : L) (trail : List Handler) (event : Handler)
            → has_run first trail self.old → due (view_of self.old) ≡ Some event
            → has_run first (trail ++ event ∷ []) self.new };

    /// The step that comes next, which is never `Wait`.
    fn pending(&self) -> Next
        ensures pending { result ≡ (view_of self.now).pending }
        ensures never { result ≢ Next.Wait }
        ensures linked { (link_of self.now ≡ None) ↔ (result ≡ Next.Open) };

    /// How it ended, once it is closed.
    fn end(&self) -> Option<End>
        ensures end { result ≡ reported_end (view_of self.now) }
        ensures closed { IsSome result ↔ ((view_of self.now).pending ≡ Next.Nothing) };

    /// How many bytes were taken, as many at most as count.
    fn read(&self) -> u64
        ensures read { result ≡ (view_of self.now).read }
        ensures few { result ≤ input_limit (hall_of self.now) };

    /// How many bytes were written.
    fn written(&self) -> u64
        ensures written { result ≡ (view_of self.now).written }
        ensures few { result ≤ output_limit (hall_of self.now) };

    /// The line of the answer that the last step wrote to its end, with this number as that of its
    /// connection; none where that step didn't end one, or such answers have no lines.
    ///
    /// The k-th line of a talk has turn k, whatever its link tells.
    fn answered(&self, conn: u16) -> Option<LogLine>
        ensures told { is_some result ≡ told self.now }
        ensures line { IfSome result (λ line.
            (line.conn ≡ conn) × (line.turn ≡ (view_of self.now).lines)) }
        ensures exact { (first : L) (trail : List Handler) → has_run first trail self.now
            → IfSome result (IsLineOf (log (hall_of self.now) conn) (L.tells first)) };

    /// The link, once it was given.
    fn link(&self) -> Option<&L>
        ensures { option_copied result ≡ link_of self.now };

    /// Gives the link up, whether the talk has ended or not.
    fn into_link(self) -> Option<L>
        ensures { result ≡ link_of self };

    /// What holds of a run, for contracts alone: it does nothing when it runs.
    ///
    /// `serves` is what has become of the link; `path`, that the events are those that come first
    /// on the path of a link that told its answers to come, unless memory ran out; `due`, that the
    /// rest of the path begins with the event that is due; `lines`, that as many lines were given
    /// as answers to the whole input were written whole; `steps`, that the events are the first
    /// steps of a link that told its answers to come, of which the last gave a line where one is
    /// told, unless memory ran out.
    fn a_run_serves()
        ensures serves { (first : L) (trail : List Handler) (talk : Self) → has_run first trail talk
            → ServesNow (HasServed L.Link (responses (hall_of talk)) (outcome (hall_of talk)) first)
            (link_of talk) (view_of talk) }
        ensures path { (first : L) (trail : List Handler) (talk : Self) → has_run first trail talk
            → UnlessMemory (view_of talk).end
            (TakesOff trail (path_to_come (path (hall_of talk)) (L.tells first)) (rest_of talk)) }
        ensures due { (first : L) (trail : List Handler) (talk : Self) → has_run first trail talk
            → IsDue (due (view_of talk)) (rest_of talk) }
        ensures lines { (first : L) (trail : List Handler) (talk : Self) (conn : ℕ)
            → has_run first trail talk
            → LinesServed (log (hall_of talk) conn) (L.tells first) (view_of talk) }
        ensures steps { (first : L) (trail : List Handler) (talk : Self)
            → has_run first trail talk
            → UnlessMemory (view_of talk).end (StepsServed (steps (hall_of talk)) (L.tells first)
            trail (told talk) (view_of talk)) };

    /// The responses to a front of some bytes are a front of the responses to them.
    ghost responses_begin: { (hall : Self.Contents) (front bytes : List ℕ) → IsPrefix front bytes
        → IsPrefix (responses hall front) (responses hall bytes) };

    /// The log of a front of some bytes is a front of their log.
    ghost log_begins: { (hall : Self.Contents) (conn : ℕ) (front bytes : List ℕ)
        → IsPrefix front bytes → IsLogPrefix (log hall conn front) (log hall conn bytes) };

    /// The handlers of the steps of a scripted connection are its path.
    ghost steps_are: { (hall : Self.Contents) (script : Script)
        → map (λ step. step.handler) (steps hall script) ≡ path hall script };

    /// Of no connection more than 4,294,967,295 bytes count.
    ghost few_input: { (hall : Self.Contents) → input_limit hall ≤ most_input };

    /// Of none 2^50 bytes are written.
    ghost few_output: { (hall : Self.Contents) → output_limit hall < most_output };

    /// A talk whose end is known isn't kept waiting.
    ghost unkept: { (talk : Self) → IsSome (view_of talk).end
        → (view_of talk).waiting ≡ false };
}
