//! What a cell is asked.

use crate::life::Term;

/// On what a value is set.
#[derive(Clone, Copy)]
pub enum When {
    Always,

    /// Only where the key has none.
    Absent,

    /// Only where it has one.
    Present,
}

/// What is replied where a value is to be set.
#[derive(Clone, Copy)]
pub enum Tells {
    /// That it was; or nothing.
    Done,

    /// The value before.
    Before,

    /// How many were.
    Count,
}

/// How a value is set.
#[derive(Clone, Copy)]
pub struct How {
    pub when: When,
    pub tells: Tells,

    /// How long it is there.
    pub term: Term,
}

/// A value is set as one is without options.
pub const PLAIN: How = How {
    when: When::Always,
    tells: Tells::Done,
    term: Term::Ever,
};

/// What is asked of the value of a key.
#[derive(Clone, Copy)]
pub enum Question {
    /// Which it is.
    Value,

    /// Whether there is one.
    IsThere,

    /// How many bytes it has.
    Length,

    /// For how many seconds it is still there.
    Seconds,

    /// For how many milliseconds.
    Millis,
}

/// What becomes of the value of a key.
#[derive(Drop)]
pub enum Change {
    /// It is this one.
    Set(Vec<u8>, How),

    /// There is none.
    Delete,

    /// So much is added to the number that it is.
    Add(i64),

    /// These bytes come behind it.
    Append(Vec<u8>),

    /// It is there for so long.
    Expire(Term),

    /// It doesn't go any more.
    Persist,
}

/// What is done with the value of a key.
#[derive(Drop)]
pub enum Action {
    Look(Question),
    Make(Change),
}

/// What is done with all keys of a cell.
#[derive(Clone, Copy)]
pub enum Sweep {
    /// It is said how many there are.
    Count,

    /// There is none then.
    Clear,
}

/// What a cell is asked.
#[derive(Drop)]
pub enum Request {
    /// Something is done with the value of a key.
    Of(Vec<u8>, Action),

    /// Something is done with all its keys.
    All(Sweep),

    /// Its keys are listed that this pattern matches.
    List(Vec<u8>),
}

/// What a cell is asked, and when that was.
#[derive(Drop)]
pub struct Timed {
    /// In milliseconds since 1970.
    pub now: u64,
    pub request: Request,
}
