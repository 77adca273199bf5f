//! How long the value of a key is there.
ghost use Rattle.std.specs.Prelude.{◌≡◌};
ghost use Rattle.example_redis.specs.Lives.{is_over, length_of, scale_of, term_of, until_of};

use crate::verb::Verb;

/// The bytes of a value, and the moment from which on it isn't there any more, if it is to go: in
/// milliseconds since 1970.
#[derive(Drop)]
pub struct Kept {
    pub bytes: Vec<u8>,
    pub until: Option<u64>,
}

/// What a number says that a command has for a time.
#[derive(Clone, Copy)]
pub enum Clock {
    /// So many seconds from now on.
    Seconds,

    /// So many milliseconds from now on.
    Millis,

    /// So many seconds after 1970 began.
    UnixSeconds,

    /// So many milliseconds after that.
    UnixMillis,
}

/// How long a value is to be there.
#[derive(Clone, Copy)]
pub enum Term {
    /// It doesn't go.
    Ever,

    /// As long as the value before.
    Same,

    /// So many milliseconds from now on. The command that says so is for the words of a refusal.
    For(u64, Verb),

    /// Until this moment.
    Until(u64),
}

/// A time in milliseconds.
#[derive(Clone, Copy)]
pub enum Length {
    /// So many, and one at least.
    Lasts(u64),

    /// Nothing that is still to come.
    Over,

    /// More than there may be.
    Wide,
}

/// More milliseconds than there may be.
const TOO_MANY: u64 = 1 << 63;

impl Clock {
    /// How many milliseconds one of it has.
    fn scale(self) -> u64
        ensures { result ≡ scale_of self }
    {
        match self {
            Clock::Seconds | Clock::UnixSeconds => 1000,
            Clock::Millis | Clock::UnixMillis => 1,
        }
    }

    /// What a number of it is in milliseconds.
    pub fn length(self, number: i64) -> Length
        ensures { result ≡ length_of self number }
    {
        let Some(millis) = number.unsigned_abs().checked_mul(self.scale()) else {
            return Length::Wide;
        };
        if millis > TOO_MANY {
            Length::Wide
        } else if number > 0 {
            Length::Lasts(millis)
        } else {
            Length::Over
        }
    }

    /// How long a value is there that a command gives so many milliseconds.
    pub fn term(self, millis: u64, verb: Verb) -> Term
        ensures { result ≡ term_of verb self millis }
    {
        match self {
            Clock::Seconds | Clock::Millis => Term::For(millis, verb),
            Clock::UnixSeconds | Clock::UnixMillis => Term::Until(millis),
        }
    }
}

impl Term {
    /// The moment from which on a value isn't there, if there is one, where the value before had
    /// this one.
    ///
    /// # Errors
    ///
    /// It would be later than there are moments: the command that said so.
    pub fn until(self, now: u64, before: Option<u64>) -> Result<Option<u64>, Verb>
        ensures { result ≡ until_of now before self }
    {
        match self {
            Term::Ever => Ok(None),
            Term::Same => Ok(before),
            Term::Until(moment) => Ok(Some(moment)),
            Term::For(millis, verb) => match now.checked_add(millis) {
                Some(moment) if moment < TOO_MANY => Ok(Some(moment)),
                _ => Err(verb),
            },
        }
    }
}

/// Whether a value that goes at this moment, if at any, isn't there any more.
pub fn is_past(now: u64, until: Option<u64>) -> bool
    ensures { result ≡ is_over now until }
{
    match until {
        Some(until) => until <= now,
        None => false,
    }
}
