//! What the words of a command line order.
ghost use Rattle.std.specs.Prelude.{◌≡◌};

use mely_history::Shape;
use std::alloc::AllocError;
use std::error::Error;
use std::fmt;

/// Why words give no order.
#[derive(Clone, Copy, Debug, PartialEq, Eq)]
pub enum WordFault {
    /// They are no command line.
    Usage,
    /// There was no memory.
    Memory,
}

impl fmt::Display for WordFault {
    fn fmt<W: fmt::Write>(&self, f: &mut fmt::Formatter<W>) -> fmt::Result {
        match self {
            WordFault::Usage => write!(f, "the command line is not understood"),
            WordFault::Memory => write!(f, "there was no memory"),
        }
    }
}

impl Error for WordFault {}

impl From<AllocError> for WordFault {
    ghost use Rattle.sws_words.specs.declared.order.WordFault.{WordFault};

    ghost from_gives = { λ _ fault. fault ≡ WordFault.Memory };

    fn from(_: AllocError) -> WordFault {
        WordFault::Memory
    }
}

/// What a command line orders.
#[derive(Debug, Drop)]
pub enum Order {
    /// The responses to one connection's input.
    Answer {
        /// The folder of the site.
        folder: String,
        /// When its files were last modified, in seconds after the beginning of 1970, up to
        /// the end of the year 9999.
        date: Option<u64>,
    },
    /// A script, run in memory.
    Replay {
        folder: String,
        shape: Shape,
        date: Option<u64>,
        /// Whether the run's histories are written too.
        journal: bool,
        /// Whether a schedule stands before the script.
        schedule: bool,
        /// Whether the access log is kept and written too.
        log: bool,
    },
    /// Connections from outside.
    Serve {
        folder: String,
        /// The port of the listener, 1 to 65,535.
        port: u16,
        /// How many connections are served, 1 to 1,024.
        connections: u16,
        shape: Shape,
        date: Option<u64>,
        /// Whether the access log is kept and written too.
        log: bool,
    },
    /// A generated site and script.
    Bench {
        /// How many connections the script has, 1 to 1,024.
        connections: u16,
        /// What site and script are generated from.
        number: u32,
        shape: Shape,
    },
    /// A printed journal, checked.
    Check {
        /// How many connections its run had, 0 to 1,024.
        connections: u16,
        shape: Shape,
        /// Whether its run kept the access log, and so had one colour more.
        log: bool,
    },
    /// Gopher: a script, run in memory, or connections from outside.
    Gopher {
        folder: String,
        /// The name of the host that menus give, 1 to 255 letters, digits, full stops and minus
        /// signs, of which the first is none of these signs.
        host: String,
        /// The port that menus give, 1 to 65,535, at which connections from outside come in.
        port: u16,
        /// How many connections from outside are served, 1 to 1,024; without it a script is run.
        connections: Option<u16>,
        shape: Shape,
        /// Whether the run's histories are written too, which is asked of a script alone.
        journal: bool,
    },
}
