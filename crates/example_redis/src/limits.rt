//! How much of anything there may be.

/// How many cells the keys are spread over.
pub const CELLS: u16 = 64;

/// How many words a request has at most, its name among them.
pub const MOST_WORDS: u32 = 1024;

/// How many bytes a word has at most, and so a value that is set.
pub const MOST_VALUE: u32 = 65_536;

/// How many bytes a key has at most.
pub const MOST_KEY: usize = 1024;

/// How many bytes an inline command has at most, without its line feed.
pub const MOST_LINE: u32 = 65_536;

/// How many bytes a request has at most in all.
pub const LONGEST: usize = 262_144;

/// How many bytes of a command that is unknown are said again at most, and of its words.
pub const MOST_SHOWN: usize = 128;

/// How many connections are taken at most.
pub const MOST_CLIENTS: u16 = 1024;
