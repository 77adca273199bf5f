//! The words that say what is added to responses.
ghost use Rattle.std.specs.Prelude.{◌≤◌, length};

use crate::order::WordsFault;
use clap::{Arg, ArgAction, ArgMatches, Command};
use std::alloc::{AllocError, Global};
use sws_site::{Additions, AgeFault, HeaderFault, TypeFault};

/// How many seconds a response may be kept at most, as RFC 9111, section 1.2.2 has it: 2^31 - 1.
const LONGEST_AGE: u32 = 2_147_483_647;

/// An option with a value.
fn option<'a>(alloc: Global, name: &'a str, value: &'a str, help: &'a str) -> Arg<'a> {
    Arg::new(alloc, name)
        .long(name)
        .value_name(value)
        .help(help)
}

/// The options that say what is added to responses.
pub(crate) fn with_additions<'a>(
    alloc: Global,
    command: Command<'a>,
) -> Result<Command<'a>, AllocError> {
    let header = option(
        alloc,
        "header",
        "NAME: VALUE",
        "Send this line with each answer; may stand several times",
    )
    .action(ArgAction::Append);
    let cache = option(
        alloc,
        "cache",
        "[END=]SECONDS",
        "How long clients may keep files, or those whose names end so (Cache-Control: max-age); may stand several times",
    )
    .action(ArgAction::Append);
    let types = option(
        alloc,
        "type",
        "EXT=TYPE",
        "The media type of files with this extension; may stand several times",
    )
    .action(ArgAction::Append);
    command.arg(header)?.arg(cache)?.arg(types)
}

/// Where the first such byte stands, or how many bytes there are.
fn place_of(sought: u8, bytes: &[u8]) -> usize
    ensures { result ≤ length bytes.now }
{
    for (i, byte) in bytes.iter().enumerate() {
        if *byte == sought {
            return i;
        }
    }
    bytes.len()
}

/// What stands before and behind the first place of these bytes, of which none but the first one is
/// looked for.
fn parts_of<'w>(word: &'w str, between: &[u8]) -> Option<(&'w [u8], &'w [u8])> {
    let bytes = word.as_bytes();
    let place = place_of(*between.first()?, bytes);
    match bytes[place..].strip_prefix(between) {
        Some(behind) => Some((&bytes[..place], behind)),
        None => None,
    }
}

/// Adds the line that this word says.
fn add_header(alloc: Global, added: &mut Additions, word: &str) -> Result<(), WordsFault> {
    let Some((name, value)) = parts_of(word, b": ") else {
        return Err(WordsFault::HeaderParts(String::from_str(alloc, word)?));
    };
    match added.add_header(alloc, name, value) {
        Ok(()) => Ok(()),
        Err(HeaderFault::Memory) => Err(WordsFault::Memory),
        Err(fault) => Err(WordsFault::Header(String::from_str(alloc, word)?, fault)),
    }
}

/// Adds the media type that this word says.
fn add_type(alloc: Global, added: &mut Additions, word: &str) -> Result<(), WordsFault> {
    let Some((extension, media_type)) = parts_of(word, b"=") else {
        return Err(WordsFault::TypeParts(String::from_str(alloc, word)?));
    };
    match added.add_type(alloc, extension, media_type) {
        Ok(()) => Ok(()),
        Err(TypeFault::Memory) => Err(WordsFault::Memory),
        Err(fault) => Err(WordsFault::Type(String::from_str(alloc, word)?, fault)),
    }
}

/// The seconds that a word says, where they are no more than an age has.
fn seconds_of(word: &str) -> Option<u32> {
    match word.parse::<u32>() {
        Ok(seconds) if seconds <= LONGEST_AGE => Some(seconds),
        _ => None,
    }
}

/// Lets the files be kept for so long whose names have the end, or all others where there is none.
fn keep(
    alloc: Global,
    added: &mut Additions,
    end: Option<&str>,
    seconds: u32,
) -> Result<(), AgeFault> {
    match end {
        Some(end) => added.keep_by_end(alloc, end.as_bytes(), seconds),
        None if added.max_age.is_some() => Err(AgeFault::GivenTwice),
        None => {
            added.keep_for(seconds);
            Ok(())
        }
    }
}

/// Adds the age that this word says.
fn add_age(alloc: Global, added: &mut Additions, word: &str) -> Result<(), WordsFault> {
    let (end, seconds) = match word.rsplit_once('=') {
        Some((end, seconds)) => (Some(end), seconds),
        None => (None, word),
    };
    let Some(seconds) = seconds_of(seconds) else {
        return Err(WordsFault::AgeParts(String::from_str(alloc, word)?));
    };
    match keep(alloc, added, end, seconds) {
        Ok(()) => Ok(()),
        Err(AgeFault::Memory) => Err(WordsFault::Memory),
        Err(fault) => Err(WordsFault::Age(String::from_str(alloc, word)?, fault)),
    }
}

/// What the words add to responses.
pub(crate) fn additions_of(
    alloc: Global,
    matches: &ArgMatches<'_>,
) -> Result<Additions, WordsFault> {
    let mut added = Additions::none(alloc);
    if let Some(words) = matches.get_strs("header") {
        for word in words {
            add_header(alloc, &mut added, word)?;
        }
    }
    if let Some(words) = matches.get_strs("type") {
        for word in words {
            add_type(alloc, &mut added, word)?;
        }
    }
    if let Some(words) = matches.get_strs("cache") {
        for word in words {
            add_age(alloc, &mut added, word)?;
        }
    }
    Ok(added)
}
