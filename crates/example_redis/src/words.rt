//! The words of the program.
ghost use Rattle.std.specs.Prelude.{◌≤◌, IfSome};
ghost use Rattle.example_redis.specs.Words.{IsAllowed, IsInRange};

use crate::limits::MOST_CLIENTS;
use mely_net::MOST_WORKERS;
use std::env::{self, Args};
use std::iter::Skip;

/// A port to listen at.
#[derive(Drop)]
pub struct Listening {
    pub port: u16,

    /// How many connections are taken in all.
    pub clients: u16,
    pub workers: u16,

    /// Where the store is kept, if it is.
    pub file: Option<String>,

    /// The file that has the store stop once it is there, if one may.
    pub stop: Option<String>,
}

/// What the words say.
#[derive(Drop)]
pub enum Words {
    /// To listen.
    Port(Listening),

    /// To take standard input for a client.
    Input,

    /// Something else.
    Wrong,
}

/// The number that a word says in decimal digits, from `least` to `most`.
fn number(word: &str, least: u16, most: u16) -> Option<u16>
    ensures least { IfSome result (λ n. least ≤ n) }
    ensures most { IfSome result (λ n. n ≤ most) }
{
    let number = word.parse::<u16>().ok()?;
    if number < least || number > most {
        return None;
    }
    Some(number)
}

/// What the options say.
#[derive(Drop)]
struct Paths {
    file: Option<String>,
    stop: Option<String>,
}

/// How many options there are at most.
const OPTIONS: u8 = 2;

/// What the options say, each of which stands once at most. The first word was taken already.
fn read_paths(mut words: Skip<Args>, first: Option<String>) -> Option<Paths> {
    let mut paths = Paths {
        file: None,
        stop: None,
    };
    let mut word = first;
    for _ in 0..OPTIONS {
        let Some(option) = word else {
            return Some(paths);
        };
        let path = words.next()?;
        if option.as_str() == "--file" && paths.file.is_none() {
            paths.file = Some(path);
        } else if option.as_str() == "--stop-file" && paths.stop.is_none() {
            paths.stop = Some(path);
        } else {
            return None;
        }
        word = words.next();
    }
    if word.is_some() { None } else { Some(paths) }
}

/// What the words say of a port.
fn read_port(rt: &HostRuntime) -> Option<Listening>
    ensures { IfSome result IsInRange }
{
    let mut words = env::args(rt).ok()?.skip(1);
    let port = number(words.next()?.as_str(), 0, 65_535)?;
    let clients = number(words.next()?.as_str(), 1, MOST_CLIENTS)?;
    let mut workers = 2;
    let mut word = words.next();
    if let Some(text) = &word {
        if !text.as_str().starts_with("--") {
            workers = number(text.as_str(), 1, MOST_WORKERS)?;
            word = words.next();
        }
    }
    let Paths { file, stop } = read_paths(words, word)?;
    Some(Listening {
        port,
        clients,
        workers,
        file,
        stop,
    })
}

/// Whether there are any words.
fn are_any(rt: &HostRuntime) -> bool {
    match env::args(rt) {
        Ok(words) => words.skip(1).next().is_some(),
        Err(_) => true,
    }
}

/// What the program's words say.
pub fn read_words(rt: &HostRuntime) -> Words
    ensures { IsAllowed result }
{
    if !are_any(rt) {
        return Words::Input;
    }
    match read_port(rt) {
        Some(listening) => Words::Port(listening),
        None => Words::Wrong,
    }
}
