//! The words of the program.
ghost use Rattle.std.specs.Prelude.{◌≤◌, IfSome};

use example_chat_room::{MOST_CLIENTS, MOST_WORKERS};
use std::env;

/// What the words say.
#[derive(Clone, Copy)]
pub struct Words {
    pub port: u16,

    /// How many connections are taken in all.
    pub clients: u16,
    pub workers: u16,
}

/// The number that a word says in decimal digits, from `least` to `most`.
fn number(word: &str, least: u16, most: u16) -> Option<u16>
    ensures least { IfSome result (λ n. least ≤ n) }
    ensures most { IfSome result (λ n. n ≤ most) }
{
    let number = word.parse::<u16>().ok()?;
    if number < least || number > most {
        return None;
    }
    Some(number)
}

/// What the program's words say; nothing where they say something else.
pub fn read_words(rt: &HostRuntime) -> Option<Words>
    ensures clients { IfSome result (λ words. words.clients ≤ 1024) }
    ensures some { IfSome result (λ words. 1 ≤ words.workers) }
    ensures workers { IfSome result (λ words. words.workers ≤ 64) }
{
    let mut words = env::args(rt).ok()?.skip(1);
    let port = number(words.next()?.as_str(), 0, 65_535)?;
    let clients = number(words.next()?.as_str(), 1, MOST_CLIENTS)?;
    let workers = match words.next() {
        Some(word) => number(word.as_str(), 1, MOST_WORKERS)?,
        None => 2,
    };
    if words.next().is_some() {
        return None;
    }
    Some(Words {
        port,
        clients,
        workers,
    })
}
