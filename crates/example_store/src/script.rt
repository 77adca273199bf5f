//! The script of the clients.
ghost use Rattle.std.specs.Prelude.{◌≡◌, ◌<◌, ◌+◌, IfOk, IfSome, length};
ghost use Rattle.std.specs.List.{AllByRecursion};
ghost use Rattle.mely_actor.specs.Sending.{MaySend};
ghost use Rattle.example_store.specs.declared.store.TheConstants.{BUCKETS, CLIENTS};
ghost use Rattle.example_store.specs.Stores.{IsPlaced, event_of};

use crate::message::Message;
use crate::store::{BUCKETS, CLIENTS};
use mely_event::{Colour, Memory};
use std::alloc::Global;

/// The message of a line, and the bucket that it is for; `None` where it is no line of a script.
///
/// # Errors
///
/// There was no memory.
fn read_line(alloc: Global, line: &str) -> Result<Option<(Colour, Message)>, Memory>
    ensures { IfOk result (λ read. IfSome read
        (MaySend (BUCKETS + CLIENTS) 4 event_of IsPlaced)) }
{
    let mut words = line.split_ascii_whitespace();
    let (Some(client), Some(verb), Some(key)) = (words.next(), words.next(), words.next()) else {
        return Ok(None);
    };
    let (Ok(client), Ok(key)) = (client.parse::<u16>(), key.parse::<u64>()) else {
        return Ok(None);
    };
    if client >= CLIENTS {
        return Ok(None);
    }
    let bucket = Colour((key % (BUCKETS as u64)) as u16);
    match (verb, words.next()) {
        ("put", Some(value)) => {
            let value = String::from_str(alloc, value)?;
            Ok(Some((bucket, Message::Put(key, value))))
        }
        ("get", None) => Ok(Some((bucket, Message::Get(key, client)))),
        _ => Ok(None),
    }
}

/// The messages of a script, in the order of its lines; `None` where it is no text, a line is wrong
/// or there are more than 65,535.
///
/// # Errors
///
/// There was no memory.
pub fn read_script(alloc: Global, bytes: &[u8]) -> Result<Option<Vec<(Colour, Message)>>, Memory>
    ensures few { IfOk result (λ read. IfSome read (λ posts. length posts.items < 65536)) }
    ensures may { IfOk result (λ read. IfSome read (λ posts.
        AllByRecursion (MaySend (BUCKETS + CLIENTS) 4 event_of IsPlaced) posts.items)) }
{
    let Ok(text) = str::from_utf8(bytes) else {
        return Ok(None);
    };
    let mut posts = Vec::new(alloc);
    'lines: for line in text.lines() {
        let Some(post) = read_line(alloc, line)? else {
            return Ok(None);
        };
        if posts.len() == 65535 {
            return Ok(None);
        }
        posts.push(post)?;
    }
    Ok(Some(posts))
}
