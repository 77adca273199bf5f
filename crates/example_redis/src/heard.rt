//! The words of a request.
ghost use Rattle.std.specs.Prelude.{◌≡◌, IfOk, OnOk};
ghost use Rattle.example_redis.specs.Frames.{heard_of, no_words, with_word, words_after};
ghost use Rattle.example_redis.specs.Hearing.{said_by};

use crate::frame::{Fault, Next, Place, Role, next_at, role_at};
use mely_event::Memory;
use std::alloc::Global;
use std::marker::Model;
use std::mem;

/// The words of a request that are whole, and the one that is read.
#[derive(Drop)]
struct Words {
    whole: Vec<Vec<u8>>,
    word: Vec<u8>,
}

impl Model for Words {
    ghost use Rattle.std.specs.Prelude.{map};
    ghost use Rattle.example_redis.specs.Frames.{Words};

    ghost Value = { Words };

    ghost view = { λ words. record {
      whole = map (λ word. word.items) words.whole.items;
      word = words.word.items;
    } };
}

impl Words {
    /// There are none.
    fn new(alloc: Global) -> Words
        ensures { result ≡ no_words }
    {
        Words {
            whole: Vec::new(alloc),
            word: Vec::new(alloc),
        }
    }

    /// The word that is read is whole.
    fn end_word(&mut self, alloc: Global) -> Result<(), Memory>
        ensures { OnOk result (self.new ≡ with_word self.old) }
    {
        let word = mem::replace(&mut self.word, Vec::new(alloc));
        self.whole.push(word)?;
        Ok(())
    }

    /// A further byte is this to them.
    fn add(&mut self, alloc: Global, role: Role, byte: u8) -> Result<(), Memory>
        ensures { OnOk result (self.new ≡ words_after role byte self.old) }
    {
        match role {
            Role::Between => Ok(()),
            Role::Inside => {
                self.word.push(byte)?;
                Ok(())
            }
            Role::Behind => self.end_word(alloc),
            Role::Space => {
                if self.word.is_empty() {
                    Ok(())
                } else {
                    self.end_word(alloc)
                }
            }
        }
    }
}

/// What a frame says.
#[derive(Drop)]
pub enum Heard {
    /// A request of these words.
    Words(Vec<Vec<u8>>),

    /// It is none.
    Fault(Fault),

    /// It has no end.
    Nothing,
}

/// What a frame says.
///
/// # Errors
///
/// There was no memory.
pub fn hear(alloc: Global, frame: &[u8]) -> Result<Heard, Memory>
    ensures { IfOk result (λ heard. said_by heard ≡ heard_of frame.now) }
{
    let mut words = Words::new(alloc);
    let mut place = Place::Start;
    for byte in frame {
        words.add(alloc, role_at(place, *byte), *byte)?;
        match next_at(place, *byte) {
            Next::Goes(further) => place = further,
            Next::Whole => return Ok(Heard::Words(words.whole)),
            Next::Wrong(fault) => return Ok(Heard::Fault(fault)),
        }
    }
    Ok(Heard::Nothing)
}
