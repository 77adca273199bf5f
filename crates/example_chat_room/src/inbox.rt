//! What has come from a client.
ghost use Rattle.std.specs.Prelude.{◌≡◌, ◌<◌, ◌≤◌, ◌+◌, ◌++◌, ◌∷◌, [], Contains, OnOk, IfErr, IfNone, IfOk, IfSome, MatchOption, drop, length, take};
ghost use Rattle.example_chat_room.specs.declared.end.End.TheVariants as ends;
ghost use Rattle.example_chat_room.specs.LineFaults.{IsLineFault};
ghost use Rattle.example_chat_room.specs.Shown.{FitsLine};

use crate::end::End;
use crate::line::LONGEST;
use std::alloc::Global;
use std::mem;

/// Where the first line ends.
fn line_end(bytes: &[u8]) -> Option<usize>
    ensures none { IfNone result (Contains bytes.now 10 → ⊥) }
    ensures within { IfSome result (λ at. at < length bytes.now) }
    ensures parts { IfSome result (λ at. bytes.now
        ≡ take at bytes.now ++ 10 ∷ drop (at + 1) bytes.now) }
    ensures first { IfSome result (λ at. Contains (take at bytes.now) 10 → ⊥) }
{
    bytes.iter().position(|byte| *byte == b'\n')
}

/// What has come from a client and belongs to no line that it has said.
#[derive(Drop)]
pub(crate) struct Inbox {
    alloc: Global,
    bytes: Vec<u8>,
}

impl Inbox {
    /// Nothing has come. It takes no memory.
    pub(crate) fn new(alloc: Global) -> Inbox
        ensures { result.bytes.items ≡ [] }
    {
        Inbox {
            alloc,
            bytes: Vec::new(alloc),
        }
    }

    /// These bytes have come.
    ///
    /// # Errors
    ///
    /// `Memory` where there was none.
    pub(crate) fn add(&mut self, piece: &[u8]) -> Result<(), End>
        ensures added { OnOk result (self.new.bytes.items ≡ self.old.bytes.items ++ piece.now) }
        ensures fault { IfErr result (λ end. end ≡ ends.Memory) }
    {
        self.bytes.extend_from_slice(piece)?;
        Ok(())
    }

    /// Takes the first line, if one is there as a whole, without its end. Where none is, what has
    /// come fits a line.
    ///
    /// # Errors
    ///
    /// `LongLine` where the first line has too many bytes, whole or not, and `Memory` where there
    /// was none.
    pub(crate) fn take_line(&mut self) -> Result<Option<Vec<u8>>, End>
        ensures taken { IfOk result (λ taken. MatchOption taken
            (self.new.bytes.items ≡ self.old.bytes.items)
            (λ line. self.old.bytes.items ≡ line.items ++ 10 ∷ self.new.bytes.items)) }
        ensures line { IfOk result (λ taken. MatchOption taken (FitsLine self.old.bytes.items)
            (λ line. FitsLine line.items)) }
        ensures fault { IfErr result (λ end. IsLineFault end self.old.bytes.items) }
    {
        let Some(at) = line_end(&self.bytes) else {
            if self.bytes.len() > LONGEST {
                return Err(End::LongLine);
            }
            return Ok(None);
        };
        if at > LONGEST {
            return Err(End::LongLine);
        }
        let mut rest = Vec::new(self.alloc);
        rest.extend_from_slice(&self.bytes[at + 1..])?;
        let mut line = mem::replace(&mut self.bytes, rest);
        line.truncate(at);
        Ok(Some(line))
    }
}
