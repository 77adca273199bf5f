//! What is done on the colour of the access log: a line is kept.
ghost use Rattle.std.specs.Prelude.{◌≡◌, ◌++◌, ◌∷◌, [], true, length};
ghost use Rattle.sws_handlers.specs.Handling.{line_in};
ghost use Rattle.sws_handlers.specs.KeptLines.{no_lines};

use crate::load::Load;
use mely_log::Log;
use std::alloc::Global;
use std::marker::Model;
use sws_log::LogLine;

/// The lines of the access log at the colour that keeps it.
///
/// Contracts see all that came, those that are kept, and whether one was lost since there was no
/// memory for it. Behind one that was lost none is kept: so the kept ones are the first of those
/// that came, and where none was lost they are all of them.
#[derive(Drop)]
pub struct KeptLines {
    came: Log<LogLine>,
    kept: Vec<LogLine>,
    lost: bool,
}

impl Model for KeptLines {
    ghost use Rattle.sws_handlers.specs.KeptLines.{KeptLinesState, AreKept};

    ghost Value = { KeptLinesState };

    ghost view = { λ lines. record {
      came = lines.came.items;
      kept = lines.kept.items;
      lost = lines.lost;
    } };

    ghost invariant = { λ lines. AreKept (record {
      came = lines.came.items;
      kept = lines.kept.items;
      lost = lines.lost;
    }) };
}

impl KeptLines {
    /// No line yet. It takes no memory.
    pub(crate) fn new(alloc: Global) -> KeptLines
        ensures { result ≡ no_lines }
    {
        KeptLines {
            came: Log::new(),
            kept: Vec::new(alloc),
            lost: false,
        }
    }

    /// Keeps a line behind the others, unless one was lost. Where there is no memory for it, it is
    /// lost.
    fn push(&mut self, line: LogLine)
        ensures came { self.new.came ≡ self.old.came ++ line ∷ [] }
        ensures lost { self.old.lost ≡ true → (self.new.lost ≡ true)
            × (self.new.kept ≡ self.old.kept) }
    {
        self.came.push(&line);
        if !self.lost && self.kept.push(line).is_err() {
            self.lost = true;
        }
    }

    /// The lines that are kept, and whether one was lost.
    pub(crate) fn into_kept(self) -> (Vec<LogLine>, bool)
        ensures kept { result.0.items ≡ self.kept }
        ensures lost { result.1 ≡ self.lost }
    {
        let KeptLines {
            came: _,
            kept,
            lost,
        } = self;
        (kept, lost)
    }
}

/// Keeps the line that an event carries behind the others.
pub(crate) fn run_logging<W: Drop, L: Drop>(lines: &mut KeptLines, load: Option<Load<W, L>>)
    requires line { length (line_in load) ≡ 1 }
    ensures came { lines.new.came ≡ lines.old.came ++ line_in load }
{
    match &load {
        Some(Load::Line(line)) => lines.push(*line),
        Some(Load::World(_)) => unreachable!(),
        Some(Load::Link(_)) => unreachable!(),
        None => unreachable!(),
    }
}
