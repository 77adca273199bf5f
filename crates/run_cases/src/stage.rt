//! The cases, line by line.
use crate::cause::{CaseFault, Cause};
use crate::given::{Given, NO_CALL};
use crate::running::run_line;
use crate::told::Told;
use crate::verbs::{Verb, first_word, is_bare, verb_of};
use std::alloc::Global;
use std::sync::Wait;
use std::thread::Threads;

/// What the lines have given, and what the last run has left.
#[derive(Drop)]
struct Stage {
    given: Given,
    told: Told,
}

/// Plays the lines of a text, and adds what they show.
pub fn play<T: AllocGlobal + Threads + Wait + Sync>(
    rt: &T,
    text: &[u8],
    shown: &mut Vec<u8>,
) -> Result<(), CaseFault> {
    let mut stage = Stage::new(rt.alloc());
    stage.play_text(rt, text, shown)
}

impl Stage {
    fn new(alloc: Global) -> Stage {
        Stage {
            given: Given::new(alloc),
            told: Told::new(alloc),
        }
    }

    /// Plays the lines of a text.
    fn play_text<T: AllocGlobal + Threads + Wait + Sync>(
        &mut self,
        rt: &T,
        text: &[u8],
        shown: &mut Vec<u8>,
    ) -> Result<(), CaseFault> {
        let mut number = 0u64;
        for line in text.split(|byte| *byte == b'\n') {
            number = number.saturating_add(1);
            if let Err(cause) = self.play_line(rt, line, shown) {
                return Err(CaseFault {
                    line: number,
                    cause,
                });
            }
        }
        if self.given.is_text {
            return Err(CaseFault {
                line: number,
                cause: Cause::NoEnd,
            });
        }
        Ok(())
    }

    /// Plays a line, which may be one of an input.
    fn play_line<T: AllocGlobal + Threads + Wait + Sync>(
        &mut self,
        rt: &T,
        line: &[u8],
        shown: &mut Vec<u8>,
    ) -> Result<(), Cause> {
        if self.given.is_text {
            return self.given.take_line(line);
        }
        let (word, rest) = first_word(line);
        match verb_of(word) {
            Some(verb) if is_bare(verb) && !rest.is_empty() => Err(Cause::TooMuch),
            Some(Verb::Gives(gift)) => self.given.change(rt.alloc(), gift, rest),
            Some(Verb::Sws) => {
                self.run(rt, line, rest, shown)?;
                self.told.show_end(rt.alloc(), shown)
            }
            Some(Verb::Ends) => {
                self.run(rt, line, rest, shown)?;
                self.told.show_status(shown)
            }
            Some(Verb::Journal) => self.take_journal(),
            Some(Verb::Shows(view)) => self.told.show(rt.alloc(), view, rest, shown),
            None if line.is_empty() || line.starts_with(b"#") => Ok(()),
            None => Err(Cause::NoVerb),
        }
    }

    /// Runs the words, in which from then on no call fails, and adds the line.
    fn run<T: AllocGlobal + Threads + Wait + Sync>(
        &mut self,
        rt: &T,
        line: &[u8],
        words: &[u8],
        shown: &mut Vec<u8>,
    ) -> Result<(), Cause> {
        run_line(rt, words, &self.given, &mut self.told)?;
        self.given.failing = NO_CALL;
        shown.extend_from_slice(line)?;
        shown.push(b'\n')?;
        Ok(())
    }

    /// Takes the journal off what the last run has written, as the input.
    fn take_journal(&mut self) -> Result<(), Cause> {
        let Some(at) = self.told.journal_place() else {
            return Err(Cause::NoJournal);
        };
        self.given.set_input(self.told.behind(at))?;
        self.told.cut(at);
        Ok(())
    }
}
