//! The page of `mely_lock`.
ghost use Rattle.std.specs.Prelude.{◌≡◌, ◌++◌, ◌∷◌, [], OnOk, OnErr};

use mely_event::{Kept, Memory};
use mely_lock::Ticketed;
use std::alloc::Global;
use std::sync::Wait;
use std::test::Fail;

/// A line, with the pass that wrote it.
#[derive(Drop)]
struct Line {
    pass: u16,
    text: char,
}

#[derive(Drop)]
struct Diary {
    lines: Vec<Line>,
}

impl Kept for Diary {
    type Note = Line;

    type Frame = ();

    ghost history_of = { λ d. d.lines.items };

    ghost pass_of = { λ l. l.pass };

    ghost frame_of = { λ d. tt };

    fn notes(&self) -> u64 {
        self.lines.len() as u64
    }
}

impl Diary {
    fn add(&mut self, pass: u16, text: char) -> Result<(), Memory>
        ensures ok { OnOk result (self.new.lines.items
            ≡ self.old.lines.items ++ record { pass = pass; text = text } ∷ []) }
        ensures err { OnErr result (self.new.lines.items ≡ self.old.lines.items) }
    {
        self.lines.push(Line { pass, text })?;
        Ok(())
    }
}

/// Adds a line of one of two passes, and answers the diary that the lock gives back.
fn written<R: Wait>(rt: &R, alloc: Global, text: char) -> Result<Diary, Fail> {
    let diary = Diary {
        lines: Vec::new(alloc),
    };
    let (lock, mut passes) = Ticketed::new(alloc, diary, 2)?;
    let mut pass = passes.pop().ok_or("no pass")?;
    let wrote = lock.call(rt, &mut pass, text, |diary, text, by| diary.add(by, text));
    passes.push(pass)?;
    let diary = lock.close(passes);
    wrote?;
    Ok(diary)
}

#[test]
fn a_pass_adds_a_note(rt: HostRuntime) -> Result<(), Fail> {
    let diary = written(&rt, rt.alloc(), 'x')?;
    assert!(rt; diary.lines.len() == 1);
    assert!(rt; diary.lines[0].pass == 1);
    assert!(rt; diary.lines[0].text == 'x');
    Ok(())
}
