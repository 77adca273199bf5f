//! A diary that several passes write into, in turn and from threads.
ghost use Rattle.std.specs.Prelude.{◌≡◌, ◌<◌, ◌++◌, ◌∷◌, [], List, length, All, OnOk, OnErr};
ghost use Rattle.mely_lock.specs.Seen.{OthersSince};
ghost use Rattle.mely_lock.specs.Words.{front, IsPassOf, IsOutside};

use mely_event::{Kept, Memory};
use mely_lock::{Held, Pass, Ticketed};
use std::alloc::Global;
use std::sync::Wait;
use std::thread;
use std::thread::Threads;

/// A line, with the pass that wrote it and how many that pass had written before.
#[derive(Drop)]
struct Line {
    pass: u16,
    turn: u64,
}

/// Lines, and a colour of ink that stays.
#[derive(Drop)]
struct Diary {
    lines: Vec<Line>,
    ink: u8,
}

impl Kept for Diary {
    type Note = Line;

    type Frame = u8;

    ghost history_of = { λ d. d.lines.items };

    ghost pass_of = { λ l. l.pass };

    ghost frame_of = { λ d. d.ink };

    fn notes(&self) -> u64 {
        self.lines.len() as u64
    }
}

impl Diary {
    fn new(alloc: Global, ink: u8) -> Diary
        ensures { (result.lines.items ≡ []) × (result.ink ≡ ink) }
    {
        Diary {
            lines: Vec::new(alloc),
            ink,
        }
    }

    fn add(&mut self, pass: u16, turn: u64) -> Result<(), Memory>
        ensures ink { self.new.ink ≡ self.old.ink }
        ensures ok { OnOk result (self.new.lines.items
            ≡ self.old.lines.items ++ record { pass = pass; turn = turn } ∷ []) }
        ensures err { OnErr result (self.new.lines.items ≡ self.old.lines.items) }
    {
        self.lines.push(Line { pass, turn })?;
        Ok(())
    }
}

/// Goes in, adds a line and goes out: the line is the next one after the point of the call.
fn write<R: Wait>(
    rt: &R,
    lock: &Ticketed<Diary>,
    pass: &mut Pass<Diary>,
    turn: u64,
) -> Result<(), Memory>
    requires { IsPassOf ⟦<Diary as Kept>⟧.frame_of lock.now pass.old × IsOutside pass.old }
    ensures pass { IsPassOf ⟦<Diary as Kept>⟧.frame_of lock.now pass.new × IsOutside pass.new
        × (pass.new.number ≡ pass.old.number) }
    ensures ok { OnOk result ((point : List Line)
        × OthersSince ⟦<Diary as Kept>⟧.pass_of pass.old.number (front pass.old) point
        × (front pass.new ≡ point ++ record { pass = pass.old.number; turn = turn } ∷ [])) }
    ensures err { OnErr result (OthersSince ⟦<Diary as Kept>⟧.pass_of pass.old.number
        (front pass.old) (front pass.new)) }
{
    let mut held = lock.enter(rt, pass);
    let number = pass.number();
    let wrote = held.value().add(number, turn);
    held.leave(pass);
    wrote
}

/// Goes in, looks how many lines there are and goes out.
fn look<R: Wait>(rt: &R, lock: &Ticketed<Diary>, pass: &mut Pass<Diary>) -> u64
    requires { IsPassOf ⟦<Diary as Kept>⟧.frame_of lock.now pass.old × IsOutside pass.old }
    ensures pass { IsPassOf ⟦<Diary as Kept>⟧.frame_of lock.now pass.new × IsOutside pass.new
        × (pass.new.number ≡ pass.old.number) }
    ensures all { result ≡ length (front pass.new) }
{
    let mut held = lock.enter(rt, pass);
    let found = held.value().notes();
    held.leave(pass);
    found
}

/// Whether a pass finds the line that another has written, and the diary has it in the end.
fn is_found<R: Wait>(rt: &R, alloc: Global) -> Result<bool, Memory> {
    let (lock, mut passes) = Ticketed::new(alloc, Diary::new(alloc, 3), 2)?;
    let is_written = write(rt, &lock, &mut passes[0], 0).is_ok();
    let is_own = passes[0].seen() == 1 && passes[1].seen() == 0;
    let is_found = look(rt, &lock, &mut passes[1]) == 1;
    let is_seen = passes[1].seen() == 1;
    let diary = lock.close(passes);
    Ok(is_written && is_own && is_found && is_seen && diary.lines.len() == 1 && diary.ink == 3)
}

/// Whether two passes are numbered, and have seen nothing at first.
fn are_numbered(alloc: Global) -> Result<bool, Memory> {
    let (lock, passes) = Ticketed::new(alloc, Diary::new(alloc, 3), 2)?;
    let is_first = passes[0].number() == 0 && passes[0].seen() == 0;
    let is_second = passes[1].number() == 1 && passes[1].seen() == 0;
    let are_two = passes.len() == 2;
    lock.close(passes);
    Ok(is_first && is_second && are_two)
}

#[test]
fn a_pass_finds_what_another_has_noted(rt: HostRuntime) {
    assert!(rt; are_numbered(rt.alloc()) == Ok(true));
    assert!(rt; is_found(&rt, rt.alloc()) == Ok(true));
}

/// Writes as many lines, one after another.
fn write_many<R: Wait>(rt: &R, lock: &Ticketed<Diary>, pass: &mut Pass<Diary>, count: u64)
    requires { IsPassOf ⟦<Diary as Kept>⟧.frame_of lock.now pass.old × IsOutside pass.old }
    ensures { IsPassOf ⟦<Diary as Kept>⟧.frame_of lock.now pass.new × IsOutside pass.new
        × (pass.new.number ≡ pass.old.number) }
{
    for turn in 0..count {
        let _ = write(rt, lock, pass, turn);
    }
}

/// Each pass writes as many lines, from a thread of its own.
fn write_from_threads<R: Threads + Wait + Sync>(
    rt: &R,
    lock: &Ticketed<Diary>,
    passes: &mut [Pass<Diary>],
    threads: usize,
    count: u64,
)
    requires threads { 0 < threads }
    requires passes { All (λ p. IsPassOf ⟦<Diary as Kept>⟧.frame_of lock.now p
        × IsOutside p) passes.old }
    ensures passes { All (λ p. IsPassOf ⟦<Diary as Kept>⟧.frame_of lock.now p
        × IsOutside p) passes.new }
    ensures many { length passes.new ≡ length passes.old }
{
    thread::for_each_mut(
        rt,
        passes,
        threads,
        &|_, pass: &mut Pass<Diary>|
            requires { IsPassOf (λ (d : Diary). d.ink) lock.now pass.now × IsOutside pass.now }
            ensures { IsPassOf (λ (d : Diary). d.ink) lock.entry.now pass.exit.now
                × IsOutside pass.exit.now }
        { write_many(rt, lock, pass, count) },
    );
}

/// Whether the diary has so many lines of a pass, in the order in which it wrote them.
fn has_in_order(diary: &Diary, pass: u16, count: u64) -> bool {
    let mut next = 0u64;
    for line in &diary.lines {
        if line.pass == pass {
            if line.turn != next {
                return false;
            }
            next = next.wrapping_add(1);
        }
    }
    next == count
}

/// Whether the diary has so many lines of each of so many passes.
fn has_each_in_order(diary: &Diary, passes: u16, count: u64) -> bool {
    for pass in 0..passes {
        if !has_in_order(diary, pass, count) {
            return false;
        }
    }
    true
}

/// Whether so many lines of each of so many threads stand in one history, and are so many in all.
fn stand_in_one<R: Threads + Wait + Sync>(
    rt: &R,
    alloc: Global,
    threads: u16,
    count: u64,
    lines: usize,
) -> Result<bool, Memory>
    requires { 0 < threads }
{
    let (lock, mut passes) = Ticketed::new(alloc, Diary::new(alloc, 3), threads)?;
    write_from_threads(rt, &lock, &mut passes, usize::from(threads), count);
    let diary = lock.close(passes);
    Ok(diary.lines.len() == lines && has_each_in_order(&diary, threads, count))
}

#[test]
fn lines_of_threads_stand_in_one_history(rt: HostRuntime) {
    assert!(rt; stand_in_one(&rt, rt.alloc(), 2, 50, 100) == Ok(true));
    assert!(rt;
        stand_in_one(&rt, rt.alloc(), 8, 10_000, 80_000) == Ok(true),
        "eight threads"
    );
}

fn may_cross<T: Send>(_value: &T) {}

fn may_be_shared<T: Send + Sync>(_value: &T) {}

/// What crosses threads wherever the value may.
fn crosses<V: Kept + Send>(lock: &Ticketed<V>, pass: &Pass<V>, held: &Held<V>) {
    may_be_shared(lock);
    may_cross(pass);
    may_cross(held);
}
