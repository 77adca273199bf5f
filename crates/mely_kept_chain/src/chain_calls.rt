//! One call on the chain behind a lock. What it leaves there is hinted at before the lock is left.
ghost use Rattle.std.specs.Prelude.{◌<◌, ◌+◌, ◌^◌, IfSome, length};
ghost use Rattle.mely_lock.specs.Words.{initial_value, front};
ghost use Rattle.mely_kept_chain.specs.Chains.{IsOnChain, PushesAt, PopsAt, RetellsAt, PicksAt};
ghost use Rattle.mely_kept.specs.Passing.{MayEnter, HasLeft};
ghost use Rattle.mely_kept_chain.specs.Frames.{chain_frame};

use crate::kept_chain::KeptChain;
use mely_bell::Hint;
use mely_event::{Colour, Kept, Mark, There};
use mely_lock::{Pass, Ticketed};
use std::sync::Wait;

/// Waits for ever where the history is as long as one can be counted, which no machine lives to see.
fn wait_for_room<R: Wait>(rt: &R, chain: &KeptChain)
    ensures { length chain.now.changes + 1 < 2 ^ 64 }
{
    if chain.is_full() {
        'full: for _ in rt.forever() {}
    }
}

/// Puts a mark at the back; whether thieves may take it there. Whether the chain has other marks is
/// told beside the answer.
pub fn push_at<R: Wait>(
    rt: &R,
    hint: &Hint,
    lock: &Ticketed<KeptChain>,
    pass: &mut Pass<KeptChain>,
    mark: Mark,
    is_worthy: bool,
) -> (Result<(), There>, bool)
    requires pass { MayEnter chain_frame lock.now pass.old }
    requires colour { mark.colour.0 < (initial_value lock.now).has.colours }
    ensures pass { HasLeft chain_frame lock.now pass.old pass.new }
    ensures does { IsOnChain pass.old.number (front pass.old) (front pass.new)
        (PushesAt (chain_frame (initial_value lock.now)) pass.old.number mark result.0) }
{
    lock.call(
        rt,
        pass,
        mark,
        |chain, mark, by|
            requires { mark.colour.0 < chain.old.has.colours }
        {
            wait_for_room(rt, chain);
            let answer = chain.push(mark, by);
            let is_crowded = chain.is_crowded();
            hint.came(is_worthy & answer.is_ok());
            (answer, is_crowded)
        },
    )
}

/// Takes the mark at the front of a chain, under its lock.
pub fn pop_at<R: Wait>(
    rt: &R,
    hint: &Hint,
    lock: &Ticketed<KeptChain>,
    pass: &mut Pass<KeptChain>,
) -> Option<Mark>
    requires { MayEnter chain_frame lock.now pass.old }
    ensures pass { HasLeft chain_frame lock.now pass.old pass.new }
    ensures mark { IfSome result (λ mark. mark.colour.0 < (initial_value lock.now).has.colours) }
    ensures does { IsOnChain pass.old.number (front pass.old) (front pass.new)
        (PopsAt (chain_frame (initial_value lock.now)) pass.old.number result) }
{
    lock.call(rt, pass, (), |chain, _, by| {
        wait_for_room(rt, chain);
        let answer = chain.pop(by);
        hint.popped(chain.is_empty());
        answer
    })
}

/// Tells the mark of a colour in a chain what its events are worth, under its lock; whether thieves
/// may take it at that. Whether there was one.
pub fn retell_at<R: Wait>(
    rt: &R,
    hint: &Hint,
    lock: &Ticketed<KeptChain>,
    pass: &mut Pass<KeptChain>,
    colour: Colour,
    started: u64,
    worth: u128,
    is_worthy: bool,
) -> bool
    requires pass { MayEnter chain_frame lock.now pass.old }
    requires colour { colour.0 < (initial_value lock.now).has.colours }
    ensures pass { HasLeft chain_frame lock.now pass.old pass.new }
    ensures does { IsOnChain pass.old.number (front pass.old) (front pass.new)
        (RetellsAt (chain_frame (initial_value lock.now)) pass.old.number
        colour started worth result) }
{
    lock.call(
        rt,
        pass,
        colour,
        |chain, colour, by|
            requires { colour.0 < chain.old.has.colours }
        {
            wait_for_room(rt, chain);
            let answer = chain.retell(colour, started, worth, by);
            hint.told(is_worthy & answer);
            answer
        },
    )
}

/// Takes the first mark of the highest class that has one off a chain, under its lock; nothing
/// where thieves may have none.
pub fn pick_at<R: Wait>(
    rt: &R,
    hint: &Hint,
    lock: &Ticketed<KeptChain>,
    pass: &mut Pass<KeptChain>,
) -> Option<Mark>
    requires { MayEnter chain_frame lock.now pass.old }
    ensures pass { HasLeft chain_frame lock.now pass.old pass.new }
    ensures mark { IfSome result (λ mark. mark.colour.0 < (initial_value lock.now).has.colours) }
    ensures does { IsOnChain pass.old.number (front pass.old) (front pass.new)
        (PicksAt (chain_frame (initial_value lock.now)) pass.old.number result) }
{
    lock.call(rt, pass, (), |chain, _, by| {
        wait_for_room(rt, chain);
        let answer = chain.pick(by);
        hint.picked(answer.is_some(), chain.is_empty());
        answer
    })
}
