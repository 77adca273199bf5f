//! The calls, one at a time.
ghost use Rattle.std.specs.Prelude.{◌≡◌, ◌<◌, ◌≤◌, IfOk};

use mely_core::CoreQueue;
use mely_event::{Colour, Mark, Memory};
use std::alloc::Global;

/// The cost of a steal.
const COST: u32 = 20;

/// The most marks that a chain can have, one a colour.
pub const MAX_MARKS: u32 = 65_536;

/// Which call is made.
#[derive(Clone, Copy)]
pub enum Call {
    /// The front is popped and pushed again.
    Pop,
    /// The colours are told of in turn.
    Retell,
    /// A mark is picked and pushed again.
    Pick,
}

impl Call {
    /// The call of this name.
    pub fn of(name: &str) -> Option<Call> {
        match name {
            "pop" => Some(Call::Pop),
            "retell" => Some(Call::Retell),
            "pick" => Some(Call::Pick),
            _ => None,
        }
    }
}

/// A chain with a mark of each colour; their worths go through all classes.
fn filled(alloc: Global, marks: u32) -> Result<CoreQueue, Memory>
    requires { marks ≤ MAX_MARKS }
    ensures { IfOk result (λ queue. queue.colours ≡ marks) }
{
    let mut queue = CoreQueue::new(alloc, marks, COST, 0)?;
    'marks: for number in 0..marks {
        push(&mut queue, number as u16);
    }
    Ok(queue)
}

/// Pushes the mark of one colour.
fn push(queue: &mut CoreQueue, colour: u16) -> bool
    requires { colour < queue.old.colours }
    ensures { queue.new.colours ≡ queue.old.colours }
{
    let mark = Mark {
        colour: Colour(colour),
        started: 0,
        worth: u128::from(colour % 5) * u128::from(COST) + u128::from(COST / 2),
    };
    queue.push(mark).is_ok()
}

/// Takes a mark out by the call and pushes it again; whether there was one.
fn turn_over(queue: &mut CoreQueue, call: Call) -> bool
    ensures { queue.new.colours ≡ queue.old.colours }
{
    let taken = match call {
        Call::Pick => queue.pick(),
        _ => queue.pop(),
    };
    match taken {
        Some(mark) => queue.push(mark).is_ok(),
        None => false,
    }
}

/// Makes the call so many times on a chain of so many marks, and answers how often it found a mark.
pub fn make(alloc: Global, call: Call, marks: u32, count: u32) -> Result<u32, Memory>
    requires { marks ≤ MAX_MARKS }
{
    let mut queue = filled(alloc, marks)?;
    let mut made = 0u32;
    'calls: for number in 0..count {
        let found = match call {
            Call::Retell => tell(&mut queue, marks, number),
            _ => turn_over(&mut queue, call),
        };
        made = made.saturating_add(u32::from(found));
    }
    Ok(made)
}

/// Tells of the next colour in turn, with a worth that goes by the number of the call; whether
/// there is such a colour.
fn tell(queue: &mut CoreQueue, marks: u32, number: u32) -> bool
    requires colours { queue.old.colours ≡ marks }
    requires most { marks ≤ MAX_MARKS }
    ensures { queue.new.colours ≡ queue.old.colours }
{
    if marks == 0 {
        return false;
    }
    let colour = (number % marks) as u16;
    queue.retell(Colour(colour), 0, u128::from(number % 100))
}
