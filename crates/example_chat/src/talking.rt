//! A run of the chat.
ghost use Rattle.std.specs.Prelude.{◌≡◌, ◌≤◌, IfOk, length};
ghost use Rattle.std.specs.List.{AllByRecursion};
ghost use Rattle.example_chat.specs.Chats.{IsByClient, said};
ghost use Rattle.example_chat.specs.Talked.{IsTalked};

use crate::chat::{CLIENTS, Chat};
use crate::message::Message;
use crate::script::Line;
use crate::seat::Seat;
use mely_actor::{Ended, run_actors};
use mely_event::{Colour, Handlers, Memory};
use mely_history::{Setup, Shape};
use std::alloc::Global;
use std::snapshot::Snapshot;
use std::sync::Wait;
use std::thread::Threads;

/// Each line, for the client that is to say it.
///
/// # Errors
///
/// There was no memory.
fn post_lines(alloc: Global, lines: Vec<Line>) -> Result<Vec<(Colour, Message)>, Memory>
    requires { length lines.items ≤ 256 }
    ensures { IfOk result (λ posts. posts.items ≡ said 0 lines.items) }
{
    let mut posts = Vec::new(alloc);
    let mut number = 0u16;
    'lines: for line in lines {
        let Line { client, text } = line;
        posts.push((Colour(client), Message::Say(number as u8, text)))?;
        number = number.saturating_add(1);
    }
    Ok(posts)
}

/// What the room and the clients have after this script, on four workers: the room each line, those
/// of each client in the script's order, and each client what the room has, in its order.
///
/// # Errors
///
/// There was no memory.
pub fn talk<R: Threads + Wait + Sync>(
    rt: &R,
    alloc: Global,
    lines: Vec<Line>,
) -> Result<Ended<Seat>, Memory>
    requires few { length lines.items ≤ 256 }
    requires clients { AllByRecursion IsByClient lines.items }
    ensures { IfOk result (λ ended. IsTalked lines.items ended.values.items) }
{
    let shape = Shape {
        cores: 4,
        shards: 4,
        batch: 10,
        steal_cost: 20,
        group: 2,
    };
    let rows: [(u32, u32); 4] = [(10, 1), (100, 1), (100, 1), (100, 1)];
    let Ok(handlers) = Handlers::new(&rows) else {
        unreachable!()
    };
    let Ok(setup) = Setup::new(&shape, CLIENTS as u32 + 1, handlers, 0) else {
        unreachable!()
    };
    let chat = Chat {
        alloc,
        script: Snapshot::of(&lines),
    };
    let posts = post_lines(alloc, lines)?;
    run_actors(rt, alloc, &setup, chat, posts)
}
