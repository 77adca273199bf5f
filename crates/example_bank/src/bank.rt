//! The accounts, and their run on two workers.
ghost use Rattle.std.specs.Prelude.{◌≡◌, IfOk};
ghost use Rattle.std.specs.List.{AllByRecursion};
ghost use Rattle.mely_actor.specs.Sending.{MaySend};
ghost use Rattle.example_bank.specs.declared.bank.TheConstants.{ACCOUNTS};
ghost use Rattle.example_bank.specs.Balances.{AreBalanced, IsAccount, IsSound, event_of};

use crate::message::Message;
use mely_actor::{Actor, Begins, Ended, Place, Sends, run_actors};
use mely_event::{Colour, Event, Handlers, Memory};
use mely_history::{Setup, Shape};
use std::alloc::Global;
use std::sync::Wait;
use std::thread::Threads;

/// How many accounts there are; their colours are below this.
pub const ACCOUNTS: u32 = 4;

/// A bank: a balance for each colour.
#[derive(Drop)]
pub struct Bank;

impl Actor for Bank {
    type Value = u64;

    type Message = Message;

    ghost colours_of = { λ bank. ACCOUNTS };

    ghost rows_of = { λ bank. 3 };

    ghost event_of = { event_of };

    ghost sound = { λ bank colour message. IsSound message };

    ghost kept = { λ bank colour received sent balance. IsAccount received sent balance };

    fn event(message: &Message) -> Event {
        match message {
            Message::Deposit(_) => Event { handler: 1, arg: 0 },
            Message::Transfer(to, _) => Event {
                handler: 2,
                arg: *to,
            },
        }
    }

    fn on(
        &self,
        _place: Place,
        balance: &mut u64,
        message: Message,
        sends: &mut Sends<Message>,
    ) -> Result<(), Memory> {
        match message {
            Message::Deposit(amount) => *balance = balance.saturating_add(u64::from(amount)),
            Message::Transfer(to, amount) => {
                let left = balance.saturating_sub(u64::from(amount));
                let paid = *balance - left;
                *balance = left;
                sends.send(Colour(to), Message::Deposit(paid as u32));
            }
        }
        Ok(())
    }
}

impl Begins for Bank {
    fn begin(&self, _alloc: Global, _colour: Colour) -> Result<u64, Memory> {
        Ok(0)
    }
}

/// What the accounts have come to after these messages.
///
/// # Errors
///
/// There was no memory.
pub fn run_bank<R: Threads + Wait + Sync>(
    rt: &R,
    alloc: Global,
    posts: Vec<(Colour, Message)>,
) -> Result<Ended<u64>, Memory>
    requires may { AllByRecursion
        (MaySend ACCOUNTS 3 event_of (λ colour message. IsSound message)) posts.items }
    ensures { IfOk result (λ ended. AreBalanced posts.items ended.values.items) }
{
    let shape = Shape {
        cores: 2,
        shards: 2,
        batch: 10,
        steal_cost: 20,
        group: 2,
    };
    let rows: [(u32, u32); 3] = [(10, 1), (10, 1), (10, 1)];
    let Ok(handlers) = Handlers::new(&rows) else {
        unreachable!()
    };
    let Ok(setup) = Setup::new(&shape, ACCOUNTS, handlers, 0) else {
        unreachable!()
    };
    run_actors(rt, alloc, &setup, Bank, posts)
}
