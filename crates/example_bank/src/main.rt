//! `example_bank`: accounts that are colours, and transfers between them.
//!
//! It is the smallest app whose messages carry data; `docs/SECOND_APP.md` walks it.
#![tactic(auto)]

mod bank;
mod message;

use bank::run_bank;
use mely_event::Colour;
use message::Message;
use std::io;
use std::process::ExitCode;

fn main(rt: HostRuntime) -> io::Result<ExitCode> {
    let posts = vec![in rt.alloc();
        (Colour(0), Message::Deposit(100)),
        (Colour(1), Message::Deposit(20)),
        (Colour(0), Message::Transfer(2, 30)),
        (Colour(1), Message::Transfer(3, 50)),
    ]?;
    let Ok(ended) = run_bank(&rt, rt.alloc(), posts) else {
        eprintln!(rt; "example_bank: no memory")?;
        return Ok(ExitCode::from(7));
    };
    for (colour, balance) in ended.values.iter().enumerate() {
        println!(rt; "account {colour} has {balance}")?;
    }
    Ok(ExitCode::SUCCESS)
}
