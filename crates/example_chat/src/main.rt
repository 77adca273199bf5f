//! `example_chat < SCRIPT`: a room in which clients talk, a colour for the room and one for each.
//!
//! A line of the script is `CLIENT WORDS..`, and a client is a number from 1 to 4. Each client says
//! its lines to the room, which puts what all say into one order and sends it to every client; all
//! run on four workers. The order is the run's own, so the program prints each line that client 4
//! heard in the order of the script, and whether each client heard the lines of the room in the
//! room's order, which they do.
//!
//! It is an example of actors with data: a message carries a text, and the contract says that the
//! room keeps each line of the script, those of each client in its order, and that each client has
//! heard what the room keeps, line by line in the room's order.
#![tactic(auto)]

mod chat;
mod message;
mod script;
mod seat;
mod talking;

use script::read_script;
use seat::Heard;
use std::io;
use std::io::Read;
use std::process::ExitCode;
use talking::talk;

fn main(rt: HostRuntime) -> io::Result<ExitCode> {
    let mut bytes = Vec::new(rt.alloc());
    rt.reader().read_to_end(&mut bytes)?;
    let Ok(read) = read_script(rt.alloc(), &bytes) else {
        eprintln!(rt; "example_chat: no memory")?;
        return Ok(ExitCode::from(7));
    };
    let Some(lines) = read else {
        eprintln!(rt; "usage: example_chat < SCRIPT, of at most 256 lines 'CLIENT WORDS..'")?;
        return Ok(ExitCode::from(2));
    };
    let many = lines.len();
    let Ok(ended) = talk(&rt, rt.alloc(), lines) else {
        eprintln!(rt; "example_chat: no memory")?;
        return Ok(ExitCode::from(7));
    };
    for (colour, seat) in ended.values.iter().enumerate() {
        let who = if colour == 0 { "the room" } else { "a client" };
        let order = if is_in_order(&seat.heard) {
            "in"
        } else {
            "out of"
        };
        println!(rt;
            "{who} has {} lines, {order} the room's order",
            seat.heard.len()
        )?;
    }
    if let Some(last) = ended.values.last() {
        for number in 0..many {
            print_line(&rt, &last.heard, number)?;
        }
    }
    Ok(ExitCode::SUCCESS)
}

/// Whether the lines stand in the room's order, from its first line on: a look at what `talk`
/// promises.
fn is_in_order(heard: &[Heard]) -> bool {
    heard
        .iter()
        .enumerate()
        .all(|(place, line)| line.place as usize == place)
}

/// Prints each line with this number in the script.
fn print_line(rt: &HostRuntime, heard: &[Heard], number: usize) -> io::Result<()> {
    for line in heard {
        if line.number as usize == number {
            if let Ok(text) = str::from_utf8(&line.text) {
                println!(rt; "{number}: {text}")?;
            }
        }
    }
    Ok(())
}
