//! `example_hello TIMES`: one colour greets another, so many times, on two workers, and the program
//! prints what each of them counted.
//!
//! It is the smallest app of the runtime on threads; `docs/FIRST_APP.md` walks it.
#![tactic(auto)]

mod counter;
mod greeting;

use greeting::greet;
use std::process::ExitCode;
use std::{env, io};

/// How many times to greet, by the first word; `None` where there is no word or it
/// is no number of 16 bits.
fn times(rt: &HostRuntime) -> Option<u16> {
    let mut words = env::args(rt).ok()?.skip(1);
    words.next()?.as_str().parse::<u16>().ok()
}

fn main(rt: HostRuntime) -> io::Result<ExitCode> {
    let Some(times) = times(&rt).filter(|times| *times > 0) else {
        eprintln!(rt; "usage: example_hello TIMES, from 1 to 65535")?;
        return Ok(ExitCode::from(2));
    };
    let ended = match greet(&rt, rt.alloc(), times) {
        Ok(ended) => ended,
        Err(error) => {
            eprintln!(rt; "example_hello: {error}")?;
            return Ok(ExitCode::from(7));
        }
    };
    for (colour, state) in ended.states.iter().enumerate() {
        println!(rt; "colour {colour} counted {} events", state.count())?;
    }
    Ok(ExitCode::SUCCESS)
}
