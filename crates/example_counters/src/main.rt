//! `example_counters < SCRIPT`: counters under numbers, served to clients over links in memory.
//!
//! A line of the script is `CLIENT TEXT`: a client, a number below 8, sends the text and a line
//! feed. A client may send `ADD KEY N`, which adds to the counter of a number and replies what it
//! is then, `GET KEY`, and `QUIT`. The counters are spread over 16 cells by the remainder of their
//! numbers, and all is served on four workers. The program prints the counters, and then what each
//! client was told.
//!
//! It is an example of a service: what the lines of a client ask, and what a cell does with that.
#![tactic(auto)]

mod counters;
mod running;
mod script;

use counters::Counters;
use mely_net::Part;
use running::run;
use script::read_script;
use std::io;
use std::io::Read;
use std::process::ExitCode;

fn main(rt: HostRuntime) -> io::Result<ExitCode> {
    let mut bytes = Vec::new(rt.alloc());
    rt.reader().read_to_end(&mut bytes)?;
    let Ok(read) = read_script(rt.alloc(), &bytes) else {
        eprintln!(rt; "example_counters: no memory")?;
        return Ok(ExitCode::from(7));
    };
    let Some(links) = read else {
        eprintln!(rt; "usage: example_counters < SCRIPT, of lines 'CLIENT TEXT'")?;
        return Ok(ExitCode::from(2));
    };
    let Ok(ended) = run(&rt, rt.alloc(), links) else {
        eprintln!(rt; "example_counters: no memory")?;
        return Ok(ExitCode::from(7));
    };
    for part in ended.values.iter() {
        match part {
            Part::Desk(_) => {}
            Part::Cell(counters) => {
                for (key, count) in counters.iter() {
                    println!(rt; "{key} is {count}")?;
                }
            }
            Part::Client(client) => {
                if let Some(link) = client.link() {
                    let text = str::from_utf8(link.written()).unwrap_or("no text");
                    match client.end() {
                        Some(end) => println!(rt; "a client {end}, and was told:\n{text}")?,
                        None => println!(rt; "a client stayed, and was told:\n{text}")?,
                    }
                }
            }
        }
    }
    Ok(ExitCode::SUCCESS)
}
