//! `par_map < TEXT`: counts the words of each line, a colour a line, on four workers, and prints
//! the counts in the order of the lines.
//!
//! It is an example of actors with data: each message carries a line, and the contract of `par_map`
//! says nothing of colours, threads or messages, only that each result is that of its item.
#![tactic(auto)]

mod lines;
mod mapping;
mod task;

use lines::lines_of;
use mapping::par_map;
use std::io;
use std::io::Read;
use std::process::ExitCode;
use task::Words;

fn main(rt: HostRuntime) -> io::Result<ExitCode> {
    let mut bytes = Vec::new(rt.alloc());
    rt.reader().read_to_end(&mut bytes)?;
    let Ok(lines) = lines_of(rt.alloc(), &bytes) else {
        eprintln!(rt; "par_map: no memory")?;
        return Ok(ExitCode::from(7));
    };
    if lines.is_empty() || lines.len() > 65535 {
        eprintln!(rt; "usage: par_map < TEXT, of 1 to 65535 lines")?;
        return Ok(ExitCode::from(2));
    }
    let Ok(counts) = par_map(&rt, rt.alloc(), Words, lines) else {
        eprintln!(rt; "par_map: no memory")?;
        return Ok(ExitCode::from(7));
    };
    for count in counts {
        println!(rt; "{count}")?;
    }
    Ok(ExitCode::SUCCESS)
}
