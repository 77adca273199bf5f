//! `example_store < SCRIPT`: a store of keys that is spread over colours, and clients that put and
//! get.
//!
//! A line of the script is `CLIENT put KEY VALUE` or `CLIENT get KEY`; a client is a number below
//! 8, a key is a number, and a value is a word. The keys are spread over 16 colours by their
//! remainder, each client has a colour, and all run on four workers. The program prints what is
//! stored, and then what each client was answered.
//!
//! It is an example of actors with data: a message carries a key and a value, a bucket sends its
//! answer to the client that asked, and the contract says that each bucket is the fold of its puts.
#![tactic(auto)]

mod message;
mod script;
mod serving;
mod store;

use script::read_script;
use serving::serve;
use std::io;
use std::io::Read;
use std::process::ExitCode;
use store::{BUCKETS, Store};

fn main(rt: HostRuntime) -> io::Result<ExitCode> {
    let mut bytes = Vec::new(rt.alloc());
    rt.reader().read_to_end(&mut bytes)?;
    let Ok(read) = read_script(rt.alloc(), &bytes) else {
        eprintln!(rt; "example_store: no memory")?;
        return Ok(ExitCode::from(7));
    };
    let Some(posts) = read else {
        eprintln!(rt;
            "usage: example_store < SCRIPT, of lines 'CLIENT put KEY VALUE' or 'CLIENT get KEY'"
        )?;
        return Ok(ExitCode::from(2));
    };
    let Ok(ended) = serve(&rt, rt.alloc(), posts) else {
        eprintln!(rt; "example_store: no memory")?;
        return Ok(ExitCode::from(7));
    };
    for (colour, slot) in ended.values.iter().enumerate() {
        for (key, value) in slot.map.iter() {
            println!(rt; "bucket {colour} has {key} {}", value.as_str())?;
        }
        for (key, found) in slot.answers.iter() {
            let client = colour.saturating_sub(BUCKETS as usize);
            match found {
                Some(value) => println!(rt; "client {client} got {key} {}", value.as_str())?,
                None => println!(rt; "client {client} found no {key}")?,
            }
        }
    }
    Ok(ExitCode::SUCCESS)
}
