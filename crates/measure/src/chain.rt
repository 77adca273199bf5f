//! `measure chain CALL MARKS COUNT`: one call on the chain of a core, many times.
//!
//! It fills a chain with so many marks, at most 65,536, one a colour, of all classes in turn.
//! Then it makes the call so many times: `pop` and `pick` take a mark out and push it again, so
//! that the chain keeps its length, and `retell` reports on the colours in turn. It is what the
//! cost of a chain is measured by.
ghost use Rattle.std.specs.Prelude.{◌≤◌, IfSome};

mod calls;

use calls::{Call, MAX_MARKS};
use std::io;
use std::process::ExitCode;

/// The call, the number of marks, and how often the call is made.
fn order(words: &[String]) -> Option<(Call, u32, u32)>
    ensures { IfSome result (λ order. order.1 ≤ MAX_MARKS) }
{
    let mut words = words.iter();
    let call = Call::of(words.next()?.as_str())?;
    let marks = words.next()?.as_str().parse::<u32>().ok()?;
    if marks > MAX_MARKS {
        return None;
    }
    let count = words.next()?.as_str().parse::<u32>().ok()?;
    Some((call, marks, count))
}

/// Runs the part by its words.
pub fn run(rt: &HostRuntime, words: &[String]) -> io::Result<ExitCode> {
    let Some((call, marks, count)) = order(words) else {
        eprintln!(rt; "usage: measure chain pop|retell|pick MARKS COUNT")?;
        return Ok(ExitCode::from(2));
    };
    make_calls(rt, call, marks, count)
}

/// Makes the small run.
pub fn run_small(rt: &HostRuntime) -> io::Result<ExitCode> {
    make_calls(rt, Call::Pick, 64, 1000)
}

/// Makes the call so many times, and prints how often it found a mark.
fn make_calls(rt: &HostRuntime, call: Call, marks: u32, count: u32) -> io::Result<ExitCode>
    requires { marks ≤ MAX_MARKS }
{
    let Ok(made) = calls::make(rt.alloc(), call, marks, count) else {
        eprintln!(rt; "measure chain: no memory")?;
        return Ok(ExitCode::from(7));
    };
    match call {
        Call::Pop => println!(rt; "{made} marks were popped and pushed")?,
        Call::Retell => println!(rt; "{made} marks were told of")?,
        Call::Pick => println!(rt; "{made} marks were picked and pushed")?,
    }
    Ok(ExitCode::SUCCESS)
}
