//! The page of `mely_core`.
ghost use Rattle.std.specs.Prelude.{◌<◌};

use mely_core::CoreQueue;
use mely_event::{Colour, Mark};
use std::alloc::Global;
use std::test::Fail;

/// Whether the core runs the raised mark, once this one was pushed and more was registered, and a
/// thief finds none then.
fn is_run(alloc: Global, mark: Mark, raised: Mark) -> Result<bool, Fail>
    requires { mark.colour.0 < 4 }
{
    let mut queue = CoreQueue::new(alloc, 4, 20, 0)?;
    queue.push(mark)?;
    queue.retell(mark.colour, mark.started, 45);
    let next = queue.pop();
    let stolen = queue.pick();
    Ok(next == Some(raised) && stolen == None)
}

#[test]
fn a_ready_colour_is_run_or_stolen(rt: HostRuntime) -> Result<(), Fail> {
    let mark = Mark {
        colour: Colour(3),
        started: 0,
        worth: 30,
    };
    let raised = Mark { worth: 45, ..mark };
    assert!(rt; is_run(rt.alloc(), mark, raised)?);
    Ok(())
}
