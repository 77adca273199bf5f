//! The page of `mely_steal`.
ghost use Rattle.std.specs.Prelude.{◌<◌};

use mely_event::{Colour, Mark};
use mely_steal::{StealQueue, victims};
use std::test::Fail;

/// What a thief takes of this mark, of which more was registered, and the next whom it asks.
fn stolen_of(rt: &HostRuntime, mark: Mark, raised: Mark) -> Result<Option<Mark>, Fail>
    requires { (mark.colour.0 < 4) × (raised.colour.0 < 4) }
{
    let alloc = rt.alloc();
    let (core, cores, group) = (0, 4, 2);
    let mut queue = StealQueue::new(alloc, 4, 20, 0)?;
    queue.enter(mark);
    queue.change(raised);
    let stolen = queue.pick();
    for victim in victims(alloc, core, cores, group)? {
        println!(rt; "then core {victim} is asked")?;
    }
    Ok(stolen)
}

#[test]
fn the_first_of_the_highest_class_is_picked(rt: HostRuntime) -> Result<(), Fail> {
    let mark = Mark {
        colour: Colour(3),
        started: 0,
        worth: 30,
    };
    let raised = Mark { worth: 45, ..mark };
    assert!(rt; stolen_of(&rt, mark, raised)? == Some(raised));
    Ok(())
}
