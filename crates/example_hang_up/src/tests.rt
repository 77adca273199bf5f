//! It ends at the first bytes.
ghost use Rattle.std.specs.Prelude.{false, ◌≡◌};
ghost use Rattle.sws_link.specs.Links.{IsInitialLink};

use crate::HangUp;
use std::alloc::Global;
use std::test::Fail;
use sws_link::{Link, LinkItem, Memory, SureLink};
use sws_steps::{End, Next, Talk};

/// So many steps of a talk over a link, through the bound: how it has ended, and how many
/// bytes it took and wrote.
fn talk_over<L: Link + Drop, T: Talk<L> + Drop>(
    alloc: Global,
    hall: T::Hall,
    link: L,
    steps: u8,
) -> Result<(Option<End>, u64, u64), Memory>
    requires initial { IsInitialLink (L.tells link) }
    requires not_shut { L.is_shut link ≡ false }
{
    let mut talk = T::make(alloc, hall)?;
    let _ = talk.open(link);
    for _ in 0..steps {
        talk.step();
    }
    Ok((talk.end(), talk.read(), talk.written()))
}

#[test]
fn it_ends_at_the_first_bytes(rt: HostRuntime) -> Result<(), Fail> {
    let mut items = Vec::new(rt.alloc());
    items.push(LinkItem::Wait(2))?;
    items.push(LinkItem::Fill(20))?;
    let link = SureLink::new(rt.alloc(), items, None);
    let served = talk_over::<SureLink, HangUp<SureLink>>(rt.alloc(), (), link, 6);
    assert_eq!(rt; served, Ok((Some(End::Done), 16, 0)));
    Ok(())
}
