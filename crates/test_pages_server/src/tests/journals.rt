//! The pages of `mely_journal` and `mely_check`, and the journal of that of `mely_picture`.
use mely_check::check_journal;
use mely_event::{Colour, Event, Handlers};
use mely_history::{Entry, Setup, Shape};
use mely_journal::write_journal;
use std::alloc::{AllocError, Global};
use std::test::Fail;
use sws_link::{SureSink, SureSource};

/// One shard of two colours on two cores.
pub(super) fn setup_of() -> Result<Setup, Fail> {
    let shape = Shape {
        cores: 2,
        shards: 1,
        batch: 10,
        steal_cost: 5,
        group: 2,
    };
    let handlers = Handlers::new(&[(10, 1)])?;
    Ok(Setup::new(&shape, 2, handlers, 0)?)
}

/// An event of colour 1 is registered from outside, stolen and run.
pub(super) fn journal_of(alloc: Global) -> Result<SureSource, AllocError> {
    let text = b"shard 0 4\nreg 1 0 7 2\nsteal 1 1 0\ntake 1 0 1\nfin 1 0 1\n";
    Ok(SureSource::new(text.to_vec(alloc)?))
}

#[test]
fn a_journal_is_checked(rt: HostRuntime) -> Result<(), Fail> {
    let alloc = rt.alloc();
    let setup = setup_of()?;
    let mut source = journal_of(alloc)?;
    let report = check_journal(alloc, &setup, &mut source)?;
    assert!(rt; report.entries == 4);
    assert!(rt; report.cores.len() == 2);
    assert!(rt; (report.cores[0].ran, report.cores[1].stolen_out) == (1, 1));
    Ok(())
}

#[test]
fn a_journal_is_written(rt: HostRuntime) -> Result<(), Fail> {
    let alloc = rt.alloc();
    let colour = Colour(0);
    let event = Event { handler: 0, arg: 1 };
    let turn = vec![in alloc;
        Entry::Reg {
            colour,
            event,
            by: 2
        },
        Entry::Take {
            colour,
            core: 0,
            count: 1
        },
        Entry::Fin {
            colour,
            core: 0,
            count: 1
        },
    ]?;
    let histories = vec![in alloc; turn]?;
    let mut sink = SureSink::new(alloc);
    write_journal(alloc, &mut sink, &histories);
    assert!(rt; sink.written() == b"shard 0 3\nreg 0 0 1 2\ntake 0 0 1\nfin 0 0 1\n".as_slice());
    Ok(())
}
