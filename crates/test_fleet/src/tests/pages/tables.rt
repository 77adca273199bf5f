//! The page of `mely_event`.
use mely_event::Handlers;
use std::test::Fail;

#[test]
fn a_table_has_weights(rt: HostRuntime) -> Result<(), Fail> {
    let handlers = Handlers::new(&[(60, 2), (7, 2)]);
    let handlers = handlers?;
    assert!(rt; handlers.len() == 2);
    assert!(rt; handlers.weight(0) == 30);
    assert!(rt; handlers.weight(1) == 3);
    Ok(())
}
