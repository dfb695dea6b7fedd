use logs::{GhostLog, Log, Shared};
use std::test::Fail;

#[test]
fn what_happened_is_read_from_the_oldest_on(rt: HostRuntime) -> Result<(), Fail> {
    let mut log = Log::new(rt.alloc());
    assert!(rt; log.is_empty());
    log.add(7)?;
    log.add(8)?;
    log.add(9)?;
    assert_eq!(rt; log.len(), 3);
    assert!(rt; log.as_slice() == [7, 8, 9].as_slice());
    log.clear();
    assert!(rt; log.is_empty());
    Ok(())
}

#[test]
fn owners_share_a_value(rt: HostRuntime) -> Result<(), Fail> {
    let shared = Shared::new(rt.alloc(), 7)?;
    let mut log = Log::new(rt.alloc());
    log.add(shared.share()?)?;
    log.add(shared)?;
    assert!(rt; log.as_slice().iter().all(|owner| *owner.get() == 7));
    Ok(())
}

#[test]
fn what_contracts_alone_see_is_added(rt: HostRuntime) -> Result<(), Fail> {
    let mut log = GhostLog::new(rt.alloc());
    for k in 0..1000_u32 {
        log.add(&k)?;
    }
    Ok(())
}
