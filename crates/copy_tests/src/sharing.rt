use kept_acts::{CopyShare, KeptActs};
use process_semantics::Point;
use std::test::Fail;
use tal_tree::Act;

const STEP: Act = Act::Step(1);

const TAKE: Act = Act::Take {
    process: 1,
    opener: 0,
};

/// An act of the process enters the kept acts, where the position has a number after it.
fn enter(share: &mut CopyShare, act: Act, kept: &mut KeptActs) -> Result<(), Fail> {
    if share.position() == u64::MAX {
        return Err(Fail::from("no position is left"));
    }
    share.enter(1, act, kept)?;
    Ok(())
}

#[test]
fn what_is_held_is_kept_with_the_checkpoint(rt: HostRuntime) -> Result<(), Fail> {
    let mut kept = KeptActs::new(rt.alloc())?;
    let mut share = CopyShare::new(rt.alloc());
    enter(&mut share, STEP, &mut kept)?;
    enter(&mut share, TAKE, &mut kept)?;
    enter(&mut share, STEP, &mut kept)?;
    kept.keep(Act::Enter(0))?;
    assert!(rt; kept.as_slice() == [STEP, Act::Enter(0)].as_slice());
    assert!(rt; share.held() == [TAKE, STEP].as_slice());
    assert_eq!(rt; share.position(), 1);
    assert_eq!(rt; kept.length_of(1), 1);
    share.pass(1, &mut kept)?;
    assert!(rt; kept.as_slice() == [STEP, Act::Enter(0), TAKE, STEP, STEP].as_slice());
    assert!(rt; share.held().is_empty());
    assert_eq!(rt; share.position(), 4);
    assert_eq!(rt; kept.length_of(1), 4);
    assert_eq!(rt; kept.length_of(0), 0);
    assert_eq!(rt; kept.length_of(255), 0);
    Ok(())
}

#[test]
fn what_was_kept_is_done_anew(rt: HostRuntime) -> Result<(), Fail> {
    let mut kept = KeptActs::new(rt.alloc())?;
    let mut first = CopyShare::new(rt.alloc());
    let mut second = CopyShare::new(rt.alloc());
    enter(&mut first, TAKE, &mut kept)?;
    let base = first.cover(1, Point::AtCheckpoint, &mut kept)?;
    assert_eq!(rt; base, 2);
    assert_eq!(rt; first.position(), 1);
    first.pass(1, &mut kept)?;
    enter(&mut first, STEP, &mut kept)?;
    enter(&mut first, TAKE, &mut kept)?;
    first.let_go();
    second.take_over(base);
    assert_eq!(rt; second.position(), 2);
    enter(&mut second, STEP, &mut kept)?;
    assert!(rt; kept.as_slice() == [TAKE, STEP, STEP].as_slice());
    enter(&mut second, TAKE, &mut kept)?;
    assert!(rt; second.held() == [TAKE].as_slice());
    first.close(&mut kept)?;
    second.close(&mut kept)?;
    assert!(rt; kept.as_slice() == [TAKE, STEP, STEP, TAKE].as_slice());
    assert!(rt; second.held().is_empty());
    Ok(())
}

#[test]
fn what_is_behind_is_covered_as_far_as_it_came(rt: HostRuntime) -> Result<(), Fail> {
    let mut kept = KeptActs::new(rt.alloc())?;
    let mut share = CopyShare::new(rt.alloc());
    kept.keep(STEP)?;
    kept.keep(STEP)?;
    kept.keep(STEP)?;
    enter(&mut share, STEP, &mut kept)?;
    let at_checkpoint = share.cover(1, Point::AtCheckpoint, &mut kept)?;
    assert_eq!(rt; at_checkpoint, 2);
    assert_eq!(rt; share.position(), 1);
    let inside = share.cover(1, Point::Inner, &mut kept)?;
    assert_eq!(rt; inside, 1);
    assert_eq!(rt; kept.length_of(1), 3);
    enter(&mut share, STEP, &mut kept)?;
    enter(&mut share, STEP, &mut kept)?;
    enter(&mut share, TAKE, &mut kept)?;
    let elsewhere = share.cover(1, Point::Answer, &mut kept)?;
    assert_eq!(rt; elsewhere, 4);
    assert!(rt; kept.as_slice() == [STEP, STEP, STEP, TAKE].as_slice());
    assert!(rt; share.held().is_empty());
    Ok(())
}
