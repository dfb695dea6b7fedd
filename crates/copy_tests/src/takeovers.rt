use crate::table::{are, comes, is_reply, receive, waiting};
use std::test::Fail;

#[test]
fn each_kept_reply_is_sent_again_in_order(rt: HostRuntime) -> Result<(), Fail> {
    let receive = receive(rt.alloc())?;
    let mut waiting = waiting(rt.alloc())?;
    let _old = comes(&mut waiting, 2, 4)?;
    let _kept = comes(&mut waiting, 0, 3)?;
    let _in_hand = comes(&mut waiting, 1, 1)?;
    let _ahead = comes(&mut waiting, 3, 2)?;
    let _kept = comes(&mut waiting, 4, 1)?;
    let first = waiting.settle(&receive).ok_or("no first reply")?;
    assert!(rt; is_reply(&first, 0, 3, 9));
    assert!(rt; are(&waiting, &[(1, 1), (3, 2), (4, 1)]));
    let second = waiting.settle(&receive).ok_or("no second reply")?;
    assert!(rt; is_reply(&second, 4, 1, 20));
    assert!(rt; are(&waiting, &[(3, 2)]));
    assert!(rt; waiting.settle(&receive).is_none());
    assert!(rt; are(&waiting, &[(3, 2)]));
    Ok(())
}

#[test]
fn where_no_reply_is_kept_those_that_were_taken_go(rt: HostRuntime) -> Result<(), Fail> {
    let receive = receive(rt.alloc())?;
    let mut waiting = waiting(rt.alloc())?;
    let _old = comes(&mut waiting, 0, 1)?;
    let _next = comes(&mut waiting, 2, 6)?;
    let _in_hand = comes(&mut waiting, 1, 1)?;
    assert!(rt; waiting.settle(&receive).is_none());
    assert!(rt; are(&waiting, &[(2, 6)]));
    Ok(())
}
