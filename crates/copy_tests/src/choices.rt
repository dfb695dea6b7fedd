use crate::table::{are, comes, receive, waiting};
use std::test::Fail;

#[test]
fn the_requests_that_stand_next_are_taken_in_order(rt: HostRuntime) -> Result<(), Fail> {
    let receive = receive(rt.alloc())?;
    let mut waiting = waiting(rt.alloc())?;
    assert!(rt; !waiting.wakes(&receive));
    assert!(rt; waiting.choose(&receive).is_none());
    let _later = comes(&mut waiting, 2, 9)?;
    assert!(rt; !waiting.wakes(&receive));
    assert!(rt; waiting.choose(&receive).is_none());
    let _first = comes(&mut waiting, 3, 1)?;
    let _second = comes(&mut waiting, 0, 4)?;
    assert!(rt; waiting.wakes(&receive));
    let chosen = waiting.choose(&receive).ok_or("none stands next")?;
    assert_eq!(rt; chosen.opener, 3);
    assert_eq!(rt; chosen.number, 1);
    assert!(rt; chosen.words.as_slice() == [1, 2].as_slice());
    assert!(rt; are(&waiting, &[(2, 9), (0, 4)]));
    let chosen = waiting.choose(&receive).ok_or("none stands next")?;
    assert_eq!(rt; chosen.opener, 0);
    assert_eq!(rt; chosen.number, 4);
    assert!(rt; are(&waiting, &[(2, 9)]));
    assert!(rt; !waiting.wakes(&receive));
    Ok(())
}
