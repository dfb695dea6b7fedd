use crate::table::{are, comes, is_dropped, is_reply, receive, request, waiting, waits};
use file_calls::Arrival;
use std::test::Fail;

#[test]
fn a_greater_number_takes_the_place_and_goes_to_the_end(rt: HostRuntime) -> Result<(), Fail> {
    let mut waiting = waiting(rt.alloc())?;
    assert!(rt; waits(&comes(&mut waiting, 0, 5)?));
    assert!(rt; waits(&comes(&mut waiting, 1, 3)?));
    assert!(rt; is_dropped(&comes(&mut waiting, 0, 5)?));
    assert!(rt; is_dropped(&comes(&mut waiting, 0, 4)?));
    assert!(rt; are(&waiting, &[(0, 5), (1, 3)]));
    assert!(rt; waits(&comes(&mut waiting, 0, 7)?));
    assert!(rt; are(&waiting, &[(1, 3), (0, 7)]));
    assert!(rt; waiting.at(2).is_none());
    Ok(())
}

#[test]
fn a_copy_that_acts_keeps_what_may_be_taken(rt: HostRuntime) -> Result<(), Fail> {
    let receive = receive(rt.alloc())?;
    let mut waiting = waiting(rt.alloc())?;
    assert!(rt; waits(&waiting.arrive(request(0, 4)?, &receive)));
    assert!(rt; waits(&waiting.arrive(request(2, 8)?, &receive)));
    assert!(rt; is_dropped(&waiting.arrive(request(2, 6)?, &receive)));
    assert!(rt; is_dropped(&waiting.arrive(request(0, 1)?, &receive)));
    assert!(rt; is_dropped(&waiting.arrive(request(1, 1)?, &receive)));
    match waiting.arrive(request(0, 2)?, &receive) {
        Arrival::Again(reply) => assert!(rt; is_reply(&reply, 0, 2, 8)),
        _ => return Err("no reply".into()),
    }
    assert!(rt; are(&waiting, &[(0, 4), (2, 8)]));
    Ok(())
}
