use file_calls::accepts;

#[test]
fn the_awaited_reply_is_accepted_and_no_other(rt: HostRuntime) {
    assert!(rt; accepts(Some((2, 7)), 2, 7));
    assert!(rt; !accepts(Some((2, 7)), 1, 7));
    assert!(rt; !accepts(Some((2, 7)), 2, 6));
    assert!(rt; !accepts(Some((2, 7)), 2, 8));
    assert!(rt; !accepts(None, 2, 7));
}
