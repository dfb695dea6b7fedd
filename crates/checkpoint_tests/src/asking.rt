use sync_ids::Asker;

#[test]
fn each_file_counts_on_its_own(rt: HostRuntime) {
    let mut asker = Asker::new(3);
    asker.asked(1);
    asker.set(2, 9);
    asker.asked(2);
    assert!(rt; asker.as_slice() == [1, 2, 10].as_slice());
    assert!(rt; asker.next(2) == 10 && asker.get(1) == Some(2) && asker.len() == 3);
}
