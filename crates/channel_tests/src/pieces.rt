use gd_words::List;
use packet_words::{Joiner, cut};
use std::test::Fail;

/// Messages are cut into so many pieces, and joined again.
#[test]
fn messages_are_cut_and_joined(rt: HostRuntime) -> Result<(), Fail> {
    let alloc = rt.alloc();
    let rows = [(1, 1), (10, 1), (11, 2), (160, 16), (32_767, 3_277)];
    let mut joiner = Joiner::new(alloc);
    for (length, pieces) in rows {
        let mut message = List::new(alloc);
        for k in 0..length {
            message.push(k)?;
        }
        let mut joined = None;
        for k in 0..pieces {
            assert!(rt; joined.is_none(), "{length}");
            let Some(piece) = cut(message.as_slice(), k) else {
                break;
            };
            assert!(rt; piece.last == (k + 1 == pieces), "{length}");
            joined = joiner.add(&piece)?;
        }
        assert!(rt; cut(message.as_slice(), pieces).is_none(), "{length}");
        assert!(rt;
            joined.as_ref().map(|words| words.as_slice()) == Some(message.as_slice()),
            "{length}"
        );
    }
    Ok(())
}
