use disc_device::{Disc, DriveState, Stored};
use std::test::Fail;

#[test]
fn a_write_is_done_once_a_number(rt: HostRuntime) -> Result<(), Fail> {
    let mut disc = Disc::new(rt.alloc(), 2)?;
    assert_eq!(rt; disc.count(), 2);
    assert!(rt; disc.write(1, &[7; 8], 3));
    assert!(rt; !disc.write(1, &[9; 8], 3));
    assert!(rt; disc.read(1) == [7; 8]);
    assert_eq!(rt; disc.number(1), 3);
    assert!(rt; disc.write(1, &[9; 8], 4));
    assert!(rt; disc.read(1) == [9; 8]);
    assert!(rt; disc.read(0) == [0; 8]);
    let last = Stored {
        words: [9; 8],
        number: 4,
    };
    assert!(rt; disc.sectors().last().copied() == Some(last));
    Ok(())
}

/// No clause says that it is answered at all: `mirrored` may say at any time that memory ran out.
#[test]
fn a_mirrored_disc_begins_with_two_blank_drives_that_work(rt: HostRuntime) -> Result<(), Fail> {
    let disc = Disc::mirrored(rt.alloc(), 3)?;
    assert_eq!(rt; disc.count(), 3);
    assert!(rt; disc.is_mirrored());
    assert!(rt; disc.standing(0) == DriveState::Working);
    assert!(rt; disc.standing(1) == DriveState::Working);
    assert!(rt; disc.standing(2) == DriveState::Failed);
    let blank = Stored {
        words: [0; 8],
        number: 0,
    };
    let wanted = [blank, blank, blank];
    assert!(rt; disc.sectors() == wanted.as_slice());
    Ok(())
}

/// If an allocation fails (`rt try --fail-alloc`), a mirrored disc is refused, and no other disc is answered.
#[test]
fn a_mirrored_disc_is_whole_or_refused(rt: HostRuntime) -> Result<(), Fail> {
    if let Ok(disc) = Disc::mirrored(rt.alloc(), 2) {
        assert_eq!(rt; disc.count(), 2);
        assert!(rt; disc.is_mirrored());
    }
    Ok(())
}
