use checkpoint_image::Behaviour;
use disc_process::DiscProcess;
use gd_words::Words;
use process_semantics::Point;
use std::test::Fail;

/// The request that writes 7 to the sector 1.
fn write() -> Words {
    let mut words = Words::new();
    let _full = words.push(2);
    let _full = words.push(1);
    let _full = words.push(7);
    words
}

#[test]
fn a_disc_goes_on_in_the_other_copy(rt: HostRuntime) -> Result<(), Fail> {
    let mut first = DiscProcess::new(rt.alloc(), 2);
    let mut second = DiscProcess::new(rt.alloc(), 2);
    first.took(&write());
    assert!(rt; first.at() == Point::AtCheckpoint);
    let image = first.image(rt.alloc(), first.listed())?;
    let wanted = [3, 2, 1, 7, 0, 0, 0];
    assert!(rt; image.as_slice() == wanted.as_slice());
    assert!(rt; second.apply(image.as_slice(), true));
    assert!(rt; second.at() == Point::Device);
    assert!(rt; second.in_hand());
    Ok(())
}

#[test]
fn words_that_are_no_image_change_nothing(rt: HostRuntime) -> Result<(), Fail> {
    let mut other = DiscProcess::new(rt.alloc(), 2);
    assert!(rt; !other.apply(&[1, 9, 0, 0, 0], false));
    assert!(rt; !other.apply(&[0, 0, 0], false));
    assert!(rt; other.at() == Point::Take);
    assert!(rt; !other.in_hand());
    Ok(())
}

#[test]
fn a_disc_names_nothing(rt: HostRuntime) -> Result<(), Fail> {
    let disc = DiscProcess::new(rt.alloc(), 2);
    assert!(rt; disc.everything().items.is_empty());
    assert!(rt; disc.everything().files.is_empty());
    Ok(())
}
