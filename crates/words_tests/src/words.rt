use gd_words::*;
use std::test::Fail;

#[test]
fn grows_and_boxes(rt: HostRuntime) -> Result<(), Fail> {
    let mut list = List::new(rt.alloc());
    list.push(7)?;
    list.extend_from_slice(&[8, 9])?;
    assert!(rt; list.as_slice() == [7, 8, 9].as_slice());
    assert!(rt; Boxed::new(rt.alloc(), 5)?.into_inner() == 5);
    Ok(())
}

#[test]
fn spells_names(rt: HostRuntime) {
    let names = [
        (b"$add".as_slice(), Some(b"$ADD".as_slice())),
        (b"$B10".as_slice(), Some(b"$B10".as_slice())),
        (b"$12345".as_slice(), None),
        (b"$abcdef".as_slice(), None),
        (b"$".as_slice(), None),
        (b"add".as_slice(), None),
    ];
    for (text, kept) in names {
        let name = Name::read(text);
        assert!(rt; name.as_ref().map(|n| n.text()) == kept, "{text:?}");
    }
    let idents = [
        (b"got_1^x".as_slice(), Some(b"GOT_1^X".as_slice())),
        (b"1got".as_slice(), None),
        (b"".as_slice(), None),
    ];
    for (text, kept) in idents {
        let ident = Ident::read(text);
        assert!(rt; ident.as_ref().map(|n| n.text()) == kept, "{text:?}");
    }
}

#[test]
fn computes_at_the_ends(rt: HostRuntime) {
    assert!(rt; wrap_add(32_767, 1) == -32_768);
    assert!(rt; wrap_sub(-32_768, 1) == 32_767);
    assert!(rt; wrap_mul(256, 256) == 0);
    assert!(rt; wrap_neg(-32_768) == -32_768);
    let quotients = [
        (-32_768, -1, Some(-32_768)),
        (-7, 2, Some(-3)),
        (7, -2, Some(-3)),
        (7, 0, None),
    ];
    for (a, b, quotient) in quotients {
        assert!(rt; div_trunc(a, b) == quotient, "{a} / {b}");
    }
    assert!(rt; decimal_of(-32_768).bytes() == b"-32768".as_slice());
}

#[test]
fn holds_sixteen_words(rt: HostRuntime) {
    let mut words = Words::new();
    for k in 0..16 {
        assert!(rt; words.push(k) == Ok(()));
    }
    assert!(rt; words.push(99) == Err(99));
    assert!(rt; words.copy().get(15) == Some(15));
    assert!(rt; words.len() == 16);
}
