use gd_io::*;
use gd_words::List;
use std::alloc::{AllocError, Global};
use std::test::Fail;

fn list_of<T: Copy + Drop>(alloc: Global, items: &[T]) -> Result<List<T>, AllocError> {
    Ok(List::from_vec(Vec::from_slice(alloc, items)?))
}

#[test]
fn reads_all_or_says_why_not(rt: HostRuntime) -> Result<(), Fail> {
    let never: &[u64] = &[];
    let cases = [
        (never, 4, None),
        (never, 9, None),
        (never, 3, Some(SourceFault::TooLong)),
        (&[1], 4, Some(SourceFault::Failed)),
        (&[2], 9, Some(SourceFault::Failed)),
        (&[3], 9, None),
    ];
    for (failing, most, wanted) in cases {
        let alloc = rt.alloc();
        let mut source = MemorySource::new(list_of(alloc, b"DECK")?, list_of(alloc, failing)?);
        match read_all(alloc, &mut source, most) {
            Ok(bytes) => {
                assert!(rt; wanted == None, "most {most}");
                assert!(rt; bytes.as_slice() == b"DECK".as_slice(), "most {most}");
            }
            Err(SourceFault::NoMemory(_)) => return Err(Fail::from(AllocError)),
            Err(refusal) => assert!(rt; wanted == Some(refusal), "most {most}"),
        }
    }
    Ok(())
}

#[test]
fn puts_all_or_its_first_part(rt: HostRuntime) -> Result<(), Fail> {
    let never: &[u64] = &[];
    let cases = [
        (never, 9, Ok(()), b"END\n".as_slice()),
        (never, 2, Err(WriteFault), b"EN".as_slice()),
        (&[1], 9, Err(WriteFault), b"".as_slice()),
        (&[2], 9, Ok(()), b"END\n".as_slice()),
    ];
    for (failing, room, wanted, held) in cases {
        let alloc = rt.alloc();
        let mut sink = MemorySink::new(alloc, room, list_of(alloc, failing)?)?;
        assert!(rt; put_all(&mut sink, b"END\n") == wanted, "room {room}");
        assert!(rt; sink.bytes() == held, "room {room}");
    }
    Ok(())
}

#[test]
fn the_ends_of_std_serve(rt: HostRuntime) -> Result<(), Fail> {
    let mut source = StdSource::new(b"abc".as_slice());
    let bytes = read_all(rt.alloc(), &mut source, 3)?;
    assert!(rt; bytes.as_slice() == b"abc".as_slice());
    let mut sink = StdSink::new(Vec::new(rt.alloc()));
    put_all(&mut sink, b"abc")?;
    Ok(())
}
