use flow_paths::{Flow, FlowFault};
use gd_words::NoMemory;
use std::alloc::Global;
use std::test::Fail;
use worked_programs::program_of;

/// A procedure: its name, and how often it calls the one before it, or how many assignments it has where it is the
/// first.
#[derive(Drop)]
struct Link {
    name: u8,
    times: usize,
}

/// Procedures of one letter each that call the one before so many times.
fn links(alloc: Global, names: &[u8], times: usize) -> Result<Vec<Link>, NoMemory> {
    let mut links = Vec::new(alloc);
    for name in names {
        links.push(Link { name: *name, times })?;
    }
    Ok(links)
}

fn repeat(text: &mut Vec<u8>, statement: &[u8], times: usize) -> Result<(), NoMemory> {
    for _ in 0..times {
        text.push(b';')?;
        text.extend_from_slice(statement)?;
    }
    Ok(())
}

/// A program of these procedures, whose main procedure calls the last of them so many times.
fn text_of(alloc: Global, links: &[Link], times: usize) -> Result<Vec<u8>, NoMemory> {
    let mut text = Vec::new(alloc);
    text.extend_from_slice(b"INT x; ")?;
    let mut statement = Vec::new(alloc);
    statement.extend_from_slice(b"x := 1")?;
    for link in links {
        text.extend_from_slice(b"PROC ")?;
        text.push(link.name)?;
        text.extend_from_slice(b"; BEGIN ")?;
        repeat(&mut text, statement.as_slice(), link.times)?;
        text.extend_from_slice(b" END; ")?;
        statement.clear();
        statement.extend_from_slice(b"CALL ")?;
        statement.push(link.name)?;
    }
    text.extend_from_slice(b"PROC top MAIN; BEGIN CALL CHECKMONITOR")?;
    repeat(&mut text, statement.as_slice(), times)?;
    text.extend_from_slice(b" END;")?;
    Ok(text)
}

/// How many nodes the graph of such a program has.
fn count(alloc: Global, links: &[Link], times: usize) -> Result<Result<u16, FlowFault>, Fail> {
    let text = text_of(alloc, links, times)?;
    let program = program_of(alloc, text.as_slice())?;
    let counted = match Flow::of(alloc, &program) {
        Ok(flow) => Ok(flow.len()),
        Err(FlowFault::NoMemory(_)) => return Err(Fail::from("out of memory")),
        Err(fault) => Err(fault),
    };
    Ok(counted)
}

#[test]
fn calls_may_go_sixteen_procedures_deep(rt: HostRuntime) -> Result<(), Fail> {
    let alloc = rt.alloc();
    let fifteen = links(alloc, b"abcdefghijklmno", 1)?;
    assert!(rt; count(alloc, fifteen.as_slice(), 1)? == Ok(17));
    let sixteen = links(alloc, b"abcdefghijklmnop", 1)?;
    assert!(rt; count(alloc, sixteen.as_slice(), 1)? == Err(FlowFault::TooDeep));
    Ok(())
}

#[test]
fn a_graph_may_have_8192_nodes(rt: HostRuntime) -> Result<(), Fail> {
    let alloc = rt.alloc();
    let just = [
        Link {
            name: b'a',
            times: 90,
        },
        Link {
            name: b'b',
            times: 90,
        },
    ];
    assert!(rt; count(alloc, &just, 1)? == Ok(8_192));
    let above = [
        Link {
            name: b'a',
            times: 64,
        },
        Link {
            name: b'b',
            times: 63,
        },
    ];
    assert!(rt; count(alloc, &above, 2)? == Err(FlowFault::TooLarge(8_193)));
    Ok(())
}

#[test]
fn a_size_is_told_as_far_as_it_goes(rt: HostRuntime) -> Result<(), Fail> {
    let alloc = rt.alloc();
    let tenfold = links(alloc, b"abcdefghijkl", 10)?;
    assert!(rt; count(alloc, tenfold.as_slice(), 1)? == Err(FlowFault::TooLarge(4_294_967_295)));
    Ok(())
}

#[test]
fn what_is_never_called_counts_for_nothing(rt: HostRuntime) -> Result<(), Fail> {
    let alloc = rt.alloc();
    let deep = links(alloc, b"abcdefghijklmnopq", 1)?;
    assert!(rt; count(alloc, deep.as_slice(), 0)? == Ok(1));
    let large = links(alloc, b"abcdefghijkl", 10)?;
    assert!(rt; count(alloc, large.as_slice(), 0)? == Ok(1));
    Ok(())
}
