use gd_words::{Request, Words};
use node_links::{LinkFault, Links};
use std::test::Fail;

fn words(items: &[i16]) -> Result<Words, &'static str> {
    let mut words = Words::new();
    for item in items {
        if words.push(*item).is_err() {
            return Err("too many words");
        }
    }
    Ok(words)
}

fn request(process: u8, number: u32) -> Result<Request, &'static str> {
    Ok(Request {
        process,
        opener: 2,
        number,
        words: words(&[1, 2, 3])?,
    })
}

/// What a call on a link gave.
fn given<T>(answer: Result<T, LinkFault>) -> Result<T, &'static str> {
    match answer {
        Ok(value) => Ok(value),
        Err(LinkFault::NoSuchLink) => Err("no such link"),
        Err(LinkFault::NotAnswered) => Err("not answered"),
    }
}

#[test]
fn a_requesters_link_gives_the_first_reply(rt: HostRuntime) -> Result<(), Fail> {
    let mut links = Links::new(rt.alloc());
    let link = links.link(request(3, 7)?)?;
    let asked = links.requested(link).ok_or("no request")?;
    assert_eq!(rt; asked.process, 3);
    assert_eq!(rt; asked.opener, 2);
    assert_eq!(rt; asked.number, 7);
    assert!(rt; asked.words.as_slice() == [1, 2, 3].as_slice());
    assert!(rt; links.break_link(link).err() == Some(LinkFault::NotAnswered));
    given(links.replied(link, words(&[0, 5])?))?;
    given(links.replied(link, words(&[9])?))?;
    let reply = given(links.break_link(link))?;
    assert!(rt; reply.as_slice() == [0, 5].as_slice());
    assert!(rt; links.requested(link).is_none());
    assert!(rt; links.break_link(link).err() == Some(LinkFault::NoSuchLink));
    assert!(rt; links.replied(link, words(&[9])?).err() == Some(LinkFault::NoSuchLink));
    Ok(())
}

#[test]
fn a_call_on_the_other_kind_finds_no_link(rt: HostRuntime) -> Result<(), Fail> {
    let mut links = Links::new(rt.alloc());
    let asked = links.link(request(3, 1)?)?;
    let arrived = links.arrived(request(3, 1)?)?;
    assert!(rt; asked != arrived);
    let none = Some(LinkFault::NoSuchLink);
    assert!(rt; links.read_link(asked).err() == none);
    assert!(rt; links.write_link(asked, &words(&[0])?).err() == none);
    assert!(rt; links.end_link(asked).err() == none);
    assert!(rt; links.requested(arrived).is_none());
    assert!(rt; links.replied(arrived, words(&[0])?).err() == none);
    assert!(rt; links.break_link(arrived).err() == none);
    assert!(rt; links.requested(asked).is_some());
    assert_eq!(rt; links.listen(3), Some(arrived));
    Ok(())
}

#[test]
fn a_server_hears_its_oldest_link_first(rt: HostRuntime) -> Result<(), Fail> {
    let mut links = Links::new(rt.alloc());
    let first = links.arrived(request(3, 1)?)?;
    let second = links.arrived(request(3, 2)?)?;
    given(links.end_link(first))?;
    let third = links.arrived(request(3, 3)?)?;
    assert_eq!(rt; third, first);
    assert_eq!(rt; links.listen(3), Some(second));
    assert_eq!(rt; links.listen(4), None);
    given(links.read_link(second))?;
    assert_eq!(rt; links.listen(3), Some(third));
    Ok(())
}

#[test]
fn a_servers_link_is_read_again_and_answered_once(rt: HostRuntime) -> Result<(), Fail> {
    let mut links = Links::new(rt.alloc());
    let link = links.arrived(request(3, 2)?)?;
    given(links.read_link(link))?;
    let read = given(links.read_link(link))?;
    assert_eq!(rt; read.number, 2);
    assert!(rt; read.words.as_slice() == [1, 2, 3].as_slice());
    let reply = given(links.write_link(link, &words(&[0, -4])?))?;
    assert_eq!(rt; reply.process, 3);
    assert_eq!(rt; reply.opener, 2);
    assert_eq!(rt; reply.number, 2);
    assert!(rt; reply.words.as_slice() == [0, -4].as_slice());
    assert!(rt; links.end_link(link).err() == Some(LinkFault::NoSuchLink));
    Ok(())
}

#[test]
fn a_request_that_came_twice_has_its_oldest_link(rt: HostRuntime) -> Result<(), Fail> {
    let mut links = Links::new(rt.alloc());
    let other = links.arrived(request(4, 9)?)?;
    let first = links.arrived(request(3, 9)?)?;
    given(links.end_link(other))?;
    let second = links.arrived(request(3, 9)?)?;
    assert!(rt; second < first);
    given(links.read_link(first))?;
    assert_eq!(rt; links.link_of(3, 2, 9), Some(first));
    given(links.end_link(first))?;
    assert_eq!(rt; links.link_of(3, 2, 9), Some(second));
    assert_eq!(rt; links.link_of(4, 2, 9), None);
    assert_eq!(rt; links.link_of(3, 1, 9), None);
    assert_eq!(rt; links.link_of(3, 2, 8), None);
    Ok(())
}
