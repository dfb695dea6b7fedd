ghost use Rattle.std.specs.Prelude.{◌≡◌, ◌<◌, length, IfOk};

use checkpoint_image::RequestStanding;
use gd_words::{NoMemory, Words};
use std::alloc::Global;
use std::process::Abort;
use std::test::Fail;
use sync_ids::Receive;
use tal_tree::{OpenerSpec, Who};

/// A process that has one opener, of which one reply is kept.
fn fresh(alloc: Global) -> Result<Receive, NoMemory>
    ensures { IfOk result (λ receive. length receive.depths ≡ 1) }
{
    let who = Who::Terminal(0);
    Receive::new(alloc, &[OpenerSpec { who, depth: 1 }])
}

/// Takes the next request.
fn take(rt: &impl Abort, receive: &mut Receive)
    requires { 0 < length receive.old.depths }
    ensures { receive.new.depths ≡ receive.old.depths }
{
    assert!(rt; receive.in_hand() == None && receive.taken(0) < 100);
    receive.take(0);
}

/// Answers the request in hand with one word.
fn answer(rt: &impl Abort, receive: &mut Receive, reply: i16)
    ensures { receive.new.depths ≡ receive.old.depths }
{
    assert!(rt; receive.in_hand() == Some(0));
    let mut words = Words::new();
    let _full = words.push(reply);
    assert!(rt; receive.reply(&words) == 0);
}

/// How a number stands: the word that was kept, or -1 to -4 for what is old, in hand, next and ahead.
fn told(receive: &Receive, number: u32) -> Option<i16>
    requires { 0 < length receive.now.depths }
{
    match receive.standing(0, number) {
        RequestStanding::Kept(words) => words.get(0),
        RequestStanding::Old => Some(-1),
        RequestStanding::InHand => Some(-2),
        RequestStanding::Next => Some(-3),
        RequestStanding::Ahead => Some(-4),
    }
}

#[test]
fn a_table_is_put_into_a_fresh_one(rt: HostRuntime) -> Result<(), Fail> {
    let mut first = fresh(rt.alloc())?;
    take(&rt, &mut first);
    answer(&rt, &mut first, 7);
    take(&rt, &mut first);
    answer(&rt, &mut first, 8);
    take(&rt, &mut first);
    let block = first.block(rt.alloc())?;
    let mut second = fresh(rt.alloc())?;
    assert!(rt; second.fits(&block) && second.put_block(&block));
    assert!(rt; second.taken(0) == 3);
    for (number, wanted) in [(1, -1), (2, 8), (3, -2), (4, -3), (5, -4)] {
        assert!(rt; told(&second, number) == Some(wanted), "{number}");
    }
    answer(&rt, &mut second, 9);
    assert!(rt; told(&second, 3) == Some(9));
    Ok(())
}
