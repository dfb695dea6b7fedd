ghost use Rattle.std.specs.Prelude.{◌≡◌, ◌∷◌, [], IfOk, map};

use gd_words::{List, NoMemory, Words};
use std::alloc::Global;
use std::process::Abort;
use std::test::Fail;
use sync_ids::{OpenerChange, Receive, ReceiveChange, change_between};
use tal_tree::{OpenerSpec, Who};

/// One opener, of which two replies are kept.
const OPENERS: [OpenerSpec; 1] = [OpenerSpec {
    who: Who::Terminal(0),
    depth: 2,
}];

fn fresh(alloc: Global) -> Result<Receive, NoMemory>
    ensures { IfOk result (λ receive. receive.depths ≡ 2 ∷ []) }
{
    Receive::new(alloc, &OPENERS)
}

/// Takes the next request.
fn take(rt: &impl Abort, receive: &mut Receive)
    requires { receive.old.depths ≡ 2 ∷ [] }
    ensures { receive.new.depths ≡ 2 ∷ [] }
{
    assert!(rt; receive.in_hand() == None && receive.taken(0) < 100);
    receive.take(0);
}

/// Answers the request in hand with one word.
fn answer(rt: &impl Abort, receive: &mut Receive, reply: i16)
    requires { receive.old.depths ≡ 2 ∷ [] }
    ensures { receive.new.depths ≡ 2 ∷ [] }
{
    assert!(rt; receive.in_hand() == Some(0));
    let mut words = Words::new();
    let _full = words.push(reply);
    assert!(rt; receive.reply(&words) == 0);
}

/// Two openers, of each of which one reply is kept.
const BOTH: [OpenerSpec; 2] = [
    OpenerSpec {
        who: Who::Terminal(0),
        depth: 1,
    },
    OpenerSpec {
        who: Who::Terminal(1),
        depth: 1,
    },
];

fn fresh_both(alloc: Global) -> Result<Receive, NoMemory>
    ensures { IfOk result (λ receive. receive.depths ≡ 1 ∷ 1 ∷ []) }
{
    Receive::new(alloc, &BOTH)
}

/// What changes of openers: of each so many taken, and so many replies added.
fn changes_of(alloc: Global, openers: &[(u16, u32, u8)]) -> Result<ReceiveChange, NoMemory> {
    let mut changes = List::new(alloc);
    for (opener, taken, count) in openers {
        let mut added = List::new(alloc);
        for _reply in 0..*count {
            added.push(Words::new())?;
        }
        changes.push(OpenerChange {
            opener: *opener,
            taken: *taken,
            added,
        })?;
    }
    Ok(ReceiveChange {
        changes,
        in_hand: None,
    })
}

#[test]
fn a_change_is_put_into_the_earlier_copy(rt: HostRuntime) -> Result<(), Fail> {
    let alloc = rt.alloc();
    let mut sender = fresh(alloc)?;
    let mut copy = fresh(alloc)?;
    take(&rt, &mut sender);
    let base = sender.block(alloc)?;
    assert!(rt; copy.put_block(&base));
    answer(&rt, &mut sender, 5);
    take(&rt, &mut sender);
    let later = sender.block(alloc)?;
    assert!(rt; later.openers.len() == 1);
    let change = change_between(alloc, &base, &later)?;
    assert!(rt; change.changes.len() == 1);
    let added = change.changes.get(0).map(|change| change.added.len());
    assert!(rt; added == Some(1) && change.in_hand == Some(0));
    assert!(rt; copy.put_change(&change));
    assert!(rt; copy.taken(0) == 2 && copy.in_hand() == Some(0));
    Ok(())
}

#[test]
fn what_does_not_fit_changes_nothing(rt: HostRuntime) -> Result<(), Fail> {
    let alloc = rt.alloc();
    let rows = [
        ([(1, 1, 0), (0, 1, 0)], "openers that fall"),
        ([(0, 1, 1), (0, 2, 1)], "an opener twice"),
        ([(0, 1, 1), (2, 1, 0)], "an opener that isn't there"),
        ([(0, 1, 1), (1, 3, 2)], "more replies than the depth"),
        ([(0, 1, 1), (1, 0, 1)], "more replies than were taken"),
    ];
    for (openers, what) in rows {
        let mut copy = fresh_both(alloc)?;
        let change = changes_of(alloc, &openers)?;
        assert!(rt; !copy.put_change(&change), "{what}");
        assert!(rt; copy.taken(0) == 0 && copy.taken(1) == 0, "{what}");
    }
    let mut copy = fresh_both(alloc)?;
    let fits = changes_of(alloc, &[(0, 1, 1), (1, 3, 1)])?;
    assert!(rt; copy.put_change(&fits));
    assert!(rt; copy.taken(0) == 1 && copy.taken(1) == 3);
    Ok(())
}
