ghost use Rattle.std.specs.Prelude.{◌≡◌, ◌++◌, option_to_list, IfOk, OnOk};
ghost use Rattle.wait_rings.specs.Rings.{ring_of, rings_of};
ghost use Rattle.wait_rings.specs.Waits.{TellsRings, awaited_next};

use gd_words::{List, NoMemory};
use std::alloc::Global;

/// The rings of those that wait, by the number of the one that each awaits, if it awaits one. Each ring stands there
/// once, from its lowest number on, and the rings rise by that.
pub fn rings(alloc: Global, awaited: &[Option<usize>]) -> Result<List<List<usize>>, NoMemory>
    ensures tells { IfOk result (λ all. TellsRings awaited.now all) }
    ensures same { IfOk result (λ all. all ≡ rings_of awaited.now) }
{
    let mut all = List::new(alloc);
    put_rings(alloc, &mut all, awaited)?;
    Ok(all)
}

fn put_rings(
    alloc: Global,
    all: &mut List<List<usize>>,
    awaited: &[Option<usize>],
) -> Result<(), NoMemory>
    ensures { OnOk result (all.new ≡ all.old ++ rings_of awaited.now) }
{
    for first in 0..awaited.len() {
        let ring = ring_of(alloc, awaited, first)?;
        put_ring(all, ring)?;
    }
    Ok(())
}

/// Puts a ring behind the others, if there is one.
fn put_ring(all: &mut List<List<usize>>, ring: Option<List<usize>>) -> Result<(), NoMemory>
    ensures { OnOk result (all.new ≡ all.old ++ option_to_list ring) }
{
    match ring {
        None => Ok(()),
        Some(ring) => {
            all.push(ring)?;
            Ok(())
        }
    }
}

/// The ring whose lowest number this is.
fn ring_of(
    alloc: Global,
    awaited: &[Option<usize>],
    first: usize,
) -> Result<Option<List<usize>>, NoMemory>
    ensures { IfOk result (λ ring. ring ≡ ring_of awaited.now first) }
{
    let mut members = List::new(alloc);
    let mut one = first;
    // No ring has more members than there are.
    let mut left = awaited;
    while let Some((_, rest)) = left.split_first() {
        members.push(one)?;
        let Some(next) = awaited_next(awaited, one) else {
            return Ok(None);
        };
        if next == first {
            return Ok(Some(members));
        }
        if next < first {
            return Ok(None);
        }
        one = next;
        left = rest;
    }
    Ok(None)
}

fn awaited_next(awaited: &[Option<usize>], one: usize) -> Option<usize>
    ensures { result ≡ awaited_next awaited.now one }
{
    *awaited.get(one)?
}
