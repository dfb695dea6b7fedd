ghost use Rattle.std.specs.Prelude.{◌≡◌, ◌==◌, ◌++◌, if◌then◌else◌, [], slice_get, IfOk, OnOk};
ghost use Rattle.std.specs.List.{flat_map};
ghost use Rattle.node_needs.specs.NodeNeeds.{needs_at, of_terminals};
ghost use Rattle.open_links.specs.Parts.{awaited_by_terminal, awaited_of, in_hand_of, waiting_of};
ghost use Rattle.world_copies.specs.sendings.specs.letters.specs.Again.{awaited_from};
ghost use Rattle.world_copies.specs.world_semantics.specs.World.{terminal_node};

use crate::copies::{add_awaited, add_in_hand, add_request, add_waiting};
use crate::links::{NodeLinks, RequestName};
use gd_words::{List, NoMemory, Request};
use std::alloc::Global;
use world_copies::{ProcessCopies, TERMINAL_NODE, WorldCopies};

/// The open links of a node.
pub fn links_of(alloc: Global, world: &WorldCopies, node: u8) -> Result<NodeLinks, NoMemory>
    ensures { IfOk result (λ links. links ≡ needs_at world.now.site world.now.world node) }
{
    let processes = world.processes();
    let waiting = waiting(alloc, processes, node)?;
    let in_hand = in_hand(alloc, processes, node)?;
    let mut awaited = awaited(alloc, processes, node)?;
    add_awaited_at_terminals(world, node, &mut awaited)?;
    Ok(NodeLinks {
        waiting,
        in_hand,
        awaited,
    })
}

/// The requests that wait at the copies on a node.
fn waiting(alloc: Global, processes: &[ProcessCopies], node: u8) -> Result<List<Request>, NoMemory>
    ensures { IfOk result (λ requests. requests ≡ flat_map (waiting_of node) processes.now) }
{
    let mut requests = List::new(alloc);
    for process in processes {
        add_waiting(process, node, &mut requests)?;
    }
    Ok(requests)
}

/// Those that the copies which act there have in hand.
fn in_hand(
    alloc: Global,
    processes: &[ProcessCopies],
    node: u8,
) -> Result<List<RequestName>, NoMemory>
    ensures { IfOk result (λ names. names ≡ flat_map (in_hand_of node) processes.now) }
{
    let mut names = List::new(alloc);
    for process in processes {
        add_in_hand(process, node, &mut names)?;
    }
    Ok(names)
}

/// Those whose replies such copies await.
fn awaited(alloc: Global, processes: &[ProcessCopies], node: u8) -> Result<List<Request>, NoMemory>
    ensures { IfOk result (λ requests. requests ≡ flat_map (awaited_of node) processes.now) }
{
    let mut requests = List::new(alloc);
    for process in processes {
        add_awaited(process, node, &mut requests)?;
    }
    Ok(requests)
}

/// Those whose replies terminals await are added to `requests`, if the terminals are at the node.
fn add_awaited_at_terminals(
    world: &WorldCopies,
    node: u8,
    requests: &mut List<Request>,
) -> Result<(), NoMemory>
    ensures { OnOk result (requests.new ≡ requests.old ++ (if node == terminal_node
        then of_terminals (awaited_from world.now.site) 0 world.now.world.terminals else [])) }
{
    if node == TERMINAL_NODE {
        add_awaited_by_terminals(world, requests)
    } else {
        Ok(())
    }
}

/// Those of all terminals are added.
fn add_awaited_by_terminals(
    world: &WorldCopies,
    requests: &mut List<Request>,
) -> Result<(), NoMemory>
    ensures { OnOk result (requests.new ≡ requests.old
        ++ of_terminals (awaited_from world.now.site) 0 world.now.world.terminals) }
{
    for number in 0..world.terminals().len() {
        add_awaited_by(world, number, requests)?;
    }
    Ok(())
}

/// That of the terminal of a number is added, if it awaits one.
fn add_awaited_by(
    world: &WorldCopies,
    number: usize,
    requests: &mut List<Request>,
) -> Result<(), NoMemory>
    ensures { OnOk result (requests.new ≡ requests.old
        ++ awaited_by_terminal world.now.site number (slice_get world.now.world.terminals number)) }
{
    match world.terminals().get(number) {
        None => Ok(()),
        Some(terminal) => add_request(world.awaited_from(number, *terminal), requests),
    }
}
