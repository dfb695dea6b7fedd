ghost use Rattle.std.specs.Prelude.{◌≡◌, ◌++◌, option_to_list, slice_get, OnOk};
ghost use Rattle.node_needs.specs.NodeNeeds.{awaited_at, in_hand_at, in_hand_by, waiting_at};
ghost use Rattle.world_copies.specs.world_semantics.specs.World.{copy_of};

use crate::links::RequestName;
use gd_words::{List, NoMemory, Request};
use world_copies::{NodeCopy, ProcessCopies, Role, Waiting, Which, copy_request};

/// The requests that wait at the copies of a process, if they are at a node, are added to `requests`.
pub(crate) fn add_waiting(
    process: &ProcessCopies,
    node: u8,
    requests: &mut List<Request>,
) -> Result<(), NoMemory>
    ensures { OnOk result (requests.new
        ≡ requests.old ++ waiting_at node process.now.pair.first ++ waiting_at node process.now.pair.second) }
{
    add_waiting_at(process.copy(Which::First), node, requests)?;
    add_waiting_at(process.copy(Which::Second), node, requests)?;
    Ok(())
}

/// Those that wait at one copy.
fn add_waiting_at(copy: &NodeCopy, node: u8, requests: &mut List<Request>) -> Result<(), NoMemory>
    ensures { OnOk result (requests.new ≡ requests.old ++ waiting_at node copy.now.copy) }
{
    if copy.processor() != node {
        return Ok(());
    }
    match copy.role() {
        Role::Gone => Ok(()),
        Role::Acting | Role::Watching | Role::Blank => add_all(copy.waiting(), requests),
    }
}

/// All requests that wait are added.
fn add_all(waiting: &Waiting, requests: &mut List<Request>) -> Result<(), NoMemory>
    ensures { OnOk result (requests.new ≡ requests.old ++ waiting.now.requests) }
{
    for place in 0..waiting.len() {
        add_from(waiting, place, requests)?;
    }
    Ok(())
}

/// The request at a place of those that wait is added, if there is one.
fn add_from(waiting: &Waiting, place: usize, requests: &mut List<Request>) -> Result<(), NoMemory>
    ensures { OnOk result (requests.new ≡ requests.old ++ option_to_list (slice_get waiting.now.requests place)) }
{
    match waiting.at(place) {
        None => Ok(()),
        Some(request) => {
            requests.push(copy_request(request))?;
            Ok(())
        }
    }
}

/// The requests that the copies of a process have in hand, if they act at a node, are added to `names`.
pub(crate) fn add_in_hand(
    process: &ProcessCopies,
    node: u8,
    names: &mut List<RequestName>,
) -> Result<(), NoMemory>
    ensures { OnOk result (names.new ≡ names.old
        ++ in_hand_at node process.now.number process.now.pair.first
        ++ in_hand_at node process.now.number process.now.pair.second) }
{
    add_in_hand_at(process.number(), process.copy(Which::First), node, names)?;
    add_in_hand_at(process.number(), process.copy(Which::Second), node, names)?;
    Ok(())
}

/// The request that one copy of the process of a number has in hand.
fn add_in_hand_at(
    number: u8,
    copy: &NodeCopy,
    node: u8,
    names: &mut List<RequestName>,
) -> Result<(), NoMemory>
    ensures { OnOk result (names.new ≡ names.old ++ in_hand_at node number copy.now.copy) }
{
    match copy.role() {
        Role::Watching | Role::Blank | Role::Gone => Ok(()),
        Role::Acting => {
            if copy.processor() != node {
                return Ok(());
            }
            add_name(in_hand_of(number, copy), names)
        }
    }
}

/// The request that a copy of the process of a number has in hand.
fn in_hand_of(number: u8, copy: &NodeCopy) -> Option<RequestName>
    ensures { option_to_list result
        ≡ in_hand_by number copy.now.copy.core.receive copy.now.copy.core.receive.in_hand }
{
    let receive = copy.control().receive();
    match receive.in_hand() {
        None => None,
        Some(opener) => Some(RequestName {
            process: number,
            opener,
            number: receive.taken(opener),
        }),
    }
}

fn add_name(name: Option<RequestName>, names: &mut List<RequestName>) -> Result<(), NoMemory>
    ensures { OnOk result (names.new ≡ names.old ++ option_to_list name) }
{
    match name {
        None => Ok(()),
        Some(name) => {
            names.push(name)?;
            Ok(())
        }
    }
}

/// The requests whose replies the copies of a process await, if they act at a node, are added to `requests`.
pub(crate) fn add_awaited(
    process: &ProcessCopies,
    node: u8,
    requests: &mut List<Request>,
) -> Result<(), NoMemory>
    ensures { OnOk result (requests.new ≡ requests.old
        ++ awaited_at process.now.site node process.now.number process.now.pair.first
        ++ awaited_at process.now.site node process.now.number process.now.pair.second) }
{
    add_awaited_by(process, Which::First, node, requests)?;
    add_awaited_by(process, Which::Second, node, requests)?;
    Ok(())
}

/// The request whose reply one copy awaits.
fn add_awaited_by(
    process: &ProcessCopies,
    which: Which,
    node: u8,
    requests: &mut List<Request>,
) -> Result<(), NoMemory>
    ensures { OnOk result (requests.new ≡ requests.old
        ++ awaited_at process.now.site node process.now.number (copy_of which process.now.pair)) }
{
    if process.acts_on(which, node) {
        add_request(process.awaited(which), requests)
    } else {
        Ok(())
    }
}

/// A request, if there is one, is added to `requests`.
pub(crate) fn add_request(
    request: Option<Request>,
    requests: &mut List<Request>,
) -> Result<(), NoMemory>
    ensures { OnOk result (requests.new ≡ requests.old ++ option_to_list request) }
{
    match request {
        None => Ok(()),
        Some(request) => {
            requests.push(request)?;
            Ok(())
        }
    }
}
