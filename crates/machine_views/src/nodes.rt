ghost use Rattle.std.specs.Prelude.{◌≡◌, ◌++◌, map, IfOk, OnOk};
ghost use Rattle.machine_views.specs.Views.{down_of, downs_by, downs_in, terminal_view};

use crate::views::{DownView, TerminalView};
use gd_words::limits::{MOST_NODES, MOST_PROCESSORS};
use gd_words::{List, NoMemory};
use site_machine::{Downs, Machine, Terminal};
use std::alloc::Global;

/// How often each processor was loaded again.
pub(crate) fn reloads(alloc: Global, machine: &Machine) -> Result<List<u8>, NoMemory>
    ensures { IfOk result (λ times. times ≡ machine.now.state.world.reloads) }
{
    let mut times = List::new(alloc);
    times.extend_from_slice(machine.reloads())?;
    Ok(times)
}

/// The marks that stand.
pub(crate) fn down(alloc: Global, downs: &Downs) -> Result<List<DownView>, NoMemory>
    ensures { IfOk result (λ down. down ≡ downs_in downs.now) }
{
    let mut down = List::new(alloc);
    for node in 0..MOST_NODES {
        add_downs(downs, node, &mut down)?;
    }
    Ok(down)
}

/// The marks by a node are added to `down`.
fn add_downs(downs: &Downs, node: u8, down: &mut List<DownView>) -> Result<(), NoMemory>
    ensures { OnOk result (down.new ≡ down.old ++ downs_by downs.now node) }
{
    for processor in 0..MOST_PROCESSORS {
        add_down(downs, node, processor, down)?;
    }
    Ok(())
}

/// The mark of a processor by a node is added to `down`, if it stands.
fn add_down(
    downs: &Downs,
    node: u8,
    processor: u8,
    down: &mut List<DownView>,
) -> Result<(), NoMemory>
    ensures { OnOk result (down.new ≡ down.old ++ down_of downs.now node processor) }
{
    if downs.has(node, processor) {
        down.push(DownView {
            node,
            down: processor,
        })?;
    }
    Ok(())
}

/// The terminals, in deck order.
pub(crate) fn terminals(
    alloc: Global,
    terminals: &[Terminal],
) -> Result<List<TerminalView>, NoMemory>
    ensures { IfOk result (λ views. views ≡ map terminal_view terminals.now) }
{
    let mut views = List::new(alloc);
    for terminal in terminals {
        views.push(view_of(terminal))?;
    }
    Ok(views)
}

fn view_of(terminal: &Terminal) -> TerminalView
    ensures { result ≡ terminal_view terminal.now }
{
    TerminalView {
        entered: terminal.entered(),
        printed: terminal.printed(),
    }
}
