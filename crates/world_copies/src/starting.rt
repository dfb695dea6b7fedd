ghost use Rattle.std.specs.Prelude.{◌≡◌, length, map, IfOk};
ghost use Rattle.tal_tree.specs.declared.site.Who.TheVariants as who;
ghost use Rattle.plain_semantics.specs.Openers.{opener_of};
ghost use Rattle.plain_semantics.specs.SiteLimits.{KeepsSiteLimits};
ghost use Rattle.world_semantics.specs.World.{pairs_at_boot};
ghost use Rattle.process_copies.specs.Starting.{IsStartable};
ghost use Rattle.world_copies.specs.Seen.{terminal_row};
ghost use Rattle.world_copies.specs.SiteWorld.{site_world_at_boot};
ghost use Rattle.world_copies.specs.Starting.{placed_from};

use crate::copies::WorldCopies;
use crate::counts::ReloadCounts;
use crate::processors::Processors;
use crate::terminal::Terminal;
use gd_words::{List, NoMemory};
use logs::Shared;
use plain_semantics::opener_of;
use process_copies::{Address, Downs, ProcessCopies, Records, address_of};
use std::alloc::Global;
use tal_tree::{Site, TerminalSpec, Who};

impl WorldCopies {
    /// The world at the beginning.
    pub fn boot(alloc: Global, site: &Shared<Site>) -> Result<WorldCopies, NoMemory>
        requires { IsStartable site.now }
        ensures { IfOk result (λ copies. copies ≡ site_world_at_boot site.now) }
    {
        let places = terminal_places(alloc, site.get())?;
        let stopped = Processors::new(alloc, site.get().processors)?;
        let reloads = ReloadCounts::new(alloc, site.get().processors)?;
        let processes = first_processes(alloc, site.get())?;
        let terminals = first_terminals(alloc, site.get().terminals.as_slice())?;
        let records = Records::new(alloc)?;
        let site = site.share()?;
        Ok(WorldCopies {
            alloc,
            site,
            places,
            stopped,
            reloads,
            downs: Downs::new(alloc),
            processes,
            terminals,
            records,
        })
    }
}

fn first_processes(alloc: Global, site: &Site) -> Result<Vec<ProcessCopies>, NoMemory>
    requires { IsStartable site.now }
    ensures { IfOk result (λ all. all.items ≡ placed_from site.now 0 site.now.processes) }
{
    let mut all = Vec::new(alloc);
    let specs = site.processes.as_slice();
    for (number, spec) in specs.iter().enumerate() {
        let process = ProcessCopies::start(alloc, site, number as u8, spec)?;
        all.push(process)?;
    }
    Ok(all)
}

fn first_terminals(alloc: Global, specs: &[TerminalSpec]) -> Result<Vec<Terminal>, NoMemory>
    ensures { IfOk result (λ all. all.items ≡ map (λ terminal. record { entered = 0; printed = 0 }) specs.now) }
{
    let mut all = Vec::new(alloc);
    for _spec in specs {
        all.push(Terminal::new())?;
    }
    Ok(all)
}

/// Where each terminal stands.
fn terminal_places(alloc: Global, site: &Site) -> Result<List<Option<Address>>, NoMemory>
    requires { KeepsSiteLimits site.now }
    ensures { IfOk result (λ places. places ≡ terminal_row site.now 0 site.now.terminals) }
{
    let mut places = List::new(alloc);
    let specs = site.terminals.as_slice();
    for (number, _spec) in specs.iter().enumerate() {
        let place = place_of(alloc, site, number as u8)?;
        places.push(place)?;
    }
    Ok(places)
}

/// Where a terminal stands.
fn place_of(alloc: Global, site: &Site, terminal: u8) -> Result<Option<Address>, NoMemory>
    requires { KeepsSiteLimits site.now }
    ensures { IfOk result (λ place. place ≡ opener_of site.now (who.Terminal terminal)) }
{
    let opener = opener_of(alloc, site, Who::Terminal(terminal))?;
    Ok(address_of(opener))
}
