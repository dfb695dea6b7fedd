ghost use Rattle.std.specs.Prelude.{◌≡◌, ◌<◌, length, IfOk, IfSome};
ghost use Rattle.std.specs.Option.{option_copied};
ghost use Rattle.tal_tree.specs.declared.site.Who.TheVariants as who;
ghost use Rattle.plain_semantics.specs.Machine.{next_request};
ghost use Rattle.plain_semantics.specs.Openers.{opener_of};
ghost use Rattle.plain_semantics.specs.SiteLimits.{KeepsSiteLimits};
ghost use Rattle.gd_words.specs.declared.limits.TheConstants.{MOST_REQUESTS};

use crate::tables::{file_rows, found_file, found_terminal, terminal_row};
use gd_words::{List, NoMemory, Words};
use plain_semantics::Opener;
use std::alloc::Global;
use std::marker::Model;
use tal_tree::Site;

/// A site, with tables of where its files and terminals stand among the openers of the processes that they ask.
#[derive(Drop)]
pub struct Wires<'a> {
    site: &'a Site,
    files: List<List<Option<Opener>>>,
    terminals: List<Option<Opener>>,
}

impl<'a> Model for Wires<'a> {
    ghost use Rattle.std.specs.Prelude.{◌≡◌};
    ghost use Rattle.std.specs.Coded.{codes};
    ghost use Rattle.tal_tree.specs.contracts.statement.Statement as statement;
    ghost use Rattle.tal_tree.specs.declared.site.Site.{Site as Wired};
    ghost use Rattle.plain_semantics.specs.SiteLimits.{KeepsSiteLimits};
    ghost use Rattle.plain_machine.specs.Wiring.{file_rows, terminal_row};

    ghost Value = { Wired };

    ghost coded = { Prim.hlevel (codes, statement.the_row.coded) };

    ghost view = { λ wires. wires.site.now };

    ghost invariant = { λ wires. (wires.files ≡ file_rows wires.site.now 0 wires.site.now.processes)
        × (wires.terminals ≡ terminal_row wires.site.now 0 wires.site.now.terminals) × KeepsSiteLimits wires.site.now };
}

impl<'a> Wires<'a> {
    /// The tables of a site.
    pub(crate) fn new(alloc: Global, site: &'a Site) -> Result<Wires<'a>, NoMemory>
        requires { KeepsSiteLimits site.now }
        ensures { IfOk result (λ wires. wires ≡ site.now) }
    {
        let files = file_rows(alloc, site, site.processes.as_slice())?;
        let terminals = terminal_row(alloc, site, site.terminals.as_slice())?;
        Ok(Wires {
            site,
            files,
            terminals,
        })
    }

    pub(crate) fn process_count(&self) -> u8
        ensures { result ≡ length self.now.processes }
    {
        self.site.processes.len() as u8
    }

    pub(crate) fn terminal_count(&self) -> u8
        ensures { result ≡ length self.now.terminals }
    {
        self.site.terminals.len() as u8
    }

    /// The request that a terminal sends after it has entered `entered` of them. `None` if it has no more.
    pub(crate) fn request(&self, terminal: usize, entered: u32) -> Option<&Words>
        ensures request { option_copied result ≡ next_request self.now terminal entered }
        ensures few { IfSome result (λ words. entered < MOST_REQUESTS) }
    {
        match self.site.terminals.get(terminal) {
            None => None,
            Some(terminal) => terminal.requests.get(entered as usize),
        }
    }

    /// Where a file of a process stands.
    pub(crate) fn file(&self, process: usize, file: u8) -> Option<Opener>
        ensures { result ≡ opener_of self.now (who.File process file) }
    {
        found_file(&self.files, process, file)
    }

    /// Where a terminal stands.
    pub(crate) fn terminal(&self, terminal: usize) -> Option<Opener>
        ensures { result ≡ opener_of self.now (who.Terminal terminal) }
    {
        found_terminal(&self.terminals, terminal)
    }
}
