ghost use Rattle.std.specs.Prelude.{IfOk, OnOk};
ghost use Rattle.plain_machine.specs.Standing.{AreLoadable, IsPlayable};
ghost use Rattle.processes.specs.Seen.{IsLoadableKind};

use gd_words::{List, Name, NoMemory, Words};
use plain_semantics::keeps_site_limits;
use std::alloc::Global;
use std::test::Fail;
use tal_tree::{Kind, ProcessSpec, Site, TerminalSpec};
use worked_programs::{BANK, program_of};

/// A process more, in the processors 0 and 1.
fn add(processes: &mut List<ProcessSpec>, name: &[u8], what: Kind) -> Result<(), Fail>
    requires others { AreLoadable processes.old }
    requires one { IsLoadableKind what }
    ensures { OnOk result (AreLoadable processes.new) }
{
    let name = Name::read(name).ok_or("no name")?;
    processes.push(ProcessSpec {
        name,
        primary: 0,
        backup: 1,
        what,
    })?;
    Ok(())
}

/// One terminal, which makes two deposits.
fn terminals(alloc: Global) -> Result<List<TerminalSpec>, Fail> {
    let name = Name::read(b"$T1").ok_or("no name")?;
    let mut requests = List::new(alloc);
    for deposit in [5, 7] {
        let mut words = Words::new();
        let _full = words.push(deposit);
        requests.push(words)?;
    }
    let mut terminals = List::new(alloc);
    terminals.push(TerminalSpec {
        name,
        target: 1,
        requests,
    })?;
    Ok(terminals)
}

/// A disc of sixteen sectors, the bank, which writes to it, and a terminal that asks the bank.
pub fn bank_site(alloc: Global) -> Result<Site, Fail>
    ensures { IfOk result IsPlayable }
{
    let program = program_of(alloc, BANK)?;
    let mut processes = List::new(alloc);
    add(
        &mut processes,
        b"$DATA",
        Kind::Disc {
            sectors: 16,
            mirrored: false,
        },
    )?;
    add(&mut processes, b"$BANK", Kind::Pair(program))?;
    let terminals = terminals(alloc)?;
    let site = Site {
        processors: 2,
        processes,
        terminals,
    };
    if keeps_site_limits(&site) {
        Ok(site)
    } else {
        Err(Fail::from("a larger site"))
    }
}
