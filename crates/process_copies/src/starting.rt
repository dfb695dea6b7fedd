ghost use Rattle.std.specs.Prelude.{◌≡◌, ◌≤◌, if◌then◌else◌, All, None, Some, length, slice_get, IfOk};
ghost use Rattle.std.specs.Option.{IfSome};
ghost use Rattle.plain_semantics.specs.Openers.{files_of, openers_of};
ghost use Rattle.plain_semantics.specs.SiteLimits.{KeepsSiteLimits};
ghost use Rattle.node_copies.specs.processes.specs.Seen.{IsLoadableKind};
ghost use Rattle.node_copies.specs.sync_ids.specs.Tables.{IsDepth};
ghost use Rattle.disc_device.specs.mirror.specs.Mirror.{all_working};
ghost use Rattle.disc_device.specs.mirror.specs.Sectors.{blanks};
ghost use Rattle.node_copies.specs.machine_states.specs.Drives.{states_at_boot};
ghost use Rattle.world_semantics.specs.World.{device_at_boot};
ghost use Rattle.node_copies.specs.Seen.{drives_on, file_row, sectors_on};
ghost use Rattle.process_copies.specs.Starting.{HasAddress, HasSectors, IsStartable, placed_at_boot};
ghost use Rattle.gd_words.specs.declared.limits.TheConstants.{MOST_FILES, MOST_SECTORS};

use crate::copies::ProcessCopies;
use crate::sent::SentCheckpoints;
use crate::two::TwoCopies;
use disc_device::Disc;
use gd_words::{List, NoMemory};
use logs::GhostLog;
use node_copies::{Address, NodeCopy};
use plain_semantics::{Opener, files_of, opener_of, openers};
use std::alloc::Global;
use std::snapshot::Snapshot;
use tal_tree::{FileUse, Kind, ProcessSpec, Site, Who};
use world_semantics::{Role, Which};

impl ProcessCopies {
    /// The process of a number in a site at its beginning.
    pub fn start(
        alloc: Global,
        site: &Site,
        number: u8,
        spec: &ProcessSpec,
    ) -> Result<ProcessCopies, NoMemory>
        requires startable { IsStartable site.now }
        requires there { slice_get site.now.processes number ≡ Some spec.now }
        ensures { IfOk result (λ process. process
            ≡ placed_at_boot site.now number spec.now) }
    {
        let process = start_in(alloc, site, number, spec)?;
        Ok(process)
    }
}

fn start_in(
    alloc: Global,
    site: &Site,
    number: u8,
    spec: &ProcessSpec,
) -> Result<ProcessCopies, NoMemory>
    requires limits { KeepsSiteLimits site.now }
    requires there { slice_get site.now.processes number ≡ Some spec.now }
    requires loadable { IsLoadableKind spec.now.what }
    requires sectors { HasSectors spec.now.what }
    requires few { length (files_of spec.now.what) ≤ MOST_FILES }
    requires depths { All (λ opener. IsDepth opener.depth) (openers_of site.now number) }
    ensures { IfOk result (λ process. process
        ≡ placed_at_boot site.now number spec.now) }
{
    let what = &spec.what;
    let openers = openers(alloc, site, usize::from(number))?;
    let files = addresses(alloc, site, number, files_of(what))?;
    let first = NodeCopy::start(alloc, what, spec.primary, Role::Acting, openers.as_slice())?;
    let second = NodeCopy::start(alloc, what, spec.backup, Role::Watching, openers.as_slice())?;
    let device = start_device(alloc, what)?;
    Ok(ProcessCopies {
        site: Snapshot::of(site),
        number,
        openers,
        files,
        copies: TwoCopies { first, second },
        led: Which::First,
        base: 0,
        checkpoints: SentCheckpoints::new(alloc),
        takens: GhostLog::new(alloc),
        device,
    })
}

/// Where each of these files of a process stands.
fn addresses(
    alloc: Global,
    site: &Site,
    number: u8,
    uses: &[FileUse],
) -> Result<List<Option<Address>>, NoMemory>
    requires limits { KeepsSiteLimits site.now }
    requires few { length uses.now ≤ MOST_FILES }
    ensures { IfOk result (λ files. files ≡ file_row site.now number 0 uses.now) }
{
    let mut files = List::new(alloc);
    for (file, _file) in uses.iter().enumerate() {
        let who = Who::File {
            process: number,
            file: file as u8,
        };
        let opener = opener_of(alloc, site, who)?;
        files.push(address_of(opener))?;
    }
    Ok(files)
}

/// The address of an opener, which its numbers fit.
pub fn address_of(opener: Option<Opener>) -> Option<Address>
    requires { IfSome opener HasAddress }
    ensures { result ≡ opener }
{
    match opener {
        None => None,
        Some(opener) => Address::of(opener),
    }
}

/// The device of a disc; a program has none.
fn start_device(alloc: Global, what: &Kind) -> Result<Option<Disc>, NoMemory>
    requires { HasSectors what.now }
    ensures sectors { IfOk result (λ device. sectors_on device ≡ device_at_boot what.now) }
    ensures drives { IfOk result (λ device. drives_on device ≡ states_at_boot what.now) }
{
    match what {
        Kind::Disc { sectors, mirrored } => {
            let disc = start_disc(alloc, *sectors, *mirrored)?;
            Ok(Some(disc))
        }
        Kind::Pair(_) => Ok(None),
    }
}

/// A disc on which nothing was written, with two drives if it is mirrored.
fn start_disc(alloc: Global, sectors: u8, mirrored: bool) -> Result<Disc, NoMemory>
    requires some { 1 ≤ sectors }
    requires few { sectors ≤ MOST_SECTORS }
    ensures { IfOk result (λ disc. disc
        ≡ all_working (blanks sectors) (if mirrored then Some (blanks sectors) else None)) }
{
    if mirrored {
        Disc::mirrored(alloc, sectors)
    } else {
        Disc::new(alloc, sectors)
    }
}
