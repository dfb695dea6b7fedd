ghost use Rattle.std.specs.Prelude.{◌≡◌, ◌<◌, ◌≤◌, [], ◌++◌, length, slice_get, IfOk, OnOk};
ghost use Rattle.std.specs.Option.{unwrap_or};
ghost use Rattle.gd_words.specs.declared.limits.TheConstants.{MOST_PROCESSES};
ghost use Rattle.command_dues.specs.Mirrors.{mirror_at, mirrors_from};

use command_dues::{Machine, MirrorDrives};
use gd_words::{List, NoMemory};
use std::alloc::Global;
use tal_tree::{Kind, Site};

/// How the drives of the mirrored discs of a site stand, in deck order.
pub(crate) fn mirrors_of(
    alloc: Global,
    site: &Site,
    machine: &Machine,
) -> Result<List<MirrorDrives>, NoMemory>
    requires { length site.now.processes ≤ MOST_PROCESSES }
    ensures { IfOk result (λ mirrors. mirrors ≡ mirrors_from 0 site.now.processes machine.now.state.drives) }
{
    let mut mirrors = List::new(alloc);
    let specs = site.processes.as_slice();
    for (number, spec) in specs.iter().enumerate() {
        add_mirror(&mut mirrors, number as u8, &spec.what, machine)?;
    }
    Ok(mirrors)
}

/// The drives of the process of a number are added, if it is a mirrored disc.
fn add_mirror(
    mirrors: &mut List<MirrorDrives>,
    number: u8,
    what: &Kind,
    machine: &Machine,
) -> Result<(), NoMemory>
    ensures { OnOk result (mirrors.new ≡ mirrors.old
        ++ mirror_at number what.now (unwrap_or (slice_get machine.now.state.drives number) [])) }
{
    match what {
        Kind::Disc {
            sectors: _,
            mirrored: true,
        } => {
            mirrors.push(MirrorDrives {
                process: number,
                first: machine.standing(number, 0),
                second: machine.standing(number, 1),
            })?;
            Ok(())
        }
        Kind::Disc {
            sectors: _,
            mirrored: false,
        } => Ok(()),
        Kind::Pair(_) => Ok(()),
    }
}
