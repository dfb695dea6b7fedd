ghost use Rattle.std.specs.Prelude.{◌≡◌, ◌≤◌, length, slice_get};
ghost use Rattle.std.specs.List.{All};
ghost use Rattle.std.specs.Option.{option_map};
ghost use Rattle.plain_semantics.specs.Openers.{files_of, files_from, processes_from, terminals_from, openers_of};
ghost use Rattle.plain_semantics.specs.SiteLimits.{KeepsSiteLimits};
ghost use Rattle.plain_semantics.specs.Sought.{sought};
ghost use Rattle.process_semantics.specs.gd_words.specs.declared.limits.TheConstants.{MOST_FILES, MOST_PROCESSES};
ghost use Rattle.process_semantics.specs.gd_words.specs.declared.limits.TheConstants.{MOST_TERMINALS};

use crate::opening::{files_of, opens};
use process_semantics::{FileUse, Name, ProcessSpec, Site, TerminalSpec, Who};

/// What came of looking for a place among openers: the one there, or how many places are left past the last one.
pub enum Sought {
    At(Who),
    Past(usize),
}

#[tactic(auto, using(crate::proofs::Soughts::sought_who))]
/// Who stands at a place among the openers of a process. It takes no memory.
pub fn opener_at(site: &Site, process: usize, place: usize) -> Option<Who>
    requires { KeepsSiteLimits site.now }
    ensures { result ≡ option_map (λ opener. opener.who) (slice_get (openers_of site.now process) place) }
{
    match sought_opener(site, process, place) {
        Sought::At(who) => Some(who),
        Sought::Past(_) => None,
    }
}

#[tactic(auto, using(crate::proofs::Soughts::sought_append))]
fn sought_opener(site: &Site, process: usize, place: usize) -> Sought
    requires { KeepsSiteLimits site.now }
    ensures { result ≡ sought (openers_of site.now process) place }
{
    let Some(named) = site.processes.get(process) else {
        return Sought::Past(place);
    };
    match sought_in_processes(&named.name, site.processes.as_slice(), place) {
        Sought::At(who) => Sought::At(who),
        Sought::Past(left) => sought_in_terminals(process, site.terminals.as_slice(), left),
    }
}

#[tactic(auto, using(crate::proofs::Soughts::sought_append))]
fn sought_in_processes(name: &Name, processes: &[ProcessSpec], place: usize) -> Sought
    requires few { length processes.now ≤ MOST_PROCESSES }
    requires files { All (λ spec. length (files_of spec.what) ≤ MOST_FILES) processes.now }
    ensures { result ≡ sought (processes_from name.now 0 processes.now) place }
{
    let mut left = place;
    for (number, process) in processes.iter().enumerate() {
        match sought_in_files(name, number as u8, files_of(&process.what), left) {
            Sought::At(who) => return Sought::At(who),
            Sought::Past(more) => left = more,
        }
    }
    Sought::Past(left)
}

fn sought_in_files(name: &Name, process: u8, files: &[FileUse], place: usize) -> Sought
    requires { length files.now ≤ MOST_FILES }
    ensures { result ≡ sought (files_from name.now process 0 files.now) place }
{
    let mut left = place;
    for (number, file) in files.iter().enumerate() {
        if opens(name, &file.target) {
            if left == 0 {
                let file = number as u8;
                return Sought::At(Who::File { process, file });
            }
            left -= 1;
        }
    }
    Sought::Past(left)
}

fn sought_in_terminals(process: usize, terminals: &[TerminalSpec], place: usize) -> Sought
    requires { length terminals.now ≤ MOST_TERMINALS }
    ensures { result ≡ sought (terminals_from process 0 terminals.now) place }
{
    let mut left = place;
    for (number, terminal) in terminals.iter().enumerate() {
        if usize::from(terminal.target) == process {
            if left == 0 {
                return Sought::At(Who::Terminal(number as u8));
            }
            left -= 1;
        }
    }
    Sought::Past(left)
}
