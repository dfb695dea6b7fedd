ghost use Rattle.std.specs.Prelude.{◌≡◌, ◌↔◌, IsTrue};
ghost use Rattle.plain_semantics.specs.Counted.{have_few_files, have_few_requests, is_small};
ghost use Rattle.plain_semantics.specs.SiteLimits.{KeepsSiteLimits};

use crate::opening::files_of;
use process_semantics::{
    MOST_FILES, MOST_PROCESSES, MOST_REQUESTS, MOST_TERMINALS, ProcessSpec, Site, TerminalSpec,
};

#[tactic(auto, using(crate::proofs::Small::small_keeps))]
/// Whether a site keeps the limits on which its places rest. It takes no memory.
pub fn keeps_site_limits(site: &Site) -> bool
    ensures { IsTrue result ↔ KeepsSiteLimits site.now }
{
    is_small(site)
}

fn is_small(site: &Site) -> bool
    ensures { result ≡ is_small site.now }
{
    site.processes.len() <= MOST_PROCESSES
        && site.terminals.len() <= MOST_TERMINALS
        && have_few_files(site.processes.as_slice())
        && have_few_requests(site.terminals.as_slice())
}

fn have_few_files(specs: &[ProcessSpec]) -> bool
    ensures { result ≡ have_few_files specs.now }
{
    specs
        .iter()
        .all(|spec| files_of(&spec.what).len() <= MOST_FILES as usize)
}

fn have_few_requests(specs: &[TerminalSpec]) -> bool
    ensures { result ≡ have_few_requests specs.now }
{
    specs
        .iter()
        .all(|spec| spec.requests.len() <= MOST_REQUESTS)
}
