ghost use Rattle.std.specs.Prelude.{◌≡◌, ◌↔◌, [], ◌∷◌, ◌++◌, flat_map, IsTrue, IfOk};
ghost use Rattle.std.specs.Option.{option_map};
ghost use Rattle.std.specs.List.{list_any};
ghost use Rattle.path_semantics.specs.Path.{number_at, IsPath};
ghost use Rattle.path_semantics.specs.Break.{Breaks};
ghost use Rattle.path_semantics.specs.Reached.{is_number, is_next, stepped, reached, breaks_next};

use crate::reason::Reason;
use crate::stand::Stand;
use gd_words::NoMemory;
use process_semantics::entry_number;
use std::alloc::Global;
use tal_tree::Program;

/// Whether a list of statement numbers is a path of the program.
pub fn leads_somewhere(alloc: Global, program: &Program, path: &[u16]) -> Result<bool, NoMemory>
    ensures { IfOk result (λ is. IsTrue is ↔ IsPath program.now path.now) }
{
    let stands = reached(alloc, program, path)?;
    let stands = stands.as_slice();
    Ok(!stands.is_empty())
}

/// Whether a list of statement numbers is a path of the program that breaks for a reason.
pub fn breaks_there(
    alloc: Global,
    program: &Program,
    path: &[u16],
    reason: Reason,
) -> Result<bool, NoMemory>
    ensures { IfOk result (λ is. IsTrue is ↔ Breaks program.now path.now reason) }
{
    let Some((last, front)) = path.split_last() else {
        return Ok(false);
    };
    let stands = reached(alloc, program, front)?;
    Ok(any_breaks(program, stands.as_slice(), *last, reason))
}

/// The stands to which a path leads; none where it is no path.
pub(crate) fn reached<'a>(
    alloc: Global,
    program: &'a Program,
    path: &[u16],
) -> Result<Vec<Stand<'a>>, NoMemory>
    ensures { IfOk result (λ stands. stands.items ≡ reached program.now path.now) }
{
    let mut stands = Vec::new(alloc);
    stands.push(Stand::first(alloc, program)?)?;
    for number in path {
        stands = stepped(alloc, program, stands.as_slice(), *number)?;
    }
    Ok(stands)
}

fn stepped<'a>(
    alloc: Global,
    program: &'a Program,
    stands: &[Stand<'a>],
    number: u16,
) -> Result<Vec<Stand<'a>>, NoMemory>
    ensures { IfOk result (λ all. all.items ≡ flat_map (stepped program.now number) stands.now) }
{
    let mut all = Vec::new(alloc);
    for stand in stands {
        if stand.is_next(number) {
            let mut more = stand.successors(alloc, program)?;
            all.append(&mut more)?;
        }
    }
    Ok(all)
}

fn any_breaks(program: &Program, stands: &[Stand<'_>], number: u16, reason: Reason) -> bool
    ensures { result ≡ list_any (breaks_next program.now reason number) stands.now }
{
    for stand in stands {
        if stand.is_next(number) && stand.breaks(program, reason) {
            return true;
        }
    }
    false
}

impl<'a> Stand<'a> {
    /// Whether the next entry has this number.
    pub(crate) fn is_next(&self, number: u16) -> bool
        ensures { result ≡ is_next number self.now }
    {
        match self.number() {
            None => false,
            Some(next) => next == u32::from(number),
        }
    }

    /// The number of the next entry.
    pub(crate) fn number(&self) -> Option<u32>
        ensures { result ≡ number_at self.now }
    {
        match self.next() {
            None => None,
            Some(entry) => Some(entry_number(entry)),
        }
    }
}
