ghost use Rattle.std.specs.Prelude.{◌≡◌};
ghost use Rattle.tal_names.specs.Faults.{least};
ghost use Rattle.tal_names.specs.Scopes.{or_else, meaning_of, is_file, is_variable, is_readable, is_array};
ghost use Rattle.tal_names.specs.Scopes.{is_receive_file, is_process_file, is_kept, suits, kind_faults, name_faults};

use crate::fault::{Rule, RuleFault};
use crate::least::{with_fault, with_fault_if};
use crate::meaning::{Meaning, Need};
use crate::scope::Scope;
use tal_syntax::{At, Ident};

/// What a name stands for.
pub fn meaning_of(scope: &Scope, name: Ident) -> Option<Meaning>
    ensures { result ≡ meaning_of scope.now name }
{
    match scope.locals.meaning(name) {
        Some(local) => Some(local),
        None => match scope.files.meaning(name) {
            Some(file) => Some(file),
            None => scope.globals.meaning(name),
        },
    }
}

fn is_variable(meaning: Meaning) -> bool
    ensures { result ≡ is_variable meaning }
{
    match meaning {
        Meaning::Local(_) => true,
        Meaning::Simple(_) => true,
        _ => false,
    }
}

fn is_readable(meaning: Meaning) -> bool
    ensures { result ≡ is_readable meaning }
{
    match meaning {
        Meaning::Literal(_) => true,
        _ => is_variable(meaning),
    }
}

fn is_array(meaning: Meaning) -> bool
    ensures { result ≡ is_array meaning }
{
    match meaning {
        Meaning::Array(_) => true,
        _ => false,
    }
}

fn is_file(meaning: Meaning) -> bool
    ensures { result ≡ is_file meaning }
{
    match meaning {
        Meaning::ReceiveFile { item: _, number: _ } => true,
        Meaning::ProcessFile { item: _, number: _ } => true,
        Meaning::StrayFile { item: _, number: _ } => true,
        _ => false,
    }
}

fn is_receive_file(meaning: Meaning) -> bool
    ensures { result ≡ is_receive_file meaning }
{
    match meaning {
        Meaning::ReceiveFile { item: _, number: _ } => true,
        _ => false,
    }
}

fn is_process_file(meaning: Meaning) -> bool
    ensures { result ≡ is_process_file meaning }
{
    match meaning {
        Meaning::ProcessFile { item: _, number: _ } => true,
        _ => false,
    }
}

fn is_kept(meaning: Meaning) -> bool
    ensures { result ≡ is_kept meaning }
{
    match meaning {
        Meaning::Simple(_) => true,
        Meaning::Array(_) => true,
        Meaning::ProcessFile { item: _, number: _ } => true,
        Meaning::StrayFile { item: _, number: _ } => true,
        _ => false,
    }
}

/// Whether what a name stands for may stand where something of a kind is needed.
fn suits(need: Need, meaning: Meaning) -> bool
    ensures { result ≡ suits need meaning }
{
    match need {
        Need::Variable => is_variable(meaning),
        Need::Readable => is_readable(meaning),
        Need::Array => is_array(meaning),
        Need::FileVariable => is_file(meaning),
        Need::Receive => is_receive_file(meaning),
        Need::Process => is_process_file(meaning),
        Need::Kept => is_kept(meaning),
    }
}

/// Judges what a name stands for where something of a kind is needed.
pub fn judge_kind(
    need: Need,
    at: At,
    found: Option<Meaning>,
    so_far: Option<RuleFault>,
) -> Option<RuleFault>
    ensures { result ≡ least so_far (kind_faults need at found) }
{
    match found {
        None => with_fault(so_far, at, Rule::Unknown),
        Some(meaning) => with_fault_if(so_far, !suits(need, meaning), at, Rule::WrongKind),
    }
}

/// Judges a name where something of a kind is needed.
pub fn judge_name(
    scope: &Scope,
    need: Need,
    at: At,
    name: Ident,
    so_far: Option<RuleFault>,
) -> Option<RuleFault>
    ensures { result ≡ least so_far (name_faults scope.now need at name) }
{
    judge_kind(need, at, meaning_of(scope, name), so_far)
}
