ghost use Rattle.std.specs.Prelude.{◌≡◌, slice_get};
ghost use Rattle.plain_semantics.specs.Openers.{files_of, server_of_file};
ghost use Rattle.left_findings.specs.Left.{server_of_stand};

use crate::finding::Stand;
use plain_semantics::{files_of, server_of};
use tal_tree::{ProcessSpec, Site};

/// The process whose reply a process awaits that stands so.
pub(crate) fn server_of_stand(site: &Site, spec: &ProcessSpec, stand: Stand) -> Option<usize>
    ensures { result ≡ server_of_stand site.now spec.now stand }
{
    match stand {
        Stand::AtAwait(awaited) => server_by(site, spec, usize::from(awaited.file)),
        Stand::AtTakeover => None,
        Stand::Ended => None,
        Stand::AtTake => None,
        Stand::AtAcknowledgement(_) => None,
        Stand::CanStep => None,
    }
}

/// The process that a file of a process asks.
fn server_by(site: &Site, spec: &ProcessSpec, file: usize) -> Option<usize>
    ensures { result ≡ server_of_file site.now (slice_get (files_of spec.now.what) file) }
{
    let used = files_of(&spec.what).get(file)?;
    server_of(site, &used.target)
}
