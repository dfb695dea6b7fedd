ghost use Rattle.std.specs.Prelude.{◌≡◌};
ghost use Rattle.letters.specs.world_semantics.specs.World.{is_running};

pub use logs::TERMINAL_NODE;

/// Whether a node runs: a processor that hasn't stopped, or the node of the terminals.
pub fn is_running(stopped: &[bool], node: u8) -> bool
    ensures { result ≡ is_running stopped.now node }
{
    let place = usize::from(node);
    if place < stopped.len() {
        !stopped[place]
    } else {
        node == TERMINAL_NODE
    }
}
