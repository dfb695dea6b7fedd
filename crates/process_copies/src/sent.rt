ghost use Rattle.std.specs.Prelude.{◌≡◌, [], ◌∷◌, OnErr, OnOk};
ghost use Rattle.std.specs.Option.{option_copied};
ghost use Rattle.node_copies.specs.computed_changes.specs.Changed.{one_before};

use gd_words::NoMemory;
use logs::{GhostLog, Shared};
use std::alloc::Global;
use std::marker::Model;
use std::mem;
use world_semantics::ImageMessage;

/// The checkpoints that the copies of a process ever sent. The last two are kept, so that the next one can go as what
/// changed; contracts alone see the others.
#[derive(Drop)]
pub struct SentCheckpoints {
    all: GhostLog<ImageMessage>,
    last: Option<Shared<ImageMessage>>,
    before: Option<Shared<ImageMessage>>,
}

impl Model for SentCheckpoints {
    ghost use Rattle.std.specs.Prelude.{◌≡◌, List};
    ghost use Rattle.std.specs.Coded.{codes};
    ghost use Rattle.world_semantics.specs.checkpoint_image.specs.declared.message.ImageMessage as checkpoint;
    ghost use Rattle.node_copies.specs.computed_changes.specs.Changed.{last_of, one_before};

    ghost Value = { List checkpoint.ImageMessage };

    ghost coded = { Prim.hlevel codes };

    ghost view = { λ sent. sent.all };

    ghost invariant = { λ sent. (sent.last ≡ last_of sent.all) × (sent.before ≡ one_before sent.all) };
}

impl SentCheckpoints {
    /// None was sent.
    pub fn new(alloc: Global) -> SentCheckpoints
        ensures { result ≡ [] }
    {
        SentCheckpoints {
            all: GhostLog::new(alloc),
            last: None,
            before: None,
        }
    }

    /// One more was sent, after all others.
    pub fn add(&mut self, message: Shared<ImageMessage>) -> Result<(), NoMemory>
        ensures ok { OnOk result (self.new ≡ message ∷ self.old) }
        ensures err { OnErr result (self.new ≡ self.old) }
    {
        self.all.add(message.get())?;
        self.before = mem::replace(&mut self.last, Some(message));
        Ok(())
    }

    /// The one before the last.
    pub fn one_before(&self) -> Option<&ImageMessage>
        ensures { option_copied result ≡ one_before self.now }
    {
        match &self.before {
            None => None,
            Some(message) => Some(message.get()),
        }
    }
}
