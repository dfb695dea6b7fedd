ghost use Rattle.std.specs.Prelude.{◌≡◌, [], ◌∷◌, length, reverse, OnOk, OnErr};
ghost use Rattle.gd_words.specs.Ranges.{HasNext};
ghost use Rattle.node_copies.specs.ShownCounts.{is_write, replies_in, writes_in};

use gd_words::NoMemory;
use logs::Log;
use std::alloc::Global;
use std::marker::Model;
use tal_tree::Shown;

/// What was shown, with how much of it are writes and how much replies.
#[derive(Drop)]
pub struct ShownLog {
    log: Log<Shown>,
    writes: u32,
    replies: u32,
}

impl Model for ShownLog {
    ghost use Rattle.std.specs.Prelude.{◌≡◌, List};
    ghost use Rattle.tal_tree.specs.declared.act.Shown.{Shown};
    ghost use Rattle.gd_words.specs.Ranges.{HasNext};
    ghost use Rattle.node_copies.specs.ShownCounts.{replies_in, writes_in};

    ghost Value = { List Shown };

    ghost view = { λ all. all.log };

    ghost invariant = { λ all. (all.writes ≡ writes_in all.log) × (all.replies ≡ replies_in all.log) };
}

impl ShownLog {
    /// Nothing was shown.
    pub fn new(alloc: Global) -> ShownLog
        ensures { result ≡ [] }
    {
        ShownLog {
            log: Log::new(alloc),
            writes: 0,
            replies: 0,
        }
    }

    /// What was shown, the oldest first.
    pub fn as_slice(&self) -> &[Shown]
        ensures { result.now ≡ reverse self.now }
    {
        self.log.as_slice()
    }

    /// How many writes were shown.
    pub fn writes(&self) -> u32
        ensures { result ≡ writes_in self.now }
    {
        self.writes
    }

    /// How many replies were shown.
    pub fn replies(&self) -> u32
        ensures { result ≡ replies_in self.now }
    {
        self.replies
    }

    /// One more is shown. All that is shown can be counted in 32 bits.
    pub fn add(&mut self, one: Shown) -> Result<(), NoMemory>
        requires { HasNext (length self.old) }
        ensures ok { OnOk result (self.new ≡ one ∷ self.old) }
        ensures err { OnErr result (self.new ≡ self.old) }
    {
        let is_write = is_write(&one);
        self.log.add(one)?;
        if is_write {
            self.writes += 1;
        } else {
            self.replies += 1;
        }
        Ok(())
    }
}

fn is_write(one: &Shown) -> bool
    ensures { result ≡ is_write one.now }
{
    match one {
        Shown::Write { .. } => true,
        Shown::Reply { .. } => false,
    }
}
