ghost use Rattle.std.specs.Prelude.{◌≡◌, [], reverse, IfOk};
ghost use Rattle.node_copies.specs.ShownCounts.{replies_in, writes_in};

use crate::shown::ShownLog;
use gd_words::{NoMemory, Reply, Request};
use kept_acts::KeptActs;
use logs::GhostLog;
use std::alloc::Global;
use std::marker::Model;
use tal_tree::{Act, Shown};

/// What happened in a run: the requests and replies ever sent, which contracts alone see, what was shown, and the acts
/// that are kept.
#[derive(Drop)]
pub struct Records {
    pub(crate) requests: GhostLog<Request>,
    pub(crate) replies: GhostLog<Reply>,
    pub(crate) shown: ShownLog,
    pub(crate) kept: KeptActs,
}

impl Model for Records {
    ghost use Rattle.std.specs.Coded.{codes};
    ghost use Rattle.tal_tree.specs.contracts.statement.Statement as statement;
    ghost use Rattle.kept_acts.specs.world_semantics.specs.Records as happened;

    ghost Value = { happened.Records };

    ghost coded = { Prim.hlevel (codes, statement.the_row.coded) };

    ghost view = { λ all. record {
      requests = all.requests;
      replies = all.replies;
      shown = all.shown;
      kept = all.kept;
    } };
}

impl Records {
    /// Nothing happened.
    pub fn new(alloc: Global) -> Result<Records, NoMemory>
        ensures { IfOk result (λ records. records ≡ record { requests = []; replies = []; shown = []; kept = [] }) }
    {
        let kept = KeptActs::new(alloc)?;
        Ok(Records {
            requests: GhostLog::new(alloc),
            replies: GhostLog::new(alloc),
            shown: ShownLog::new(alloc),
            kept,
        })
    }

    /// What was shown, the oldest first.
    pub fn shown(&self) -> &[Shown]
        ensures { result.now ≡ reverse self.now.shown }
    {
        self.shown.as_slice()
    }

    /// How many writes were shown.
    pub fn writes(&self) -> u32
        ensures { result ≡ writes_in self.now.shown }
    {
        self.shown.writes()
    }

    /// How many replies were shown.
    pub fn replies(&self) -> u32
        ensures { result ≡ replies_in self.now.shown }
    {
        self.shown.replies()
    }

    /// The acts that are kept, the oldest first.
    pub fn acts(&self) -> &[Act]
        ensures { result.now ≡ reverse self.now.kept }
    {
        self.kept.as_slice()
    }
}
