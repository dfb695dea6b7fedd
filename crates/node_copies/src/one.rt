ghost use Rattle.std.specs.Prelude.{◌≡◌};
ghost use Rattle.process_semantics.specs.Process.{point};
ghost use Rattle.kept_acts.specs.world_semantics.specs.Shares.{share_of};
ghost use Rattle.node_copies.specs.Seen.{control_of};

use file_calls::Waiting;
use kept_acts::{CopyShare, Role};
use process_control::CopyControl;
use process_semantics::Point;
use processes::Process;
use std::marker::Model;

/// A copy of a process in its processor, with the requests that wait there and its share of the kept acts.
#[derive(Drop)]
pub struct NodeCopy {
    pub(crate) processor: u8,
    pub(crate) control: CopyControl<Process>,
    pub(crate) waiting: Waiting,
    pub(crate) share: CopyShare,
}

impl Model for NodeCopy {
    ghost use Rattle.std.specs.Prelude.{◌≡◌, length};
    ghost use Rattle.std.specs.Coded.{codes};
    ghost use Rattle.tal_tree.specs.contracts.statement.Statement as statement;
    ghost use Rattle.node_copies.specs.Seen.{CopyAndDepths, copy_with};

    ghost Value = { CopyAndDepths };

    ghost coded = { Prim.hlevel (codes, statement.the_row.coded) };

    ghost view = { λ one. record {
      copy = copy_with one.processor one.control one.waiting.requests one.share;
      depths = one.control.depths;
    } };

    ghost invariant = { λ one. one.waiting.openers ≡ length one.control.depths };
}

impl NodeCopy {
    pub fn processor(&self) -> u8
        ensures { result ≡ self.now.copy.processor }
    {
        self.processor
    }

    pub fn role(&self) -> Role
        ensures { result ≡ self.now.copy.role }
    {
        self.control.role()
    }

    pub fn era(&self) -> u32
        ensures { result ≡ self.now.copy.era }
    {
        self.control.era()
    }

    pub fn sent(&self) -> bool
        ensures { result ≡ self.now.copy.sent }
    {
        self.control.sent()
    }

    pub fn acknowledged(&self) -> bool
        ensures { result ≡ self.now.copy.acknowledged }
    {
        self.control.acknowledged()
    }

    /// Whether it has to send everything that it has.
    pub fn renewal(&self) -> bool
        ensures { result ≡ self.now.copy.renewal }
    {
        self.control.renewal()
    }

    pub fn point(&self) -> Point
        ensures { result ≡ point self.now.copy.core.state }
    {
        self.control.point()
    }

    /// The copy by itself, without its processor, its waiting requests and its share.
    pub fn control(&self) -> &CopyControl<Process>
        ensures { result.now ≡ control_of self.now }
    {
        &self.control
    }

    /// The requests that wait.
    pub fn waiting(&self) -> &Waiting
        ensures { result.now.requests ≡ self.now.copy.waiting }
    {
        &self.waiting
    }

    /// The copy's share of the kept acts: how many of them it has done, and which acts it holds back.
    pub fn share(&self) -> &CopyShare
        ensures { result.now ≡ share_of self.now.copy }
    {
        &self.share
    }
}
