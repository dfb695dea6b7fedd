ghost use Rattle.std.specs.Prelude.{◌≡◌, length};
ghost use Rattle.std.specs.Option.{option_copied};
ghost use Rattle.disc_device.specs.mirror.specs.States.{drive_state_at};
ghost use Rattle.node_copies.specs.Seen.{drives_on, sectors_on};
ghost use Rattle.process_semantics.specs.Process.{point};
ghost use Rattle.plain_semantics.specs.Openers.{openers_of};
ghost use Rattle.world_semantics.specs.World.{copy_of, is_acting, is_pair_of, is_watching, other_of};
ghost use Rattle.node_copies.specs.sendings.specs.letters.specs.Routes.{other_end};
ghost use Rattle.node_copies.specs.computed_changes.specs.Changed.{one_before};
ghost use Rattle.node_copies.specs.computed_changes.specs.Handed.{copy_in};

use crate::sent::SentCheckpoints;
use crate::two::TwoCopies;
use disc_device::{Disc, DriveState, Stored};
use gd_words::List;
use logs::GhostLog;
use node_copies::{Address, NodeCopy};
use process_semantics::Point;
use std::marker::Model;
use std::snapshot::Snapshot;
use tal_tree::{OpenerSpec, Site};
use world_semantics::{ImageMessage, Role, TakenMessage, Which};

/// A process in its place in a site: its two copies in their processors, which of them leads, how many kept acts the
/// last checkpoint covers, the last two checkpoints that its copies sent, and its device, if it is a disc. All that
/// they ever sent, and which of them were taken, are seen by contracts alone.
#[derive(Drop)]
pub struct ProcessCopies {
    pub(crate) site: Snapshot<Site>,
    pub(crate) number: u8,
    pub(crate) openers: List<OpenerSpec>,
    pub(crate) files: List<Option<Address>>,
    pub(crate) copies: TwoCopies,
    pub(crate) led: Which,
    pub(crate) base: u64,
    pub(crate) checkpoints: SentCheckpoints,
    pub(crate) takens: GhostLog<TakenMessage>,
    pub(crate) device: Option<Disc>,
}

impl Model for ProcessCopies {
    ghost use Rattle.std.specs.Prelude.{◌≡◌};
    ghost use Rattle.std.specs.Coded.{codes};
    ghost use Rattle.tal_tree.specs.contracts.statement.Statement as statement;
    ghost use Rattle.plain_semantics.specs.Openers.{openers_of};
    ghost use Rattle.node_copies.specs.computed_changes.specs.Fitting.{depths_of};
    ghost use Rattle.node_copies.specs.Seen.{drives_on, openers_on, sectors_on};
    ghost use Rattle.process_copies.specs.Seen.{Placed};

    ghost Value = { Placed };

    ghost coded = { Prim.hlevel (codes, statement.the_row.coded) };

    ghost view = { λ process. record {
      site = process.site.value;
      number = process.number;
      pair = record {
        first = process.copies.first.copy;
        second = process.copies.second.copy;
        base = process.base;
        checkpoints = process.checkpoints;
        takens = process.takens;
        sectors = sectors_on process.device;
        led = process.led;
      };
      drives = drives_on process.device;
    } };

    ghost invariant = { λ process. (process.openers ≡ openers_of process.site.value process.number)
        × (process.files ≡ openers_on process.site.value process.number)
        × (process.copies.first.depths ≡ depths_of process.site.value process.number)
        × (process.copies.second.depths ≡ depths_of process.site.value process.number) };
}

impl ProcessCopies {
    pub fn number(&self) -> u8
        ensures { result ≡ self.now.number }
    {
        self.number
    }

    /// Its openers, in order.
    pub fn openers(&self) -> &[OpenerSpec]
        ensures { result.now ≡ openers_of self.now.site self.now.number }
    {
        self.openers.as_slice()
    }

    /// A copy in its processor.
    pub fn copy(&self, which: Which) -> &NodeCopy
        ensures { result.now.copy ≡ copy_of which self.now.pair }
    {
        self.copies.of(which)
    }

    /// The copy that leads.
    pub fn led(&self) -> Which
        ensures { result ≡ self.now.pair.led }
    {
        self.led
    }

    /// Whether one of its copies acts and the other one watches.
    pub fn is_pair(&self) -> bool
        ensures { result ≡ is_pair_of self.now.pair.first.role self.now.pair.second.role }
    {
        match self.copies.first.role() {
            Role::Acting => is_watching(self.copies.second.role()),
            Role::Watching => is_acting(self.copies.second.role()),
            Role::Blank | Role::Gone => false,
        }
    }

    /// The sectors of its device; none where it has no device.
    pub fn sectors(&self) -> &[Stored]
        ensures { result.now ≡ self.now.pair.sectors }
    {
        match &self.device {
            None => &[],
            Some(disc) => disc.sectors(),
        }
    }

    /// How many sectors its device has.
    pub fn sector_count(&self) -> u8
        ensures { result ≡ length self.now.pair.sectors }
    {
        match &self.device {
            None => 0,
            Some(disc) => disc.count(),
        }
    }

    /// Its device, if it is a disc.
    pub fn disc(&self) -> Option<&Disc>
        ensures sectors { sectors_on (option_copied result) ≡ self.now.pair.sectors }
        ensures drives { drives_on (option_copied result) ≡ self.now.drives }
    {
        self.device.as_ref()
    }

    /// How the drive of its device at a place stands; one that isn't there has failed.
    pub fn standing(&self, drive: u8) -> DriveState
        ensures { result ≡ drive_state_at self.now.drives drive }
    {
        match &self.device {
            None => DriveState::Failed,
            Some(disc) => disc.standing(drive),
        }
    }

    /// The checkpoint that was sent before the last one.
    pub fn checkpoint_before(&self) -> Option<&ImageMessage>
        ensures { option_copied result ≡ one_before self.now.pair.checkpoints }
    {
        self.checkpoints.one_before()
    }

    pub fn processor(&self, which: Which) -> u8
        ensures { result ≡ (copy_of which self.now.pair).processor }
    {
        self.copies.of(which).processor()
    }

    pub fn role(&self, which: Which) -> Role
        ensures { result ≡ (copy_of which self.now.pair).role }
    {
        self.copies.of(which).role()
    }

    /// Where a copy stands.
    pub fn point(&self, which: Which) -> Point
        ensures { result ≡ point (copy_of which self.now.pair).core.state }
    {
        self.copies.of(which).point()
    }

    /// Which copy is in a processor.
    pub fn copy_in(&self, node: u8) -> Option<Which>
        ensures { result ≡ copy_in node self.now.pair }
    {
        if self.copies.first.processor() == node {
            return Some(Which::First);
        }
        if self.copies.second.processor() == node {
            return Some(Which::Second);
        }
        None
    }

    /// The processor of the other copy, seen from the node of one of them.
    pub fn other_end(&self, node: u8) -> u8
        ensures { result ≡ other_end node self.now.pair }
    {
        if self.copies.first.processor() == node {
            self.copies.second.processor()
        } else {
            self.copies.first.processor()
        }
    }
}

/// The other copy.
pub(crate) fn other_of(which: Which) -> Which
    ensures { result ≡ other_of which }
{
    match which {
        Which::First => Which::Second,
        Which::Second => Which::First,
    }
}

pub(crate) fn is_watching(role: Role) -> bool
    ensures { result ≡ is_watching role }
{
    match role {
        Role::Watching => true,
        Role::Acting | Role::Blank | Role::Gone => false,
    }
}

fn is_acting(role: Role) -> bool
    ensures { result ≡ is_acting role }
{
    match role {
        Role::Acting => true,
        Role::Watching | Role::Blank | Role::Gone => false,
    }
}
