ghost use Rattle.std.specs.Prelude.{◌≡◌, ◌<◌, ◌≤◌, ◌+◌, ◌^◌, All, false, length, Some, IfOk};
ghost use Rattle.std.specs.Option.{option_map};
ghost use Rattle.gd_words.specs.declared.limits.TheConstants.{MOST_FILES};
ghost use Rattle.gd_words.specs.Ranges.{HasNext};
ghost use Rattle.process_semantics.specs.declared.point.Point.TheVariants.{Inner, Take, Ask, Await, Answer, Device};
ghost use Rattle.process_semantics.specs.Process.{asked_file, call_of, in_hand, point};
ghost use Rattle.whole_states.specs.Listing.{files_of};
ghost use Rattle.whole_states.specs.Processes.{IsWholeProcess};
ghost use Rattle.checkpoint_image.specs.Behaving.{last_write_of};
ghost use Rattle.checkpoint_image.specs.Receive.{request_standing};
ghost use Rattle.checkpoint_image.specs.declared.receive.RequestStanding.TheVariants.{Next};
ghost use Rattle.computed_changes.specs.sync_ids.specs.Tables.{IsDepth};
ghost use Rattle.computed_changes.specs.world_semantics.specs.Core.{core_acting, core_getting, core_going, next_on};
ghost use Rattle.process_control.specs.Cores.{core_taking, asking_of, core_asking, answering_of, core_answering};
ghost use Rattle.process_control.specs.Copies.{copy_at_start, copy_blank, with_core};

use crate::inside::CopyCore;
use crate::told::{Answering, Asking};
use checkpoint_image::{Behaviour, RequestStanding};
use computed_changes::{Receive, Role};
use gd_words::{DeviceCall, NoMemory, Request, Sector, Words};
use process_semantics::Point;
use std::alloc::Global;
use std::marker::Model;
use tal_tree::OpenerSpec;

/// One copy of a process.
#[derive(Drop)]
pub struct CopyControl<B: Behaviour> {
    pub(crate) role: Role,
    pub(crate) era: u32,
    pub(crate) number: u32,
    pub(crate) sent: bool,
    pub(crate) acknowledged: bool,
    pub(crate) renewal: bool,
    pub(crate) core: CopyCore<B>,
}

impl<B: Behaviour> Model for CopyControl<B> {
    ghost use Rattle.std.specs.Coded.{codes};
    ghost use Rattle.tal_tree.specs.contracts.statement.Statement as statement;
    ghost use Rattle.process_control.specs.Copies.{CopyState};

    ghost Value = { CopyState };

    ghost coded = { Prim.hlevel (codes, statement.the_row.coded) };

    ghost view = { λ copy. record {
      role = copy.role;
      era = copy.era;
      number = copy.number;
      sent = copy.sent;
      acknowledged = copy.acknowledged;
      renewal = copy.renewal;
      core = copy.core.core;
      depths = copy.core.depths;
    } };
}

impl<B: Behaviour> CopyControl<B> {
    /// A copy at its start: of a process that has nothing in hand, with so many files and these openers.
    pub fn start(
        alloc: Global,
        behaviour: B,
        role: Role,
        openers: &[OpenerSpec],
        files: u8,
    ) -> Result<CopyControl<B>, NoMemory>
        requires whole { IsWholeProcess (B.state behaviour) }
        requires free { in_hand (B.state behaviour) ≡ false }
        requires files { files ≡ files_of (B.state behaviour) }
        requires few_files { files ≤ MOST_FILES }
        requires few_openers { length openers.now < 4096 }
        requires depths { All (λ opener. IsDepth opener.depth) openers.now }
        ensures { IfOk result (λ copy. copy ≡ copy_at_start role (B.state behaviour) files openers.now) }
    {
        let core = CopyCore::start(alloc, behaviour, files, openers)?;
        Ok(CopyControl {
            role,
            era: 0,
            number: 0,
            sent: false,
            acknowledged: false,
            renewal: false,
            core,
        })
    }

    /// The blank copy of a process at its beginning, in a processor that was loaded again: in this era.
    pub fn blank(
        alloc: Global,
        behaviour: B,
        era: u32,
        openers: &[OpenerSpec],
        files: u8,
    ) -> Result<CopyControl<B>, NoMemory>
        requires whole { IsWholeProcess (B.state behaviour) }
        requires free { in_hand (B.state behaviour) ≡ false }
        requires files { files ≡ files_of (B.state behaviour) }
        requires few_files { files ≤ MOST_FILES }
        requires few_openers { length openers.now < 4096 }
        requires depths { All (λ opener. IsDepth opener.depth) openers.now }
        ensures { IfOk result (λ copy. copy ≡ copy_blank era (B.state behaviour) files openers.now) }
    {
        let mut copy = CopyControl::start(alloc, behaviour, Role::Blank, openers, files)?;
        copy.era = era;
        Ok(copy)
    }

    pub fn role(&self) -> Role
        ensures { result ≡ self.now.role }
    {
        self.role
    }

    pub fn era(&self) -> u32
        ensures { result ≡ self.now.era }
    {
        self.era
    }

    /// The number of the last checkpoint sent or applied in its era.
    pub fn number(&self) -> u32
        ensures { result ≡ self.now.number }
    {
        self.number
    }

    /// Whether it has sent a checkpoint where it stands.
    pub fn sent(&self) -> bool
        ensures { result ≡ self.now.sent }
    {
        self.sent
    }

    /// Whether what it sent was acknowledged.
    pub fn acknowledged(&self) -> bool
        ensures { result ≡ self.now.acknowledged }
    {
        self.acknowledged
    }

    /// Whether it has to send everything that it has.
    pub fn renewal(&self) -> bool
        ensures { result ≡ self.now.renewal }
    {
        self.renewal
    }

    /// Where its process stands.
    pub fn point(&self) -> Point
        ensures { result ≡ point self.now.core.state }
    {
        self.core.point()
    }

    /// Its process.
    pub fn behaviour(&self) -> &B
        ensures { B.state result.now ≡ self.now.core.state }
    {
        self.core.behaviour()
    }

    /// Its receive table, which tells what waits and which reply is sent again.
    pub fn receive(&self) -> &Receive
        ensures table { result.now.table ≡ self.now.core.receive }
        ensures depths { result.now.depths ≡ self.now.depths }
    {
        self.core.receive()
    }

    /// The place of the opener whose request is in hand.
    pub fn in_hand(&self) -> Option<u16>
        ensures { result ≡ self.now.core.receive.in_hand }
    {
        self.core.receive().in_hand()
    }

    /// How a request stands to its receive table. Where it was answered, and the reply is kept, this is told again.
    pub fn standing(&self, request: &Request) -> RequestStanding
        requires { request.now.opener < length self.now.depths }
        ensures { result ≡ request_standing self.now.core.receive request.now }
    {
        self.core.receive().standing(request.opener, request.number)
    }

    /// The numbers of the next requests, from file 0 on.
    pub fn next(&self) -> &[u32]
        ensures { result.now ≡ self.now.core.next }
    {
        self.core.next()
    }

    /// How many files it has.
    pub fn files(&self) -> u8
        ensures { result ≡ length self.now.core.next }
    {
        self.core.files()
    }

    /// The number of the next request on a file.
    pub fn next_on(&self, file: u8) -> u32
        ensures { result ≡ next_on self.now.core file }
    {
        self.core.next_on(file)
    }

    /// A step inside.
    pub fn inner(&mut self)
        requires { point self.old.core.state ≡ Inner }
        ensures { self.new ≡ with_core self.old (core_going self.old.core) }
    {
        self.core.inner();
    }

    /// Takes a request that stands Next: it is in hand then.
    pub fn take(&mut self, request: &Request)
        requires point { point self.old.core.state ≡ Take }
        requires next { request_standing self.old.core.receive request.now ≡ Next }
        ensures { option_map (with_core self.old) (core_taking request.now self.old.core) ≡ Some self.new }
    {
        self.core.take(request);
    }

    /// Asks on a file, and awaits the reply from now on. The number after that of this request has 32 bits.
    pub fn ask(&mut self) -> Asking
        requires point { point self.old.core.state ≡ Ask }
        requires number { HasNext (next_on self.old.core (asked_file self.old.core.state)) }
        ensures asking { result ≡ asking_of self.old.core }
        ensures copy { self.new ≡ with_core self.old (core_asking self.old.core) }
    {
        self.core.ask()
    }

    /// Gets the reply that it awaits.
    pub fn got(&mut self, words: &Words)
        requires { point self.old.core.state ≡ Await }
        ensures { self.new ≡ with_core self.old (core_getting words.now self.old.core) }
    {
        self.core.got(words);
    }

    /// Answers the request in hand, and keeps the reply.
    pub fn answer(&mut self) -> Answering
        requires { point self.old.core.state ≡ Answer }
        ensures answering { answering_of self.old.core ≡ Some result }
        ensures copy { option_map (with_core self.old) (core_answering self.old.depths self.old.core) ≡ Some self.new }
    {
        self.core.answer()
    }

    /// What it does to its device.
    pub fn device(&self) -> DeviceCall
        requires point { point self.now.core.state ≡ Device }
        requires numbers { HasNext (last_write_of self.now.core.state) }
        ensures { result ≡ call_of self.now.core.state }
    {
        self.core.device()
    }

    /// The step at its device, with the words that stood on the sector.
    pub fn device_done(&mut self, found: &Sector)
        requires point { point self.old.core.state ≡ Device }
        requires numbers { HasNext (last_write_of self.old.core.state) }
        ensures { self.new ≡ with_core self.old (core_acting found.now self.old.core) }
    {
        self.core.device_done(found);
    }
}
