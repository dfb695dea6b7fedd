ghost use Rattle.std.specs.Prelude.{◌≡◌, ◌<◌, ◌≤◌, ◌+◌, All, false, true, is_some, length, Some, IfOk};
ghost use Rattle.std.specs.Option.{unwrap_or};
ghost use Rattle.gd_words.specs.declared.limits.TheConstants.{MOST_FILES};
ghost use Rattle.gd_words.specs.Ranges.{HasNext};
ghost use Rattle.process_semantics.specs.declared.point.Point.TheVariants.{Inner, Take, Ask, Await, Answer};
ghost use Rattle.process_semantics.specs.declared.point.Point.TheVariants.{AtCheckpoint, Device};
ghost use Rattle.process_semantics.specs.Process.{asked_file, call_of, in_hand, point};
ghost use Rattle.whole_states.specs.Listing.{files_of};
ghost use Rattle.whole_states.specs.Processes.{IsWholeProcess};
ghost use Rattle.checkpoint_image.specs.Behaving.{last_write_of};
ghost use Rattle.checkpoint_image.specs.Receive.{request_standing};
ghost use Rattle.checkpoint_image.specs.declared.receive.RequestStanding.TheVariants.{Next};
ghost use Rattle.computed_changes.specs.change_layout.specs.Changing.{whole_of};
ghost use Rattle.computed_changes.specs.sync_ids.specs.Changes.{fits_change};
ghost use Rattle.computed_changes.specs.sync_ids.specs.Tables.{IsDepth};
ghost use Rattle.computed_changes.specs.world_semantics.specs.Core.{after_passing, carried_image, carried_by};
ghost use Rattle.computed_changes.specs.world_semantics.specs.Core.{carried_whole};
ghost use Rattle.computed_changes.specs.world_semantics.specs.Core.{core_acting, core_at_start};
ghost use Rattle.computed_changes.specs.world_semantics.specs.Core.{core_getting, core_going, next_on};
ghost use Rattle.process_control.specs.Cores.{answering_of, asking_of, core_asking, core_taking, with_depths};
ghost use Rattle.process_control.specs.Cores.{core_answering};
ghost use Rattle.computed_changes.specs.Fitting.{put_fitting};

use crate::files::{are_files, next_on, numbers_of, put_files};
use crate::told::{Answering, Asking};
use checkpoint_image::{Behaviour, Image};
use computed_changes::{Asker, ChangeMessage, Receive};
use gd_words::{DeviceCall, NoMemory, Request, Sector, Words};
use process_semantics::Point;
use std::alloc::Global;
use std::marker::Model;
use tal_tree::OpenerSpec;

/// What a copy's checkpoints carry: the process, its receive table and the numbers of its files.
#[derive(Drop)]
pub struct CopyCore<B: Behaviour> {
    behaviour: B,
    receive: Receive,
    asker: Asker,
}

impl<B: Behaviour> Model for CopyCore<B> {
    ghost use Rattle.std.specs.Coded.{codes};
    ghost use Rattle.tal_tree.specs.contracts.statement.Statement as statement;
    ghost use Rattle.process_control.specs.Cores.{CoreAndDepths};
    ghost use Rattle.process_control.specs.Consistent.{IsConsistent};

    ghost Value = { CoreAndDepths };

    ghost coded = { Prim.hlevel (codes, statement.the_row.coded) };

    ghost view = { λ it. record {
      core = record { state = B.state it.behaviour; next = it.asker; receive = it.receive.table };
      depths = it.receive.depths;
    } };

    ghost invariant = { λ it. IsConsistent (B.state it.behaviour) it.asker it.receive };
}

impl<B: Behaviour> CopyCore<B> {
    pub fn start(
        alloc: Global,
        behaviour: B,
        files: u8,
        openers: &[OpenerSpec],
    ) -> Result<CopyCore<B>, NoMemory>
        requires whole { IsWholeProcess (B.state behaviour) }
        requires free { in_hand (B.state behaviour) ≡ false }
        requires files { files ≡ files_of (B.state behaviour) }
        requires few_files { files ≤ MOST_FILES }
        requires few_openers { length openers.now < 4096 }
        requires depths { All (λ opener. IsDepth opener.depth) openers.now }
        ensures { IfOk result (λ it. it
            ≡ with_depths openers.now (core_at_start (B.state behaviour) files openers.now)) }
    {
        let receive = Receive::new(alloc, openers)?;
        Ok(CopyCore {
            behaviour,
            receive,
            asker: Asker::new(files),
        })
    }

    pub fn point(&self) -> Point
        ensures { result ≡ point self.now.core.state }
    {
        self.behaviour.at()
    }

    pub fn behaviour(&self) -> &B
        ensures { B.state result.now ≡ self.now.core.state }
    {
        &self.behaviour
    }

    pub fn receive(&self) -> &Receive
        ensures table { result.now.table ≡ self.now.core.receive }
        ensures depths { result.now.depths ≡ self.now.depths }
    {
        &self.receive
    }

    pub fn next(&self) -> &[u32]
        ensures { result.now ≡ self.now.core.next }
    {
        self.asker.as_slice()
    }

    pub fn files(&self) -> u8
        ensures { result ≡ length self.now.core.next }
    {
        self.asker.len() as u8
    }

    pub fn next_on(&self, file: u8) -> u32
        ensures { result ≡ next_on self.now.core file }
    {
        next_on(&self.asker, file)
    }

    pub fn inner(&mut self)
        requires { point self.old.core.state ≡ Inner }
        ensures { self.new ≡ record self.old { core = core_going self.old.core } }
    {
        self.behaviour.inner();
    }

    pub fn take(&mut self, request: &Request)
        requires point { point self.old.core.state ≡ Take }
        requires next { request_standing self.old.core.receive request.now ≡ Next }
        ensures core { core_taking request.now self.old.core ≡ Some self.new.core }
        ensures depths { self.new.depths ≡ self.old.depths }
    {
        prove!(request.number <= 4_294_967_295);
        self.receive.take(request.opener);
        self.behaviour.took(&request.words);
    }

    pub fn ask(&mut self) -> Asking
        requires point { point self.old.core.state ≡ Ask }
        requires number { HasNext (next_on self.old.core (asked_file self.old.core.state)) }
        ensures asking { result ≡ asking_of self.old.core }
        ensures core { self.new ≡ record self.old { core = core_asking self.old.core } }
    {
        let asked = self.behaviour.asked();
        let number = next_on(&self.asker, asked.file);
        self.asker.set(asked.file, number + 1);
        Asking {
            file: asked.file,
            number,
            words: asked.words,
        }
    }

    pub fn got(&mut self, words: &Words)
        requires { point self.old.core.state ≡ Await }
        ensures { self.new ≡ record self.old { core = core_getting words.now self.old.core } }
    {
        self.behaviour.got(words);
    }

    pub fn answer(&mut self) -> Answering
        requires { point self.old.core.state ≡ Answer }
        ensures answering { answering_of self.old.core ≡ Some result }
        ensures core { core_answering self.old.depths self.old.core ≡ Some self.new.core }
        ensures depths { self.new.depths ≡ self.old.depths }
    {
        let words = self.behaviour.answered();
        let opener = self.receive.reply(&words);
        let number = self.receive.taken(opener);
        Answering {
            opener,
            number,
            words,
        }
    }

    pub fn device(&self) -> DeviceCall
        requires point { point self.now.core.state ≡ Device }
        requires numbers { HasNext (last_write_of self.now.core.state) }
        ensures { result ≡ call_of self.now.core.state }
    {
        self.behaviour.device()
    }

    pub fn device_done(&mut self, found: &Sector)
        requires point { point self.old.core.state ≡ Device }
        requires numbers { HasNext (last_write_of self.old.core.state) }
        ensures { self.new ≡ record self.old { core = core_acting found.now self.old.core } }
    {
        self.behaviour.device_done(found);
    }

    /// What a checkpoint carries: everything, or what the process names at its checkpoint.
    pub fn carried_by(&self, alloc: Global, everything: bool) -> Result<Image, NoMemory>
        requires { everything ≡ false → point self.now.core.state ≡ AtCheckpoint }
        ensures { IfOk result (λ image. image ≡ carried_by everything self.now.core) }
    {
        if everything {
            let image = self.carried_whole(alloc)?;
            return Ok(image);
        }
        let image = self.carried(alloc)?;
        Ok(image)
    }

    fn carried_whole(&self, alloc: Global) -> Result<Image, NoMemory>
        ensures { IfOk result (λ image. image ≡ carried_whole self.now.core) }
    {
        let listed = self.behaviour.everything();
        let body = self.behaviour.image(alloc, listed)?;
        let files = numbers_of(alloc, &self.asker, listed.files.as_slice())?;
        let receive = self.receive.block(alloc)?;
        Ok(Image {
            body,
            files,
            receive,
        })
    }

    fn carried(&self, alloc: Global) -> Result<Image, NoMemory>
        requires { point self.now.core.state ≡ AtCheckpoint }
        ensures { IfOk result (λ image. image ≡ carried_image self.now.core) }
    {
        let listed = self.behaviour.listed();
        let body = self.behaviour.image(alloc, listed)?;
        let files = numbers_of(alloc, &self.asker, listed.files.as_slice())?;
        let receive = self.receive.block(alloc)?;
        Ok(Image {
            body,
            files,
            receive,
        })
    }

    pub fn pass(&mut self)
        requires { point self.old.core.state ≡ AtCheckpoint }
        ensures { self.new ≡ record self.old { core = after_passing self.old.core } }
    {
        self.behaviour.checkpointed();
    }

    /// Whether what changed fits its receive table, so that the table makes it whole.
    pub fn fits_change(&self, change: &ChangeMessage) -> bool
        ensures { result
            ≡ fits_change (record { table = self.now.core.receive; depths = self.now.depths })
            change.now.image.receive }
    {
        self.receive.fits_change(&change.image.receive)
    }

    /// Puts what a checkpoint carries that came as what changed in the place of its own, all of it or nothing, and says
    /// whether it did. What changed fits its receive table.
    #[tactic(auto, using(crate::proofs::Tables::fits_whole))]
    pub fn put_change(&mut self, change: &ChangeMessage) -> bool
        requires { fits_change (record { table = self.old.core.receive; depths = self.old.depths })
            change.now.image.receive ≡ true }
        ensures told { result
            ≡ is_some (put_fitting self.old.depths self.old.core
            (whole_of self.old.depths self.old.core.receive change.now).image) }
        ensures core { self.new.core
            ≡ unwrap_or (put_fitting self.old.depths self.old.core
            (whole_of self.old.depths self.old.core.receive change.now).image) self.old.core }
        ensures depths { self.new.depths ≡ self.old.depths }
    {
        let image = &change.image;
        if !are_files(&self.asker, image.files.as_slice()) {
            return false;
        }
        let in_hand = image.receive.in_hand.is_some();
        if !self.behaviour.apply(image.body.as_slice(), in_hand) {
            return false;
        }
        let _fits = self.receive.put_change(&image.receive);
        put_files(&mut self.asker, image.files.as_slice());
        true
    }

    /// Puts what a checkpoint carries in the place of its own, all of it or nothing, and says whether it did.
    pub fn put(&mut self, image: &Image) -> bool
        ensures told { result ≡ is_some (put_fitting self.old.depths self.old.core image.now) }
        ensures core { self.new.core ≡ unwrap_or (put_fitting self.old.depths self.old.core image.now) self.old.core }
        ensures depths { self.new.depths ≡ self.old.depths }
    {
        if !are_files(&self.asker, image.files.as_slice()) {
            return false;
        }
        if !self.receive.fits(&image.receive) {
            return false;
        }
        let in_hand = image.receive.in_hand.is_some();
        if !self.behaviour.apply(image.body.as_slice(), in_hand) {
            return false;
        }
        let _fits = self.receive.put_block(&image.receive);
        put_files(&mut self.asker, image.files.as_slice());
        true
    }
}
