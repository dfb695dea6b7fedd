ghost use Rattle.std.specs.Prelude.{◌≡◌, List, false, length, IfOk, OnOk};
ghost use Rattle.tal_tree.specs.declared.site.Site.{Site};
ghost use Rattle.disc_device.specs.Sectors.{Stored};
ghost use Rattle.process_semantics.specs.Process.{asked_file, point};
ghost use Rattle.checkpoint_image.specs.Behaving.{last_write_of};
ghost use Rattle.process_control.specs.computed_changes.specs.Fitting.{depths_of};
ghost use Rattle.gd_words.specs.Ranges.{HasNext, HasNextLong};
ghost use Rattle.message_wires.specs.HasRoom.{CopyHasRoom};
ghost use Rattle.kept_acts.specs.world_semantics.specs.Core.{next_on};
ghost use Rattle.kept_acts.specs.world_semantics.specs.Passes.{after_sending, after_sent, checkpoint_of};
ghost use Rattle.kept_acts.specs.world_semantics.specs.Running.{copy_passed, records_passed};
ghost use Rattle.node_copies.specs.Acting.{HasActed, own_in};
ghost use Rattle.node_copies.specs.Seen.{drives_on, openers_on, sectors_on};

use crate::address::Address;
use crate::device::found_on;
use crate::one::NodeCopy;
use crate::records::Records;
use crate::sending::{address_in, reply_of, request_to};
use crate::step::StepOutcome;
use checkpoint_image::ImageMessage;
use disc_device::Disc;
use gd_words::NoMemory;
use process_semantics::Point;
use std::alloc::Global;
use tal_tree::Act;

impl NodeCopy {
    /// A step inside.
    fn inner(&mut self, number: u8, records: &mut Records) -> Result<StepOutcome, NoMemory>
        requires point { point self.old.copy.core.state ≡ Point.Inner }
        requires position { HasNextLong self.old.copy.position }
        ensures acted { (site : Site) (sectors : List Stored) → IfOk result (λ step. HasActed number
            (own_in site number (record { one = self.old; sectors = sectors; records = records.old }) Point.Inner) step
            (record { one = self.old; sectors = sectors; records = records.old })
            (record { one = self.new; sectors = sectors; records = records.new })) }
        ensures depths { self.new.depths ≡ self.old.depths }
    {
        self.control.inner();
        self.share
            .enter(number, Act::Step(number), &mut records.kept)?;
        Ok(StepOutcome::Quiet)
    }

    /// Takes the first request that stands Next, if there is one.
    fn take(&mut self, number: u8, records: &mut Records) -> Result<StepOutcome, NoMemory>
        requires point { point self.old.copy.core.state ≡ Point.Take }
        requires position { HasNextLong self.old.copy.position }
        ensures acted { (site : Site) (sectors : List Stored) → IfOk result (λ step. HasActed number
            (own_in site number (record { one = self.old; sectors = sectors; records = records.old }) Point.Take) step
            (record { one = self.old; sectors = sectors; records = records.old })
            (record { one = self.new; sectors = sectors; records = records.new })) }
        ensures depths { self.new.depths ≡ self.old.depths }
    {
        match self.waiting.choose(self.control.receive()) {
            None => Ok(StepOutcome::Impossible),
            Some(request) => {
                let opener = request.opener;
                self.control.take(&request);
                let done = Act::Take {
                    process: number,
                    opener,
                };
                self.share.enter(number, done, &mut records.kept)?;
                Ok(StepOutcome::Quiet)
            }
        }
    }

    /// Asks on a file: the request is sent to the opener that the file is, if it is one.
    fn ask(
        &mut self,
        number: u8,
        files: &[Option<Address>],
        records: &mut Records,
    ) -> Result<StepOutcome, NoMemory>
        requires point { point self.old.copy.core.state ≡ Point.Ask }
        requires number { HasNext (next_on self.old.copy.core (asked_file self.old.copy.core.state)) }
        requires position { HasNextLong self.old.copy.position }
        ensures acted { (site : Site) (sectors : List Stored) → files.now ≡ openers_on site number
            → IfOk result (λ step. HasActed number
            (own_in site number (record { one = self.old; sectors = sectors; records = records.old }) Point.Ask) step
            (record { one = self.old; sectors = sectors; records = records.old })
            (record { one = self.new; sectors = sectors; records = records.new })) }
        ensures depths { self.new.depths ≡ self.old.depths }
    {
        let asking = self.control.ask();
        self.share
            .enter(number, Act::Step(number), &mut records.kept)?;
        let address = address_in(files, asking.file);
        let step = records.ask(self.processor, request_to(address, asking))?;
        Ok(step)
    }

    /// Answers the request in hand: the reply is sent.
    fn answer(&mut self, number: u8, records: &mut Records) -> Result<StepOutcome, NoMemory>
        requires point { point self.old.copy.core.state ≡ Point.Answer }
        requires position { HasNextLong self.old.copy.position }
        ensures acted { (site : Site) (sectors : List Stored) → self.old.depths ≡ depths_of site number
            → IfOk result (λ step. HasActed number
            (own_in site number (record { one = self.old; sectors = sectors; records = records.old }) Point.Answer) step
            (record { one = self.old; sectors = sectors; records = records.old })
            (record { one = self.new; sectors = sectors; records = records.new })) }
        ensures depths { self.new.depths ≡ self.old.depths }
    {
        let answering = self.control.answer();
        self.share
            .enter(number, Act::Step(number), &mut records.kept)?;
        let step = records.answer(self.processor, reply_of(number, answering))?;
        Ok(step)
    }

    /// Acts on the device, if there is one.
    fn device(
        &mut self,
        number: u8,
        device: &mut Option<Disc>,
        records: &mut Records,
    ) -> Result<StepOutcome, NoMemory>
        requires point { point self.old.copy.core.state ≡ Point.Device }
        requires write { HasNext (last_write_of self.old.copy.core.state) }
        requires position { HasNextLong self.old.copy.position }
        requires shown { HasNext (length records.old.shown) }
        ensures acted { (site : Site) → IfOk result (λ step. HasActed number
            (own_in site number (record { one = self.old; sectors = sectors_on device.old; records = records.old })
            Point.Device) step
            (record { one = self.old; sectors = sectors_on device.old; records = records.old })
            (record { one = self.new; sectors = sectors_on device.new; records = records.new })) }
        ensures depths { self.new.depths ≡ self.old.depths }
        ensures drives { drives_on device.new ≡ drives_on device.old }
    {
        let call = self.control.device();
        let found = found_on(device, &call);
        self.control.device_done(&found);
        self.share
            .enter(number, Act::Step(number), &mut records.kept)?;
        records.call(number, device, &call)?;
        Ok(StepOutcome::Quiet)
    }

    /// An act of its own at the point where it stands, if it can do one there.
    pub fn act(
        &mut self,
        number: u8,
        files: &[Option<Address>],
        device: &mut Option<Disc>,
        records: &mut Records,
        stands: Point,
    ) -> Result<StepOutcome, NoMemory>
        requires point { point self.old.copy.core.state ≡ stands }
        requires room { CopyHasRoom self.old.copy }
        requires shown { HasNext (length records.old.shown) }
        ensures acted { (site : Site) → files.now ≡ openers_on site number → self.old.depths ≡ depths_of site number
            → IfOk result (λ step. HasActed number
            (own_in site number (record { one = self.old; sectors = sectors_on device.old; records = records.old })
            stands) step
            (record { one = self.old; sectors = sectors_on device.old; records = records.old })
            (record { one = self.new; sectors = sectors_on device.new; records = records.new })) }
        ensures depths { self.new.depths ≡ self.old.depths }
        ensures drives { drives_on device.new ≡ drives_on device.old }
    {
        match stands {
            Point::Inner => {
                let step = self.inner(number, records)?;
                Ok(step)
            }
            Point::Take => {
                let step = self.take(number, records)?;
                Ok(step)
            }
            Point::Ask => {
                let step = self.ask(number, files, records)?;
                Ok(step)
            }
            Point::Answer => {
                let step = self.answer(number, records)?;
                Ok(step)
            }
            Point::Device => {
                let step = self.device(number, device, records)?;
                Ok(step)
            }
            Point::Await | Point::AtCheckpoint | Point::Ended => Ok(StepOutcome::Impossible),
        }
    }

    /// The checkpoint of where it stands: of everything where it has to send that.
    pub fn send(&mut self, alloc: Global, number: u8) -> Result<ImageMessage, NoMemory>
        requires point { self.old.copy.renewal ≡ false → point self.old.copy.core.state ≡ Point.AtCheckpoint }
        requires room { CopyHasRoom self.old.copy }
        ensures message { IfOk result (λ message. message ≡ checkpoint_of number self.old.copy) }
        ensures copy { OnOk result (self.new ≡ record self.old { copy = after_sending self.old.copy }) }
        ensures depths { self.new.depths ≡ self.old.depths }
    {
        let message = self.control.checkpoint_out(alloc, number)?;
        Ok(message)
    }

    /// What it has sent elsewhere than at a checkpoint comes to its end.
    pub fn end(&mut self)
        ensures { self.new ≡ record self.old { copy = after_sent self.old.copy } }
    {
        self.control.end();
    }

    /// It passes its checkpoint.
    pub fn pass(&mut self, number: u8, records: &mut Records) -> Result<(), NoMemory>
        requires { point self.old.copy.core.state ≡ Point.AtCheckpoint }
        ensures copy { OnOk result (self.new ≡ record self.old
            { copy = copy_passed number records.old self.old.copy }) }
        ensures records { OnOk result (records.new ≡ records_passed number records.old self.old.copy) }
        ensures depths { self.new.depths ≡ self.old.depths }
    {
        self.share.pass(number, &mut records.kept)?;
        self.control.pass();
        Ok(())
    }
}
