ghost use Rattle.std.specs.Prelude.{◌≡◌, ◌++◌, ◌∷◌, [], List, Some, length, map, IfOk, OnOk};
ghost use Rattle.gd_words.specs.declared.message.Request.{Request as AskedRequest};
ghost use Rattle.gd_words.specs.Ranges.{HasNext};
ghost use Rattle.kept_acts.specs.world_semantics.specs.Messages.{Asking as AskingMessage, Replying, sent_at};
ghost use Rattle.kept_acts.specs.world_semantics.specs.Own.{around_with, request_to};
ghost use Rattle.kept_acts.specs.world_semantics.specs.Running.{after_call};
ghost use Rattle.node_copies.specs.Acting.{opener_among, requests_in};
ghost use Rattle.node_copies.specs.Seen.{drives_on, sectors_on, step_sendings};

use crate::address::Address;
use crate::device::write_on;
use crate::records::Records;
use crate::step::StepOutcome;
use disc_device::Disc;
use gd_words::{DeviceCall, NoMemory, Reply, Request, Sector};
use process_control::{Answering, Asking};
use sendings::{Message, Sending};
use tal_tree::Shown;

impl Records {
    /// A copy at a node asks, and sends the request, if there is one.
    pub(crate) fn ask(
        &mut self,
        node: u8,
        request: Option<Request>,
    ) -> Result<StepOutcome, NoMemory>
        ensures told { IfOk result (λ step. step_sendings step
            ≡ Some (sent_at node (map AskingMessage (requests_in request)))) }
        ensures records { OnOk result (self.new
            ≡ record self.old { requests = requests_in request ++ self.old.requests }) }
    {
        match request {
            None => Ok(StepOutcome::Quiet),
            Some(request) => {
                self.requests.add(&request)?;
                Ok(StepOutcome::Sends(Sending::new(node, Message::Asking(request))))
            }
        }
    }

    /// A copy at a node answers, and sends the reply.
    pub(crate) fn answer(&mut self, node: u8, reply: Reply) -> Result<StepOutcome, NoMemory>
        ensures told { IfOk result (λ step. step_sendings step ≡ Some (sent_at node (Replying reply ∷ []))) }
        ensures records { OnOk result (self.new ≡ record self.old { replies = reply ∷ self.old.replies }) }
    {
        self.replies.add(&reply)?;
        Ok(StepOutcome::Sends(Sending::new(node, Message::Replying(reply))))
    }

    /// A process calls its device, if it has one: a new write is done and shown.
    pub(crate) fn call(
        &mut self,
        process: u8,
        device: &mut Option<Disc>,
        call: &DeviceCall,
    ) -> Result<(), NoMemory>
        requires shown { HasNext (length self.old.shown) }
        ensures around { (waiting : List AskedRequest) → OnOk result
            (after_call process (around_with waiting (sectors_on device.old) self.old) call.now
            ≡ around_with waiting (sectors_on device.new) self.new) }
        ensures kept { OnOk result (self.new.kept ≡ self.old.kept) }
        ensures drives { drives_on device.new ≡ drives_on device.old }
    {
        match *call {
            DeviceCall::Write {
                sector,
                words,
                number,
            } => {
                self.write(process, device, sector, words, number)?;
                Ok(())
            }
            DeviceCall::Read(_) | DeviceCall::Nothing => Ok(()),
        }
    }

    fn write(
        &mut self,
        process: u8,
        device: &mut Option<Disc>,
        sector: u8,
        words: Sector,
        number: u32,
    ) -> Result<(), NoMemory>
        requires shown { HasNext (length self.old.shown) }
        ensures around { (waiting : List AskedRequest) → OnOk result
            (after_call process (around_with waiting (sectors_on device.old) self.old)
            (DeviceCall.Write sector words number)
            ≡ around_with waiting (sectors_on device.new) self.new) }
        ensures kept { OnOk result (self.new.kept ≡ self.old.kept) }
        ensures drives { drives_on device.new ≡ drives_on device.old }
    {
        if write_on(device, sector, &words, number) {
            self.shown.add(Shown::Write {
                process,
                sector,
                words,
            })?;
        }
        Ok(())
    }
}

/// The opener that a file is, among those of all files.
pub fn address_in(files: &[Option<Address>], file: u8) -> Option<Address>
    ensures { result ≡ opener_among files.now file }
{
    match files.get(usize::from(file)) {
        None => None,
        Some(address) => *address,
    }
}

/// What is asked, as a request to the opener's server; none where the file is no opener.
pub fn request_to(address: Option<Address>, asking: Asking) -> Option<Request>
    ensures { requests_in result ≡ request_to asking.number asking.words address }
{
    match address {
        None => None,
        Some(address) => Some(Request {
            process: address.process(),
            opener: address.opener(),
            number: asking.number,
            words: asking.words,
        }),
    }
}

/// What a process answers, as a reply.
pub(crate) fn reply_of(process: u8, answering: Answering) -> Reply
    ensures { result ≡ record {
      process = process;
      opener = answering.opener;
      number = answering.number;
      words = answering.words;
    } }
{
    Reply {
        process,
        opener: answering.opener,
        number: answering.number,
        words: answering.words,
    }
}
