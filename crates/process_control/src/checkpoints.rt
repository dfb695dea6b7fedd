ghost use Rattle.std.specs.Prelude.{◌≡◌, ◌<◌, ◌+◌, ◌==◌, ◌&&◌, false, true, is_some, IfOk, OnOk, OnErr};
ghost use Rattle.std.specs.Option.{option_map, unwrap_or};
ghost use Rattle.gd_words.specs.Ranges.{HasNext};
ghost use Rattle.process_semantics.specs.declared.point.Point.TheVariants.{AtCheckpoint};
ghost use Rattle.process_semantics.specs.Process.{point};
ghost use Rattle.computed_changes.specs.change_layout.specs.Changing.{whole_of};
ghost use Rattle.computed_changes.specs.sync_ids.specs.Changes.{fits_change};
ghost use Rattle.computed_changes.specs.world_semantics.specs.declared.role.Role.TheVariants.{Watching, Gone};
ghost use Rattle.computed_changes.specs.Checkpoints.{core_where, is_next_for, is_of_last};
ghost use Rattle.process_control.specs.Copies.{copy_applied, copy_applying, copy_changed, copy_changing};
ghost use Rattle.process_control.specs.Copies.{copy_checkpoint, copy_ending, copy_passing, copy_renewed, copy_sending};
ghost use Rattle.process_control.specs.Copies.{copy_taking_over, copy_told};

use crate::control::CopyControl;
use checkpoint_image::{Behaviour, ImageMessage, TakenMessage};
use computed_changes::{ChangeMessage, Role};
use gd_words::NoMemory;
use std::alloc::Global;

impl<B: Behaviour> CopyControl<B> {
    /// The checkpoint of where it stands, for the other copy of its process: of everything where it has to send that.
    /// Its number has 32 bits. An error changes nothing.
    pub fn checkpoint_out(&mut self, alloc: Global, process: u8) -> Result<ImageMessage, NoMemory>
        requires point { self.old.renewal ≡ false → point self.old.core.state ≡ AtCheckpoint }
        requires number { HasNext self.old.number }
        ensures message { IfOk result (λ message. message ≡ copy_checkpoint process self.old) }
        ensures ok { OnOk result (self.new ≡ copy_sending self.old) }
        ensures err { OnErr result (self.new ≡ self.old) }
    {
        let image = self.core.carried_by(alloc, self.renewal)?;
        self.number += 1;
        self.sent = true;
        self.acknowledged = false;
        Ok(ImageMessage {
            process,
            era: self.era,
            number: self.number,
            image,
        })
    }

    /// Applies a checkpoint that came, whole, or ignores it. It answers whether it was applied. It takes no memory.
    pub fn checkpoint_in(&mut self, message: &ImageMessage) -> bool
        ensures told { result ≡ is_some (copy_applying message.now self.old) }
        ensures copy { self.new ≡ unwrap_or (copy_applying message.now self.old) self.old }
    {
        match self.role {
            Role::Watching | Role::Blank => {
                let is_next = self.is_next_for(message);
                self.apply_where(message, is_next)
            }
            Role::Acting | Role::Gone => false,
        }
    }

    /// Applies a checkpoint that came as what changed since the one before it, or ignores it: its own receive table
    /// makes it whole. It answers whether it was applied. It takes no memory.
    pub fn change_in(&mut self, change: &ChangeMessage) -> bool
        ensures told { result ≡ is_some (copy_changing change.now self.old) }
        ensures copy { self.new ≡ unwrap_or (copy_changing change.now self.old) self.old }
    {
        if !self.core.fits_change(change) {
            return false;
        }
        match self.role {
            Role::Watching | Role::Blank => {
                let is_next = self.is_next(change.era, change.number);
                self.change_where(change, is_next)
            }
            Role::Acting | Role::Gone => false,
        }
    }

    fn is_next_for(&self, message: &ImageMessage) -> bool
        ensures { result ≡ is_next_for self.now.era self.now.number message.now }
    {
        self.is_next(message.era, message.number)
    }

    /// Whether a checkpoint of this era and number is the next one.
    fn is_next(&self, era: u32, number: u32) -> bool
        ensures { result ≡ (era == self.now.era && number == self.now.number + 1) }
    {
        era == self.era && u64::from(number) == u64::from(self.number) + 1
    }

    fn change_where(&mut self, change: &ChangeMessage, is_next: bool) -> bool
        requires { fits_change (record { table = self.old.core.receive; depths = self.old.depths })
            change.now.image.receive ≡ true }
        ensures told { result
            ≡ is_some (core_where self.old.depths self.old.core
            (whole_of self.old.depths self.old.core.receive change.now) is_next) }
        ensures copy { self.new
            ≡ unwrap_or (option_map (copy_changed change.now self.old)
            (core_where self.old.depths self.old.core
            (whole_of self.old.depths self.old.core.receive change.now) is_next)) self.old }
    {
        if !is_next {
            return false;
        }
        let applied = self.core.put_change(change);
        if applied {
            self.role = Role::Watching;
            self.number = change.number;
        }
        applied
    }

    fn apply_where(&mut self, message: &ImageMessage, is_next: bool) -> bool
        ensures told { result ≡ is_some (core_where self.old.depths self.old.core message.now is_next) }
        ensures copy { self.new
            ≡ unwrap_or (option_map (copy_applied message.now self.old)
            (core_where self.old.depths self.old.core message.now is_next)) self.old }
    {
        if !is_next {
            return false;
        }
        let applied = self.core.put(&message.image);
        if applied {
            self.role = Role::Watching;
            self.number = message.number;
        }
        applied
    }

    /// Whether it is what it sent last that was taken.
    pub fn is_of_last(&self, taken: TakenMessage) -> bool
        ensures { result ≡ is_of_last self.now.sent self.now.era self.now.number taken }
    {
        self.sent && taken.era == self.era && taken.number == self.number
    }

    /// What it sent last was taken: it has sent everything, if it had to.
    pub fn acked(&mut self)
        ensures { self.new ≡ copy_told self.old }
    {
        self.acknowledged = true;
        self.renewal = false;
    }

    /// What it has sent elsewhere than at a checkpoint comes to its end.
    pub fn end(&mut self)
        ensures { self.new ≡ copy_ending self.old }
    {
        self.sent = false;
        self.acknowledged = false;
    }

    /// Goes on after its checkpoint.
    pub fn pass(&mut self)
        requires { point self.old.core.state ≡ AtCheckpoint }
        ensures { self.new ≡ copy_passing self.old }
    {
        self.core.pass();
        self.sent = false;
        self.acknowledged = false;
    }

    /// Takes over from the other copy, whose processor is marked: it acts from the last checkpoint on that it has
    /// applied. The number of the next era has 32 bits.
    pub fn take_over(&mut self)
        requires watching { self.old.role ≡ Watching }
        requires era { HasNext self.old.era }
        ensures { self.new ≡ copy_taking_over self.old }
    {
        self.role = Role::Acting;
        self.era += 1;
        self.number = 0;
    }

    /// The processor of the other copy was loaded again: everything is to be sent to it. The number of the next era has
    /// 32 bits.
    pub fn renew(&mut self)
        requires { HasNext self.old.era }
        ensures { self.new ≡ copy_renewed self.old }
    {
        self.era += 1;
        self.number = 0;
        self.sent = false;
        self.acknowledged = false;
        self.renewal = true;
    }

    /// Nothing more is to be sent to the other copy, whose processor is marked.
    pub fn end_renewal(&mut self)
        ensures { self.new ≡ record self.old { renewal = false } }
    {
        self.renewal = false;
    }

    /// Its processor stops.
    pub fn stop(&mut self)
        ensures { self.new ≡ record self.old { role = Gone } }
    {
        self.role = Role::Gone;
    }
}
