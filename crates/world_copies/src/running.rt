ghost use Rattle.std.specs.Prelude.{◌≡◌, IfOk, OnOk};
ghost use Rattle.world_semantics.specs.Running.{run_done};
ghost use Rattle.process_copies.specs.message_wires.specs.HasRoom.{WorldHasRoom};
ghost use Rattle.process_copies.specs.node_copies.specs.Seen.{step_sendings};
ghost use Rattle.world_copies.specs.SiteWorld.{changed_by};
ghost use Rattle.world_copies.specs.Told.{sent_in};

use crate::copies::WorldCopies;
use gd_words::NoMemory;
use process_copies::StepOutcome;

impl WorldCopies {
    /// A process makes its step, if it can.
    pub fn run(&mut self, number: u8) -> Result<StepOutcome, NoMemory>
        requires { WorldHasRoom self.old.world }
        ensures told { IfOk result (λ step. step_sendings step
            ≡ sent_in (run_done self.old.site number self.old.world)) }
        ensures state { OnOk result (self.new ≡ changed_by self.old (run_done self.old.site number self.old.world)) }
    {
        let place = usize::from(number);
        if place >= self.processes.len() {
            return Ok(StepOutcome::Impossible);
        }
        let step = self.processes[place].run(self.alloc, &self.downs, &mut self.records)?;
        Ok(step)
    }
}
