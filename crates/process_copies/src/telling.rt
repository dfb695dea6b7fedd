ghost use Rattle.std.specs.Prelude.{◌≡◌, ℕ, is_some};
ghost use Rattle.world_semantics.specs.World.{Pair, copy_of, has_marked, may_pass, other_of};
ghost use Rattle.world_semantics.specs.Records as happened;
ghost use Rattle.world_semantics.specs.Running.{Stepped, free_step, step_at_checkpoint, own_of, renewing_step};
ghost use Rattle.world_semantics.specs.Running.{step_as, step_at};
ghost use Rattle.world_semantics.specs.Running.{step_if, step_of};
ghost use Rattle.world_semantics.specs.Running.{step_of_copy};

use crate::copies::{ProcessCopies, other_of};
use node_copies::Downs;
use process_semantics::Point;
use world_semantics::{Role, Which};

impl ProcessCopies {
    /// Whether a copy has sent its checkpoint.
    pub(crate) fn sent(&self, which: Which) -> bool
        ensures { result ≡ (copy_of which self.now.pair).sent }
    {
        self.copies.of(which).sent()
    }

    /// Whether a copy has to send everything that it has.
    pub(crate) fn renewal(&self, which: Which) -> bool
        ensures { result ≡ (copy_of which self.now.pair).renewal }
    {
        self.copies.of(which).renewal()
    }

    /// Whether a copy's node has marked the other copy's processor.
    pub(crate) fn has_marked_other(&self, which: Which, downs: &Downs) -> bool
        ensures { result ≡ has_marked downs.now (copy_of which self.now.pair).processor
            (copy_of (other_of which) self.now.pair).processor }
    {
        downs.has(self.processor(which), self.processor(other_of(which)))
    }

    /// Whether a copy may go on after its checkpoint.
    pub(crate) fn may_pass(&self, which: Which, downs: &Downs) -> bool
        ensures { result ≡ may_pass downs.now which self.now.pair }
    {
        self.copies.of(which).acknowledged() || self.has_marked_other(which, downs)
    }
}

impl ProcessCopies {
    /// Whether the process can make a step.
    pub fn can_run(&self, downs: &Downs) -> bool
        ensures { (records : happened.Records) → result
            ≡ is_some (step_of self.now.site self.now.number self.now.pair downs.now records) }
    {
        if self.can_run_copy(Which::First, downs) {
            return true;
        }
        self.can_run_copy(Which::Second, downs)
    }

    fn can_run_copy(&self, which: Which, downs: &Downs) -> bool
        ensures { (records : happened.Records) → result
            ≡ is_some (step_of_copy self.now.site self.now.number self.now.pair downs.now records which) }
    {
        match self.role(which) {
            Role::Acting => {
                let stands = self.point(which);
                self.can_run_at(which, downs, stands)
            }
            Role::Watching | Role::Blank | Role::Gone => false,
        }
    }

    fn can_run_at(&self, which: Which, downs: &Downs, stands: Point) -> bool
        ensures { (records : happened.Records) → result
            ≡ is_some (step_at self.now.site self.now.number which self.now.pair downs.now records stands) }
    {
        match stands {
            Point::AtCheckpoint => {
                let free = self.may_pass(which, downs);
                let sent = self.sent(which);
                can_go_on(free, sent)
            }
            _ => {
                let sent = self.sent(which);
                let renewal = self.renewal(which);
                self.can_run_free(which, downs, stands, sent, renewal)
            }
        }
    }

    fn can_run_free(
        &self,
        which: Which,
        downs: &Downs,
        stands: Point,
        sent: bool,
        renewal: bool,
    ) -> bool
        ensures { (records : happened.Records) → result
            ≡ is_some (free_step self.now.site self.now.number which self.now.pair downs.now records stands sent
            renewal) }
    {
        if sent {
            let free = self.may_pass(which, downs);
            return is_step(free);
        }
        if renewal {
            return self.can_send_all(which, downs, stands);
        }
        self.can_act(which, stands)
    }

    fn can_send_all(&self, which: Which, downs: &Downs, stands: Point) -> bool
        ensures { (records : happened.Records) → result
            ≡ is_some (renewing_step self.now.number which self.now.pair downs.now records stands) }
    {
        match stands {
            Point::Await => false,
            _ => {
                let is_heard = !self.has_marked_other(which, downs);
                is_step(is_heard)
            }
        }
    }

    fn can_act(&self, which: Which, stands: Point) -> bool
        ensures { (records : happened.Records) → result
            ≡ is_some (own_of self.now.site self.now.number which self.now.pair records stands) }
    {
        self.copies.of(which).can_act(stands)
    }
}

/// Whether there is a step that is made where this holds.
fn is_step(free: bool) -> bool
    ensures { (step : Stepped) → result ≡ is_some (step_if free step) }
{
    if free {
        return true;
    }
    false
}

/// Whether a copy at its checkpoint can go on, which may pass or not, and has sent its checkpoint or not.
fn can_go_on(free: bool, sent: bool) -> bool
    ensures { (number : ℕ) (k : Which) (pair : Pair) (records : happened.Records)
        → result ≡ is_some (step_at_checkpoint number k pair records free sent) }
{
    if free {
        return true;
    }
    !sent
}
