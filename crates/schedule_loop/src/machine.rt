ghost use Rattle.std.specs.Prelude.{◌≡◌, false, true, Bool, IfOk, OnOk};
ghost use Rattle.std.specs.Bool.{OnFalse, OnTrue};
ghost use Rattle.schedule.specs.declared.event.Event.TheVariants as events;
ghost use Rattle.machine_states.specs.States.{Settles, State};
ghost use Rattle.machine_states.specs.declared.effect.Effect.TheVariants as effects;
ghost use Rattle.player.specs.declared.player.Player.{Player as AnyPlayer};
ghost use Rattle.schedule_loop.specs.Rules.{Rules};

use machine_states::{Effect, NoMemory};
use player::Player;
use schedule::{BusName, Counts, Event};

/// A machine on which a schedule can be played: it plays one event, tells what the next event is chosen by, and is
/// closed at the end of its run. Once an allocation was refused to it, it may be broken.
pub trait ScheduleMachine: Drop {
    /// What is on its wires.
    ghost Wires: { Type 0 };

    /// What it makes of an event, what is counted, when it is idle, and how it is closed.
    ghost rules: { Rules Wires };

    /// What an event needs.
    ghost is_ready: { State Wires → Type 0 };

    ghost state: { Self → State Wires };

    ghost is_broken: { Self → Bool };

    /// Plays one event, and tells what came of it.
    fn event(&mut self, event: Event) -> Result<Effect, NoMemory>
        requires { is_ready (state self.old) }
        ensures done { IfOk result (λ effect. Settles (rules.play (state self.old) event) (state self.old) effect
            (state self.new)) }
        ensures whole { IfOk result (λ effect. is_broken self.new ≡ false) };

    /// Delivers the first packet of a bus, if that can be done at once, as it can with a packet that only tells that
    /// its sender is alive; and answers whether it was done.
    fn deliver_at_once(&mut self, bus: BusName) -> bool
        ensures done { OnTrue result (Settles (rules.play (state self.old) (events.Deliver bus 0)) (state self.old)
            effects.Done (state self.new)) }
        ensures same { OnFalse result (state self.new ≡ state self.old) }
        ensures whole { is_broken self.new ≡ is_broken self.old };

    /// What is counted before the next event of the line at which a player stands, with this told of whether the
    /// machine is idle. It has the kind and the sender of the packet that the event concerns.
    fn counts(&self, player: &Player, idle: bool) -> Counts
        ensures { result ≡ record (rules.counts (state self.now) player.now) { idle = idle } };

    /// What is counted wherever a line stands, with this told of whether the machine is idle, and of no packet.
    fn tally(&self, idle: bool) -> Counts
        ensures { (player : AnyPlayer)
            → result ≡ record (rules.counts (state self.now) player) { alive = false; sender = 0; idle = idle } };

    /// Whether nothing is left to do.
    fn is_idle(&self) -> bool
        ensures { result ≡ rules.is_idle (state self.now) };

    /// The run is closed.
    fn close(&mut self) -> Result<(), NoMemory>
        ensures closed { OnOk result (state self.new ≡ rules.closed (state self.old)) }
        ensures whole { OnOk result (is_broken self.new ≡ false) };
}
