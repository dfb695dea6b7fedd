//! What is found of an event that is played is what is told of it.
ghost use Rattle.std.specs.Prelude.{◌≡◌};
ghost use Rattle.machine_states.specs.States.{Settles};
ghost use Rattle.machine_states.specs.declared.effect.Effect.{Effect};
ghost use Rattle.schedule.specs.declared.event.Event.{Event};
ghost use Rattle.machine_views.specs.site_machine.specs.packet_wires.specs.Play.{Packeted, play};
ghost use Rattle.tal_tree.specs.declared.site.Site.{Site};
ghost use Rattle.event_findings.specs.Told.{found, noted_of, shown_after, shown_by, told};

/// What is found by the machine's answer to an event and the state after it is what is told of the event.
pub fn what_is_found_is_told()
    ensures findings { (site : Site) (s next : Packeted) (event : Event) (effect : Effect)
        → Settles (play s event) s effect next → found site (noted_of s event) event effect next ≡ told site s event }
    ensures shown { (s next : Packeted) (event : Event) (effect : Effect)
        → Settles (play s event) s effect next → shown_after (noted_of s event) next ≡ shown_by s event }
{}
