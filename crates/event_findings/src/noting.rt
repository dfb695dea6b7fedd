ghost use Rattle.std.specs.Prelude.{◌≡◌, IfOk};
ghost use Rattle.event_findings.specs.Told.{noted_of};

use crate::acts::holding_of;
use crate::handed_over::handed_over;
use crate::packets::{may_change, named_found};
use crate::sends::queued_by;
use crate::watches::ticking_of;
use alive_regroup::Watch;
use gd_words::{List, NoMemory};
use machine_views::{Machine, View, view};
use schedule::Event;
use std::alloc::Global;
use trace_lines::{Finding, MessageName};

/// How many messages wait at a node's end of its channel with another, and whether a request or a reply that an event
/// sends there is one that is sent again.
#[derive(Clone, Copy, PartialEq, Eq)]
pub struct Queued {
    pub from: u8,
    pub to: u8,
    pub count: usize,
    pub again: bool,
}

/// A node that ticks: what it knew of the processors before, and the processor whose line it pulls then.
#[derive(Clone, Copy)]
pub struct Ticking {
    pub node: u8,
    pub watch: Watch,
    pub line: Option<u8>,
}

/// A message that an event makes whole, and the node to which it comes.
#[derive(Clone, Copy)]
pub struct HandedOver {
    pub node: u8,
    pub message: MessageName,
}

/// How many acts the copy holds back that acts for a process.
#[derive(Clone, Copy, PartialEq, Eq)]
pub struct Holding {
    pub process: u8,
    pub held: usize,
}

/// What is noted of the machine before an event: what will have become of the packet that it names, the view of the
/// machine and what waits at the node of the event, if the event may change that, how much was shown and kept, and
/// how much is held back.
#[derive(Drop)]
pub struct Noted {
    pub packet: Option<Finding>,
    pub handed: Option<HandedOver>,
    pub ticking: Option<Ticking>,
    pub view: Option<View>,
    pub queued: List<Queued>,
    pub shown: usize,
    pub acts: usize,
    pub holding: Option<Holding>,
}

/// Notes the machine before an event.
pub fn note(alloc: Global, machine: &Machine, event: Event) -> Result<Noted, NoMemory>
    ensures { IfOk result (λ noted. noted ≡ noted_of machine.now.state event) }
{
    let packet = named_found(machine, event);
    let handed = handed_over(machine, event);
    let ticking = ticking_of(machine, event);
    let shown = machine.shown().len();
    let acts = machine.acts().len();
    let holding = holding_of(machine, event);
    if !may_change(machine, event) {
        return Ok(Noted {
            packet,
            handed,
            ticking,
            view: None,
            queued: List::new(alloc),
            shown,
            acts,
            holding,
        });
    }
    let view = view(alloc, machine)?;
    let queued = queued_by(alloc, machine, event, &view)?;
    Ok(Noted {
        packet,
        handed,
        ticking,
        view: Some(view),
        queued,
        shown,
        acts,
        holding,
    })
}
