use schedule::{BusName, Event};

/// How many processors, processes and terminals there are.
#[derive(Clone, Copy, PartialEq, Eq)]
pub struct Sizes {
    pub processors: u8,
    pub processes: u8,
    pub terminals: u8,
}

/// Where a round stands. A part that has had all its turns is left at the next event.
#[derive(Clone, Copy, PartialEq, Eq)]
pub enum Place {
    /// Between two rounds.
    Before,
    /// The turn comes to this terminal.
    Enters(u8),
    /// The turn comes to this process.
    Runs(u8),
    /// So many packets are left of those that were on the bus when its part began.
    Delivers { bus: BusName, left: u32 },
    /// The turn comes to this node.
    Ticks(u8),
}

/// Where a mixed round stands.
#[derive(Clone, Copy, PartialEq, Eq)]
pub enum MixedPlace {
    /// Between two rounds.
    Before,
    /// The turn comes to this terminal.
    Enters(u8),
    /// The turn comes to process `next` after so many more runs of the one before it.
    Runs { next: u8, left: u8 },
    /// So many packets are left of those that were on the bus when its part began.
    Delivers { bus: BusName, left: u32 },
    /// The packet at `k` was put on the bus once more, and is delivered next.
    Repeated { bus: BusName, k: u32, left: u32 },
    /// The turn comes to this node.
    Ticks(u8),
}

/// What ends a line of rounds early, and which packets are lost in it.
#[derive(Clone, Copy, PartialEq, Eq)]
pub enum Rule {
    /// The machine is idle before a round.
    Drain,
    /// Nothing; the alive packets of this node are lost.
    Mute(u8),
    /// The machine is idle before a round, or so many writes or, where `writes` is false, replies are shown.
    Until { writes: bool, count: u32 },
}

/// Where a line stands.
#[derive(Clone, Copy, PartialEq, Eq)]
pub enum LinePlace {
    Ended,
    /// So many times the event is left.
    Event {
        event: Event,
        left: u32,
    },
    /// So many rounds are left behind the one that is being made.
    Rounds {
        rule: Rule,
        left: u32,
        place: Place,
    },
    /// The same of mixed rounds, with the state of their generator.
    Mixed {
        left: u32,
        place: MixedPlace,
        draws: u64,
    },
}

/// The next event of a round, and where the round stands then.
#[derive(Clone, Copy, PartialEq, Eq)]
pub struct Turn {
    pub event: Event,
    pub place: Place,
}

/// The next event of a mixed round, and where the round and its generator stand then.
#[derive(Clone, Copy, PartialEq, Eq)]
pub struct MixedTurn {
    pub event: Event,
    pub place: MixedPlace,
    pub draws: u64,
}

/// The next event of a line, and where the line stands then.
#[derive(Clone, Copy, PartialEq, Eq)]
pub struct Move {
    pub event: Event,
    pub standing: LinePlace,
}
