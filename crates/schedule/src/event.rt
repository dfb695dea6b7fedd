use crate::bus_name::BusName;

/// One atomic step of the whole system. Processes and terminals are named by their places in the deck, nodes by their
/// numbers, and packets by their bus and their positions on it, from 0.
#[derive(Clone, Copy, PartialEq, Eq)]
pub enum Event {
    Run(u8),
    Enter(u8),
    Deliver { bus: BusName, k: u32 },
    Lose { bus: BusName, k: u32 },
    Repeat { bus: BusName, k: u32 },
    Tick(u8),
    Fail(u8),
    Reload(u8),
    Drive(DriveEvent),
}

/// What befalls one of the two drives, 0 or 1, of the mirrored disc that is the process at a place in the deck.
#[derive(Clone, Copy, PartialEq, Eq)]
pub struct DriveEvent {
    pub process: u8,
    pub drive: u8,
    pub change: DriveChange,
}

#[derive(Clone, Copy, PartialEq, Eq)]
pub enum DriveChange {
    /// It fails.
    Break,
    /// A new drive is put in the place of one that failed.
    Revive,
    /// The next sector is copied on a new drive.
    Copy,
}

/// What the next event of a line is chosen by: the packets on the buses, whether the packet that it concerns is an
/// alive packet and of which sender, whether the machine is idle, and how many writes and replies were shown.
#[derive(Clone, Copy, PartialEq, Eq)]
pub struct Counts {
    pub x: u32,
    pub y: u32,
    pub alive: bool,
    pub sender: u8,
    pub idle: bool,
    pub writes: u32,
    pub replies: u32,
}
