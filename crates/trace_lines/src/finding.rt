use alive_regroup::ProcessorSet;
use mirror::DriveState;
use process_semantics::Point;
use tal_tree::Who;

/// One thing that an event of a run did. Processes and terminals are named by their places in the deck, and what a
/// program makes by its number in the program.
#[derive(Clone, Copy, PartialEq, Eq, Drop)]
pub enum Finding {
    /// It names nothing that is there or can be done.
    Skipped,
    /// A process that was to run can't go on from where it stands.
    StandsStill(Point),
    /// It would have stopped this processor while another had, or while a process had no backup, and the run ended
    /// before it.
    WouldStopSecond(u8),
    /// It would have lost the disc that is this process, and the run ended before it.
    WouldLoseDisc(u8),
    /// A packet met its fate. If it is a piece that its sender has outstanding, it is of this message.
    Packet {
        packet: PacketSight,
        fate: Fate,
        message: Option<MessageName>,
    },
    /// A node sent a message to a node, and perhaps once more; its last piece has this number between the two.
    Sends {
        sender: u8,
        receiver: u8,
        last: u32,
        message: Option<MessageName>,
        again: bool,
    },
    /// A process made a statement, or came to the end of a procedure where the number is 0.
    Makes {
        process: u8,
        statement: u16,
    },
    /// A process set a word of a global to a value: the global's number, and the place of the word in it from 0.
    Sets {
        process: u8,
        item: usize,
        place: usize,
        value: i16,
    },
    /// The process of a disc went on from where it stood.
    DiscGoesOn(Point),
    /// A process sent the checkpoint of this number.
    SendsCheckpoint(u32),
    /// A process went on behind its checkpoint.
    PassesCheckpoint,
    /// A process sent the checkpoint of this number with everything that it has, where it stood.
    SendsEverything(u32),
    /// Such a checkpoint of a process ended: it goes on where it stood.
    EndsSending,
    /// The copy of a process in a processor put the checkpoint of this number in.
    AppliesCheckpoint {
        process: u8,
        processor: u8,
        number: u32,
    },
    /// The copy of a process in a processor ignored the checkpoint of this number that came.
    IgnoresCheckpoint {
        process: u8,
        processor: u8,
        number: u32,
        why: WhyIgnored,
    },
    /// The copy of a process in a processor heard that its checkpoint of this number was taken.
    HearsTaken {
        process: u8,
        processor: u8,
        number: u32,
    },
    /// The request of this number waits at the copy of a process in a processor.
    Waits {
        process: u8,
        processor: u8,
        number: u32,
    },
    /// The copy of a process in a processor took over, in this era. It goes on from a statement, if that is known.
    TakesOver {
        process: u8,
        processor: u8,
        era: u32,
        statement: Option<u16>,
    },
    /// This act is kept now.
    Keeps(ActName),
    /// The copy that acts for the process that ran holds this act back now.
    HoldsBack(ActName),
    /// A processor stopped.
    Stops(u8),
    /// A processor was loaded again.
    Reloads(u8),
    /// A node marked a processor as down.
    Marks {
        node: u8,
        processor: u8,
    },
    /// A check of a node missed a processor that the check before it hadn't missed.
    Misses {
        node: u8,
        processor: u8,
    },
    /// Two checks of a node in a row have missed a processor now.
    FindsSilent {
        node: u8,
        processor: u8,
    },
    /// A node reports which processors are silent to it.
    Reports {
        node: u8,
        silent: ProcessorSet,
    },
    /// A node pulls the hold line of a processor.
    PullsLine {
        node: u8,
        processor: u8,
    },
    /// A terminal entered its request of this number.
    Enters(u32),
    /// The drive that the event names stands so now.
    Drive(DriveState),
}

/// Why a checkpoint is ignored that comes to a copy: that one acts itself, or the checkpoint is of another era, or it
/// isn't the next one.
#[derive(Clone, Copy, PartialEq, Eq, Drop)]
pub enum WhyIgnored {
    Acts,
    OtherEra,
    NotNext,
}

/// An act of the machine of single unfailing processes, with who asks for what is taken.
#[derive(Clone, Copy, PartialEq, Eq, Drop)]
pub enum ActName {
    Step(u8),
    Take { process: u8, asker: Option<Who> },
    Enter(u8),
    Print(u8),
}

/// Which message it is.
#[derive(Clone, Copy, PartialEq, Eq, Drop)]
pub enum MessageName {
    /// The request of this number to a process, and who asks if it has such an opener.
    Request {
        asker: Option<Who>,
        process: u8,
        number: u32,
    },
    /// The reply of a process to that request.
    Reply {
        asker: Option<Who>,
        process: u8,
        number: u32,
    },
    /// The checkpoint of this number in an era of a process.
    Checkpoint {
        process: u8,
        era: u32,
        number: u32,
    },
    /// That this checkpoint was taken.
    Taken {
        process: u8,
        era: u32,
        number: u32,
    },
    /// Which processors are silent to a node.
    Report {
        node: u8,
        silent: ProcessorSet,
    },
    /// That this processor is down.
    Down(u8),
}

/// A packet as it is told: from which node to which, and what it is.
#[derive(Clone, Copy, PartialEq, Eq, Drop)]
pub struct PacketSight {
    pub sender: u8,
    pub receiver: u8,
    pub sort: PacketSort,
}

/// What a packet is, with the number of its piece: a piece that others follow, or the last one of its message.
#[derive(Clone, Copy, PartialEq, Eq, Drop)]
pub enum PacketSort {
    Alive,
    Piece(u32),
    LastPiece(u32),
    Acknowledgement(u32),
}

/// What became of a packet.
#[derive(Clone, Copy, PartialEq, Eq, Drop)]
pub enum Fate {
    Came,
    /// It is a piece that had come before.
    CameAgain,
    /// It came to a processor that has stopped.
    Dropped,
    /// It came to a node that has marked its sender as down.
    Refused,
    /// Its sender or its receiver was loaded again since it was sent.
    Old,
    Lost,
    /// It was put on its bus once more.
    Repeated,
}
