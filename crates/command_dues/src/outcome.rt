ghost use Rattle.command_dues.specs.Numbers.{status_number};
ghost use Rattle.command_dues.specs.RunEnds.{acts_of_run, load_counts, shown_in, status_of_run};
ghost use Rattle.std.specs.Prelude.{◌≡◌};

use gd_words::NoMemory;
use path_semantics::RefusalFault;
use report_judge::{LoadCounts, Why};
use schedule_loop::Ending;
use schedule_sweeps::Ran;
use tal_tree::{Act, DeckFault, Shown};

/// How a call ended, and the run, where one was made.
#[derive(Drop)]
pub struct Outcome {
    pub status: Status,
    pub run: Option<RunEnd>,
}

impl Outcome {
    /// The outcome of a call that made no run.
    pub fn without_run(status: Status) -> Outcome
        ensures { result ≡ record { status = status; run = None } }
    {
        Outcome { status, run: None }
    }
}

/// How a call ended.
#[derive(Drop)]
pub enum Status {
    /// The run ended idle, or all programs are accepted and no more was asked, or all runs of a sweep were made, or all
    /// programs have advice, or the report is one of its deck.
    Done,
    /// The words are no command, or the processor that is to stop isn't one of the deck.
    Usage,
    /// The bytes aren't a deck.
    DeckRefused(DeckFault),
    /// The program of the process at this place in the deck isn't accepted, and those before it are; or there is no
    /// advice for it, and there is for those before it.
    Refused { process: u8, refusal: RefusalFault },
    /// The schedule was over, and something was left to do.
    Cut,
    /// This second processor would have stopped.
    SecondStop(u8),
    ReadFault,
    WriteFault,
    NoMemory(NoMemory),
    /// The report isn't one of its deck, by its line of this number, from 1.
    Rejected { line: u32, why: Why },
    /// This disc would have been lost, the process at a place in the deck.
    DiscLost(u8),
}

impl Status {
    /// The number with which the program ends.
    pub fn number(&self) -> u8
        ensures { result ≡ status_number self.now }
    {
        match self {
            Status::Done => 0,
            Status::Usage => 1,
            Status::DeckRefused(_) => 2,
            Status::Refused {
                process: _,
                refusal: _,
            } => 3,
            Status::Cut => 4,
            Status::SecondStop(_) => 5,
            Status::ReadFault => 6,
            Status::WriteFault => 7,
            Status::NoMemory(_) => 8,
            Status::Rejected { line: _, why: _ } => 9,
            Status::DiscLost(_) => 10,
        }
    }
}

/// A run that was made.
#[derive(Drop)]
pub struct RunEnd {
    pub ran: Ran,
}

impl RunEnd {
    /// The acts that the run keeps, in order.
    pub fn acts(&self) -> &[Act]
        ensures { result.now ≡ acts_of_run self.now }
    {
        self.ran.machine.acts()
    }

    /// What was shown in it, in order.
    pub fn shown(&self) -> &[Shown]
        ensures { result.now ≡ shown_in self.now }
    {
        self.ran.machine.shown()
    }

    /// How much was shown in it, as a load of so many requests of each terminal.
    pub fn counts(&self, requests: u32) -> LoadCounts
        ensures { result ≡ load_counts requests self.now }
    {
        LoadCounts {
            requests,
            writes: self.ran.machine.writes(),
            replies: self.ran.machine.replies(),
        }
    }

    /// How many events it asked for.
    pub fn events(&self) -> u64
        ensures { result ≡ self.now.ran.asked }
    {
        self.ran.asked
    }

    /// The status of a command that made it.
    pub fn status(&self) -> Status
        ensures { result ≡ status_of_run self.now.ran.ending }
    {
        match self.ran.ending {
            Ending::Idle => Status::Done,
            Ending::Cut => Status::Cut,
            Ending::Second(processor) => Status::SecondStop(processor),
            Ending::Lost(process) => Status::DiscLost(process),
        }
    }
}
