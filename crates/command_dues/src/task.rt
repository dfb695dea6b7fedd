ghost use Rattle.std.specs.Prelude.{◌≡◌};
ghost use Rattle.command_dues.specs.Tasks.{can_stop, judges, load_task};

use player::ProcessorStop;
use tal_tree::Site;

/// What the report of a run tells of it.
#[derive(Clone, Copy, PartialEq, Eq)]
pub enum Telling {
    /// All that is shown, and the acts that are kept, if they are asked for.
    Lines { acts: bool },
    /// How much a load shows, in which each terminal has so many requests.
    Counts { requests: u32 },
}

/// What is to be done with a deck.
#[derive(Clone, Copy, PartialEq, Eq)]
pub enum Task {
    /// To judge its programs, and, where all are accepted, to run its schedule, with this stop beside those of the
    /// schedule, and to tell of the run.
    Run {
        tells: Telling,
        stop: Option<ProcessorStop>,
    },
    /// To judge its programs.
    Check,
    /// To judge its programs, and, where all are accepted, to run its schedule so many times for each of its
    /// processors, with a stop of that processor after 0, 1, 2 and more events beside those of the schedule, and to
    /// count how the runs end.
    Sweep {
        runs: u32,
    },
    /// To say what its programs have to name and keep at the least.
    Advise,
}

impl Task {
    /// To run the load deck with so many requests of each terminal.
    pub fn load(requests: u32) -> Task
        ensures { result ≡ load_task requests }
    {
        Task::Run {
            tells: Telling::Counts { requests },
            stop: None,
        }
    }

    /// Whether the stop, where there is one, is of a processor of the site.
    pub fn can_stop(self, site: &Site) -> bool
        ensures { result ≡ can_stop self site.now }
    {
        match self {
            Task::Run {
                tells: _,
                stop: Some(stop),
            } => stop.processor < site.processors,
            Task::Run {
                tells: _,
                stop: None,
            } => true,
            Task::Check => true,
            Task::Sweep { runs: _ } => true,
            Task::Advise => true,
        }
    }

    /// Whether the programs have to be accepted before anything is done with the deck.
    pub fn judges(self) -> bool
        ensures { result ≡ judges self }
    {
        match self {
            Task::Advise => false,
            _ => true,
        }
    }
}
