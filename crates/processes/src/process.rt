ghost use Rattle.std.specs.Prelude.{◌≡◌, IfOk};
ghost use Rattle.disc_process.specs.checkpoint_image.specs.Behaving.{last_write_of};
ghost use Rattle.tal_interp.specs.process_semantics.specs.Process.{asked_file, asked_words, start_of};
ghost use Rattle.processes.specs.Seen.{IsLoadableKind, next_number_of, state_of};

use disc_process::{Behaviour, DiscProcess, Listed};
use std::alloc::Global;
use tal_interp::{Asked, DeviceCall, Kind, List, NoMemory, Point, Sector, TalProcess, Words};

/// A process of either kind.
#[derive(Drop)]
pub enum Process {
    Program(TalProcess),
    Disc(DiscProcess),
}

impl Process {
    /// A process at its beginning.
    pub fn load(alloc: Global, kind: &Kind) -> Result<Process, NoMemory>
        requires { IsLoadableKind kind.now }
        ensures { IfOk result (λ process. state_of process ≡ start_of kind.now) }
    {
        match kind {
            Kind::Disc { sectors, .. } => Ok(Process::Disc(DiscProcess::new(alloc, *sectors))),
            Kind::Pair(program) => {
                let process = TalProcess::load(alloc, program)?;
                Ok(Process::Program(process))
            }
        }
    }

    /// The number of the file on which it asks, or awaits the reply; 0 elsewhere.
    pub fn asked_file(&self) -> u8
        ensures { result ≡ asked_file (state_of self.now) }
    {
        match self {
            Process::Program(program) => program.asked_file(),
            Process::Disc(_) => 0,
        }
    }

    /// The words that it asks, or asked where it awaits the reply; none elsewhere.
    pub fn asked_words(&self) -> Words
        ensures { result ≡ asked_words (state_of self.now) }
    {
        match self {
            Process::Program(program) => program.asked_words(),
            Process::Disc(_) => Words::new(),
        }
    }

    /// The number of what it does next: at a CHECKPOINT that of the CHECKPOINT itself. 0 at a procedure's end, where it
    /// has ended, and for a disc.
    pub fn next_number(&self) -> u16
        ensures { result ≡ next_number_of (state_of self.now) }
    {
        match self {
            Process::Program(program) => program.next_number(),
            Process::Disc(_) => 0,
        }
    }

    /// The number of its last write, 0 for a program.
    pub fn last_write(&self) -> u32
        ensures { result ≡ last_write_of (state_of self.now) }
    {
        match self {
            Process::Program(_) => 0,
            Process::Disc(disc) => disc.last_write(),
        }
    }
}

impl Behaviour for Process {
    ghost use Rattle.processes.specs.Seen.{state_of};

    ghost state = { state_of };

    fn at(&self) -> Point {
        match self {
            Process::Program(program) => program.at(),
            Process::Disc(disc) => disc.at(),
        }
    }

    fn in_hand(&self) -> bool {
        match self {
            Process::Program(program) => program.in_hand(),
            Process::Disc(disc) => disc.in_hand(),
        }
    }

    fn inner(&mut self) {
        match self {
            Process::Program(program) => program.inner(),
            Process::Disc(disc) => disc.inner(),
        }
    }

    fn took(&mut self, words: &Words) {
        match self {
            Process::Program(program) => program.took(words),
            Process::Disc(disc) => disc.took(words),
        }
    }

    fn asked(&mut self) -> Asked {
        match self {
            Process::Program(program) => program.asked(),
            Process::Disc(disc) => disc.asked(),
        }
    }

    fn got(&mut self, words: &Words) {
        match self {
            Process::Program(program) => program.got(words),
            Process::Disc(disc) => disc.got(words),
        }
    }

    fn answered(&mut self) -> Words {
        match self {
            Process::Program(program) => program.answered(),
            Process::Disc(disc) => disc.answered(),
        }
    }

    fn device(&self) -> DeviceCall {
        match self {
            Process::Program(program) => program.device(),
            Process::Disc(disc) => disc.device(),
        }
    }

    fn device_done(&mut self, found: &Sector) {
        match self {
            Process::Program(program) => program.device_done(found),
            Process::Disc(disc) => disc.device_done(found),
        }
    }

    fn listed(&self) -> &Listed {
        match self {
            Process::Program(program) => program.listed(),
            Process::Disc(disc) => disc.listed(),
        }
    }

    fn everything(&self) -> &Listed {
        match self {
            Process::Program(program) => program.everything(),
            Process::Disc(disc) => disc.everything(),
        }
    }

    fn checkpointed(&mut self) {
        match self {
            Process::Program(program) => program.checkpointed(),
            Process::Disc(disc) => disc.checkpointed(),
        }
    }

    fn image(&self, alloc: Global, listed: &Listed) -> Result<List<i16>, NoMemory> {
        match self {
            Process::Program(program) => program.image(alloc, listed),
            Process::Disc(disc) => disc.image(alloc, listed),
        }
    }

    fn apply(&mut self, words: &[i16], in_hand: bool) -> bool {
        match self {
            Process::Program(program) => program.apply(words, in_hand),
            Process::Disc(disc) => disc.apply(words, in_hand),
        }
    }
}
