use discipline::Reason;
use gd_words::{List, NoMemory};

/// What a CHECKPOINT has to name: its statement's number and line, the globals by their items' numbers, and the files
/// by their numbers in the order of the OPENs.
#[derive(Drop)]
pub struct Advised {
    pub statement: u16,
    pub line: u32,
    pub items: List<u16>,
    pub files: List<u8>,
}

/// What the CHECKPOINTs of a program have to name, in the order of the text, and how many replies have to be kept for
/// each file, in the order of the OPENs.
#[derive(Drop)]
pub struct Advice {
    pub lists: List<Advised>,
    pub depths: List<u8>,
}

/// Why there is no advice for a program.
#[derive(Drop)]
pub enum AdviseFault {
    /// Its calls go more than 16 procedures deep.
    TooDeep,
    /// With its calls written out it has so many statements, more than 8,192.
    TooLarge(u32),
    /// This path breaks with every list and depth, and no shorter one for the same reason.
    Unmendable { reason: Reason, path: List<u16> },
    /// Memory ran out.
    NoMemory(NoMemory),
}

impl From<NoMemory> for AdviseFault {
    ghost use Rattle.std.specs.Prelude.{◌≡◌};
    ghost use Rattle.advice.specs.declared.answer.AdviseFault.TheVariants as advise;

    ghost from_gives = { λ memory refusal. refusal ≡ advise.NoMemory memory };

    fn from(memory: NoMemory) -> AdviseFault {
        AdviseFault::NoMemory(memory)
    }
}
