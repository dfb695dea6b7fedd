use gd_words::NoMemory;
use thiserror::Error;

/// Why a program's graph isn't built.
#[derive(Clone, Copy, Debug, PartialEq, Eq, Error)]
pub enum FlowFault {
    #[error("calls go more than 16 procedures deep")]
    TooDeep,
    /// How many nodes there would be; 4,294,967,295 also where there would be more.
    #[error("{0} statements with all calls written out, and 8,192 is the limit")]
    TooLarge(u32),
    #[error("out of memory")]
    NoMemory(NoMemory),
}

impl From<NoMemory> for FlowFault {
    ghost use Rattle.std.specs.Prelude.{◌≡◌};
    ghost use Rattle.flow_paths.specs.declared.fault.FlowFault.TheVariants as flow;

    ghost from_gives = { λ memory fault. fault ≡ flow.NoMemory memory };

    fn from(memory: NoMemory) -> FlowFault {
        FlowFault::NoMemory(memory)
    }
}
