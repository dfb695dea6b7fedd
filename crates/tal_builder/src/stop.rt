ghost use Rattle.std.specs.Prelude.{◌≡◌};
ghost use Rattle.tal_builder.specs.declared.stop.BuildFault.TheVariants as variants;

use gd_words::NoMemory;

/// Why no syntax is built: the tokens have none, or there is no memory.
#[derive(Clone, Copy, PartialEq, Eq)]
pub enum BuildFault {
    NoSyntax,
    NoMemory(NoMemory),
}

impl From<NoMemory> for BuildFault {
    ghost from_gives = { λ memory stop. stop ≡ variants.NoMemory memory };

    fn from(memory: NoMemory) -> BuildFault {
        BuildFault::NoMemory(memory)
    }
}
