ghost use Rattle.std.specs.Prelude.{ℕ, List};
ghost use Rattle.tal_interp.specs.Sound.{IsLoadable};
ghost use Rattle.code_room.specs.tal_reader.specs.Reads.{Reads};
ghost use Rattle.tal_tree.specs.declared.program.Program.{Program};

/// A program that a text reads as can be loaded.
pub fn what_is_read_can_be_loaded()
    ensures { (text : List ℕ) (program : Program) → Reads text program → IsLoadable program }
{}
