ghost use Rattle.std.specs.Prelude.{ℕ, List};
ghost use Rattle.tal_pieces.specs.declared.piece.Piece.{Piece};
ghost use Rattle.tal_pieces.specs.Cuts.{AreSpellable, CutsInto};
ghost use Rattle.tal_pieces.specs.Printed.Procedures.{program_pieces};
ghost use Rattle.tal_pieces.specs.ReadsAgain.{ReadsAgain};
ghost use Rattle.tal_pieces.specs.Spelling.{text_of_pieces};
ghost use Rattle.tal_reader.specs.Reads.{Reads};
ghost use Rattle.tal_tree.specs.declared.program.Program.{Program};

/// Cutting the text of pieces that can be spelled into tokens gives just these pieces, in order, and no fault.
pub fn a_text_is_cut_into_its_pieces()
    ensures { (ks : List Piece) → AreSpellable ks → CutsInto ks (text_of_pieces ks) }
{}

/// Where a text reads as a program, the text of the program's pieces reads as the same program but for the lines of its
/// statements.
pub fn a_printed_program_reads_back()
    ensures { (program : Program) (source : List ℕ) → Reads source program
        → ReadsAgain (text_of_pieces (program_pieces program)) program }
{}
