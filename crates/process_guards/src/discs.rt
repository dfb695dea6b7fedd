ghost use Rattle.std.specs.Prelude.{◌≡◌, pos, negsuc, [], ◌∷◌, replicate};
ghost use Rattle.gd_words.specs.declared.device.DeviceCall.TheVariants.{Nothing, Read, Write};
ghost use Rattle.process_semantics.specs.declared.point.Point.TheVariants.{Device};
ghost use Rattle.process_semantics.specs.Disc.{disc_call, reply_of};
ghost use Rattle.process_guards.specs.Machines.{serving};

/// `1 s` reads and `2 s w ..` writes a sector that is there, with one to eight words, zeros after them, under the next
/// number.
pub fn a_disc_reads_and_writes()
    ensures read { disc_call 2 (serving Device (pos 1 ∷ pos 1 ∷ [])) ≡ Read 1 }
    ensures write { disc_call 2 (serving Device (pos 2 ∷ pos 0 ∷ pos 9 ∷ []))
        ≡ Write 0 (pos 9 ∷ replicate 7 (pos 0)) 4 }
    ensures eight { disc_call 2 (serving Device (pos 2 ∷ pos 1 ∷ replicate 8 (pos 5)))
        ≡ Write 1 (replicate 8 (pos 5)) 4 }
{}

/// Any other request does nothing.
pub fn a_disc_does_nothing_else()
    ensures no_such_sector { disc_call 2 (serving Device (pos 1 ∷ pos 2 ∷ [])) ≡ Nothing }
    ensures below { disc_call 2 (serving Device (pos 1 ∷ negsuc 0 ∷ [])) ≡ Nothing }
    ensures more_to_read { disc_call 2 (serving Device (pos 1 ∷ pos 1 ∷ pos 1 ∷ [])) ≡ Nothing }
    ensures nothing_to_write { disc_call 2 (serving Device (pos 2 ∷ pos 1 ∷ [])) ≡ Nothing }
    ensures nine { disc_call 2 (serving Device (pos 2 ∷ pos 1 ∷ replicate 9 (pos 5))) ≡ Nothing }
    ensures other { disc_call 2 (serving Device (pos 3 ∷ pos 1 ∷ [])) ≡ Nothing }
    ensures empty { disc_call 2 (serving Device []) ≡ Nothing }
{}

/// The reply is 0, before the words that were read, and 1 where nothing was done.
pub fn a_disc_replies()
    ensures read { reply_of (Read 1) (replicate 8 (pos 4)) ≡ pos 0 ∷ replicate 8 (pos 4) }
    ensures write { reply_of (Write 1 (replicate 8 (pos 5)) 4) (replicate 8 (pos 4)) ≡ pos 0 ∷ [] }
    ensures nothing { reply_of Nothing (replicate 8 (pos 4)) ≡ pos 1 ∷ [] }
{}
