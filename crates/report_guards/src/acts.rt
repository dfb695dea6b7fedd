ghost use Rattle.std.specs.Prelude.{◌≡◌, [], ◌∷◌, ◌++◌, codes};
ghost use Rattle.tal_tree.specs.declared.act.Act.TheVariants.{Step, Take, Enter, Print};
ghost use Rattle.tal_tree.specs.declared.act.Shown.TheVariants.{Reply, Write};
ghost use Rattle.shown_sectors.specs.Sectors.{sectors_after};
ghost use Rattle.trace_print.specs.ActLine.{act_line};
ghost use Rattle.report_guards.specs.Sites.{discs, sector, shown, site};

/// An act is told by its process or terminal; a Take by its opener too, a file by the name of its variable.
pub fn an_act_has_its_line()
    ensures step { act_line site (Step 1) ≡ codes "A step $BANK" ++ 10 ∷ [] }
    ensures take_of_a_terminal { act_line site (Take 1 0) ≡ codes "A take $BANK $T1" ++ 10 ∷ [] }
    ensures take_of_a_file { act_line site (Take 0 0) ≡ codes "A take $DATA $BANK/DISK" ++ 10 ∷ [] }
    ensures files_come_first { act_line site (Take 0 1) ≡ codes "A take $DATA $T2" ++ 10 ∷ [] }
    ensures enter { act_line site (Enter 1) ≡ codes "A enter $T2" ++ 10 ∷ [] }
    ensures print { act_line site (Print 0) ≡ codes "A print $T1" ++ 10 ∷ [] }
{}

/// Sectors rise, whatever the order of their writes, and each has the words of its last write: those of each disc, in
/// deck order, from 0 to its last one.
pub fn sectors_have_their_last_words()
    ensures sectors { sectors_after site shown
        ≡ record { process = 0; sector = 1; words = sector 6 } ∷ record { process = 0; sector = 3; words = sector 7 }
        ∷ [] }
    ensures none { sectors_after site [] ≡ [] }
    ensures edges { sectors_after site (Write 0 16 (sector 4) ∷ Write 0 15 (sector 5) ∷ Write 0 0 (sector 6)
        ∷ Reply 0 2 (sector 7) ∷ [])
        ≡ record { process = 0; sector = 0; words = sector 6 } ∷ record { process = 0; sector = 15; words = sector 5 }
        ∷ [] }
    ensures discs { sectors_after discs (Write 1 1 (sector 4) ∷ Write 0 2 (sector 5) ∷ Write 2 1 (sector 6) ∷ [])
        ≡ record { process = 0; sector = 2; words = sector 5 } ∷ record { process = 1; sector = 1; words = sector 4 }
        ∷ [] }
    ensures no_disc { sectors_after site (Write 1 0 (sector 4) ∷ []) ≡ [] }
{}
