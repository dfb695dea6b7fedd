ghost use Rattle.std.specs.Prelude.{◌≡◌, ◌∷◌, [], ℕ, Option, Some, None, true, false};
ghost use Rattle.gd_words.specs.Memory.{no_memory};
ghost use Rattle.tal_tree.specs.declared.fault.DeckFault.{DeckFault};
ghost use Rattle.tal_tree.specs.declared.site.Site.{Site};
ghost use Rattle.path_semantics.specs.declared.reason.RefusalFault.{RefusalFault};
ghost use Rattle.report_judge.specs.declared.judge.Why.{Why};
ghost use Rattle.command_dues.specs.Numbers.{status_number};
ghost use Rattle.command_dues.specs.site_machine.specs.Stopped.{stopped_from};
ghost use Rattle.command_dues.specs.Tasks.{can_stop, judges, load_task};
ghost use Rattle.command_dues.specs.declared.outcome.Status.TheVariants as status;
ghost use Rattle.command_dues.specs.declared.task.Task.TheVariants.{Advise, Check, Run, Sweep};
ghost use Rattle.command_dues.specs.declared.task.Telling.{Telling};
ghost use Rattle.player.specs.declared.stop.ProcessorStop.{ProcessorStop};
ghost use Rattle.command_dues.specs.declared.task.Telling.TheVariants.{Counts};

/// The program ends with the number of its status.
pub fn a_status_has_its_number()
    ensures done { status_number status.Done ≡ 0 }
    ensures usage { status_number status.Usage ≡ 1 }
    ensures deck_refused { (fault : DeckFault) → status_number (status.DeckRefused fault) ≡ 2 }
    ensures refused { (process : ℕ) (refusal : RefusalFault) → status_number (status.Refused process refusal) ≡ 3 }
    ensures cut { status_number status.Cut ≡ 4 }
    ensures second_stop { (processor : ℕ) → status_number (status.SecondStop processor) ≡ 5 }
    ensures disc_lost { (process : ℕ) → status_number (status.DiscLost process) ≡ 10 }
    ensures read_fault { status_number status.ReadFault ≡ 6 }
    ensures write_fault { status_number status.WriteFault ≡ 7 }
    ensures no_memory { status_number (status.NoMemory no_memory) ≡ 8 }
    ensures rejected { (line : ℕ) (cause : Why) → status_number (status.Rejected line cause) ≡ 9 }
{}

/// The processors that have stopped are told by their numbers, rising.
pub fn stopped_processors_are_told()
    ensures { stopped_from 0 (false ∷ true ∷ false ∷ true ∷ []) ≡ 1 ∷ 3 ∷ [] }
{}

/// A processor can stop that the site has; a load runs with no stop, and is counted; a sweep stops what the site has.
pub fn a_task_is_that_of_its_command()
    ensures has { (site : Site) (tells : Telling)
        → can_stop (Run tells (Some (record { processor = 2; after = 9 }))) (record site { processors = 3 }) ≡ true }
    ensures has_not { (site : Site) (tells : Telling)
        → can_stop (Run tells (Some (record { processor = 3; after = 0 }))) (record site { processors = 3 }) ≡ false }
    ensures no_stop { (site : Site) (tells : Telling) → can_stop (Run tells None) site ≡ true }
    ensures check { (site : Site) → can_stop Check site ≡ true }
    ensures sweep { (site : Site) (runs : ℕ) → can_stop (Sweep runs) site ≡ true }
    ensures advise { (site : Site) → can_stop Advise site ≡ true }
    ensures load { (requests : ℕ) → load_task requests ≡ Run (Counts requests) None }
{}

/// Programs have to be accepted for all but advice.
pub fn programs_are_judged_for_all_but_advice()
    ensures run { (tells : Telling) (stop : Option ProcessorStop) → judges (Run tells stop) ≡ true }
    ensures check { judges Check ≡ true }
    ensures sweep { (runs : ℕ) → judges (Sweep runs) ≡ true }
    ensures advise { judges Advise ≡ false }
{}
