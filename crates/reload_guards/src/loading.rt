ghost use Rattle.std.specs.Prelude.{◌≡◌, ℕ, true, false, [], ◌∷◌, ◌++◌, map, Some, None};
ghost use Rattle.std.specs.Option.{is_some, option_map};
ghost use Rattle.world_semantics.specs.Core.{Core};
ghost use Rattle.world_semantics.specs.Examples.{disc_site};
ghost use Rattle.world_semantics.specs.Rules.{blank_copy, reloaded_by, renewals_ended, copy_with_renewal, taker};
ghost use Rattle.world_semantics.specs.Rules.{without_downs};
ghost use Rattle.world_semantics.specs.World.{Copy, Pair, is_marked_by_all, is_pair_of, is_whole};
ghost use Rattle.world_semantics.specs.declared.role.Role.TheVariants.{Acting, Blank, Gone, Watching};
ghost use Rattle.world_semantics.specs.declared.which.Which.TheVariants.{First, Second};
ghost use Rattle.computed_changes.specs.Stopped.{reload_counted, reload_done, stop_done, stopped_world, world_at_down};
ghost use Rattle.letters.specs.Posts.{after_reloading, without_those_of};
ghost use Rattle.letters.specs.Routes.{route_to};
ghost use Rattle.reload_guards.specs.Worlds.{begun, stopped, marked_once, marked, loaded, applied, over, firsts};
ghost use Rattle.reload_guards.specs.Worlds.{letter, loaded_second, seconds};

/// A world is whole at its beginning, and again once the blank copy has everything; not where a processor has stopped,
/// nor where a copy of any process is blank. Of two copies one acts and the other watches.
pub fn whole_worlds_are_told_apart()
    ensures beginning { is_whole begun ≡ true }
    ensures stopped { is_whole stopped ≡ false }
    ensures taken_over { is_whole marked ≡ false }
    ensures blank { is_whole loaded ≡ false }
    ensures again { is_whole applied ≡ true }
    ensures each { is_whole (record loaded { processes = begun.processes ++ loaded.processes }) ≡ false }
    ensures acting_blank { is_pair_of Acting Blank ≡ false }
    ensures both_act { is_pair_of Acting Acting ≡ false }
    ensures both_watch { is_pair_of Watching Watching ≡ false }
{}

/// So a second processor stops only then.
pub fn a_second_processor_stops_in_a_whole_world_alone()
    ensures stopped { stop_done 1 stopped ≡ None }
    ensures blank { stop_done 1 loaded ≡ None }
    ensures roles { option_map (λ done. map (λ copy. copy.role) (seconds done.world)) (stop_done 1 over)
        ≡ Some (Gone ∷ []) }
{}

/// A processor is loaded again once each node that runs has marked it, the node of the terminals too; and 127 times at
/// most.
pub fn a_processor_is_loaded_after_all_have_marked_it()
    ensures running { reload_done disc_site 0 begun ≡ None }
    ensures unmarked { reload_done disc_site 0 stopped ≡ None }
    ensures once { reload_done disc_site 0 marked_once ≡ None }
    ensures by_all { is_marked_by_all marked 0 ≡ true }
    ensures all { reload_done disc_site 0 marked ≡ Some (record { world = loaded; sendings = [] }) }
    ensures other { reload_done disc_site 1 marked ≡ None }
    ensures again { reload_done disc_site 0 loaded ≡ None }
    ensures last { is_some (reload_counted disc_site 0 marked (Some 126)) ≡ true }
    ensures no_more { reload_counted disc_site 0 marked (Some 127) ≡ None }
{}

/// It runs then, is counted, and is marked by nobody.
pub fn a_loaded_processor_runs_unmarked()
    ensures runs { loaded.stopped ≡ false ∷ false ∷ [] }
    ensures counted { loaded.reloads ≡ 1 ∷ 0 ∷ [] }
    ensures downs { loaded.downs ≡ [] }
    ensures others { without_downs 0 (record { node = 1; down = 0 } ∷ record { node = 2; down = 3 } ∷ [])
        ≡ record { node = 2; down = 3 } ∷ [] }
{}

/// The copy there is blank, in the era after that of the one that acts; and that one has to send everything, in the
/// same era, and leads.
pub fn copies_after_a_reload()
    ensures blank { map (λ copy. copy.role) (firsts loaded) ≡ Blank ∷ [] }
    ensures acting { map (λ copy. copy.role) (seconds loaded) ≡ Acting ∷ [] }
    ensures eras { map (λ copy. copy.era) (firsts loaded) ≡ 2 ∷ [] }
    ensures same_era { map (λ copy. copy.era) (seconds loaded) ≡ 2 ∷ [] }
    ensures number { map (λ copy. copy.number) (seconds loaded) ≡ 0 ∷ [] }
    ensures renewal { map (λ copy. copy.renewal) (seconds loaded) ≡ true ∷ [] }
    ensures leads { map (λ pair. pair.led) loaded.processes ≡ Second ∷ [] }
    ensures led_before { map (λ pair. pair.led) marked.processes ≡ First ∷ [] }
{}

/// It is so too where the processor is that of the second copy, and a process that has no copy there stays as it was.
pub fn a_second_copy_is_loaded_again()
    ensures blank { map (λ copy. copy.role) (seconds loaded_second) ≡ Blank ∷ [] }
    ensures acting { map (λ copy. copy.role) (firsts loaded_second) ≡ Acting ∷ [] }
    ensures eras { map (λ copy. copy.era) (seconds loaded_second) ≡ 1 ∷ [] }
    ensures same_era { map (λ copy. copy.era) (firsts loaded_second) ≡ 1 ∷ [] }
    ensures renewal { map (λ copy. copy.renewal) (firsts loaded_second) ≡ true ∷ [] }
    ensures leads_again { (core : Core) (pair : Pair)
        → (reloaded_by core (record pair { led = Second }) false true).led ≡ First }
    ensures elsewhere { (core : Core) (pair : Pair) → reloaded_by core pair false false ≡ pair }
{}

/// What the copy that has to send everything had sent counts no more. It has its core, its requests and its acts as
/// before.
pub fn a_renewed_copy_has_sent_nothing()
    ensures sent { (copy : Copy) → (copy_with_renewal copy).sent ≡ false }
    ensures acknowledged { (copy : Copy) → (copy_with_renewal copy).acknowledged ≡ false }
    ensures core { (copy : Copy) → (copy_with_renewal copy).core ≡ copy.core }
    ensures waiting { (copy : Copy) → (copy_with_renewal copy).waiting ≡ copy.waiting }
    ensures position { (copy : Copy) → (copy_with_renewal copy).position ≡ copy.position }
    ensures held { (copy : Copy) → (copy_with_renewal copy).held ≡ copy.held }
{}

/// A blank copy has the core of the beginning, and nothing else.
pub fn a_blank_copy_holds_nothing()
    ensures core { (processor era : ℕ) (core : Core) → (blank_copy processor era core).core ≡ core }
    ensures waiting { (processor era : ℕ) (core : Core) → (blank_copy processor era core).waiting ≡ [] }
    ensures position { (processor era : ℕ) (core : Core) → (blank_copy processor era core).position ≡ 0 }
    ensures held { (processor era : ℕ) (core : Core) → (blank_copy processor era core).held ≡ [] }
    ensures number { (processor era : ℕ) (core : Core) → (blank_copy processor era core).number ≡ 0 }
{}

/// Nodes still send to the copy that acts; a node that hasn't marked its processor does so after the reload as before.
pub fn routes_stay_at_a_reload()
    ensures beginning { route_to begun 1 0 ≡ Some 0 }
    ensures marked { route_to marked 1 0 ≡ Some 1 }
    ensures loaded { route_to loaded 1 0 ≡ Some 1 }
    ensures anew { route_to loaded 0 0 ≡ Some 1 }
{}

/// A copy needn't send everything any more where its own node marks the other one's processor.
pub fn a_mark_ends_what_was_to_be_sent()
    ensures own { map (λ pair. (renewals_ended 1 0 pair).second.renewal) loaded.processes ≡ false ∷ [] }
    ensures first { map (λ pair. (renewals_ended 0 1 pair).first.renewal) loaded_second.processes ≡ false ∷ [] }
    ensures other_node { map (λ pair. (renewals_ended 16 0 pair).second.renewal) loaded.processes ≡ true ∷ [] }
    ensures other_processor { map (λ pair. (renewals_ended 1 2 pair).second.renewal) loaded.processes ≡ true ∷ [] }
{}

/// A blank copy never takes over, and one that got everything does.
pub fn a_blank_copy_never_takes_over()
    ensures blank { map (λ pair. taker 0 1 pair) loaded.processes ≡ None ∷ [] }
    ensures stays { map (λ copy. copy.role) (firsts (world_at_down 0 1 (stopped_world 1 loaded)).world) ≡ Blank ∷ [] }
    ensures watching { map (λ pair. taker 0 1 pair) over.processes ≡ Some First ∷ [] }
    ensures acts { map (λ copy. copy.role) (firsts (world_at_down 0 1 (stopped_world 1 over)).world) ≡ Acting ∷ [] }
    ensures era { map (λ copy. copy.era) (firsts (world_at_down 0 1 (stopped_world 1 over)).world) ≡ 3 ∷ [] }
{}

/// What was sent from the processor or to it is forgotten, be it owed or only among what may come; and nothing else is.
pub fn letters_of_a_loaded_processor_are_forgotten()
    ensures kept { without_those_of 0 (letter 0 1 ∷ letter 1 16 ∷ letter 1 0 ∷ letter 0 0 ∷ letter 16 1 ∷ [])
        ≡ letter 1 16 ∷ letter 16 1 ∷ [] }
    ensures owed { (after_reloading 0 loaded
        (record { world = marked; owed = letter 16 0 ∷ letter 1 16 ∷ []; sent = [] })).owed ≡ letter 1 16 ∷ [] }
    ensures sent { (after_reloading 0 loaded
        (record { world = marked; owed = []; sent = letter 16 1 ∷ letter 0 1 ∷ [] })).sent ≡ letter 16 1 ∷ [] }
{}

/// The copy that was blank watches once it has applied everything.
pub fn a_copy_that_got_everything_watches()
    ensures { map (λ copy. copy.role) (firsts applied) ≡ Watching ∷ [] }
{}
