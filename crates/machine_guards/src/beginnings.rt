ghost use Rattle.std.specs.Prelude.{◌≡◌, ◌∷◌, [], ℕ, false, Some, None};
ghost use Rattle.tal_tree.specs.declared.site.Kind.TheVariants as kind;
ghost use Rattle.tal_tree.specs.declared.site.ProcessSpec.{ProcessSpec};
ghost use Rattle.tal_tree.specs.declared.site.Site.{Site};
ghost use Rattle.world_semantics.specs.declared.role.Role.{Role};
ghost use Rattle.world_semantics.specs.declared.role.Role.TheVariants.{Acting, Blank, Gone, Watching};
ghost use Rattle.world_semantics.specs.Core.{Core, core_at_boot};
ghost use Rattle.world_semantics.specs.Examples.{bank, bank_site};
ghost use Rattle.world_semantics.specs.Rules.{taker};
ghost use Rattle.world_semantics.specs.declared.which.Which.TheVariants.{First, Second};
ghost use Rattle.world_semantics.specs.World.{Pair, boot, copy_at_boot, pair_at_boot};
ghost use Rattle.machine_guards.specs.States.{discs, placed};

/// A copy begins in era 0 with no checkpoint sent or applied, and needn't send everything. It has done no act and holds
/// none, and no request waits there.
pub fn a_copy_begins_with_nothing_done()
    ensures { (role : Role) (processor : ℕ) (core : Core) → copy_at_boot role processor core ≡ record {
      processor = processor;
      role = role;
      era = 0;
      number = 0;
      sent = false;
      acknowledged = false;
      renewal = false;
      core = core;
      waiting = [];
      position = 0;
      held = [];
    } }
{}

/// A process begins with the copy that acts, which leads, in its first-named processor and the one that watches in the
/// other, and with no checkpoint.
pub fn a_process_begins_in_its_two_processors()
    ensures first { (site : Site) (number : ℕ) (spec : ProcessSpec)
        → (pair_at_boot site number spec).first ≡ copy_at_boot Acting spec.primary (core_at_boot site number spec) }
    ensures second { (site : Site) (number : ℕ) (spec : ProcessSpec)
        → (pair_at_boot site number spec).second ≡ copy_at_boot Watching spec.backup (core_at_boot site number spec) }
    ensures base { (site : Site) (number : ℕ) (spec : ProcessSpec) → (pair_at_boot site number spec).base ≡ 0 }
    ensures leads { (site : Site) (number : ℕ) (spec : ProcessSpec) → (pair_at_boot site number spec).led ≡ First }
    ensures checkpoints { (site : Site) (number : ℕ) (spec : ProcessSpec)
        → ((pair_at_boot site number spec).checkpoints ≡ []) × ((pair_at_boot site number spec).takens ≡ []) }
{}

/// The first request on each file has the number 1, and nothing was taken of any opener.
pub fn requests_are_numbered_from_one()
    ensures next { (spec : ProcessSpec) → (core_at_boot bank_site 1 (record spec { what = kind.Pair bank })).next
        ≡ 1 ∷ 1 ∷ [] }
    ensures receive { (spec : ProcessSpec) → (core_at_boot bank_site 1 spec).receive
        ≡ record { openers = record { taken = 0; kept = [] } ∷ []; in_hand = None } }
{}

/// A site begins with no processor stopped or loaded again, nothing sent, shown or kept, and no request entered.
pub fn a_site_begins_with_nothing_done()
    ensures stopped { (boot discs).stopped ≡ false ∷ false ∷ false ∷ [] }
    ensures reloads { (boot discs).reloads ≡ 0 ∷ 0 ∷ 0 ∷ [] }
    ensures terminals { (boot discs).terminals
        ≡ record { entered = 0; printed = 0 } ∷ record { entered = 0; printed = 0 } ∷ [] }
    ensures downs { (site : Site) → (boot site).downs ≡ [] }
    ensures sent { (site : Site) → ((boot site).requests ≡ []) × ((boot site).replies ≡ []) }
    ensures shown { (site : Site) → (boot site).shown ≡ [] }
    ensures kept { (site : Site) → (boot site).kept ≡ [] }
{}

/// The copy that watches on the node takes over, whichever of the two it is, where the other one's processor is marked.
pub fn whichever_watches_takes_over()
    ensures first { (pair : Pair) → taker 0 1 (placed 0 Watching 1 Gone pair) ≡ Some First }
    ensures second { (pair : Pair) → taker 1 0 (placed 0 Gone 1 Watching pair) ≡ Some Second }
    ensures acts { (pair : Pair) → taker 0 1 (placed 0 Acting 1 Gone pair) ≡ None }
    ensures blank { (pair : Pair) → taker 0 1 (placed 0 Blank 1 Gone pair) ≡ None }
    ensures another_node { (pair : Pair) → taker 2 1 (placed 0 Watching 1 Gone pair) ≡ None }
    ensures another_processor { (pair : Pair) → taker 0 2 (placed 0 Watching 1 Gone pair) ≡ None }
{}
