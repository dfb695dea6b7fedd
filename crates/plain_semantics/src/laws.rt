ghost use Rattle.std.specs.Prelude.{◌≡◌, ◌++◌, List, Some, None};
ghost use Rattle.std.specs.Option.{option_and_then};
ghost use Rattle.process_semantics.specs.tal_tree.specs.declared.act.Act.{Act};
ghost use Rattle.process_semantics.specs.tal_tree.specs.declared.act.Shown.{Shown};
ghost use Rattle.process_semantics.specs.tal_tree.specs.declared.site.Site.{Site};
ghost use Rattle.plain_semantics.specs.Machine.{Plain, Made, made, made_all, made_after, IsPossible, shown_by};
ghost use Rattle.plain_semantics.specs.Concerns.{AreApart};

/// Acts that follow others begin with the machine that those leave, and show what they show after it.
pub fn acts_follow_acts()
    ensures { (site : Site) (plain : Plain) (first second : List Act)
        → made_all site plain (first ++ second) ≡ option_and_then (made_after site second) (made_all site plain first) }
{}

/// The front of a possible list of acts is possible.
pub fn front_is_possible()
    ensures { (site : Site) (first second : List Act) → IsPossible site (first ++ second) → IsPossible site first }
{}

/// What a list of acts shows begins with what its front shows.
pub fn shown_begins_with_front()
    ensures { (site : Site) (first second : List Act) → IsPossible site (first ++ second)
        → (rest : List Shown) × (shown_by site (first ++ second) ≡ shown_by site first ++ rest) }
{}

/// An act that isn't possible stays so after an act that concerns other processes alone.
pub fn impossible_stays()
    ensures { (site : Site) (plain : Plain) (first second : Act) (m : Made) → made site plain first ≡ None
        → made site plain second ≡ Some m → AreApart site plain first second → made site m.plain first ≡ None }
{}
