ghost use Rattle.std.specs.Prelude.{◌≡◌, ◌⊎◌, ◌<◌, ℕ, List, [], length};
ghost use Rattle.tal_tree.specs.declared.program.Program.{Program};
ghost use Rattle.path_semantics.specs.declared.dues.Dues.{Dues};
ghost use Rattle.path_semantics.specs.Dues.{no_dues};
ghost use Rattle.path_semantics.specs.Place.{Stand};
ghost use Rattle.path_semantics.specs.Path.{Leads};
ghost use Rattle.flow_paths.specs.Flow.{IsFlow};
ghost use Rattle.flow_paths.specs.Graph.{Node};
ghost use Rattle.flow_paths.specs.Walk.{Goes, StandsAt};

/// The paths of a program are the walks along the edges of its graph from the first node on: where a path leads, a walk
/// by the same numbers goes, with the same dues, unless the program has ended there; and where a walk goes, a path
/// leads.
pub fn paths_are_walks()
    ensures walked { (program : Program) (nodes : List Node) (path : List ℕ) (stand : Stand) → IsFlow program nodes
        → Leads program path stand
        → (stand.place ≡ []) ⊎ ((k : ℕ) × Goes nodes 0 no_dues path k stand.dues × StandsAt nodes k stand) }
    ensures led { (program : Program) (nodes : List Node) (path : List ℕ) (k : ℕ) (dues : Dues) → IsFlow program nodes
        → k < length nodes → Goes nodes 0 no_dues path k dues
        → (stand : Stand) × Leads program path stand × StandsAt nodes k stand × (stand.dues ≡ dues) }
{}
