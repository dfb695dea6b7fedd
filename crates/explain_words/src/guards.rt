ghost use Rattle.std.specs.Prelude.{◌≡◌, true, false, [], ◌∷◌, Option, Some, None, codes};
ghost use Rattle.explain_words.specs.Asked.{IsAsked, IsAskedAfter, IsFileAfter, left_with_stop};
ghost use Rattle.explain_words.specs.Asked.{chart_with_stop, trace_with_stop};
ghost use Rattle.explain_words.specs.declared.asked.Question.{Question};
ghost use Rattle.explain_words.specs.declared.asked.Question.TheVariants.{Why, Left, Breaks, Trace, Chart};

/// `why`, alone or with a file, before `--` or after it.
pub fn why_is_asked_for()
    ensures alone { IsAskedAfter (codes "why" ∷ []) (Some Why) }
    ensures nothing_after { IsAskedAfter (codes "why" ∷ codes "--" ∷ []) (Some Why) }
    ensures after { IsAskedAfter (codes "--" ∷ codes "why" ∷ []) (Some Why) }
    ensures file { IsAskedAfter (codes "why" ∷ codes "a.deck" ∷ []) (Some Why) }
{}

/// `left`, alone or with a file, and with a stop on either side of the file. One stop is `P:K`, and `why` takes none.
pub fn left_is_asked_for()
    ensures alone { IsAskedAfter (codes "left" ∷ []) (Some (Left None)) }
    ensures file { IsAskedAfter (codes "left" ∷ codes "a.deck" ∷ []) (Some (Left None)) }
    ensures fail { IsAskedAfter (codes "left" ∷ codes "--fail" ∷ codes "1:7" ∷ []) (Some (left_with_stop 1 7)) }
    ensures before { IsAskedAfter (codes "left" ∷ codes "--fail=1:7" ∷ codes "a.deck" ∷ [])
        (Some (left_with_stop 1 7)) }
    ensures behind { IsAskedAfter (codes "left" ∷ codes "a.deck" ∷ codes "--fail" ∷ codes "0:12" ∷ [])
        (Some (left_with_stop 0 12)) }
    ensures colon { IsAskedAfter (codes "left" ∷ codes "--fail" ∷ codes "1" ∷ []) None }
    ensures above { IsAskedAfter (codes "left" ∷ codes "--fail" ∷ codes "16:7" ∷ []) None }
    ensures why { IsAskedAfter (codes "why" ∷ codes "--fail" ∷ codes "1:7" ∷ []) None }
    ensures longer { IsAskedAfter (codes "lefts" ∷ []) None }
    ensures no_value { (question : Option Question) → IsAskedAfter (codes "left" ∷ codes "--fail" ∷ []) question
        → question ≡ None }
    ensures twice { (question : Option Question)
        → IsAskedAfter (codes "left" ∷ codes "--fail=1:7" ∷ codes "--fail=1:7" ∷ []) question → question ≡ None }
{}

/// `break`, alone or with a file; it takes no stop.
pub fn a_run_that_breaks_is_asked_for()
    ensures alone { IsAskedAfter (codes "break" ∷ []) (Some Breaks) }
    ensures file { IsAskedAfter (codes "break" ∷ codes "a.deck" ∷ []) (Some Breaks) }
    ensures fail { IsAskedAfter (codes "break" ∷ codes "--fail" ∷ codes "1:7" ∷ []) None }
    ensures longer { IsAskedAfter (codes "breaks" ∷ []) None }
{}

/// `trace`, alone or with a file, with a stop, from an event to another, and as JSON. The other modes take no event and
/// no `--json`.
pub fn a_trace_is_asked_for()
    ensures alone { IsAskedAfter (codes "trace" ∷ []) (Some (Trace None 1 4294967295 false)) }
    ensures file { IsAskedAfter (codes "trace" ∷ codes "a.deck" ∷ []) (Some (Trace None 1 4294967295 false)) }
    ensures fail { IsAskedAfter (codes "trace" ∷ codes "--fail" ∷ codes "1:7" ∷ [])
        (Some (trace_with_stop 1 7 1 4294967295)) }
    ensures first { IsAskedAfter (codes "trace" ∷ codes "--from" ∷ codes "20" ∷ [])
        (Some (Trace None 20 4294967295 false)) }
    ensures last { IsAskedAfter (codes "trace" ∷ codes "--to=40" ∷ codes "a.deck" ∷ []) (Some (Trace None 1 40 false)) }
    ensures both { IsAskedAfter (codes "trace" ∷ codes "--from=20" ∷ codes "--fail=0:9" ∷ codes "--to=40" ∷ [])
        (Some (trace_with_stop 0 9 20 40)) }
    ensures json { IsAskedAfter (codes "trace" ∷ codes "--json" ∷ codes "a.deck" ∷ [])
        (Some (Trace None 1 4294967295 true)) }
    ensures number { IsAskedAfter (codes "trace" ∷ codes "--from" ∷ codes "x" ∷ []) None }
    ensures colon { IsAskedAfter (codes "trace" ∷ codes "--fail" ∷ codes "1" ∷ []) None }
    ensures left { IsAskedAfter (codes "left" ∷ codes "--to" ∷ codes "40" ∷ []) None }
    ensures why { IsAskedAfter (codes "why" ∷ codes "--from" ∷ codes "1" ∷ []) None }
    ensures why_json { IsAskedAfter (codes "why" ∷ codes "--json" ∷ []) None }
    ensures longer { IsAskedAfter (codes "traces" ∷ []) None }
    ensures no_value { (question : Option Question) → IsAskedAfter (codes "trace" ∷ codes "--from" ∷ []) question
        → question ≡ None }
{}

/// `chart` takes a stop, the first and the last event, and `--alive`, which no other mode takes.
pub fn a_chart_is_asked_for()
    ensures alone { IsAskedAfter (codes "chart" ∷ []) (Some (Chart None 1 4294967295 false)) }
    ensures file { IsAskedAfter (codes "chart" ∷ codes "a.deck" ∷ []) (Some (Chart None 1 4294967295 false)) }
    ensures fail { IsAskedAfter (codes "chart" ∷ codes "--fail" ∷ codes "1:7" ∷ [])
        (Some (chart_with_stop 1 7 1 4294967295)) }
    ensures both { IsAskedAfter (codes "chart" ∷ codes "--from=20" ∷ codes "--to=40" ∷ [])
        (Some (Chart None 20 40 false)) }
    ensures alive { IsAskedAfter (codes "chart" ∷ codes "--alive" ∷ codes "a.deck" ∷ [])
        (Some (Chart None 1 4294967295 true)) }
    ensures trace { IsAskedAfter (codes "trace" ∷ codes "--alive" ∷ []) None }
    ensures why { IsAskedAfter (codes "why" ∷ codes "--alive" ∷ []) None }
    ensures json { IsAskedAfter (codes "chart" ∷ codes "--json" ∷ []) None }
    ensures number { IsAskedAfter (codes "chart" ∷ codes "--to" ∷ codes "x" ∷ []) None }
    ensures longer { IsAskedAfter (codes "charts" ∷ []) None }
{}

/// The second word is the file.
pub fn the_file_is_asked_of()
    ensures named { IsFileAfter (codes "why" ∷ codes "a.deck" ∷ []) (Some (codes "a.deck")) }
    ensures none { IsFileAfter (codes "why" ∷ []) None }
    ensures third { IsFileAfter (codes "why" ∷ codes "a" ∷ codes "b" ∷ []) None }
    ensures behind_stop { IsFileAfter (codes "left" ∷ codes "--fail" ∷ codes "1:7" ∷ codes "a.deck" ∷ [])
        (Some (codes "a.deck")) }
{}

/// One mode is wanted, and no other.
pub fn modes_are_wanted()
    ensures none { (question : Option Question) → IsAskedAfter [] question → question ≡ None }
    ensures no_name { (question : Option Question) → IsAsked [] question → question ≡ None }
    ensures flag { (question : Option Question) → IsAskedAfter (codes "why" ∷ codes "--acts" ∷ []) question
        → question ≡ None }
    ensures other { (question : Option Question) → IsAskedAfter (codes "check" ∷ []) question → question ≡ None }
    ensures upper { (question : Option Question) → IsAskedAfter (codes "WHY" ∷ []) question → question ≡ None }
    ensures longer { (question : Option Question) → IsAskedAfter (codes "whyy" ∷ []) question → question ≡ None }
{}

/// `--help` and `--version` alone ask for these, and with `why` as well.
pub fn help_and_version_are_asked_for()
    ensures help { (question : Option Question) → IsAskedAfter (codes "--help" ∷ []) question
        → question ≡ Some Question.Help }
    ensures with_mode { (question : Option Question) → IsAskedAfter (codes "why" ∷ codes "--help" ∷ []) question
        → question ≡ Some Question.Help }
    ensures version { (question : Option Question) → IsAskedAfter (codes "--version" ∷ []) question
        → question ≡ Some Question.Version }
{}
