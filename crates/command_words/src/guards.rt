ghost use Rattle.std.specs.Prelude.{◌≡◌, true, false, [], ◌∷◌, Some, None, codes};
ghost use Rattle.command_words.specs.Asked.{asked_by};
ghost use Rattle.command_words.specs.Guarded.{asked, run_with_stop};
ghost use Rattle.command_words.specs.declared.asked.Command.TheVariants.{Run, Check, Load, Sweep, Verify, Advise};

/// `run` alone, with its flags in any order, with the value of `--fail` as a word of its own or after `=`, and before
/// `--`.
pub fn run_is_asked_for()
    ensures alone { asked (codes "run" ∷ []) ≡ Some (Run false None) }
    ensures acts { asked (codes "run" ∷ codes "--acts" ∷ []) ≡ Some (Run true None) }
    ensures acts_first { asked (codes "--acts" ∷ codes "run" ∷ []) ≡ Some (Run true None) }
    ensures nothing_after { asked (codes "run" ∷ codes "--" ∷ []) ≡ Some (Run false None) }
    ensures fail { asked (codes "run" ∷ codes "--fail" ∷ codes "1:7" ∷ []) ≡ Some (run_with_stop false 1 7) }
    ensures both { asked (codes "run" ∷ codes "--fail=1:007" ∷ codes "--acts" ∷ []) ≡ Some (run_with_stop true 1 7) }
    ensures greatest { asked (codes "run" ∷ codes "--fail" ∷ codes "15:999999999" ∷ [])
        ≡ Some (run_with_stop false 15 999999999) }
{}

/// `check` alone, and `load` with a number, which may begin with zeros.
pub fn check_and_load_are_asked_for()
    ensures check { asked (codes "check" ∷ []) ≡ Some Check }
    ensures least { asked (codes "load" ∷ codes "1" ∷ []) ≡ Some (Load 1) }
    ensures greatest { asked (codes "load" ∷ codes "0200" ∷ []) ≡ Some (Load 200) }
{}

/// `sweep` alone with a number of one to nine digits, which is from 1 to 10,000 and may begin with zeros.
pub fn sweep_is_asked_for()
    ensures least { asked (codes "sweep" ∷ codes "1" ∷ []) ≡ Some (Sweep 1) }
    ensures greatest { asked (codes "sweep" ∷ codes "010000" ∷ []) ≡ Some (Sweep 10000) }
    ensures missing { asked (codes "sweep" ∷ []) ≡ None }
    ensures zero { asked (codes "sweep" ∷ codes "0" ∷ []) ≡ None }
    ensures above { asked (codes "sweep" ∷ codes "10001" ∷ []) ≡ None }
    ensures ten_digits { asked (codes "sweep" ∷ codes "0000000001" ∷ []) ≡ None }
    ensures two { asked (codes "sweep" ∷ codes "1" ∷ codes "2" ∷ []) ≡ None }
    ensures acts { asked (codes "sweep" ∷ codes "1" ∷ codes "--acts" ∷ []) ≡ None }
    ensures fail { asked (codes "sweep" ∷ codes "1" ∷ codes "--fail" ∷ codes "1:7" ∷ []) ≡ None }
{}

/// `verify` alone.
pub fn verify_is_asked_for()
    ensures alone { asked (codes "verify" ∷ []) ≡ Some Verify }
    ensures number { asked (codes "verify" ∷ codes "1" ∷ []) ≡ None }
    ensures acts { asked (codes "verify" ∷ codes "--acts" ∷ []) ≡ None }
    ensures fail { asked (codes "verify" ∷ codes "--fail" ∷ codes "1:7" ∷ []) ≡ None }
{}

/// `advise` alone, with no number and no flag.
pub fn advise_is_asked_for()
    ensures alone { asked (codes "advise" ∷ []) ≡ Some Advise }
    ensures number { asked (codes "advise" ∷ codes "1" ∷ []) ≡ None }
    ensures acts { asked (codes "advise" ∷ codes "--acts" ∷ []) ≡ None }
    ensures fail { asked (codes "advise" ∷ codes "--fail" ∷ codes "1:7" ∷ []) ≡ None }
    ensures longer { asked (codes "advised" ∷ []) ≡ None }
{}

/// There is a mode, and just one.
pub fn modes_are_wanted()
    ensures no_name { asked_by [] ≡ None }
    ensures nothing { asked [] ≡ None }
    ensures empty { asked ([] ∷ []) ≡ None }
    ensures other { asked (codes "judge" ∷ []) ≡ None }
    ensures longer { asked (codes "runs" ∷ []) ≡ None }
    ensures two { asked (codes "run" ∷ codes "check" ∷ []) ≡ None }
    ensures help { asked (codes "--help" ∷ []) ≡ None }
{}

/// `run` and `check` have no number. That of `load` has one to nine digits and is from 1 to 200.
pub fn numbers_are_of_load()
    ensures run { asked (codes "run" ∷ codes "3" ∷ []) ≡ None }
    ensures check { asked (codes "check" ∷ codes "3" ∷ []) ≡ None }
    ensures missing { asked (codes "load" ∷ []) ≡ None }
    ensures zero { asked (codes "load" ∷ codes "0" ∷ []) ≡ None }
    ensures above { asked (codes "load" ∷ codes "201" ∷ []) ≡ None }
    ensures ten_digits { asked (codes "load" ∷ codes "0000000001" ∷ []) ≡ None }
    ensures sign { asked (codes "load" ∷ codes "+1" ∷ []) ≡ None }
    ensures two { asked (codes "load" ∷ codes "1" ∷ codes "2" ∷ []) ≡ None }
{}

/// `run` alone has flags, each at most once and by its whole name.
pub fn flags_are_of_run()
    ensures check_acts { asked (codes "check" ∷ codes "--acts" ∷ []) ≡ None }
    ensures check_fail { asked (codes "check" ∷ codes "--fail" ∷ codes "1:7" ∷ []) ≡ None }
    ensures load_acts { asked (codes "load" ∷ codes "1" ∷ codes "--acts" ∷ []) ≡ None }
    ensures load_fail { asked (codes "load" ∷ codes "1" ∷ codes "--fail" ∷ codes "1:7" ∷ []) ≡ None }
    ensures acts_twice { asked (codes "run" ∷ codes "--acts" ∷ codes "--acts" ∷ []) ≡ None }
    ensures fail_twice { asked (codes "run" ∷ codes "--fail" ∷ codes "1:7" ∷ codes "--fail" ∷ codes "1:7" ∷ []) ≡ None }
    ensures shortened { asked (codes "run" ∷ codes "--act" ∷ []) ≡ None }
    ensures with_value { asked (codes "run" ∷ codes "--acts=true" ∷ []) ≡ None }
    ensures after_dashes { asked (codes "run" ∷ codes "--" ∷ codes "--acts" ∷ []) ≡ None }
{}

/// A stop has a processor, 0 to 15, and how many events precede it, with a colon between them.
pub fn stops_are_written_whole()
    ensures above { asked (codes "run" ∷ codes "--fail" ∷ codes "16:0" ∷ []) ≡ None }
    ensures no_colon { asked (codes "run" ∷ codes "--fail" ∷ codes "1" ∷ []) ≡ None }
    ensures no_events { asked (codes "run" ∷ codes "--fail" ∷ codes "1:" ∷ []) ≡ None }
    ensures no_processor { asked (codes "run" ∷ codes "--fail" ∷ codes ":7" ∷ []) ≡ None }
    ensures two_colons { asked (codes "run" ∷ codes "--fail" ∷ codes "1:7:7" ∷ []) ≡ None }
    ensures sign { asked (codes "run" ∷ codes "--fail" ∷ codes "-1:2" ∷ []) ≡ None }
    ensures no_value { asked (codes "run" ∷ codes "--fail" ∷ []) ≡ None }
    ensures ten_digits { asked (codes "run" ∷ codes "--fail" ∷ codes "1:0000000007" ∷ []) ≡ None }
{}
