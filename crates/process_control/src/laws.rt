ghost use Rattle.std.specs.Prelude.{◌≡◌, false, length};
ghost use Rattle.tal_tree.specs.declared.site.Kind.{Kind};
ghost use Rattle.process_semantics.specs.Process.{in_hand, start_of};
ghost use Rattle.whole_states.specs.Listing.{files_of};
ghost use Rattle.whole_states.specs.Processes.{IsRegularKind, IsWholeProcess};
ghost use Rattle.computed_changes.specs.plain_semantics.specs.Openers as openers;

/// A disc, or a process of a regular program, at its beginning is one that a copy can start with.
pub fn a_process_at_its_beginning_can_start()
    ensures whole { (what : Kind) → IsRegularKind what → IsWholeProcess (start_of what) }
    ensures free { (what : Kind) → in_hand (start_of what) ≡ false }
    ensures files { (what : Kind) → length (openers.files_of what) ≡ files_of (start_of what) }
{}
