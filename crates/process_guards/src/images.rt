ghost use Rattle.std.specs.Prelude.{◌≡◌, pos, negsuc, true, false, [], ◌∷◌, replicate, Some, None};
ghost use Rattle.process_semantics.specs.declared.point.Point.TheVariants as point;
ghost use Rattle.process_semantics.specs.Image.{image_of, state_from_words};
ghost use Rattle.process_semantics.specs.Process.{Serves, after_checkpoint};
ghost use Rattle.process_semantics.specs.Disc.{disc_start};
ghost use Rattle.process_semantics.specs.State.{Run, Test, Last};
ghost use Rattle.process_guards.specs.Nested.{checkpoints, gives, repeats, stops, main_at, called_at, calling, busy};
ghost use Rattle.process_guards.specs.Nested.{running};
ghost use Rattle.process_guards.specs.Nested.{fresh, ended, disc_at, disc_after};
ghost use Rattle.process_guards.specs.Nested.{leaves, inner_loop, outer_loop, counts_down, looping_fresh, in_loops};
ghost use Rattle.process_guards.specs.Nested.{inside_call};

/// An image has the frames from MAIN up: how many, and of each the procedure, the number that comes next, or that of
/// the call in progress, and the locals. Then come the items that are listed: how many, and of each its number and
/// words. What isn't listed stays as it was.
pub fn an_image_has_frames_and_items()
    ensures call { image_of [] (busy (pos 3 ∷ pos 4 ∷ []) (called_at (Run gives ∷ []) ∷ calling ∷ []))
        ≡ pos 2 ∷ pos 1 ∷ pos 6 ∷ pos 2 ∷ pos 0 ∷ pos 2 ∷ pos 5 ∷ negsuc 0 ∷ pos 0 ∷ [] }
    ensures items { image_of (1 ∷ 0 ∷ []) (busy (pos 3 ∷ pos 4 ∷ []) (main_at (Run stops ∷ []) ∷ []))
        ≡ pos 1 ∷ pos 1 ∷ pos 8 ∷ pos 2 ∷ pos 2 ∷ pos 1 ∷ pos 3 ∷ pos 4 ∷ pos 0 ∷ pos 7 ∷ [] }
    ensures restored { state_from_words fresh true
        (pos 2 ∷ pos 1 ∷ pos 6 ∷ pos 2 ∷ pos 0 ∷ pos 2 ∷ pos 5 ∷ negsuc 0 ∷ pos 2
        ∷ pos 1 ∷ pos 3 ∷ pos 4 ∷ pos 0 ∷ pos 7 ∷ [])
        ≡ Some (busy (pos 3 ∷ pos 4 ∷ []) (called_at (Run gives ∷ []) ∷ calling ∷ [])) }
    ensures not_listed { state_from_words fresh true (pos 1 ∷ pos 1 ∷ pos 8 ∷ pos 2 ∷ pos 1 ∷ pos 0 ∷ pos 7 ∷ [])
        ≡ Some (running (main_at (Run stops ∷ []) ∷ [])) }
{}

/// The test of a FOR and its last assignment have numbers of their own, and a procedure's end has 0.
pub fn each_entry_has_its_number()
    ensures test { image_of [] (running (main_at (Test repeats ∷ Run stops ∷ []) ∷ []))
        ≡ pos 1 ∷ pos 1 ∷ pos 4 ∷ pos 2 ∷ pos 0 ∷ [] }
    ensures test_restored { state_from_words fresh true (pos 1 ∷ pos 1 ∷ pos 4 ∷ pos 2 ∷ pos 1 ∷ pos 0 ∷ pos 7 ∷ [])
        ≡ Some (running (main_at (Test repeats ∷ Run stops ∷ []) ∷ [])) }
    ensures last { image_of [] (running (main_at (Last repeats ∷ Test repeats ∷ Run stops ∷ []) ∷ []))
        ≡ pos 1 ∷ pos 1 ∷ pos 7 ∷ pos 2 ∷ pos 0 ∷ [] }
    ensures last_restored { state_from_words fresh true (pos 1 ∷ pos 1 ∷ pos 7 ∷ pos 2 ∷ pos 1 ∷ pos 0 ∷ pos 7 ∷ [])
        ≡ Some (running (main_at (Last repeats ∷ Test repeats ∷ Run stops ∷ []) ∷ [])) }
    ensures at_the_end { image_of [] (running (called_at [] ∷ calling ∷ []))
        ≡ pos 2 ∷ pos 1 ∷ pos 6 ∷ pos 2 ∷ pos 0 ∷ pos 0 ∷ pos 5 ∷ negsuc 0 ∷ pos 0 ∷ [] }
    ensures at_the_end_restored { state_from_words fresh true
        (pos 2 ∷ pos 1 ∷ pos 6 ∷ pos 2 ∷ pos 0 ∷ pos 0 ∷ pos 5 ∷ negsuc 0 ∷ pos 1 ∷ pos 0 ∷ pos 7 ∷ [])
        ≡ Some (running (called_at [] ∷ calling ∷ [])) }
{}

/// A DO stands by the number of its test once its body is done, and before by those of its body, which are smaller. A
/// FOR that counts down stands by those of its test and its last assignment.
pub fn a_loop_stands_by_its_numbers()
    ensures body { image_of [] (in_loops (inside_call (Run leaves ∷ Run inner_loop ∷ Run outer_loop ∷ [])))
        ≡ pos 2 ∷ pos 1 ∷ pos 6 ∷ pos 2 ∷ pos 0 ∷ pos 1 ∷ pos 0 ∷ [] }
    ensures body_restored { state_from_words looping_fresh true
        (pos 2 ∷ pos 1 ∷ pos 6 ∷ pos 2 ∷ pos 0 ∷ pos 1 ∷ pos 0 ∷ [])
        ≡ Some (in_loops (inside_call (Run leaves ∷ Run inner_loop ∷ Run outer_loop ∷ []))) }
    ensures inner_test_restored { state_from_words looping_fresh true
        (pos 2 ∷ pos 1 ∷ pos 6 ∷ pos 2 ∷ pos 0 ∷ pos 2 ∷ pos 0 ∷ [])
        ≡ Some (in_loops (inside_call (Run inner_loop ∷ Run outer_loop ∷ []))) }
    ensures outer_test_restored { state_from_words looping_fresh true
        (pos 2 ∷ pos 1 ∷ pos 6 ∷ pos 2 ∷ pos 0 ∷ pos 3 ∷ pos 0 ∷ [])
        ≡ Some (in_loops (inside_call (Run outer_loop ∷ []))) }
    ensures test_restored { state_from_words looping_fresh true (pos 1 ∷ pos 1 ∷ pos 5 ∷ pos 2 ∷ pos 0 ∷ [])
        ≡ Some (in_loops (main_at (Test counts_down ∷ Run stops ∷ []) ∷ [])) }
    ensures last_restored { state_from_words looping_fresh true (pos 1 ∷ pos 1 ∷ pos 7 ∷ pos 2 ∷ pos 0 ∷ [])
        ≡ Some (in_loops (main_at (Last counts_down ∷ Test counts_down ∷ Run stops ∷ []) ∷ [])) }
{}

/// At a CHECKPOINT the image is of the state after it. A program that has ended has no frames.
pub fn a_checkpoint_is_passed_and_an_end_has_no_frames()
    ensures checkpoint { image_of (0 ∷ []) (running (called_at (Run checkpoints ∷ Run gives ∷ []) ∷ calling ∷ []))
        ≡ pos 2 ∷ pos 1 ∷ pos 6 ∷ pos 2 ∷ pos 0 ∷ pos 2 ∷ pos 5 ∷ negsuc 0 ∷ pos 1 ∷ pos 0 ∷ pos 7 ∷ [] }
    ensures checkpoint_restored { state_from_words fresh true
        (pos 2 ∷ pos 1 ∷ pos 6 ∷ pos 2 ∷ pos 0 ∷ pos 2 ∷ pos 5 ∷ negsuc 0 ∷ pos 1 ∷ pos 0 ∷ pos 7 ∷ [])
        ≡ Some (after_checkpoint (running (called_at (Run checkpoints ∷ Run gives ∷ []) ∷ calling ∷ []))) }
    ensures end { image_of (0 ∷ []) ended ≡ pos 0 ∷ pos 1 ∷ pos 0 ∷ pos 7 ∷ [] }
    ensures end_restored { state_from_words fresh false (pos 0 ∷ pos 1 ∷ pos 0 ∷ pos 7 ∷ []) ≡ Some ended }
{}

/// Words that are no image restore nothing: one too many or too few, a frame of no procedure, of one that wasn't
/// called, or at a number that doesn't stand in it, and an item that isn't there, is a file, or is named twice.
pub fn other_words_restore_nothing()
    ensures too_many { state_from_words fresh true (pos 1 ∷ pos 1 ∷ pos 8 ∷ pos 2 ∷ pos 0 ∷ pos 0 ∷ []) ≡ None }
    ensures too_few { state_from_words fresh true (pos 1 ∷ pos 1 ∷ pos 8 ∷ pos 2 ∷ pos 1 ∷ pos 1 ∷ pos 3 ∷ []) ≡ None }
    ensures no_procedure { state_from_words fresh true (pos 1 ∷ pos 2 ∷ pos 0 ∷ pos 0 ∷ []) ≡ None }
    ensures not_main { state_from_words fresh true (pos 1 ∷ pos 0 ∷ pos 2 ∷ pos 5 ∷ pos 0 ∷ pos 0 ∷ []) ≡ None }
    ensures not_called { state_from_words fresh true
        (pos 2 ∷ pos 1 ∷ pos 8 ∷ pos 2 ∷ pos 0 ∷ pos 2 ∷ pos 5 ∷ pos 0 ∷ pos 0 ∷ []) ≡ None }
    ensures no_number { state_from_words fresh true (pos 1 ∷ pos 1 ∷ pos 2 ∷ pos 2 ∷ pos 0 ∷ []) ≡ None }
    ensures below { state_from_words fresh true (pos 1 ∷ pos 1 ∷ negsuc 7 ∷ pos 2 ∷ pos 0 ∷ []) ≡ None }
    ensures no_item { state_from_words fresh true (pos 1 ∷ pos 1 ∷ pos 8 ∷ pos 2 ∷ pos 1 ∷ pos 3 ∷ []) ≡ None }
    ensures file { state_from_words fresh true (pos 1 ∷ pos 1 ∷ pos 8 ∷ pos 2 ∷ pos 1 ∷ pos 2 ∷ []) ≡ None }
    ensures twice { state_from_words fresh true
        (pos 1 ∷ pos 1 ∷ pos 8 ∷ pos 2 ∷ pos 2 ∷ pos 0 ∷ pos 7 ∷ pos 0 ∷ pos 7 ∷ [])
        ≡ None }
{}

/// A disc's image has the request in hand, the last write's number in two words, the high half first, and the reply. At
/// a checkpoint it is of the disc at Device.
pub fn a_disc_is_imaged()
    ensures take { image_of [] (disc_at point.Take None None) ≡ pos 0 ∷ pos 2 ∷ negsuc 25535 ∷ pos 0 ∷ [] }
    ensures checkpoint { image_of [] (disc_at point.AtCheckpoint (Some (pos 1 ∷ pos 0 ∷ [])) None)
        ≡ pos 2 ∷ pos 1 ∷ pos 0 ∷ pos 2 ∷ negsuc 25535 ∷ pos 0 ∷ [] }
    ensures device { image_of [] (disc_at point.Device (Some (pos 1 ∷ pos 0 ∷ [])) None)
        ≡ pos 2 ∷ pos 1 ∷ pos 0 ∷ pos 2 ∷ negsuc 25535 ∷ pos 0 ∷ [] }
    ensures answer { image_of [] (disc_at point.Answer (Some (pos 9 ∷ [])) (Some (pos 1 ∷ [])))
        ≡ pos 1 ∷ pos 9 ∷ pos 2 ∷ negsuc 25535 ∷ pos 1 ∷ pos 1 ∷ [] }
    ensures empty { image_of [] (disc_at point.Device (Some []) None) ≡ pos 0 ∷ pos 2 ∷ negsuc 25535 ∷ pos 0 ∷ [] }
{}

/// An image with no request in hand restores a disc at Take, one without a reply a disc at Device, and one with a reply
/// a disc at Answer.
pub fn a_disc_is_restored()
    ensures take { state_from_words (Serves 2 disc_start) false (pos 0 ∷ pos 2 ∷ negsuc 25535 ∷ pos 0 ∷ [])
        ≡ Some (disc_at point.Take None None) }
    ensures device { state_from_words (Serves 2 disc_start) true
        (pos 2 ∷ pos 1 ∷ pos 0 ∷ pos 2 ∷ negsuc 25535 ∷ pos 0 ∷ [])
        ≡ Some (disc_at point.Device (Some (pos 1 ∷ pos 0 ∷ [])) None) }
    ensures answer { state_from_words (Serves 2 disc_start) true
        (pos 1 ∷ pos 9 ∷ pos 2 ∷ negsuc 25535 ∷ pos 1 ∷ pos 1 ∷ [])
        ≡ Some (disc_at point.Answer (Some (pos 9 ∷ [])) (Some (pos 1 ∷ []))) }
    ensures empty { state_from_words (Serves 2 disc_start) true (pos 0 ∷ pos 2 ∷ negsuc 25535 ∷ pos 0 ∷ [])
        ≡ Some (disc_at point.Device (Some []) None) }
    ensures not_in_hand { state_from_words (Serves 2 disc_start) false
        (pos 1 ∷ pos 9 ∷ pos 2 ∷ negsuc 25535 ∷ pos 0 ∷ [])
        ≡ None }
    ensures reply_to_none { state_from_words (Serves 2 disc_start) false
        (pos 0 ∷ pos 2 ∷ negsuc 25535 ∷ pos 1 ∷ pos 1 ∷ [])
        ≡ None }
    ensures too_long { state_from_words (Serves 2 disc_start) true (pos 17 ∷ replicate 20 (pos 0)) ≡ None }
    ensures too_many { state_from_words (Serves 2 disc_start) false
        (pos 0 ∷ pos 2 ∷ negsuc 25535 ∷ pos 0 ∷ pos 0 ∷ []) ≡ None }
    ensures too_few { state_from_words (Serves 2 disc_start) false (pos 0 ∷ pos 2 ∷ []) ≡ None }
{}

/// The number of a disc's last write is two patterns of 16 bits, also where a half has its highest bit set.
pub fn a_number_of_writes_is_two_patterns()
    ensures most { image_of [] (disc_after 4294967295) ≡ pos 0 ∷ negsuc 0 ∷ negsuc 0 ∷ pos 0 ∷ [] }
    ensures half { image_of [] (disc_after 2147483648) ≡ pos 0 ∷ negsuc 32767 ∷ pos 0 ∷ pos 0 ∷ [] }
    ensures most_restored { state_from_words (Serves 2 disc_start) false (pos 0 ∷ negsuc 0 ∷ negsuc 0 ∷ pos 0 ∷ [])
        ≡ Some (disc_after 4294967295) }
    ensures half_restored { state_from_words (Serves 2 disc_start) false (pos 0 ∷ negsuc 32767 ∷ pos 0 ∷ pos 0 ∷ [])
        ≡ Some (disc_after 2147483648) }
{}
