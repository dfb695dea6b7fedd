ghost use Rattle.std.specs.Prelude.{◌≡◌, ℤ, List, pos, [], ◌∷◌, replicate, Some, None};
ghost use Rattle.tal_tree.specs.declared.act.Act.TheVariants.{Step, Take, Enter, Print};
ghost use Rattle.tal_tree.specs.declared.act.Shown.TheVariants.{Reply, Write};
ghost use Rattle.tal_tree.specs.declared.site.Kind.TheVariants as kind;
ghost use Rattle.process_semantics.specs.declared.point.Point.TheVariants as point;
ghost use Rattle.process_semantics.specs.Disc.{disc_start};
ghost use Rattle.process_semantics.specs.Process.{Serves, after_got, start_of};
ghost use Rattle.process_semantics.specs.State.{zeros};
ghost use Rattle.plain_semantics.specs.declared.slot.Slot.TheVariants.{Empty, Waiting, Taken, Answered};
ghost use Rattle.plain_semantics.specs.Machine.{PlainProcess, got_made, made, made_all, plain_start};
ghost use Rattle.process_guards.specs.Machines.{asked, disc_site, opened_site, opening, served, serving, two_slots};
ghost use Rattle.process_guards.specs.Machines.{with_sectors, with_slot, writing_site};

/// At the beginning each process is at its start, each opener has an empty slot, each sector of a disc eight zeros, and
/// no terminal has entered anything.
pub fn a_machine_begins_empty()
    ensures { plain_start opened_site ≡ record {
      processes =
          record {
            state = Serves 4 disc_start;
            hand = None;
            slots = Empty ∷ Empty ∷ [];
            sectors = replicate 4 (replicate 8 (pos 0));
          }
          ∷ record { state = start_of (kind.Pair opening); hand = None; slots = Empty ∷ []; sectors = [] } ∷ [];
      entered = 0 ∷ 0 ∷ [];
    } }
{}

/// A step at the device reads its sector, or writes it and shows the write; one at the answer puts the reply in the
/// slot whose request was in hand.
pub fn a_disc_steps_to_its_answer()
    ensures read { made disc_site (with_slot (serving point.Device (pos 1 ∷ pos 1 ∷ [])) (Some 0) Taken 1) (Step 0)
        ≡ Some (record {
          plain = with_slot (served 3 (pos 1 ∷ pos 1 ∷ []) (pos 0 ∷ replicate 8 (pos 4))) (Some 0) Taken
              1;
          shown = [];
        }) }
    ensures nothing { made disc_site (with_slot (serving point.Device (pos 9 ∷ [])) (Some 0) Taken 1) (Step 0)
        ≡ Some (record { plain = with_slot (served 3 (pos 9 ∷ []) (pos 1 ∷ [])) (Some 0) Taken 1; shown = [] }) }
    ensures written { made disc_site (with_slot (serving point.Device (pos 2 ∷ pos 1 ∷ pos 7 ∷ [])) (Some 0) Taken 1)
        (Step 0)
        ≡ Some (record {
          plain = with_sectors (zeros 8 ∷ (pos 7 ∷ replicate 7 (pos 0)) ∷ [])
              (with_slot (served 4 (pos 2 ∷ pos 1 ∷ pos 7 ∷ []) (pos 0 ∷ [])) (Some 0) Taken 1);
          shown = Write 0 1 (pos 7 ∷ replicate 7 (pos 0)) ∷ [];
        }) }
    ensures answered { made disc_site (with_slot (served 3 (pos 9 ∷ []) (pos 1 ∷ [])) (Some 0) Taken 1) (Step 0)
        ≡ Some (record {
          plain = with_slot (record disc_start { last_write = 3 }) None (Answered (pos 1 ∷ [])) 1;
          shown = [];
        }) }
    ensures checkpointed { made disc_site (with_slot (serving point.AtCheckpoint []) (Some 0) Taken 1) (Step 0)
        ≡ Some (record { plain = with_slot (serving point.Device []) (Some 0) Taken 1; shown = [] }) }
    ensures absent { made disc_site (with_slot disc_start None Empty 0) (Step 1) ≡ None }
{}

/// What is got is the reply in the slot that was asked, which is empty then; without a reply nothing is got.
pub fn a_reply_is_got_once()
    ensures got { (server one : PlainProcess) (words : List ℤ)
        → got_made 1 one asked (two_slots (Taken ∷ Answered words ∷ []) server one) (Some (Answered words))
        ≡ Some (record {
          plain = two_slots (Taken ∷ Empty ∷ []) server
              (record one { state = after_got one.state words });
          shown = [];
        }) }
    ensures waiting { (server one : PlainProcess) (words : List ℤ)
        → got_made 1 one asked (two_slots (Taken ∷ Waiting words ∷ []) server one) (Some (Waiting words)) ≡ None }
    ensures taken { (server one : PlainProcess)
        → got_made 1 one asked (two_slots (Empty ∷ Taken ∷ []) server one) (Some Taken) ≡ None }
    ensures empty { (server one : PlainProcess)
        → got_made 1 one asked (two_slots (Empty ∷ Empty ∷ []) server one) (Some Empty) ≡ None }
{}

/// Acts are made one after the other, each in what those before it leave, and what they show stands in their order. One
/// that can't be made ends all.
pub fn acts_show_in_their_order()
    ensures all { made_all writing_site (plain_start writing_site)
        (Enter 0 ∷ Take 0 0 ∷ Step 0 ∷ Step 0 ∷ Step 0 ∷ Print 0 ∷ [])
        ≡ Some (record {
          plain = record {
            processes = record {
              state = Serves 2 (record disc_start { last_write = 1 });
              hand = None;
              slots = Empty ∷ [];
              sectors = zeros 8 ∷ (pos 7 ∷ replicate 7 (pos 0)) ∷ [];
            } ∷ [];
            entered = 1 ∷ [];
          };
          shown = Write 0 1 (pos 7 ∷ replicate 7 (pos 0)) ∷ Reply 0 1 (pos 0 ∷ []) ∷ [];
        }) }
    ensures impossible { made_all writing_site (plain_start writing_site) (Enter 0 ∷ Step 0 ∷ Take 0 0 ∷ []) ≡ None }
    ensures none { made_all writing_site (plain_start writing_site) []
        ≡ Some (record { plain = plain_start writing_site; shown = [] }) }
{}
