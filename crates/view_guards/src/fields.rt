ghost use Rattle.std.specs.Prelude.{◌≡◌, List, [], ◌∷◌, ◌-◌, true, false, Some, None};
ghost use Rattle.gd_words.specs.declared.message.Request.{Request};
ghost use Rattle.checkpoint_image.specs.declared.receive.ReceiveBlock.{ReceiveBlock};
ghost use Rattle.process_semantics.specs.Process.{ProcessState, Runs, Serves, asked_file, point};
ghost use Rattle.process_semantics.specs.State.{Execution, Frame, Run};
ghost use Rattle.process_semantics.specs.declared.disc.DiscState.{DiscState};
ghost use Rattle.process_semantics.specs.declared.point.Point.TheVariants.{Await, Take};
ghost use Rattle.processes.specs.Seen.{next_number_of};
ghost use Rattle.tal_tree.specs.declared.statement.Statement.{Statement};
ghost use Rattle.world_semantics.specs.declared.role.Role.TheVariants.{Acting, Blank, Gone, Watching};
ghost use Rattle.world_semantics.specs.World.{World};
ghost use Rattle.world_semantics.specs.Core.{Core, next_on};
ghost use Rattle.machine_views.specs.Views.{acting_of, acts_for, awaited_view_at, awaited_view, copy_view, downs_in};
ghost use Rattle.machine_views.specs.Views.{image_of_everything, sector_views, terminal_view, view_of};
ghost use Rattle.machine_views.specs.declared.views.CopyView.{CopyView};
ghost use Rattle.machine_views.specs.site_machine.specs.Stopped.{stopped_from};
ghost use Rattle.view_guards.specs.Copies.{acting, core_of, framed, watching};

/// Each field of a copy is told in its own place: of two copies that differ in all of them.
pub fn a_copy_is_told_field_by_field()
    ensures acting { (state : ProcessState) (table : ReceiveBlock) (a b : Request)
        → copy_view 2 (acting (core_of state table) (a ∷ b ∷ [])) ≡ record {
          process = 2;
          processor = 7;
          role = Acting;
          era = 3;
          number = 4;
          sent = true;
          renewal = false;
          awaited = awaited_view (core_of state table);
          point = point state;
          next = next_number_of state;
          state = image_of_everything state;
          files = record { file = 0; next = 5 } ∷ record { file = 1; next = 6 } ∷ [];
          receive = table;
          waiting = a ∷ b ∷ [];
        } }
    ensures watching { (state : ProcessState) (table : ReceiveBlock) (a b : Request)
        → copy_view 3 (watching (core_of state table) (b ∷ [])) ≡ record {
          process = 3;
          processor = 8;
          role = Watching;
          era = 4;
          number = 3;
          sent = false;
          renewal = true;
          awaited = awaited_view (core_of state table);
          point = point state;
          next = next_number_of state;
          state = image_of_everything state;
          files = record { file = 0; next = 5 } ∷ record { file = 1; next = 6 } ∷ [];
          receive = table;
          waiting = b ∷ [];
        } }
{}

/// A process has the first of its own copies that acts, and none if none acts.
pub fn a_process_has_its_copy_that_acts()
    ensures acting { (copy : CopyView) → acts_for 2 (record copy { process = 2; role = Acting }) ≡ true }
    ensures another { (copy : CopyView) → acts_for 2 (record copy { process = 3; role = Acting }) ≡ false }
    ensures watching { (copy : CopyView) → acts_for 2 (record copy { process = 2; role = Watching }) ≡ false }
    ensures blank { (copy : CopyView) → acts_for 2 (record copy { process = 2; role = Blank }) ≡ false }
    ensures gone { (copy : CopyView) → acts_for 2 (record copy { process = 2; role = Gone }) ≡ false }
    ensures none { acting_of 2 [] ≡ None }
    ensures first { (copy : CopyView) (copies : List CopyView) → acts_for 2 copy ≡ true
        → acting_of 2 (copy ∷ copies) ≡ Some copy }
    ensures next { (copy : CopyView) (copies : List CopyView) → acts_for 2 copy ≡ false
        → acting_of 2 (copy ∷ copies) ≡ acting_of 2 copies }
{}

/// A program does next what stands first in the procedure that runs, whatever comes behind it and in its callers:
/// nothing has the number 0. A disc has none.
pub fn a_copy_tells_what_it_does_next()
    ensures first { (it : Execution) (first second : Statement) (caller : Frame)
        → next_number_of (Runs it.program
        (record it.state { frames = framed (Run first ∷ Run second ∷ []) ∷ caller ∷ [] })) ≡ first.number }
    ensures at_end { (it : Execution) (caller : Frame)
        → next_number_of (Runs it.program (record it.state { frames = framed [] ∷ caller ∷ [] })) ≡ 0 }
    ensures ended { (it : Execution) → next_number_of (Runs it.program (record it.state { frames = [] })) ≡ 0 }
    ensures disc { (disc : DiscState) → next_number_of (Serves 4 disc) ≡ 0 }
{}

/// A reply is awaited at Await alone: that to the last request on the file on which the process asked.
pub fn a_reply_is_awaited_at_await()
    ensures awaits { (core : Core) → awaited_view_at core Await
        ≡ Some (record { file = asked_file core.state; number = next_on core (asked_file core.state) - 1 }) }
    ensures elsewhere { (core : Core) → awaited_view_at core Take ≡ None }
{}

/// A terminal has entered so many requests, and printed so many replies.
pub fn a_terminal_is_told_field_by_field()
    ensures { terminal_view (record { entered = 5; printed = 4 }) ≡ record { entered = 5; printed = 4 } }
{}

/// What is told of a world has each part in its place.
pub fn a_world_is_told_part_by_part()
    ensures stopped { (w : World) → (view_of w).stopped ≡ stopped_from 0 w.stopped }
    ensures reloads { (w : World) → (view_of w).reloads ≡ w.reloads }
    ensures down { (w : World) → (view_of w).down ≡ downs_in w.downs }
    ensures terminals { (w : World) → (view_of
        (record w {
          terminals = record { entered = 5; printed = 4 } ∷ record { entered = 0; printed = 0 }
              ∷ [];
        })).terminals
        ≡ record { entered = 5; printed = 4 } ∷ record { entered = 0; printed = 0 } ∷ [] }
{}
