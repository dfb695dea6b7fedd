ghost use Rattle.std.specs.Prelude.{◌≡◌, ℕ, [], true, false, Some, None};
ghost use Rattle.left_findings.specs.machine_views.specs.declared.views.Awaited.{Awaited};
ghost use Rattle.left_findings.specs.machine_views.specs.declared.views.CopyView.{CopyView};
ghost use Rattle.process_semantics.specs.declared.point.Point.TheVariants as point;
ghost use Rattle.tal_tree.specs.declared.site.Kind.TheVariants as kind;
ghost use Rattle.tal_tree.specs.declared.site.ProcessSpec.{ProcessSpec};
ghost use Rattle.tal_tree.specs.declared.site.Site.{Site};
ghost use Rattle.program_ends.specs.Ends.{line_of_number};
ghost use Rattle.tal_tree.specs.declared.program.Program.{Program};
ghost use Rattle.left_findings.specs.Left.{left_by, server_of_stand, stand_at_point, stand_awaiting, stand_checked};
ghost use Rattle.left_findings.specs.Left.{stand_renewing, terminal_left};
ghost use Rattle.left_findings.specs.Places.{line_of_copy};
ghost use Rattle.left_findings.specs.declared.finding.Stand.TheVariants as stand;
ghost use Rattle.left_findings.specs.declared.finding.TerminalLeft.TheVariants as terminal;

/// A copy that acts stands where its next step is: it waits for a request, for a reply or, once its checkpoint was
/// sent, for an acknowledgement; or it has ended; or it waits for nothing.
pub fn a_copy_stands_at_its_next_step()
    ensures take { (copy : CopyView) → stand_at_point copy point.Take ≡ stand.AtTake }
    ensures ended { (copy : CopyView) → stand_at_point copy point.Ended ≡ stand.Ended }
    ensures ask { (copy : CopyView) → stand_at_point copy point.Ask ≡ stand.CanStep }
    ensures awaits { (awaited : Awaited) → stand_awaiting (Some awaited) ≡ stand.AtAwait awaited }
    ensures sent { stand_checked true 4 ≡ stand.AtAcknowledgement 4 }
    ensures unsent { stand_checked false 4 ≡ stand.CanStep }
{}

/// One that has to send everything can do so even if it has ended, but not while it awaits a reply.
pub fn a_copy_sends_everything_first()
    ensures ended { (copy : CopyView) → stand_renewing copy point.Ended ≡ stand.CanStep }
    ensures take { (copy : CopyView) → stand_renewing copy point.Take ≡ stand.CanStep }
    ensures awaits { (copy : CopyView) → stand_renewing copy point.Await ≡ stand_awaiting copy.awaited }
{}

/// A process of which no copy acts waits until one takes over.
pub fn a_process_without_an_acting_copy_waits_for_a_takeover()
    ensures { (site : Site) (spec : ProcessSpec) → left_by site spec None
        ≡ record { stand = stand.AtTakeover; server = None; line = None; in_hand = false; waiting = 0 } }
{}

/// Only a process that awaits a reply waits for another.
pub fn only_a_reply_is_awaited_of_another()
    ensures take { (site : Site) (spec : ProcessSpec) → server_of_stand site spec stand.AtTake ≡ None }
    ensures acknowledgement { (site : Site) (spec : ProcessSpec)
        → server_of_stand site spec (stand.AtAcknowledgement 1) ≡ None }
{}

/// Of a terminal one request at most has no reply, the one behind those that were printed.
pub fn one_request_has_no_reply()
    ensures unanswered { terminal_left (record { entered = 3; printed = 2 }) ≡ terminal.Unanswered 3 }
    ensures first { terminal_left (record { entered = 1; printed = 0 }) ≡ terminal.Unanswered 1 }
    ensures answered { terminal_left (record { entered = 3; printed = 3 }) ≡ terminal.Answered 3 }
    ensures nothing { terminal_left (record { entered = 0; printed = 0 }) ≡ terminal.Answered 0 }
{}

/// A copy stands at the line of what it does next, whether it waits there or not; a disc stands at none.
pub fn a_copy_stands_at_the_line_that_comes_next()
    ensures inner { (program : Program) (copy : CopyView)
        → line_of_copy (kind.Pair program) (record copy { point = point.Inner; next = 7 })
        ≡ line_of_number program 7 }
    ensures checkpoint { (program : Program) (copy : CopyView)
        → line_of_copy (kind.Pair program) (record copy { point = point.AtCheckpoint; next = 8 })
        ≡ line_of_number program 8 }
    ensures disc { (sectors : ℕ) (copy : CopyView)
        → line_of_copy (kind.Disc sectors true) (record copy { next = 7 }) ≡ None }
    ensures nothing { (program : Program) → line_of_number program 0 ≡ None }
{}
