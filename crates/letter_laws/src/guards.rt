//! Values of the definitions at telling points.
ghost use Rattle.std.specs.Prelude.{◌≡◌, ℕ, [], ◌∷◌, Some};
ghost use Rattle.gd_words.specs.declared.message.Request.{Request};
ghost use Rattle.tal_tree.specs.declared.site.Site.{Site};
ghost use Rattle.tal_tree.specs.declared.site.Who.TheVariants.{File};
ghost use Rattle.plain_semantics.specs.Openers.{opener_of};
ghost use Rattle.awaited_requests.specs.process_histories.specs.Served.{disc_site};
ghost use Rattle.world_semantics.specs.World.{World, boot};
ghost use Rattle.awaited_requests.specs.Examples.{entered, entered_with, letter_to};
ghost use Rattle.letter_laws.specs.Examples.{entered_and_sent, another_sent, entered_too_much, sent_to_second};
ghost use Rattle.letter_laws.specs.Examples.{sent_after_stop, sent_to_blank, waits_at_second, has_named};
ghost use Rattle.letter_laws.specs.Known.{TerminalsEnterTheirs, AwaitedWereSent, CheckpointsNameFiles, HasAsker};
ghost use Rattle.letter_laws.specs.Known.{AreEarly};

/// What a terminal awaits was sent where its very request was, and not where none was or one of another number.
pub fn what_is_awaited_is_told_apart()
    ensures sent { AwaitedWereSent disc_site entered_and_sent }
    ensures unsent { AwaitedWereSent disc_site entered → ⊥ }
    ensures other { AwaitedWereSent disc_site another_sent → ⊥ }
{}

/// A terminal enters no more requests than it has.
pub fn a_terminal_enters_what_it_has()
    ensures one { TerminalsEnterTheirs disc_site entered }
    ensures more { TerminalsEnterTheirs disc_site entered_too_much → ⊥ }
{}

/// A request to a copy that watches came early after the other copy's processor stopped, and not before; and so did one
/// that waits there. None may come to a blank copy while the other one's processor runs.
pub fn early_requests_are_told_apart()
    ensures first { AreEarly disc_site (entered_with (letter_to 0 ∷ [])) }
    ensures second { AreEarly disc_site sent_to_second → ⊥ }
    ensures stopped { AreEarly disc_site sent_after_stop }
    ensures waits { AreEarly disc_site waits_at_second → ⊥ }
    ensures blank { AreEarly disc_site sent_to_blank → ⊥ }
{}

/// Where there is no process, no request of a file has its asker.
pub fn a_request_of_a_file_has_an_asker()
    ensures { (site : Site) (w : World) (request : Request) (number file : ℕ)
        → opener_of site (File number file) ≡ Some (record { server = request.process; place = request.opener })
        → w.processes ≡ [] → HasAsker site w request → ⊥ }
{}

/// A disc's checkpoint names no files.
pub fn a_disc_names_no_files()
    ensures none { CheckpointsNameFiles disc_site (boot disc_site) }
    ensures one { CheckpointsNameFiles disc_site has_named → ⊥ }
{}
