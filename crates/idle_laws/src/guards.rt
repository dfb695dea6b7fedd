ghost use Rattle.std.specs.Prelude.{ℕ, [], ◌∷◌};
ghost use Rattle.schedule.specs.declared.event.Event.TheVariants.{Enter, Fail, Tick};
ghost use Rattle.plain_semantics.specs.Machine.{IsNoneLeft};
ghost use Rattle.world_semantics.specs.Shares.{closed};
ghost use Rattle.letters.specs.Idle.{IsIdle};
ghost use Rattle.letters.specs.Posts.{Post, HasPlayed};
ghost use Rattle.served_requests.specs.awaited_requests.specs.Examples.{site_with};
ghost use Rattle.served_requests.specs.awaited_requests.specs.Seats.{IsLaidOut};
ghost use Rattle.accepted_sites.specs.Premises.{IsAcceptedSite};

/// The site of a disc is accepted, and laid out where both of its processors are there. Where one of them isn't and the
/// other one stops, the request that its terminal entered stays with nobody: nothing is left to do, but its take is
/// left on the machine of single processes.
pub fn a_request_may_stay_with_nobody()
    ensures accepted { (processors : ℕ) → IsAcceptedSite (site_with processors 0 1) }
    ensures laid_out { IsLaidOut (site_with 2 0 1) }
    ensures one_is_there { (post : Post) × HasPlayed (site_with 1 0 1) (Enter 0 ∷ Fail 0 ∷ Tick 16 ∷ []) post
        × IsIdle (site_with 1 0 1) post
        × (IsNoneLeft (site_with 1 0 1) (closed post.world) → ⊥) }
{}
