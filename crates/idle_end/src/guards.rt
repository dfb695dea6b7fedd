ghost use Rattle.std.specs.Prelude.{◌≡◌, true, false, List, [], ◌∷◌};
ghost use Rattle.schedule.specs.declared.event.Event.{Event};
ghost use Rattle.tal_tree.specs.declared.act.Act.TheVariants.{Take};
ghost use Rattle.plain_semantics.specs.Machine.{IsPossible, IsNoneLeft, process_at_first};
ghost use Rattle.process_histories.specs.Served.{disc, disc_site, after_one};
ghost use Rattle.world_semantics.specs.Shares.{closed};
ghost use Rattle.letters.specs.Idle.{IsIdle};
ghost use Rattle.letters.specs.Posts.{Post, HasPlayed, post_at_boot};
ghost use Rattle.awaited_requests.specs.Examples.{disc_pair};
ghost use Rattle.idle_end.specs.Ends.{IsIdleEnd, IsAsCopy};
ghost use Rattle.idle_end.specs.Examples.{quiet_site, lost, taken_over_from, two_stops};

/// A disc that nobody asks is at an idle end at once. One whose terminal has a request left isn't.
pub fn a_quiet_site_is_at_an_idle_end()
    ensures quiet { IsIdleEnd quiet_site [] (post_at_boot quiet_site) }
    ensures asked { (events : List Event) → IsIdleEnd disc_site events (post_at_boot disc_site) → ⊥ }
{}

/// So is a disc whose first processor stopped and was loaded again, and whose second one stopped after that: its copy
/// there took over, sent everything that it has to the copy that was loaded, and was taken over by it. That one served
/// the request.
pub fn a_site_is_at_an_idle_end_after_two_stops()
    ensures { (post : Post) × HasPlayed disc_site two_stops post × IsIdleEnd disc_site two_stops post
        × (post.world.stopped ≡ false ∷ true ∷ []) × (post.world.reloads ≡ 1 ∷ 0 ∷ []) }
{}

/// To be idle isn't enough: where a request was lost there is nothing left to do, but its take is left on the machine
/// of single processes.
pub fn a_lost_request_leaves_a_take()
    ensures idle { IsIdle disc_site lost }
    ensures left { IsNoneLeft disc_site (closed lost.world) → ⊥ }
{}

/// A process is as its copy where both have one state, and its sectors have the words that stand there.
pub fn processes_are_told_apart()
    ensures beginning { IsAsCopy (process_at_first disc_site 0 disc) disc_pair.first disc_pair }
    ensures state { IsAsCopy (record (process_at_first disc_site 0 disc) { state = after_one.state }) disc_pair.first
        disc_pair → ⊥ }
    ensures sectors { IsAsCopy (record (process_at_first disc_site 0 disc) { sectors = [] }) disc_pair.first disc_pair
        → ⊥ }
{}

/// What a lost copy held can't follow the kept acts beside what the copy that took over holds, so it has to be dropped.
pub fn a_lost_copy_holds_nothing()
    ensures both { IsPossible disc_site (closed (taken_over_from (Take 0 0 ∷ []))) → ⊥ }
    ensures one { IsPossible disc_site (closed (taken_over_from [])) }
{}
