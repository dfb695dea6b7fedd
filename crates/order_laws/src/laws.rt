ghost use Rattle.std.specs.Prelude.{◌≡◌, Bool, false, List, [], Some};
ghost use Rattle.order_laws.specs.Orders.{IsSoundIn};
ghost use Rattle.plain_semantics.specs.Machine.{Made, Plain, made, made_all, plain_start};
ghost use Rattle.tal_tree.specs.declared.act.Act.{Act};
ghost use Rattle.tal_tree.specs.declared.act.Shown.{Shown};
ghost use Rattle.tal_tree.specs.declared.site.Site.{Site};
ghost use Rattle.unfailing_judge.specs.Order.{GoesBy, NoneGoes, Way, way_of};
ghost use Rattle.unfailing_judge.specs.Sound.{IsSound, IsWrong};
ghost use Rattle.unfailing_judge.specs.Turns.{KeepsTurns, is_same_actor};
ghost use Rattle.unfailing_judge.specs.declared.wrong.Wrong.{Wrong};

use unfailing_judge::laws::{the_order_is_possible, the_order_keeps_turns};

/// Where acts have led, two acts of different processes or terminals that are both possible don't hinder each other. In
/// either order they show the same and come to the same.
pub fn possible_acts_commute()
    ensures { (site : Site) (before : List Act) (reached : Made) (one other : Act) (first second : Made)
        → made_all site (plain_start site) before ≡ Some reached
        → made site reached.plain one ≡ Some first → made site reached.plain other ≡ Some second
        → is_same_actor one other ≡ false
        → (end : Plain) × (made site first.plain other ≡ Some (record { plain = end; shown = second.shown }))
        × (made site second.plain one ≡ Some (record { plain = end; shown = first.shown })) }
{}

/// If the acts are possible in any order that keeps turns, and show there what was shown, then so they are in the one
/// order in which each goes as soon as it can; and both orders come to one end.
pub fn any_sound_order_is_found()
    ensures { (site : Site) (acts order other : List Act) (shown : List Shown) (end : Way) (last : Plain)
        → KeepsTurns acts other
        → made_all site (plain_start site) other ≡ Some (record { plain = last; shown = shown })
        → GoesBy site order (way_of site acts shown) end → NoneGoes site end.plain end.due end.left
        → (end.left ≡ []) × (end.due ≡ []) × (end.plain ≡ last) }
{}

/// Sound acts are sound in some order that keeps turns.
pub fn sound_acts_have_an_order()
    ensures { (site : Site) (acts : List Act) (shown : List Shown) (idle : Bool) → IsSound site acts shown idle
        → (order : List Act) × IsSoundIn site acts shown idle order }
{
    the_order_keeps_turns();
    the_order_is_possible();
}

/// What is told to go wrong does so in every order: in none that keeps turns are the acts sound.
pub fn what_goes_wrong_does_so_in_every_order()
    ensures { (site : Site) (acts order : List Act) (shown : List Shown) (idle : Bool) (wrong : Wrong)
        → IsWrong site acts shown idle wrong → IsSoundIn site acts shown idle order → ⊥ }
{}
