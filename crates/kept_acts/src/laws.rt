ghost use Rattle.std.specs.Prelude.{◌≡◌, ℕ, ◌+◌, List};
ghost use Rattle.world_semantics.specs.process_semantics.specs.declared.point.Point.{Point};
ghost use Rattle.tal_tree.specs.declared.act.Act.{Act};
ghost use Rattle.world_semantics.specs.declared.role.Role.{Role};
ghost use Rattle.world_semantics.specs.Core.{Core};
ghost use Rattle.world_semantics.specs.World.{Copy, copy_at_boot};
ghost use Rattle.world_semantics.specs.Kept.{own_acts};
ghost use Rattle.world_semantics.specs.Rules.{taken_over};
ghost use Rattle.world_semantics.specs.Shares.{Share, acts_at, covered_count, share_after_cover};
ghost use Rattle.world_semantics.specs.Shares.{share_from, share_of, with_share};

/// A copy of the world of copies has a share, which is its position and its held acts: at the beginning it has done
/// nothing.
pub fn a_share_is_of_its_copy()
    ensures of { (share : Share) (copy : Copy) → share_of (with_share share copy) ≡ share }
    ensures same { (copy : Copy) → with_share (share_of copy) copy ≡ copy }
    ensures boot { (role : Role) (processor : ℕ) (core : Core)
        → share_of (copy_at_boot role processor core) ≡ share_from 0 }
{}

/// A copy that was covered stands right before its checkpoint, where it stands at one: from its position to the base is
/// its act at the checkpoint.
pub fn a_covered_copy_stands_before_its_checkpoint()
    ensures { (number : ℕ) (stands : Point) (kept : List Act) (share : Share)
        → covered_count number stands kept share
        ≡ (share_after_cover number stands kept share).share.position + own_acts number (acts_at number stands) }
{}

/// A copy that took over goes on from the base, and holds nothing.
pub fn a_copy_takes_over_from_the_base()
    ensures { (base : ℕ) (copy : Copy) → share_of (taken_over base copy) ≡ share_from base }
{}
