//! Laws of the checkpoints of a run.
ghost use Rattle.std.specs.Prelude.{◌≡◌, ◌<◌, ℕ, List, length, slice_get, Some};
ghost use Rattle.gd_words.specs.Members.{IsAmong};
ghost use Rattle.tal_tree.specs.declared.site.Site.{Site};
ghost use Rattle.schedule.specs.declared.event.Event.{Event};
ghost use Rattle.letter_laws.specs.change_layout.specs.Changing.{change_of};
ghost use Rattle.checkpoint_image.specs.declared.message.ImageMessage.{ImageMessage};
ghost use Rattle.letter_laws.specs.computed_changes.specs.Changed.{change_done};
ghost use Rattle.letter_laws.specs.computed_changes.specs.Fitting.{depths_of};
ghost use Rattle.letter_laws.specs.computed_changes.specs.Handed.{handed_done};
ghost use Rattle.letter_laws.specs.computed_changes.specs.Laws.{IsSent};
ghost use Rattle.letter_laws.specs.takeover_laws.specs.Fit.{IsFit};
ghost use Rattle.letter_laws.specs.letters.specs.Posts.{HasPlayed, Post};
ghost use Rattle.world_semantics.specs.Follows.{IsRun};
ghost use Rattle.world_semantics.specs.Laws.{IsPlaced};
ghost use Rattle.world_semantics.specs.Messages.{Cause, Checkpointing, Sending};
ghost use Rattle.world_semantics.specs.Rules.{Change};
ghost use Rattle.world_semantics.specs.World.{Pair, World};
ghost use Rattle.checkpoint_chains.specs.Chains.{IsChain, IsNewest, IsNextTo};

/// In a run of a site whose processes are each in two of its processors, the checkpoints that the copies of a process
/// ever sent are numbered one by one in each era, from 1, and each comes of the one before it in its era by taking and
/// answering. No era comes after a later one.
pub fn checkpoints_are_a_chain()
    ensures { (site : Site) (events : List Event) (w : World) (number : ℕ) (pair : Pair) → IsPlaced site
        → IsRun site events w → slice_get w.processes number ≡ Some pair
        → IsChain (depths_of site number) pair.checkpoints }
{}

/// A checkpoint that a change sends is the last one that its process has sent then.
pub fn a_checkpoint_is_sent_as_the_newest()
    ensures { (site : Site) (w next : World) (cause : Cause) (sendings : List Sending) (sending : Sending)
        (message : ImageMessage) → Change site w cause sendings next → IsAmong sending sendings
        → sending.message ≡ Checkpointing message → IsNewest next message }
{}

/// A checkpoint that comes as what changed since the one of the number before it in its era does what it does when it
/// comes whole, wherever and however often it comes: at a copy that watches for it, that has the table of the one
/// before, it is made whole; anywhere else both change nothing.
pub fn a_change_does_what_its_checkpoint_does()
    ensures { (site : Site) (events : List Event) (post : Post) (before message : ImageMessage) (node : ℕ) → IsFit site
        → length events < 4294967296 → HasPlayed site events post → IsSent post.world (Checkpointing before)
        → IsSent post.world (Checkpointing message) → IsNextTo before message
        → change_done site node (change_of before message) post.world
        ≡ handed_done site node (Checkpointing message) post.world }
{}
