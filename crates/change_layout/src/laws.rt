//! Laws of checkpoints that carry changes.
ghost use Rattle.std.specs.Prelude.{◌≡◌, ℕ, List, Some, true};
ghost use Rattle.receive_changes.specs.checkpoint_image.specs.declared.message.ImageMessage.{ImageMessage};
ghost use Rattle.receive_changes.specs.sync_ids.specs.Tables.{fits};
ghost use Rattle.receive_changes.specs.Later.{ComesTo};
ghost use Rattle.change_layout.specs.Changing.{change_of, made_whole};

/// A checkpoint as what changed since the one before it makes the same checkpoint of the table of the one before, where
/// its own table came of that one by taking and answering.
pub fn a_change_makes_its_checkpoint()
    ensures { (depths : List ℕ) (before message : ImageMessage)
        → fits (record { table = before.image.receive; depths = depths }) before.image.receive ≡ true
        → ComesTo depths before.image.receive message.image.receive
        → fits (record { table = before.image.receive; depths = depths }) message.image.receive ≡ true
        → made_whole depths before.image.receive (change_of before message) ≡ Some message }
{}
