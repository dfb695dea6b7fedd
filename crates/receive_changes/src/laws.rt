//! Laws of changes in receive tables.
ghost use Rattle.std.specs.Prelude.{◌≡◌, true};
ghost use Rattle.sync_ids.specs.checkpoint_image.specs.declared.receive.ReceiveBlock.{ReceiveBlock};
ghost use Rattle.sync_ids.specs.Tables.{Remembered, fits};
ghost use Rattle.sync_ids.specs.Changes.{change_between, table_with_change, fits_change};
ghost use Rattle.receive_changes.specs.Later.{ComesTo};

/// What changed from a receive table to one that came of it by taking and answering can be put into the first, and
/// that gives the second.
pub fn a_change_gives_the_later_table()
    ensures gives { (earlier : Remembered) (later : ReceiveBlock) → fits earlier earlier.table ≡ true
        → ComesTo earlier.depths earlier.table later
        → table_with_change earlier.depths earlier.table (change_between earlier.table later) ≡ later }
    ensures fits { (earlier : Remembered) (later : ReceiveBlock) → fits earlier earlier.table ≡ true
        → ComesTo earlier.depths earlier.table later → fits earlier later ≡ true
        → fits_change earlier (change_between earlier.table later) ≡ true }
{}
