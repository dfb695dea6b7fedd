ghost use Rattle.std.specs.Prelude.{◌≡◌, ℕ, pos, true, false, List, [], ◌∷◌};
ghost use Rattle.gd_words.specs.declared.device.DeviceCall.TheVariants.{Read, Write};
ghost use Rattle.tal_tree.specs.declared.site.Kind.TheVariants as kind;
ghost use Rattle.world_semantics.specs.process_semantics.specs.declared.point.Point.TheVariants as point;
ghost use Rattle.world_semantics.specs.process_semantics.specs.Disc.{disc_start};
ghost use Rattle.world_semantics.specs.process_semantics.specs.Process.{Serves};
ghost use Rattle.world_semantics.specs.disc_device.specs.Sectors.{blank};
ghost use Rattle.world_semantics.specs.Core.{Core, Deed, Went, Asked, Got, Took, Answered, Acted, core_at_boot};
ghost use Rattle.process_histories.specs.Histories.{HasDone};
ghost use Rattle.process_histories.specs.Words.{taken_from, answered_to, requests_on, replies_on};
ghost use Rattle.process_histories.specs.Devices.{sectors_after, FoundWhatStood, writes_in};
ghost use Rattle.process_histories.specs.Served.{disc, disc_site, sector_with, one_write, after_one};

/// A disc takes a request, stands at its checkpoint, writes and answers, and keeps the reply. It can't leave out its
/// checkpoint.
pub fn a_disc_serves_a_request()
    ensures begins { HasDone disc_site 0 disc [] (core_at_boot disc_site 0 disc) }
    ensures serves { HasDone disc_site 0 disc one_write after_one }
    ensures no_checkpoint { (core : Core) → HasDone disc_site 0 disc
        (Acted (Write 1 (sector_with (pos 5)) 1) (sector_with (pos 0)) ∷ Took 0 (pos 2 ∷ pos 1 ∷ pos 5 ∷ []) ∷ []) core
        → ⊥ }
    ensures not_asked { (core : Core) → HasDone disc_site 0 disc (Took 1 (pos 1 ∷ []) ∷ []) core → ⊥ }
{}

/// Its device has what it wrote, with the write's number, and a call finds what stands there when it comes.
pub fn a_device_has_what_was_written()
    ensures written { sectors_after (kind.Disc 2 false) one_write
        ≡ blank ∷ record { words = sector_with (pos 5); number = 1 } ∷ [] }
    ensures again { sectors_after (kind.Disc 2 false)
        (Acted (Write 1 (sector_with (pos 6)) 1) (sector_with (pos 5)) ∷ one_write)
        ≡ sectors_after (kind.Disc 2 false) one_write }
    ensures next { sectors_after (kind.Disc 2 false)
        (Acted (Write 0 (sector_with (pos 6)) 2) (sector_with (pos 0)) ∷ one_write)
        ≡ record { words = sector_with (pos 6); number = 2 } ∷ record { words = sector_with (pos 5); number = 1 } ∷ [] }
    ensures found { FoundWhatStood (kind.Disc 2 false) (Acted (Read 1) (sector_with (pos 5)) ∷ one_write) }
    ensures not_found { FoundWhatStood (kind.Disc 2 false) (Acted (Read 1) (sector_with (pos 0)) ∷ one_write) → ⊥ }
    ensures counted { writes_in (Acted (Read 1) (sector_with (pos 5)) ∷ one_write) ≡ 1 }
{}

/// Words are picked by their file or place, the newest first.
pub fn words_go_with_their_place()
    ensures asked { requests_on 2 (Asked 2 (pos 7 ∷ []) ∷ Got 2 (pos 8 ∷ []) ∷ Asked 1 (pos 6 ∷ []) ∷ Went
        ∷ Asked 2 (pos 5 ∷ []) ∷ []) ≡ (pos 7 ∷ []) ∷ (pos 5 ∷ []) ∷ [] }
    ensures got { replies_on 2 (Asked 2 (pos 7 ∷ []) ∷ Got 2 (pos 8 ∷ []) ∷ Got 1 (pos 6 ∷ []) ∷ [])
        ≡ (pos 8 ∷ []) ∷ [] }
    ensures taken { taken_from 2 (Took 2 (pos 7 ∷ []) ∷ Answered 2 (pos 8 ∷ []) ∷ Took 1 (pos 6 ∷ []) ∷ Took 2 [] ∷ [])
        ≡ (pos 7 ∷ []) ∷ [] ∷ [] }
    ensures answered { answered_to 2 (Took 2 (pos 7 ∷ []) ∷ Answered 2 (pos 8 ∷ []) ∷ Answered 0 (pos 6 ∷ []) ∷ [])
        ≡ (pos 8 ∷ []) ∷ [] }
{}
