ghost use Rattle.std.specs.Prelude.{◌≡◌, ◌∷◌, [], ℕ};
ghost use Rattle.machine_states.specs.disc_device.specs.mirror.specs.declared.state.DriveState.{DriveState};
ghost use Rattle.machine_states.specs.disc_device.specs.mirror.specs.declared.state.DriveState.TheVariants.{Failed};
ghost use Rattle.machine_states.specs.disc_device.specs.mirror.specs.declared.state.DriveState.TheVariants.{Reviving};
ghost use Rattle.machine_states.specs.disc_device.specs.mirror.specs.declared.state.DriveState.TheVariants.{Working};
ghost use Rattle.machine_states.specs.Drives.{Loses, Rests, Turns, outcome_of_drive_change};
ghost use Rattle.machine_states.specs.States.{DiscLoss, Makes, Skips, Would};
ghost use Rattle.schedule.specs.declared.event.DriveChange.{DriveChange};
ghost use Rattle.schedule.specs.declared.event.DriveChange.TheVariants.{Break, Copy, Revive};
ghost use Rattle.schedule.specs.declared.event.Event.TheVariants.{Drive};
ghost use Rattle.message_wires.specs.Play.{play};
ghost use Rattle.machine_guards.specs.States.{discs_at_boot, having_drives, mirrors_at_boot};

/// A drive breaks if the other one works, and else it is the last one, unless it has failed already.
pub fn the_last_drive_isnt_broken()
    ensures first { outcome_of_drive_change Break 4 0 (Working ∷ Working ∷ []) ≡ Turns (Failed ∷ Working ∷ []) }
    ensures second { outcome_of_drive_change Break 4 1 (Working ∷ Working ∷ []) ≡ Turns (Working ∷ Failed ∷ []) }
    ensures reviving { outcome_of_drive_change Break 4 0 (Reviving 2 ∷ Working ∷ []) ≡ Turns (Failed ∷ Working ∷ []) }
    ensures failed_before { outcome_of_drive_change Break 4 0 (Failed ∷ Working ∷ []) ≡ Rests }
    ensures last { outcome_of_drive_change Break 4 1 (Failed ∷ Working ∷ []) ≡ Loses }
    ensures while_reviving { outcome_of_drive_change Break 4 1 (Reviving 3 ∷ Working ∷ []) ≡ Loses }
{}

/// Only a drive that failed is revived.
pub fn a_working_drive_isnt_revived()
    ensures failed { outcome_of_drive_change Revive 4 0 (Failed ∷ Working ∷ []) ≡ Turns (Reviving 0 ∷ Working ∷ []) }
    ensures working { outcome_of_drive_change Revive 4 1 (Failed ∷ Working ∷ []) ≡ Rests }
    ensures reviving { outcome_of_drive_change Revive 4 1 (Working ∷ Reviving 3 ∷ []) ≡ Rests }
{}

/// A drive that is revived is filled sector by sector, and works behind the last one. Then there is nothing to copy.
pub fn a_copy_goes_up_to_the_last_sector()
    ensures first { outcome_of_drive_change Copy 4 0 (Reviving 0 ∷ Working ∷ []) ≡ Turns (Reviving 1 ∷ Working ∷ []) }
    ensures last { outcome_of_drive_change Copy 4 1 (Working ∷ Reviving 3 ∷ []) ≡ Turns (Working ∷ Working ∷ []) }
    ensures past { outcome_of_drive_change Copy 4 1 (Working ∷ Working ∷ []) ≡ Rests }
    ensures failed { outcome_of_drive_change Copy 4 0 (Failed ∷ Working ∷ []) ≡ Rests }
{}

/// Nothing is done where there aren't two drives, or where the drive isn't one of them.
pub fn only_one_of_two_drives_is_turned()
    ensures one { (change : DriveChange) (count drive : ℕ) (state : DriveState)
        → outcome_of_drive_change change count drive (state ∷ [])
        ≡ Rests }
    ensures none { (change : DriveChange) (count drive : ℕ) → outcome_of_drive_change change count drive [] ≡ Rests }
    ensures another { (change : DriveChange) (count : ℕ) (first second : DriveState)
        → outcome_of_drive_change change count 2 (first ∷ second ∷ []) ≡ Rests }
{}

/// An event of a drive changes how the drives of its disc stand, and leaves the world, the bus and all that is owed. A
/// disc without a mirror, and what isn't there, has none.
pub fn an_event_of_a_drive_changes_drives_alone()
    ensures breaks { play mirrors_at_boot (Drive (record { process = 1; drive = 0; change = Break }))
        ≡ Makes (having_drives ((Working ∷ []) ∷ (Failed ∷ Working ∷ []) ∷ []) mirrors_at_boot) }
    ensures lost { play (having_drives ((Working ∷ []) ∷ (Failed ∷ Working ∷ []) ∷ []) mirrors_at_boot)
        (Drive (record { process = 1; drive = 1; change = Break })) ≡ Would (DiscLoss 1) }
    ensures without { play mirrors_at_boot (Drive (record { process = 0; drive = 0; change = Break })) ≡ Skips }
    ensures nowhere { play mirrors_at_boot (Drive (record { process = 2; drive = 0; change = Break })) ≡ Skips }
{}

/// At the beginning each drive works, one of a disc and two of one that is mirrored.
pub fn each_drive_works_at_first()
    ensures discs { discs_at_boot.drives ≡ (Working ∷ []) ∷ (Working ∷ []) ∷ [] }
    ensures mirrors { mirrors_at_boot.drives ≡ (Working ∷ []) ∷ (Working ∷ Working ∷ []) ∷ [] }
{}
