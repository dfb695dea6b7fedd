use gd_words::{NoMemory, Sector};
use mirror::{DriveState, Drives, Failing, MemoryDrive};
use std::alloc::Global;
use std::process::Abort;
use std::test::Fail;

/// A device of two drives of three sectors each.
fn mirrored(alloc: Global) -> Result<Drives<MemoryDrive>, NoMemory> {
    let first = MemoryDrive::new(alloc, 3)?;
    let second = MemoryDrive::new(alloc, 3)?;
    Ok(Drives::new(first, Some(second)))
}

/// The words of a sector that begins with this one.
fn sector_of(word: i16) -> Sector {
    let mut words = [0; 8];
    words[0] = word;
    words
}

/// Writes a word on a sector, under a new number.
fn write(rt: &impl Abort, drives: &mut Drives<MemoryDrive>, sector: u8, word: i16, number: u32) {
    assert!(rt; sector < drives.count());
    assert!(rt; drives.write(sector, &sector_of(word), number));
}

fn fail(rt: &impl Abort, drives: &mut Drives<MemoryDrive>, drive: u8) -> Failing {
    assert!(rt; drives.is_mirrored() && drive < 2);
    drives.fail(drive)
}

fn revive(rt: &impl Abort, drives: &mut Drives<MemoryDrive>, drive: u8) -> bool {
    assert!(rt; drives.is_mirrored() && drive < 2);
    drives.revive(drive)
}

fn copy(rt: &impl Abort, drives: &mut Drives<MemoryDrive>, drive: u8) -> bool {
    assert!(rt; drives.is_mirrored() && drive < 2);
    drives.copy(drive)
}

/// How both drives stand.
fn states(rt: &impl Abort, drives: &Drives<MemoryDrive>) -> (DriveState, DriveState) {
    assert!(rt; drives.is_mirrored());
    (drives.state(0), drives.state(1))
}

/// The first word of a sector, as the device reads it.
fn read(rt: &impl Abort, drives: &Drives<MemoryDrive>, sector: u8) -> i16 {
    assert!(rt; sector < drives.count());
    drives.read(sector)[0]
}

/// The first word of each sector that a drive itself has, with the number of its write.
fn on_drive(
    rt: &impl Abort,
    drives: &Drives<MemoryDrive>,
    drive: u8,
    sector: usize,
) -> Option<(i16, u32)> {
    assert!(rt; drives.is_mirrored() && drive < 2);
    let stored = drives.drive(drive).sectors().get(sector)?;
    Some((stored.words[0], stored.number))
}

#[test]
fn a_drive_fails_and_a_new_one_is_filled_while_writes_go_on(rt: HostRuntime) -> Result<(), Fail> {
    let mut drives = mirrored(rt.alloc())?;
    write(&rt, &mut drives, 0, 10, 1);
    assert!(rt; fail(&rt, &mut drives, 0) == Failing::Done);
    assert!(rt; on_drive(&rt, &drives, 0, 0) == Some((0, 0)));
    assert!(rt; read(&rt, &drives, 0) == 10);
    write(&rt, &mut drives, 1, 20, 2);
    assert!(rt; fail(&rt, &mut drives, 1) == Failing::LastOne);
    assert!(rt; fail(&rt, &mut drives, 0) == Failing::AlreadyFailed);
    assert!(rt; !revive(&rt, &mut drives, 1) && !copy(&rt, &mut drives, 0));
    assert!(rt; revive(&rt, &mut drives, 0) && copy(&rt, &mut drives, 0));
    assert!(rt; states(&rt, &drives) == (DriveState::Reviving(1), DriveState::Working));
    write(&rt, &mut drives, 0, 11, 3);
    write(&rt, &mut drives, 2, 30, 4);
    assert!(rt; on_drive(&rt, &drives, 0, 0) == Some((11, 3)));
    assert!(rt; on_drive(&rt, &drives, 0, 2) == Some((0, 0)));
    assert!(rt; copy(&rt, &mut drives, 0) && copy(&rt, &mut drives, 0));
    assert!(rt; states(&rt, &drives) == (DriveState::Working, DriveState::Working));
    assert!(rt; fail(&rt, &mut drives, 1) == Failing::Done && !copy(&rt, &mut drives, 0));
    for (sector, word) in [(0, 11), (1, 20), (2, 30)] {
        assert!(rt; read(&rt, &drives, sector) == word);
    }
    Ok(())
}

#[test]
fn a_write_is_done_once_also_on_one_drive(rt: HostRuntime) -> Result<(), Fail> {
    let mut drives = Drives::new(MemoryDrive::new(rt.alloc(), 1)?, None);
    assert!(rt; !drives.is_mirrored() && drives.count() == 1);
    write(&rt, &mut drives, 0, 5, 9);
    assert!(rt; drives.count() == 1);
    assert!(rt; !drives.write(0, &sector_of(6), 9) && read(&rt, &drives, 0) == 5);
    Ok(())
}
