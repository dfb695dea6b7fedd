ghost use Rattle.std.specs.Prelude.{◌≡◌, ◌+◌, ◌≤◌, ◌++◌, length};
ghost use Rattle.gd_io.specs.Puts.{Puts};
ghost use Rattle.trace_print.specs.MirrorLine.{mirror_line, mirror_lines, state_text};

use crate::line::Line;
use crate::shown::process_name;
use gd_io::{Sink, WriteFault, put_all};
use mirror::DriveState;
use tal_tree::Site;

/// How the two drives of a mirrored disc stand, the process at this place in the deck.
#[derive(Clone, Copy, PartialEq, Eq)]
pub struct MirrorDrives {
    pub process: u8,
    pub first: DriveState,
    pub second: DriveState,
}

/// Writes the line of a mirrored disc; the name of one that isn't there is empty. It takes no memory.
pub fn write_mirror<K: Sink>(
    sink: &mut K,
    site: &Site,
    drives: MirrorDrives,
) -> Result<(), WriteFault>
    ensures { Puts K.held K.faults K.sure sink.old sink.new (mirror_line site.now drives) result }
{
    let line = mirror_text(site, drives);
    put_all(sink, line.bytes())
}

/// Writes the lines of mirrored discs, in order. It takes no memory.
pub fn write_all_mirrors<K: Sink>(
    sink: &mut K,
    site: &Site,
    mirrors: &[MirrorDrives],
) -> Result<(), WriteFault>
    ensures { Puts K.held K.faults K.sure sink.old sink.new (mirror_lines site.now mirrors.now) result }
{
    for drives in mirrors {
        write_mirror(sink, site, *drives)?;
    }
    Ok(())
}

fn mirror_text(site: &Site, drives: MirrorDrives) -> Line
    ensures { result ≡ mirror_line site.now drives }
{
    let mut line = Line::new();
    line.push(b"M ");
    line.push(process_name(site, drives.process));
    line.push(b" ");
    push_state(&mut line, drives.first);
    line.push(b" ");
    push_state(&mut line, drives.second);
    line.push(b"\n");
    line
}

/// Writes how a drive stands, in at most 29 bytes.
fn push_state(line: &mut Line, state: DriveState)
    requires { length line.old + 29 ≤ 512 }
    ensures text { line.new ≡ line.old ++ state_text state }
    ensures len { length line.new ≤ length line.old + 29 }
{
    match state {
        DriveState::Working => line.push(b"working"),
        DriveState::Failed => line.push(b"failed"),
        DriveState::Reviving(next) => {
            line.push(b"reviving ");
            line.number(i64::from(next));
        }
    }
}
