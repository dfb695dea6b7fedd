ghost use Rattle.std.specs.Prelude.{◌≡◌};
ghost use Rattle.std.specs.Option.{option_copied};
ghost use Rattle.machine_views.specs.Views.{acting_of, acts_for};
ghost use Rattle.world_semantics.specs.World.{is_acting};

use checkpoint_image::{FileNumber, ReceiveBlock};
use gd_words::{List, Request, Sector};
use process_semantics::Point;
use world_semantics::Role;

/// What a machine tells of itself: the processors that have stopped, how often each was loaded again, the marks, both
/// copies of each process, the terminals in deck order, and the sectors of all discs. The processors rise, and marks,
/// copies and sectors rise by their first two fields.
#[derive(Drop)]
pub struct View {
    pub stopped: List<u8>,
    pub reloads: List<u8>,
    pub down: List<DownView>,
    pub copies: List<CopyView>,
    pub terminals: List<TerminalView>,
    pub sectors: List<SectorView>,
}

/// A node has marked a processor down.
#[derive(Clone, Copy, PartialEq, Eq)]
pub struct DownView {
    pub node: u8,
    pub down: u8,
}

/// A copy of a process in its processor. `number` is that of the last checkpoint sent or applied in its era, and `sent`
/// says whether one was sent where it stands. `renewal` says whether it has to send everything that it has. `awaited`
/// is the request whose reply it awaits. `next` is the number of what its program does next, in the program's text: at
/// a checkpoint that of the CHECKPOINT itself. `state` is the image of its process with everything that may be listed:
/// at a checkpoint that of the state after it. `files` has the number of the next request on each file.
#[derive(Drop)]
pub struct CopyView {
    pub process: u8,
    pub processor: u8,
    pub role: Role,
    pub era: u32,
    pub number: u32,
    pub sent: bool,
    pub renewal: bool,
    pub awaited: Option<Awaited>,
    pub point: Point,
    pub next: u16,
    pub state: List<i16>,
    pub files: List<FileNumber>,
    pub receive: ReceiveBlock,
    pub waiting: List<Request>,
}

/// A request whose reply is awaited: the file on which it was asked, and its number.
#[derive(Clone, Copy, PartialEq, Eq)]
pub struct Awaited {
    pub file: u8,
    pub number: u32,
}

/// How many requests a terminal has entered, and how many replies it has printed.
#[derive(Clone, Copy, PartialEq, Eq)]
pub struct TerminalView {
    pub entered: u32,
    pub printed: u32,
}

/// A sector of a disc: its words, and the number of the write that put them, 0 where none did.
#[derive(Clone, Copy, PartialEq, Eq)]
pub struct SectorView {
    pub process: u8,
    pub sector: u8,
    pub words: Sector,
    pub number: u32,
}

/// Whether a copy acts.
pub fn is_acting(role: Role) -> bool
    ensures { result ≡ is_acting role }
{
    match role {
        Role::Acting => true,
        Role::Watching => false,
        Role::Blank => false,
        Role::Gone => false,
    }
}

/// The copy that acts for the process of a number, among these.
pub fn acting_of(process: usize, copies: &[CopyView]) -> Option<&CopyView>
    ensures { option_copied result ≡ acting_of process copies.now }
{
    let mut left = copies;
    while let Some((copy, rest)) = left.split_first() {
        if acts_for(process, copy) {
            return Some(copy);
        }
        left = rest;
    }
    None
}

fn acts_for(process: usize, copy: &CopyView) -> bool
    ensures { result ≡ acts_for process copy.now }
{
    if usize::from(copy.process) == process {
        is_acting(copy.role)
    } else {
        false
    }
}
