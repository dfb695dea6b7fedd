ghost use Rattle.std.specs.Prelude.{◌≡◌, ◌≤◌, ◌<◌, IfOk, length, map, replicate, slice_set};
ghost use Rattle.gd_words.specs.Ranges.{HasNext};
ghost use Rattle.checkpoint_image.specs.Behaving.{last_write_of};
ghost use Rattle.plain_semantics.specs.Openers.{openers_of};
ghost use Rattle.plain_semantics.specs.SiteLimits.{KeepsSiteLimits};
ghost use Rattle.process_semantics.specs.State.{zeros};
ghost use Rattle.process_semantics.specs.Process.{point, after_inner, after_took, asked_file, asked_words, after_asked};
ghost use Rattle.process_semantics.specs.Process.{after_got, answer_of, after_answered, after_checkpoint, call_of};
ghost use Rattle.process_semantics.specs.Process.{after_device};
ghost use Rattle.plain_semantics.specs.Machine.{process_at_first, sectors_at_first, found_by, written_by};
ghost use Rattle.processes.specs.Seen.{IsLoadableKind};
ghost use Rattle.plain_machine.specs.Rounds.{waiting_from};
ghost use Rattle.gd_words.specs.declared.limits.TheConstants.{SECTOR_WORDS};

use checkpoint_image::Behaviour;
use gd_words::limits::SECTOR_WORDS;
use gd_words::{DeviceCall, NoMemory, Sector, Words};
use plain_semantics::{Slot, openers};
use process_semantics::{Asked, Point};
use processes::Process;
use std::alloc::Global;
use std::marker::Model;
use tal_tree::{Kind, OpenerSpec, ProcessSpec, Site};

/// A process of the machine: its state, the place of the opener whose request is in hand, a slot for each of its
/// openers, and the sectors of a disc.
#[derive(Drop)]
pub struct PlainProcess {
    process: Process,
    hand: Option<usize>,
    slots: Vec<Slot>,
    sectors: Vec<Sector>,
}

impl Model for PlainProcess {
    ghost use Rattle.std.specs.Coded.{codes};
    ghost use Rattle.tal_tree.specs.contracts.statement.Statement as statement;
    ghost use Rattle.std.specs.Prelude.{◌≤◌, length};
    ghost use Rattle.processes.specs.Seen.{state_of};
    ghost use Rattle.plain_semantics.specs.Machine as machine;

    ghost Value = { machine.PlainProcess };

    ghost coded = { Prim.hlevel (codes, statement.the_row.coded) };

    ghost view = { λ one. record {
      state = state_of one.process;
      hand = one.hand;
      slots = one.slots.items;
      sectors = one.sectors.items;
    } };

    ghost invariant = { λ one. length one.slots.items ≤ 144 };
}

impl PlainProcess {
    /// A process at its beginning.
    pub(crate) fn start(
        alloc: Global,
        site: &Site,
        number: usize,
        spec: &ProcessSpec,
    ) -> Result<PlainProcess, NoMemory>
        requires limits { KeepsSiteLimits site.now }
        requires loadable { IsLoadableKind spec.now.what }
        ensures { IfOk result (λ one. one ≡ process_at_first site.now number spec.now) }
    {
        let process = Process::load(alloc, &spec.what)?;
        let slots = empty_slots(alloc, site, number)?;
        let sectors = zero_sectors(alloc, &spec.what)?;
        Ok(PlainProcess {
            process,
            hand: None,
            slots,
            sectors,
        })
    }

    /// Where it stands.
    pub(crate) fn at(&self) -> Point
        ensures { result ≡ point self.now.state }
    {
        self.process.at()
    }

    pub(crate) fn inner(&mut self)
        requires { point self.old.state ≡ Point.Inner }
        ensures { self.new ≡ record self.old { state = after_inner self.old.state } }
    {
        self.process.inner();
    }

    pub(crate) fn checkpointed(&mut self)
        requires { point self.old.state ≡ Point.AtCheckpoint }
        ensures { self.new ≡ record self.old { state = after_checkpoint self.old.state } }
    {
        self.process.checkpointed();
    }

    /// The number of the file on which it stands.
    pub(crate) fn asked_file(&self) -> u8
        ensures { result ≡ asked_file self.now.state }
    {
        self.process.asked_file()
    }

    pub(crate) fn asked(&mut self) -> Words
        requires { point self.old.state ≡ Point.Ask }
        ensures words { result ≡ asked_words self.old.state }
        ensures state { self.new ≡ record self.old { state = after_asked self.old.state } }
    {
        let Asked { file: _, words } = self.process.asked();
        words
    }

    pub(crate) fn got(&mut self, words: &Words)
        requires { point self.old.state ≡ Point.Await }
        ensures { self.new ≡ record self.old { state = after_got self.old.state words.now } }
    {
        self.process.got(words);
    }

    /// The place of the opener whose request is in hand.
    pub(crate) fn hand(&self) -> Option<usize>
        ensures { result ≡ self.now.hand }
    {
        self.hand
    }

    pub(crate) fn answered(&mut self) -> Words
        requires { point self.old.state ≡ Point.Answer }
        ensures words { result ≡ answer_of self.old.state }
        ensures state { self.new ≡ record self.old { state = after_answered self.old.state; hand = None } }
    {
        self.hand = None;
        self.process.answered()
    }

    /// Acts on the disc device, and tells what it did. The number of its last write has a next.
    pub(crate) fn device(&mut self) -> DeviceCall
        requires stands { point self.old.state ≡ Point.Device }
        requires room { HasNext (last_write_of self.old.state) }
        ensures call { result ≡ call_of self.old.state }
        ensures state { self.new ≡ record self.old {
          state = after_device self.old.state (found_by self.old.sectors (call_of self.old.state));
          sectors = written_by self.old.sectors (call_of self.old.state);
        } }
    {
        let call = self.process.device();
        let found = found_by(&self.sectors, &call);
        self.process.device_done(&found);
        write(&mut self.sectors, &call);
        call
    }

    /// What it does to its device. The number of its last write has a next.
    pub(crate) fn call(&self) -> DeviceCall
        requires stands { point self.now.state ≡ Point.Device }
        requires room { HasNext (last_write_of self.now.state) }
        ensures { result ≡ call_of self.now.state }
    {
        self.process.device()
    }

    /// Takes the request with these words, which waits in the slot of this place.
    pub(crate) fn took(&mut self, place: usize, words: &Words)
        requires { point self.old.state ≡ Point.Take }
        ensures { self.new ≡ record self.old {
          state = after_took self.old.state words.now;
          hand = Some place;
          slots = slice_set self.old.slots place Slot.Taken;
        } }
    {
        self.process.took(words);
        self.hand = Some(place);
        set(&mut self.slots, place, Slot::Taken);
    }

    pub(crate) fn slots(&self) -> &[Slot]
        ensures { result.now ≡ self.now.slots }
    {
        self.slots.as_slice()
    }

    /// The place of the first slot in which a request waits, or how many slots there are.
    pub(crate) fn first_waiting(&self) -> u16
        ensures { result ≡ waiting_from 0 self.now.slots }
    {
        first_waiting(self.slots.as_slice())
    }

    pub(crate) fn set_slot(&mut self, place: usize, slot: Slot)
        ensures { self.new ≡ record self.old { slots = slice_set self.old.slots place slot } }
    {
        set(&mut self.slots, place, slot);
    }
}

fn set(slots: &mut Vec<Slot>, place: usize, slot: Slot)
    ensures slots { slots.new.items ≡ slice_set slots.old.items place slot }
    ensures length { length slots.new.items ≡ length slots.old.items }
{
    if place < slots.len() {
        slots[place] = slot;
    }
}

fn empty_slots(alloc: Global, site: &Site, number: usize) -> Result<Vec<Slot>, NoMemory>
    requires { KeepsSiteLimits site.now }
    ensures few { IfOk result (λ slots. length slots.items ≤ 144) }
    ensures slots { IfOk result (λ slots. slots.items ≡ map (λ opener. Slot.Empty) (openers_of site.now number)) }
{
    let openers = openers(alloc, site, number)?;
    empties(alloc, openers.as_slice())
}

fn empties(alloc: Global, openers: &[OpenerSpec]) -> Result<Vec<Slot>, NoMemory>
    ensures length { IfOk result (λ slots. length slots.items ≡ length openers.now) }
    ensures slots { IfOk result (λ slots. slots.items ≡ map (λ opener. Slot.Empty) openers.now) }
{
    let mut slots = Vec::new(alloc);
    for _ in 0..openers.len() {
        slots.push(Slot::Empty)?;
    }
    Ok(slots)
}

fn zero_sectors(alloc: Global, kind: &Kind) -> Result<Vec<Sector>, NoMemory>
    ensures { IfOk result (λ sectors. sectors.items ≡ sectors_at_first kind.now) }
{
    match kind {
        Kind::Disc { sectors, .. } => zeros(alloc, *sectors),
        Kind::Pair(_) => Ok(Vec::new(alloc)),
    }
}

fn zeros(alloc: Global, sectors: u8) -> Result<Vec<Sector>, NoMemory>
    ensures { IfOk result (λ all. all.items ≡ replicate sectors (zeros SECTOR_WORDS)) }
{
    let mut all = Vec::new(alloc);
    for _ in 0..sectors {
        all.push([0; SECTOR_WORDS])?;
    }
    Ok(all)
}

fn found_by(sectors: &Vec<Sector>, call: &DeviceCall) -> Sector
    ensures { result ≡ found_by sectors.now.items call.now }
{
    match call {
        DeviceCall::Read(sector) => match sectors.as_slice().get(usize::from(*sector)) {
            None => [0; SECTOR_WORDS],
            Some(words) => *words,
        },
        _ => [0; SECTOR_WORDS],
    }
}

fn write(sectors: &mut Vec<Sector>, call: &DeviceCall)
    ensures { sectors.new.items ≡ written_by sectors.old.items call.now }
{
    if let DeviceCall::Write {
        sector,
        words,
        number: _,
    } = call
    {
        let sector = usize::from(*sector);
        if sector < sectors.len() {
            sectors[sector] = *words;
        }
    }
}

/// The place of the first slot in which a request waits, or how many slots there are.
fn first_waiting(slots: &[Slot]) -> u16
    requires { length slots.now ≤ 144 }
    ensures { result ≡ waiting_from 0 slots.now }
{
    for (place, slot) in slots.iter().enumerate() {
        if let Slot::Waiting(_) = slot {
            return place as u16;
        }
    }
    slots.len() as u16
}
