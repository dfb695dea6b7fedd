ghost use Rattle.std.specs.Prelude.{◌≡◌, ◌<◌, ◌+◌, Some, take, drop, true, false, map, nat_lt, not, slice_get};
ghost use Rattle.std.specs.List.{list_all};
ghost use Rattle.gd_words.specs.declared.limits.TheConstants.{TERMINAL_NODE};
ghost use Rattle.alive_regroup.specs.Sets.{has};
ghost use Rattle.alive_regroup.specs.Watching.{Watching, neighbour_after_report};
ghost use Rattle.alive_regroup.specs.Watching.{neighbour_after_down, is_down, is_up, is_silent, changed_at};
ghost use Rattle.alive_regroup.specs.Watching.{neighbour_after_check, is_marked, after_tick};
ghost use Rattle.alive_regroup.specs.Watching.{is_coordinator, is_held, all_but, agrees, new_watch, at_first};
ghost use Rattle.alive_regroup.specs.Watching.{is_silent_at};
ghost use Rattle.alive_regroup.specs.Watching.{after_up, does_check, neighbour_after_up, neighbour_after_up_of};
ghost use Rattle.alive_regroup.specs.Watching.{told_by_tick};
ghost use Rattle.alive_regroup.specs.Listening.{all_heard, is_at_rest, is_calm, watch_after};

use crate::neighbour::{Neighbour, neighbour_up};
use crate::set::ProcessorSet;
use gd_words::limits::TERMINAL_NODE;
use std::marker::Model;

/// The numbers of processors.
const PLACES: [u8; 16] = [0, 1, 2, 3, 4, 5, 6, 7, 8, 9, 10, 11, 12, 13, 14, 15];

/// What a node knows of the processors of its site. No call takes memory.
#[derive(Clone, Copy)]
pub struct Watch {
    me: u8,
    checks: bool,
    neighbours: [Neighbour; 16],
    told: ProcessorSet,
    due: bool,
}

impl Model for Watch {
    ghost use Rattle.alive_regroup.specs.Watching.{Watching};

    ghost Value = { Watching };

    ghost view = { λ watch. record {
      me = watch.me;
      checks = watch.checks;
      neighbours = watch.neighbours;
      told = watch.told;
      due = watch.due;
    } };

    ghost inverse = { λ w. record {
      me = w.me;
      checks = w.checks;
      neighbours = w.neighbours;
      told = w.told;
      due = w.due;
    } };
}

impl Watch {
    /// What node `me`, a processor or 16, knows at the beginning of a site of so many processors: all others are up,
    /// and none was missed.
    pub fn new(me: u8, processors: u8) -> Watch
        ensures { result ≡ new_watch me processors }
    {
        let neighbours = PLACES.map(|place| at_first(me, processors, place));
        Watch {
            me,
            checks: false,
            neighbours,
            told: ProcessorSet::nobody(),
            due: false,
        }
    }

    /// The number of the node.
    pub fn me(&self) -> u8
        ensures { result ≡ self.now.me }
    {
        self.me
    }

    /// A report came from a processor.
    pub fn on_report(&mut self, from: u8, set: ProcessorSet)
        ensures { self.new ≡ changed_at from (neighbour_after_report set) self.old }
    {
        let place = usize::from(from);
        if let Some(neighbour) = self.neighbours.get(place) {
            self.neighbours[place] = neighbour.reported(set);
        }
    }

    /// The node has marked a processor down.
    pub fn on_down(&mut self, processor: u8)
        ensures { self.new ≡ changed_at processor neighbour_after_down self.old }
    {
        let place = usize::from(processor);
        if let Some(neighbour) = self.neighbours.get(place) {
            self.neighbours[place] = neighbour.marked();
        }
    }

    /// A processor was loaded again: the next check reports, even if it changes nothing.
    pub fn on_up(&mut self, processor: u8)
        ensures { self.new ≡ after_up processor self.old }
    {
        none_reports(&mut self.neighbours, processor);
        self.due = true;
        self.come_up(processor);
    }

    fn come_up(&mut self, processor: u8)
        ensures { self.new ≡ changed_at processor neighbour_after_up self.old }
    {
        let place = usize::from(processor);
        if let Some(neighbour) = self.neighbours.get(place) {
            self.neighbours[place] = neighbour.come_up();
        }
    }

    /// Whether the node has marked a processor down.
    pub fn marked(&self, processor: u8) -> bool
        ensures { result ≡ is_marked processor self.now }
    {
        match self.neighbours.get(usize::from(processor)) {
            Some(neighbour) => neighbour.is_down(),
            None => false,
        }
    }

    /// What the node knows of a number up to 15.
    pub fn neighbour(&self, processor: u8) -> Option<Neighbour>
        ensures { result ≡ slice_get self.now.neighbours processor }
    {
        self.neighbours.get(usize::from(processor)).copied()
    }

    /// Whether the node's next tick checks.
    pub fn does_check(&self) -> bool
        ensures { result ≡ does_check self.now }
    {
        self.me < TERMINAL_NODE && self.checks
    }

    /// Whether the node is that of the terminals, whose ticks never check.
    pub(crate) fn never_checks(&self) -> bool
        ensures { result ≡ not (nat_lt self.now.me TERMINAL_NODE) }
    {
        TERMINAL_NODE <= self.me
    }

    /// The node's tick: the silent set to report, where a check changed it or a report is due.
    pub fn tick(&mut self) -> Option<ProcessorSet>
        ensures told { result ≡ told_by_tick self.old }
        ensures after { self.new ≡ after_tick self.old }
    {
        if !self.does_check() {
            self.checks = true;
            return None;
        }
        self.checks = false;
        let silent = ProcessorSet {
            members: check_all(&mut self.neighbours),
        };
        let before = self.told;
        let is_due = self.due;
        self.told = silent;
        self.due = false;
        if !is_due && before == silent {
            None
        } else {
            to_report(silent)
        }
    }

    /// A tick that doesn't check.
    pub(crate) fn wait(&mut self)
        ensures { self.new ≡ record self.old { checks = true } }
    {
        self.checks = true;
    }

    /// A check that changes nothing.
    pub(crate) fn pass(&mut self)
        ensures { self.new ≡ record self.old { checks = false } }
    {
        self.checks = false;
    }

    /// Alive packets came from these processors.
    pub(crate) fn hear_all(&mut self, heard: &[bool; 16])
        ensures { self.new ≡ watch_after heard.now self.old }
    {
        hear_all(&mut self.neighbours, heard);
    }

    /// Which processors are others that aren't marked down.
    pub(crate) fn up(&self) -> [bool; 16]
        ensures { result ≡ map is_up self.now.neighbours }
    {
        all_up(&self.neighbours)
    }

    /// Whether a check changes nothing, if an alive packet came from each that is up.
    pub(crate) fn is_calm(&self) -> bool
        ensures { result ≡ is_calm self.now }
    {
        !self.due && self.told == ProcessorSet::nobody() && all_at_rest(self.neighbours.as_slice())
    }

    /// Whether all agree that a processor is silent, and the node is the coordinator.
    pub fn holds(&self, processor: u8) -> bool
        ensures { result ≡ is_held processor self.now }
    {
        self.me < TERMINAL_NODE
            && self.is_silent_at(processor)
            && self.is_coordinator(processor)
            && all_but_agree(self.neighbours.as_slice(), processor)
    }

    fn is_silent_at(&self, processor: u8) -> bool
        ensures { result ≡ is_silent_at processor self.now }
    {
        match self.neighbours.get(usize::from(processor)) {
            Some(neighbour) => neighbour.is_silent(),
            None => false,
        }
    }

    fn is_coordinator(&self, processor: u8) -> bool
        ensures { result ≡ is_coordinator processor self.now }
    {
        let place = usize::from(processor);
        let neighbours = self.neighbours.as_slice();
        let lower = front_of(neighbours, usize::from(self.me));
        none_up(front_of(lower, place)) && none_up(behind(lower, place))
    }
}

/// A silent set that is to be reported. Out of line, so that a check which changes nothing copies no set.
#[inline(never)]
fn to_report(silent: ProcessorSet) -> Option<ProcessorSet>
    ensures { result ≡ Some silent }
{
    Some(silent)
}

/// The items before a place.
fn front_of(neighbours: &[Neighbour], place: usize) -> &[Neighbour]
    ensures { result.now ≡ take place neighbours.now }
{
    if place < neighbours.len() {
        let (front, _) = neighbours.split_at(place);
        front
    } else {
        neighbours
    }
}

/// The items behind a place.
fn behind(neighbours: &[Neighbour], place: usize) -> &[Neighbour]
    ensures { result.now ≡ drop (place + 1) neighbours.now }
{
    if place < neighbours.len() {
        let (_, back) = neighbours.split_at(place + 1);
        back
    } else {
        &[]
    }
}

fn all_but_agree(neighbours: &[Neighbour], processor: u8) -> bool
    ensures { result ≡ all_but processor (agrees processor) neighbours.now }
{
    let place = usize::from(processor);
    all_agree(front_of(neighbours, place), processor)
        && all_agree(behind(neighbours, place), processor)
}

fn at_first(me: u8, processors: u8, place: u8) -> Neighbour
    ensures { result ≡ at_first me processors place }
{
    if place < processors && place != me {
        neighbour_up(false)
    } else {
        Neighbour::Absent
    }
}

/// Each neighbour is checked. Answers which of them are silent then.
fn check_all(neighbours: &mut [Neighbour; 16]) -> [bool; 16]
    ensures silent { result ≡ map is_silent (map neighbour_after_check neighbours.old) }
    ensures after { neighbours.new ≡ map neighbour_after_check neighbours.old }
{
    let mut members = [false; 16];
    for place in 0..16 {
        if neighbours[place].check() {
            members[place] = true;
        }
    }
    members
}

/// No neighbour has this processor in its last report any more.
fn none_reports(neighbours: &mut [Neighbour; 16], processor: u8)
    ensures { neighbours.new ≡ map (neighbour_after_up_of processor) neighbours.old }
{
    for place in 0..16 {
        neighbours[place].forget(processor);
    }
}

fn all_agree(neighbours: &[Neighbour], processor: u8) -> bool
    ensures { result ≡ list_all (agrees processor) neighbours.now }
{
    neighbours.iter().all(|one| one.agrees(processor))
}

fn none_up(neighbours: &[Neighbour]) -> bool
    ensures { result ≡ list_all (λ one. not (is_up one)) neighbours.now }
{
    neighbours.iter().all(|one| !one.is_up())
}

/// An alive packet came from each of these.
fn hear_all(neighbours: &mut [Neighbour; 16], heard: &[bool; 16])
    ensures { neighbours.new ≡ all_heard heard.now neighbours.old }
{
    for place in 0..16 {
        if heard[place] {
            neighbours[place].hear();
        }
    }
}

/// Which of them are others that aren't marked down.
fn all_up(neighbours: &[Neighbour; 16]) -> [bool; 16]
    ensures { result ≡ map is_up neighbours.now }
{
    let mut members = [false; 16];
    for place in 0..16 {
        members[place] = neighbours[place].is_up();
    }
    members
}

fn all_at_rest(neighbours: &[Neighbour]) -> bool
    ensures { result ≡ list_all is_at_rest neighbours.now }
{
    neighbours.iter().all(|one| one.is_at_rest())
}
