ghost use Rattle.std.specs.Prelude.{◌≡◌, true};
ghost use Rattle.std.specs.Bool.{OnFalse, OnTrue};
ghost use Rattle.alive_regroup.specs.Watching.{after_tick, after_up, changed_at, misses_none, neighbour_after_alive};
ghost use Rattle.alive_regroup.specs.Watching.{neighbour_after_down, neighbour_after_report, new_watch, told_by_tick};

use crate::set::ProcessorSet;
use crate::watch::Watch;
use std::marker::Model;

/// A watch that is kept for many checks which find nothing: of whom an alive packet came is noted beside it, so that a
/// check at which all that are up were heard looks at none of them. No call takes memory.
#[derive(Drop)]
pub struct Listener {
    /// Without the alive packets that came since the last check.
    watch: Watch,
    heard: [bool; 16],
    /// Which are up.
    up: [bool; 16],
    /// Whether a check changes nothing, if an alive packet came from each that is up.
    calm: bool,
    /// Whether the next tick checks, and that is so of it.
    checks_calmly: bool,
}

impl Model for Listener {
    ghost use Rattle.std.specs.Prelude.{◌≡◌, ◌&&◌, true, map};
    ghost use Rattle.alive_regroup.specs.Listening.{is_calm, watch_after};
    ghost use Rattle.alive_regroup.specs.Watching.{Watching, does_check, is_up};

    ghost Value = { Watching };

    ghost view = { λ listener. watch_after listener.heard listener.watch };

    ghost invariant = { λ listener. (listener.up ≡ map is_up listener.watch.neighbours)
        × (listener.calm ≡ true → is_calm listener.watch ≡ true)
        × (listener.checks_calmly ≡ true → (is_calm listener.watch && does_check listener.watch) ≡ true) };
}

impl Listener {
    /// What node `me`, a processor or 16, knows at the beginning of a site of so many processors.
    pub fn new(me: u8, processors: u8) -> Listener
        ensures { result ≡ new_watch me processors }
    {
        Listener::of(Watch::new(me, processors))
    }

    /// Keeps what is known.
    fn of(watch: Watch) -> Listener
        ensures { result ≡ watch }
    {
        let up = watch.up();
        let calm = watch.is_calm();
        let checks_calmly = calm && watch.does_check();
        Listener {
            watch,
            heard: [false; 16],
            up,
            calm,
            checks_calmly,
        }
    }

    /// What the node knows.
    pub fn watch(&self) -> Watch
        ensures { result ≡ self.now }
    {
        let mut watch = self.watch;
        watch.hear_all(&self.heard);
        watch
    }

    /// The number of the node.
    pub fn me(&self) -> u8
        ensures { result ≡ self.now.me }
    {
        self.watch.me()
    }

    /// An alive packet came from a processor.
    pub fn hear(&mut self, from: u8)
        ensures { self.new ≡ changed_at from neighbour_after_alive self.old }
    {
        let place = usize::from(from);
        if place < self.heard.len() {
            self.heard[place] = true;
        }
    }

    /// A report came from a processor.
    pub fn on_report(&mut self, from: u8, set: ProcessorSet)
        ensures { self.new ≡ changed_at from (neighbour_after_report set) self.old }
    {
        let mut watch = self.watch();
        watch.on_report(from, set);
        *self = Listener::of(watch);
    }

    /// The node has marked a processor down.
    pub fn on_down(&mut self, processor: u8)
        ensures { self.new ≡ changed_at processor neighbour_after_down self.old }
    {
        let mut watch = self.watch();
        watch.on_down(processor);
        *self = Listener::of(watch);
    }

    /// A processor was loaded again: the next check reports, even if it changes nothing.
    pub fn on_up(&mut self, processor: u8)
        ensures { self.new ≡ after_up processor self.old }
    {
        let mut watch = self.watch();
        watch.on_up(processor);
        *self = Listener::of(watch);
    }

    /// The node's tick: the silent set to report, where a check changed it or a report is due.
    #[inline(always)]
    pub fn tick(&mut self) -> Option<ProcessorSet>
        ensures told { result ≡ told_by_tick self.old }
        ensures after { self.new ≡ after_tick self.old }
    {
        if self.checks_calmly && !differ(&self.heard, &self.up) {
            self.watch.pass();
            self.heard = [false; 16];
            self.checks_calmly = false;
            return None;
        }
        if self.watch.does_check() {
            return self.look();
        }
        self.watch.wait();
        if !self.watch.never_checks() {
            self.checks_calmly = self.calm;
        }
        None
    }

    /// A tick at which each processor is looked at.
    #[inline(never)]
    fn look(&mut self) -> Option<ProcessorSet>
        ensures told { result ≡ told_by_tick self.old }
        ensures after { self.new ≡ after_tick self.old }
    {
        let mut watch = self.watch();
        let told = watch.tick();
        *self = Listener::of(watch);
        told
    }

    /// Whether the last check is known to have missed no processor.
    pub fn is_calm(&self) -> bool
        ensures { OnTrue result (misses_none self.now ≡ true) }
    {
        self.calm
    }
}

/// Whether two sets of processors differ. It looks at all places, so that the compiler takes them at once.
fn differ(first: &[bool; 16], second: &[bool; 16]) -> bool
    ensures { OnFalse result (first.now ≡ second.now) }
{
    let mut differs = false;
    for place in 0..16 {
        if first[place] != second[place] {
            differs = true;
        }
    }
    differs
}
