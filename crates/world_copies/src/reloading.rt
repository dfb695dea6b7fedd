ghost use Rattle.std.specs.Prelude.{◌≡◌, ◌<◌, false, is_some, length, map, slice_get, slice_set};
ghost use Rattle.std.specs.Prelude.{IfOk, IsTrue, OnErr, OnOk};
ghost use Rattle.process_copies.specs.computed_changes.specs.Stopped.{reload_counted, reload_done, reload_if};
ghost use Rattle.process_copies.specs.computed_changes.specs.Stopped.{reloaded_world};
ghost use Rattle.process_copies.specs.message_wires.specs.HasRoom.{WorldHasRoom};
ghost use Rattle.process_copies.specs.Reloading.{blanks_of, placed_reloaded};
ghost use Rattle.process_copies.specs.Starting.{IsStartable};
ghost use Rattle.world_semantics.specs.Rules.{most_reloads, reloaded_from, without_downs};
ghost use Rattle.world_semantics.specs.World.{is_marked_by_all, marked_from};
ghost use Rattle.world_copies.specs.Room.{AllHaveRoom};
ghost use Rattle.world_copies.specs.Seen.{ArePlaced, pairs_in};
ghost use Rattle.world_copies.specs.SiteWorld.{changed_by};

use crate::copies::WorldCopies;
use gd_words::NoMemory;
use gd_words::limits::MOST_RELOADS;
use process_copies::{BlankCopies, Downs, ProcessCopies, TERMINAL_NODE};
use std::alloc::Global;
use tal_tree::Site;

impl WorldCopies {
    /// A processor that has stopped is loaded again, if each node that runs has marked it and it wasn't loaded too
    /// often. Answers whether it was. An error changes nothing.
    pub fn reload(&mut self, processor: u8) -> Result<bool, NoMemory>
        requires { WorldHasRoom self.old.world }
        ensures told { IfOk result (λ done. done ≡ is_some (reload_done self.old.site processor self.old.world)) }
        ensures state { OnOk result (self.new
            ≡ changed_by self.old (reload_done self.old.site processor self.old.world)) }
        ensures err { OnErr result (self.new ≡ self.old) }
    {
        match self.stopped_at(processor) {
            None | Some(false) => Ok(false),
            Some(true) => {
                let times = self.times_loaded(processor);
                let done = self.reload_counted(processor, times)?;
                Ok(done)
            }
        }
    }

    /// How often a processor was loaded again, if it is there.
    fn times_loaded(&self, processor: u8) -> Option<u8>
        ensures { result ≡ slice_get self.now.world.reloads processor }
    {
        self.reloads.get(processor)
    }

    /// Loads a processor again that has stopped, and answers whether it did. `times` is how often it was loaded again
    /// before, if there is such a processor.
    fn reload_counted(&mut self, processor: u8, times: Option<u8>) -> Result<bool, NoMemory>
        requires { WorldHasRoom self.old.world }
        ensures told { IfOk result (λ done. done
            ≡ is_some (reload_counted self.old.site processor self.old.world times)) }
        ensures state { OnOk result (self.new
            ≡ changed_by self.old (reload_counted self.old.site processor self.old.world times)) }
        ensures err { OnErr result (self.new ≡ self.old) }
    {
        match times {
            None => Ok(false),
            Some(times) => {
                let free = self.is_marked_by_all(processor) && times < MOST_RELOADS;
                let done = self.reload_if(processor, times, free)?;
                Ok(done)
            }
        }
    }

    /// The same, if the processor is free for that.
    fn reload_if(&mut self, processor: u8, times: u8, free: bool) -> Result<bool, NoMemory>
        requires room { WorldHasRoom self.old.world }
        requires few { IsTrue free → times < most_reloads }
        ensures told { IfOk result (λ done. done
            ≡ is_some (reload_if self.old.site processor times self.old.world free)) }
        ensures state { OnOk result (self.new
            ≡ changed_by self.old (reload_if self.old.site processor times self.old.world free)) }
        ensures err { OnErr result (self.new ≡ self.old) }
    {
        if !free {
            return Ok(false);
        }
        self.load(processor, times)?;
        Ok(true)
    }

    /// A processor is loaded again.
    fn load(&mut self, processor: u8, times: u8) -> Result<(), NoMemory>
        requires room { WorldHasRoom self.old.world }
        requires few { times < most_reloads }
        ensures state { OnOk result (self.new ≡ record self.old
            { world = reloaded_world self.old.site processor times self.old.world }) }
        ensures err { OnErr result (self.new ≡ self.old) }
    {
        self.reload_processes(processor)?;
        self.note_reload(processor, times + 1);
        Ok(())
    }

    /// Each process gets its blank copies in a processor that is loaded again. All memory that this takes is taken
    /// first.
    fn reload_processes(&mut self, processor: u8) -> Result<(), NoMemory>
        requires { WorldHasRoom self.old.world }
        ensures state { OnOk result (self.new ≡ record self.old {
          world = record self.old.world
              { processes = reloaded_from self.old.site processor 0 self.old.world.processes };
        }) }
        ensures err { OnErr result (self.new ≡ self.old) }
    {
        let processes = self.processes.as_slice();
        let blanks = all_blanks(self.alloc, self.site.get(), processes, processor)?;
        reload_all(self.processes.as_mut_slice(), processor, blanks);
        Ok(())
    }

    /// A processor runs again, is marked by no node, and was loaded again so often.
    fn note_reload(&mut self, processor: u8, times: u8)
        ensures { self.new ≡ record self.old {
          world = record self.old.world {
            stopped = slice_set self.old.world.stopped processor false;
            reloads = slice_set self.old.world.reloads processor times;
            downs = without_downs processor self.old.world.downs;
          };
        } }
    {
        self.stopped.reload(processor);
        self.reloads.set(processor, times);
        self.downs.remove(processor);
    }

    /// Whether each node that runs has marked a processor.
    fn is_marked_by_all(&self, processor: u8) -> bool
        ensures { result ≡ is_marked_by_all self.now.world processor }
    {
        have_marked(&self.downs, processor, self.stopped.as_slice())
            && (!self.is_running(TERMINAL_NODE) || self.downs.has(TERMINAL_NODE, processor))
    }
}

/// Whether each of these processors that runs has marked a processor.
fn have_marked(downs: &Downs, processor: u8, stopped: &[bool]) -> bool
    ensures { result ≡ marked_from downs.now processor 0 stopped.now }
{
    let down = usize::from(processor);
    for (node, has_stopped) in stopped.iter().enumerate() {
        if !*has_stopped && !downs.has_at(node, down) {
            return false;
        }
    }
    true
}

/// The blank copies that each of these processes gets when a processor is loaded again.
fn all_blanks(
    alloc: Global,
    site: &Site,
    processes: &[ProcessCopies],
    processor: u8,
) -> Result<Vec<BlankCopies>, NoMemory>
    requires startable { IsStartable site.now }
    requires placed { ArePlaced site.now processes.now }
    requires count { length processes.now ≡ length site.now.processes }
    requires room { AllHaveRoom (pairs_in processes.now) }
    ensures { IfOk result (λ all. all.items ≡ map (blanks_of processor) processes.now) }
{
    let mut all = Vec::new(alloc);
    for process in processes {
        let blanks = process.blanks(alloc, site, processor)?;
        all.push(blanks)?;
    }
    Ok(all)
}

/// A processor is loaded again: each of these processes gets its blank copies there.
fn reload_all(processes: &mut [ProcessCopies], processor: u8, blanks: Vec<BlankCopies>)
    requires blanks { blanks.items ≡ map (blanks_of processor) processes.old }
    requires room { AllHaveRoom (pairs_in processes.old) }
    ensures { processes.new ≡ map (placed_reloaded processor) processes.old }
{
    let mut blanks = blanks;
    while let Some(last) = blanks.pop() {
        let number = blanks.len();
        processes[number].reload(processor, last);
    }
}
