ghost use Rattle.std.specs.Prelude.{◌≡◌, OnOk};
ghost use Rattle.world_copies.specs.Closed.{closed_world};
ghost use Rattle.world_copies.specs.Closing.{closed_at};

use crate::copies::WorldCopies;
use gd_words::NoMemory;

impl WorldCopies {
    /// The run is closed: what copies still hold is kept, in the order of the deck.
    pub fn close(&mut self) -> Result<(), NoMemory>
        ensures { OnOk result (self.new ≡ record self.old { world = closed_world self.old.world }) }
    {
        for place in 0..self.process_count() {
            self.close_process(place)?;
        }
        Ok(())
    }

    /// The process at a place is closed.
    fn close_process(&mut self, place: usize) -> Result<(), NoMemory>
        ensures { OnOk result (self.new ≡ record self.old { world = closed_at place self.old.world }) }
    {
        if place >= self.processes.len() {
            return Ok(());
        }
        self.processes[place].close(&mut self.records)?;
        Ok(())
    }
}
