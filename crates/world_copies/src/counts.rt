ghost use Rattle.std.specs.Prelude.{◌≡◌, replicate, slice_get, slice_set, IfOk};

use gd_words::NoMemory;
use std::alloc::Global;
use std::marker::Model;

/// How often each processor was loaded again.
#[derive(Drop)]
pub struct ReloadCounts {
    counts: Vec<u8>,
}

impl Model for ReloadCounts {
    ghost use Rattle.std.specs.Prelude.{ℕ, List};

    ghost Value = { List ℕ };

    ghost view = { λ all. all.counts.items };
}

impl ReloadCounts {
    /// So many processors, of which none was loaded again.
    pub fn new(alloc: Global, processors: u8) -> Result<ReloadCounts, NoMemory>
        ensures { IfOk result (λ all. all ≡ replicate processors 0) }
    {
        let counts = vec![in alloc; 0; usize::from(processors)]?;
        Ok(ReloadCounts { counts })
    }

    pub fn as_slice(&self) -> &[u8]
        ensures { result.now ≡ self.now }
    {
        self.counts.as_slice()
    }

    /// How often a processor was loaded again, if it is there.
    pub fn get(&self, processor: u8) -> Option<u8>
        ensures { result ≡ slice_get self.now processor }
    {
        self.counts.get(usize::from(processor)).copied()
    }

    /// A processor was loaded again so often now, if it is there.
    pub fn set(&mut self, processor: u8, times: u8)
        ensures { self.new ≡ slice_set self.old processor times }
    {
        let place = usize::from(processor);
        if place < self.counts.len() {
            self.counts[place] = times;
        }
    }
}
