ghost use Rattle.std.specs.Prelude.{◌≡◌, false};
ghost use Rattle.process_semantics.specs.tal_tree.specs.declared.site.Kind.TheVariants.{Disc};
ghost use Rattle.process_semantics.specs.Process.{start_of};
ghost use Rattle.checkpoint_image.specs.Behaving.{last_write_of};

use crate::image::{disc_in, disc_words};
use crate::progress::Progress;
use checkpoint_image::{Behaviour, Listed};
use gd_words::{DeviceCall, List, NoMemory, Sector, Words};
use process_semantics::{Asked, Point};
use std::alloc::Global;
use std::marker::Model;

/// A disc process on a disc of so many sectors.
#[derive(Drop)]
pub struct DiscProcess {
    sectors: u8,
    progress: Progress,
    listed: Listed,
}

impl Model for DiscProcess {
    ghost use Rattle.std.specs.Prelude.{◌≡◌, []};
    ghost use Rattle.disc_process.specs.Serving.{Serving};

    ghost Value = { Serving };

    ghost view = { λ process. record { sectors = process.sectors; disc = process.progress } };

    ghost invariant = { λ process. (process.listed.items ≡ []) × (process.listed.files ≡ []) };
}

impl DiscProcess {
    /// A disc at its beginning.
    pub fn new(alloc: Global, sectors: u8) -> DiscProcess
        ensures { ⟦<DiscProcess as Behaviour>⟧.state result ≡ start_of (Disc sectors false) }
    {
        DiscProcess {
            sectors,
            progress: Progress::start(),
            listed: Listed {
                items: List::new(alloc),
                files: List::new(alloc),
            },
        }
    }

    /// The number of its last write.
    pub fn last_write(&self) -> u32
        ensures { result ≡ last_write_of (⟦<DiscProcess as Behaviour>⟧.state self.now) }
    {
        self.progress.last_write()
    }
}

impl Behaviour for DiscProcess {
    ghost use Rattle.process_semantics.specs.Process.{Serves};

    ghost state = { λ process. Serves process.sectors process.disc };

    fn at(&self) -> Point {
        self.progress.point()
    }

    fn in_hand(&self) -> bool {
        self.progress.request().is_some()
    }

    fn inner(&mut self) {
        self.progress.stands_at_no_other_point();
        unreachable!()
    }

    fn took(&mut self, words: &Words) {
        self.progress.took(words);
    }

    fn asked(&mut self) -> Asked {
        self.progress.stands_at_no_other_point();
        unreachable!()
    }

    fn got(&mut self, _words: &Words) {
        self.progress.stands_at_no_other_point();
        unreachable!()
    }

    fn answered(&mut self) -> Words {
        self.progress.answered()
    }

    fn device(&self) -> DeviceCall {
        self.progress.call(self.sectors)
    }

    fn device_done(&mut self, found: &Sector) {
        self.progress.done(self.sectors, found);
    }

    fn listed(&self) -> &Listed {
        &self.listed
    }

    fn everything(&self) -> &Listed {
        &self.listed
    }

    fn checkpointed(&mut self) {
        self.progress.checkpointed();
    }

    fn image(&self, alloc: Global, _listed: &Listed) -> Result<List<i16>, NoMemory> {
        disc_words(alloc, &self.progress)
    }

    fn apply(&mut self, words: &[i16], in_hand: bool) -> bool {
        match disc_in(words, in_hand) {
            None => false,
            Some(progress) => {
                self.progress = progress;
                true
            }
        }
    }
}
