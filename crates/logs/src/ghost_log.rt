ghost use Rattle.std.specs.Prelude.{◌≡◌, [], ◌∷◌, OnOk, OnErr};

use crate::log::Log;
use gd_words::NoMemory;
use std::alloc::Global;
use std::marker::Model;
use std::snapshot::Snapshot;

/// What happened, item by item, the newest first. The items are there for contracts alone: each is a value without
/// bytes, and only how many they are is kept.
#[derive(Drop)]
pub struct GhostLog<T> {
    items: Log<Snapshot<T>>,
}

impl<T> Model for GhostLog<T> {
    ghost use Rattle.std.specs.Coded.{coded_list};
    ghost use Rattle.std.specs.Prelude.{List, map};

    ghost Value = { List T };

    ghost coded = { coded_list T.code };

    ghost view = { λ log. map (λ item. item.value) log.items };
}

impl<T> GhostLog<T> {
    /// Nothing happened.
    pub fn new(alloc: Global) -> GhostLog<T>
        ensures { result ≡ [] }
    {
        GhostLog {
            items: Log::new(alloc),
        }
    }

    /// One more item, before all others.
    pub fn add(&mut self, item: &T) -> Result<(), NoMemory>
        ensures ok { OnOk result (self.new ≡ item.now ∷ self.old) }
        ensures err { OnErr result (self.new ≡ self.old) }
    {
        self.items.add(Snapshot::of(item))?;
        Ok(())
    }
}
