ghost use Rattle.std.specs.Prelude.{◌≡◌, ◌<◌, [], ◌∷◌, ◌++◌, false, length, slice_get, IfSome, OnErr, OnOk};
ghost use Rattle.std.specs.Option.{option_copied, option_map};
ghost use Rattle.name_table.specs.Entries.{has_name, place_of};

use gd_words::{Name, NoMemory};
use indexmap::IndexMap;
use indexmap::map::{IntoIter, Iter};
use std::alloc::Global;
use std::marker::Model;

/// Names, each once, in the order in which they came, and what stands under each.
#[derive(Drop)]
pub struct NameTable<T> {
    entries: IndexMap<Name, T>,
}

impl<T> Model for NameTable<T> {
    ghost use Rattle.std.specs.Prelude.{List};
    ghost use Rattle.name_table.specs.Entries.{Named};

    ghost Value = { List (Named T) };

    ghost view = { λ table. table.entries.entries };
}

impl<T> NameTable<T> {
    /// No names.
    pub fn new(alloc: Global) -> NameTable<T>
        ensures { result ≡ [] }
    {
        NameTable {
            entries: IndexMap::new(alloc),
        }
    }

    /// How many names there are.
    pub fn len(&self) -> usize
        ensures { result ≡ length self.now }
    {
        self.entries.len()
    }

    /// Whether the name is there.
    pub fn contains(&self, name: &Name) -> bool
        ensures { result ≡ has_name self.now name.now }
    {
        self.entries.contains_key(name)
    }

    /// What stands at a place.
    pub fn at(&self, place: usize) -> Option<&T>
        ensures { option_copied result ≡ option_map (λ entry. entry.1) (slice_get self.now place) }
    {
        let (_name, value) = self.entries.get_index(place)?;
        Some(value)
    }

    /// Where the name stands.
    pub fn place_of(&self, name: &Name) -> Option<usize>
        ensures value { result ≡ place_of self.now name.now }
        ensures there { IfSome result (λ place. place < length self.now) }
    {
        self.entries.get_index_of(name)
    }

    /// The names with what stands under them, in order.
    pub fn iter(&self) -> Iter<'_, Name, T>
        ensures { result ≡ self.now }
    {
        self.entries.iter()
    }
}

impl<T: Drop> NameTable<T> {
    /// Puts a new name after the last.
    pub fn push(&mut self, name: Name, value: T) -> Result<(), NoMemory>
        requires new { has_name self.old name ≡ false }
        ensures ok { OnOk result (self.new ≡ self.old ++ (name, value) ∷ []) }
        ensures err { OnErr result (self.new ≡ self.old) }
    {
        self.entries.insert(name, value)?;
        Ok(())
    }

    /// The names with what stands under them, in order, by value.
    pub fn into_entries(self) -> IntoIter<Name, T>
        ensures { result ≡ self }
    {
        let NameTable { entries } = self;
        entries.into_iter()
    }
}
