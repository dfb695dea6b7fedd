ghost use Rattle.std.specs.Prelude.{◌≡◌, [], length, IfOk, OnOk};
ghost use Rattle.tal_names.specs.Names.{meaning_in, is_declared, with_name};

use crate::meaning::Meaning;
use std::alloc::Global;
use std::collections::BTreeMap;
use std::collections::btree_map::Entry;
use std::marker::Model;
use tal_syntax::{Ident, List, NoMemory};

/// Names and what each is declared as, in the order of the declarations. The first declaration of a name counts.
///
/// A name is found by its order among the names, so no choice of names makes that slow.
#[derive(Drop)]
pub struct Names {
    places: BTreeMap<Ident, usize>,
    declared: List<(Ident, Meaning)>,
}

impl Model for Names {
    ghost use Rattle.std.specs.Prelude.{◌≡◌, List, ℕ};
    ghost use Rattle.std.specs.BTreeMap.{get};
    ghost use Rattle.tal_syntax.specs.gd_words.specs.IdentOrder.{ident_cmp};
    ghost use Rattle.tal_names.specs.declared.meaning.Meaning.{Meaning};
    ghost use Rattle.tal_names.specs.Found.{place_in};

    ghost Value = { List (List ℕ × Meaning) };

    ghost view = { λ names. names.declared };

    ghost invariant = { λ names. (name : List ℕ) → get ident_cmp names.places name ≡ place_in name names.declared };
}

impl Names {
    /// No names.
    pub fn new(alloc: Global) -> Names
        ensures { result ≡ [] }
    {
        Names {
            places: BTreeMap::new(alloc),
            declared: List::new(alloc),
        }
    }

    /// What the name is declared as.
    pub fn meaning(&self, name: Ident) -> Option<Meaning>
        ensures { result ≡ meaning_in name self.now }
    {
        let place = self.places.get(&name)?;
        let (_, meaning) = self.declared.get(*place)?;
        Some(*meaning)
    }

    /// Whether the name is declared.
    pub fn is_declared(&self, name: Ident) -> bool
        ensures { result ≡ is_declared name self.now }
    {
        self.places.contains_key(&name)
    }

    /// How many names there are.
    pub fn len(&self) -> usize
        ensures { result ≡ length self.now }
    {
        self.declared.len()
    }

    /// Declares the name, where it isn't declared, and tells whether it was.
    pub fn declare(&mut self, name: Ident, meaning: Meaning) -> Result<bool, NoMemory>
        ensures ok { OnOk result (self.new ≡ with_name self.old name meaning) }
        ensures before { IfOk result (λ before. before ≡ is_declared name self.old) }
    {
        let place = self.declared.len();
        match self.places.entry(name)? {
            Entry::Occupied(_) => Ok(true),
            Entry::Vacant(vacant) => {
                self.declared.push((name, meaning))?;
                vacant.insert(place);
                Ok(false)
            }
        }
    }
}
