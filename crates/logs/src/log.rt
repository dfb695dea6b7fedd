ghost use Rattle.std.specs.Prelude.{◌≡◌, ◌↔◌, [], ◌∷◌, ◌++◌, length, reverse, IsTrue, OnOk, OnErr};

use gd_words::NoMemory;
use std::alloc::Global;
use std::marker::Model;

/// What happened, item by item: a list that grows at its front, so that contracts see the newest item first.
#[derive(Drop)]
pub struct Log<T> {
    items: Vec<T>,
}

impl<T> Model for Log<T> {
    ghost use Rattle.std.specs.Coded.{coded_list};
    ghost use Rattle.std.specs.Prelude.{List, reverse};

    ghost Value = { List T };

    ghost coded = { coded_list T.code };

    ghost view = { λ log. reverse log.items.items };
}

impl<T> Log<T> {
    /// Nothing happened. The allocator is kept for later items.
    pub fn new(alloc: Global) -> Log<T>
        ensures { result ≡ [] }
    {
        Log {
            items: Vec::new(alloc),
        }
    }

    /// How many items there are.
    pub fn len(&self) -> usize
        ensures { result ≡ length self.now }
    {
        self.items.len()
    }

    /// Whether there is no item.
    pub fn is_empty(&self) -> bool
        ensures { IsTrue result ↔ (self.now ≡ []) }
    {
        self.items.is_empty()
    }

    /// All items, the oldest first.
    pub fn as_slice(&self) -> &[T]
        ensures { result.now ≡ reverse self.now }
    {
        self.items.as_slice()
    }
}

impl<T: Drop> Log<T> {
    /// One more item, before all others.
    pub fn add(&mut self, item: T) -> Result<(), NoMemory>
        ensures ok { OnOk result (self.new ≡ item ∷ self.old) }
        ensures err { OnErr result (self.new ≡ self.old) }
    {
        self.items.push(item)?;
        Ok(())
    }

    /// Lets go of all items.
    pub fn clear(&mut self)
        ensures { self.new ≡ [] }
    {
        self.items.clear();
    }
}

impl<T: Copy> Log<T> {
    /// All items of another log, in their order, before those that were there.
    pub fn add_all(&mut self, items: &Log<T>) -> Result<(), NoMemory>
        ensures ok { OnOk result (self.new ≡ items.now ++ self.old) }
        ensures err { OnErr result (self.new ≡ self.old) }
    {
        self.items.extend_from_slice(items.as_slice())?;
        Ok(())
    }

    /// All items of another log, and then one more. Where memory is wanting none of them is there.
    pub fn add_all_and(&mut self, items: &Log<T>, last: T) -> Result<(), NoMemory>
        ensures ok { OnOk result (self.new ≡ last ∷ (items.now ++ self.old)) }
        ensures err { OnErr result (self.new ≡ self.old) }
    {
        let before = self.items.len();
        self.items.extend_from_slice(items.as_slice())?;
        if let Err(error) = self.items.reserve(1) {
            self.items.truncate(before);
            return Err(NoMemory::from(error));
        }
        self.items.push_reserved(last);
        Ok(())
    }
}
