ghost use Rattle.std.specs.Prelude.{◌≡◌, ◌==◌, ◌&&◌, [], ◌∷◌, OnOk};
ghost use Rattle.kept_acts.specs.world_semantics.specs.Rules.{without_downs};
ghost use Rattle.kept_acts.specs.world_semantics.specs.World.{has_marked};

use gd_words::NoMemory;
use std::alloc::Global;
use std::marker::Model;

/// A node has marked a processor as stopped.
#[derive(Clone, Copy, PartialEq, Eq)]
pub struct MarkedDown {
    node: u8,
    down: u8,
}

impl Model for MarkedDown {
    ghost use Rattle.kept_acts.specs.world_semantics.specs.World as world;

    ghost Value = { world.Down };

    ghost view = { λ mark. record { node = mark.node; down = mark.down } };

    ghost inverse = { λ mark. record { node = mark.node; down = mark.down } };
}

impl MarkedDown {
    fn is(&self, node: usize, down: usize) -> bool
        ensures { result ≡ ((self.now.node == node) && (self.now.down == down)) }
    {
        usize::from(self.node) == node && usize::from(self.down) == down
    }
}

/// The marks of all nodes, the newest first: of one processor, at most as many as nodes.
#[derive(Drop)]
pub struct Downs {
    items: Vec<MarkedDown>,
}

impl Model for Downs {
    ghost use Rattle.std.specs.Prelude.{List};
    ghost use Rattle.kept_acts.specs.world_semantics.specs.World as world;

    ghost Value = { List world.Down };

    ghost view = { λ downs. downs.items.items };
}

impl Downs {
    /// No node has marked any processor.
    pub fn new(alloc: Global) -> Downs
        ensures { result ≡ [] }
    {
        Downs {
            items: Vec::new(alloc),
        }
    }

    /// Whether a node has marked a processor.
    pub fn has(&self, node: u8, down: u8) -> bool
        ensures { result ≡ has_marked self.now node down }
    {
        self.has_at(usize::from(node), usize::from(down))
    }

    /// Whether the node at a place has marked the processor at a place.
    pub fn has_at(&self, node: usize, down: usize) -> bool
        ensures { result ≡ has_marked self.now node down }
    {
        has_marked(self.items.as_slice(), node, down)
    }

    /// A node marks a processor.
    pub fn add(&mut self, node: u8, down: u8) -> Result<(), NoMemory>
        ensures { OnOk result (self.new ≡ record { node = node; down = down } ∷ self.old) }
    {
        self.items.insert(0, MarkedDown { node, down })?;
        Ok(())
    }

    /// A processor is loaded again: no node has marked it any more.
    pub fn remove(&mut self, down: u8)
        ensures { self.new ≡ without_downs down self.old }
    {
        self.items.retain(|mark| mark.down != down);
    }
}

fn has_marked(downs: &[MarkedDown], node: usize, down: usize) -> bool
    ensures { result ≡ has_marked downs.now node down }
{
    downs.iter().any(|mark| mark.is(node, down))
}
