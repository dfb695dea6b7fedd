ghost use Rattle.std.specs.Prelude.{◌≡◌, ◌<◌, ◌+◌, ◌^◌, reverse, IfOk, OnOk, OnErr};
ghost use Rattle.gd_words.specs.Ranges.{HasNextLong};
ghost use Rattle.world_semantics.specs.Shares.{share_at_close, covered_count, share_after_cover, share_after_act};
ghost use Rattle.world_semantics.specs.Shares.{share_without_held, share_after_pass, share_from};

use crate::kept::KeptActs;
use gd_words::NoMemory;
use logs::Log;
use std::alloc::Global;
use std::marker::Model;
use tal_tree::Act;
use world_semantics::Point;

/// What a copy has to do with the kept acts: its position, which is how many of its process's kept acts it has done,
/// and the acts that it did beyond them and holds back.
#[derive(Drop)]
pub struct CopyShare {
    position: u64,
    held: Log<Act>,
}

impl Model for CopyShare {
    ghost use Rattle.std.specs.Coded.{codes};
    ghost use Rattle.world_semantics.specs.Shares.{Share};

    ghost Value = { Share };

    ghost coded = { Prim.hlevel codes };

    ghost view = { λ share. record { position = share.position; held = share.held } };
}

impl CopyShare {
    /// The share of a copy that has done nothing.
    pub fn new(alloc: Global) -> CopyShare
        ensures { result ≡ share_from 0 }
    {
        CopyShare {
            position: 0,
            held: Log::new(alloc),
        }
    }

    /// How many of its process's kept acts the copy has done.
    pub fn position(&self) -> u64
        ensures { result ≡ self.now.position }
    {
        self.position
    }

    /// The acts that the copy holds, the oldest first.
    pub fn held(&self) -> &[Act]
        ensures { result.now ≡ reverse self.now.held }
    {
        self.held.as_slice()
    }

    /// An act of a copy of the process enters the kept acts, or is held, or was kept already. The copy's position has a
    /// number after it.
    pub fn enter(&mut self, process: u8, done: Act, kept: &mut KeptActs) -> Result<(), NoMemory>
        requires { HasNextLong self.old.position }
        ensures share { OnOk result (self.new ≡ (share_after_act process done kept.old self.old).share) }
        ensures kept { OnOk result (kept.new ≡ (share_after_act process done kept.old self.old).kept) }
        ensures err { OnErr result ((self.new ≡ self.old) × (kept.new ≡ kept.old)) }
    {
        if !self.held.is_empty() {
            self.held.add(done)?;
            return Ok(());
        }
        if self.position < kept.length_of(process) {
            self.position += 1;
            return Ok(());
        }
        match done {
            Act::Take {
                process: _,
                opener: _,
            } => {
                self.held.add(done)?;
                Ok(())
            }
            _ => {
                kept.keep(done)?;
                self.position += 1;
                Ok(())
            }
        }
    }

    /// A copy of the process passes its checkpoint: which it did already, or which is kept now, with its held acts
    /// before it.
    pub fn pass(&mut self, process: u8, kept: &mut KeptActs) -> Result<(), NoMemory>
        ensures share { OnOk result (self.new ≡ (share_after_pass process kept.old self.old).share) }
        ensures kept { OnOk result (kept.new ≡ (share_after_pass process kept.old self.old).kept) }
        ensures err { OnErr result ((self.new ≡ self.old) × (kept.new ≡ kept.old)) }
    {
        if self.position < kept.length_of(process) {
            self.position += 1;
            return Ok(());
        }
        kept.keep_with_checkpoint(process, &self.held)?;
        self.held.clear();
        self.position = kept.length_of(process);
        Ok(())
    }

    /// The other copy of the process applied this copy's checkpoint, which stands at this point. Answers the base: how
    /// many kept acts of the process the checkpoint covers.
    pub fn cover(
        &mut self,
        process: u8,
        stands: Point,
        kept: &mut KeptActs,
    ) -> Result<u64, NoMemory>
        ensures base { IfOk result (λ base. base ≡ covered_count process stands kept.old self.old) }
        ensures share { OnOk result (self.new ≡ (share_after_cover process stands kept.old self.old).share) }
        ensures kept { OnOk result (kept.new ≡ (share_after_cover process stands kept.old self.old).kept) }
        ensures err { OnErr result ((self.new ≡ self.old) × (kept.new ≡ kept.old)) }
    {
        if self.position < kept.length_of(process) {
            return match stands {
                Point::AtCheckpoint => Ok(self.position + 1),
                Point::Inner
                | Point::Take
                | Point::Ask
                | Point::Await
                | Point::Answer
                | Point::Device
                | Point::Ended => Ok(self.position),
            };
        }
        match stands {
            Point::AtCheckpoint => {
                kept.keep_with_checkpoint(process, &self.held)?;
                self.held.clear();
                let base = kept.length_of(process);
                self.position = base - 1;
                Ok(base)
            }
            Point::Inner
            | Point::Take
            | Point::Ask
            | Point::Await
            | Point::Answer
            | Point::Device
            | Point::Ended => {
                kept.keep_all(&self.held)?;
                self.held.clear();
                let base = kept.length_of(process);
                self.position = base;
                Ok(base)
            }
        }
    }

    /// The copy took over: it goes on from the base, and holds nothing.
    pub fn take_over(&mut self, base: u64)
        ensures { self.new ≡ share_from base }
    {
        self.position = base;
        self.held.clear();
    }

    /// The copy was lost, and the other one took over: what it held is dropped.
    pub fn let_go(&mut self)
        ensures { self.new ≡ share_without_held self.old }
    {
        self.held.clear();
    }

    /// The run is closed: what the copy still holds is kept.
    pub fn close(&mut self, kept: &mut KeptActs) -> Result<(), NoMemory>
        ensures share { OnOk result (self.new ≡ (share_at_close kept.old self.old).share) }
        ensures kept { OnOk result (kept.new ≡ (share_at_close kept.old self.old).kept) }
        ensures err { OnErr result ((self.new ≡ self.old) × (kept.new ≡ kept.old)) }
    {
        kept.keep_all(&self.held)?;
        self.held.clear();
        Ok(())
    }
}
