ghost use Rattle.std.specs.Prelude.{◌≡◌, ◌<◌, ◌||◌, ◌&&◌, ℕ, true, false, IsTrue};
ghost use Rattle.std.specs.Bool.{OnTrue};
ghost use Rattle.gd_words.specs.Members.{is_among};
ghost use Rattle.tal_tree.specs.declared.statement.What.{out-What};
ghost use Rattle.path_semantics.specs.process_semantics.specs.SeenEntries.{entry_of};
ghost use Rattle.path_semantics.specs.Dues.{changed_by, asked_by, global_of_spot, global_of};
ghost use Rattle.path_semantics.specs.declared.reason.Reason.{Reason};
ghost use Rattle.path_semantics.specs.Break.{omits_item, omits_file, may_break};
ghost use Rattle.reason_dues.specs.Amounts.{adds, adds_changed, may_break_at};
ghost use Rattle.path_semantics.specs.declared.reason.Reason.TheVariants.{Data, SyncBlock, Input, Depth};
ghost use Rattle.reason_dues.specs.Sets.{has_number, AreNumbers, AreReasons, IsNear, has_reason, due_after};

use crate::amount::reads;
use crate::number_set::Numbers;
use path_semantics::{Entry, Reason, sends};
use tal_tree::{Spot, Variable, What};

/// A set of reasons that speak of globals and files below 64: at a node those of which something may be due there.
#[derive(Clone, Copy)]
pub struct Reasons {
    pub data: Numbers,
    pub sync: Numbers,
    pub input: bool,
    pub depth: Numbers,
}

impl Reasons {
    /// No reason.
    pub fn none() -> Reasons
        ensures { (reason : Reason) → has_reason result reason ≡ false }
    {
        let none = Numbers::none();
        Reasons {
            data: none,
            sync: none,
            input: false,
            depth: none,
        }
    }

    /// All of them.
    pub fn all() -> Reasons
        ensures { AreReasons result (λ reason. true) }
    {
        let all = Numbers::all();
        Reasons {
            data: all,
            sync: all,
            input: true,
            depth: all,
        }
    }

    /// Whether a reason is among them.
    pub fn has(self, reason: Reason) -> bool
        requires { IsNear reason }
        ensures { result ≡ has_reason self reason }
    {
        match reason {
            Reason::Data(item) => self.data.has(item),
            Reason::SyncBlock(file) => self.sync.has(u16::from(file)),
            Reason::Input => self.input,
            Reason::Depth(file) => self.depth.has(u16::from(file)),
        }
    }

    /// The reasons of either set.
    #[inline(always)]
    pub fn or(self, other: Reasons) -> Reasons
        ensures { (reason : Reason) → has_reason result reason ≡ (has_reason self reason || has_reason other reason) }
    {
        Reasons {
            data: self.data.or(other.data),
            sync: self.sync.or(other.sync),
            input: self.input | other.input,
            depth: self.depth.or(other.depth),
        }
    }

    /// The reasons of both sets.
    #[inline(always)]
    pub fn and(self, other: Reasons) -> Reasons
        ensures { (reason : Reason) → has_reason result reason ≡ (has_reason self reason && has_reason other reason) }
    {
        Reasons {
            data: self.data.and(other.data),
            sync: self.sync.and(other.sync),
            input: self.input & other.input,
            depth: self.depth.and(other.depth),
        }
    }

    /// Whether all are among others.
    #[inline(always)]
    pub fn are_among(self, others: Reasons) -> bool
        ensures { OnTrue result ((reason : Reason) → IsTrue (has_reason self reason)
            → IsTrue (has_reason others reason)) }
    {
        let input = !self.input | others.input;
        let data = self.data.are_among(others.data);
        let sync = self.sync.are_among(others.sync);
        let depth = self.depth.are_among(others.depth);
        input & data & sync & depth
    }

    /// Those of which something may be due after an entry, where it may be of these before.
    #[inline(always)]
    pub fn after(self, entry: Entry<'_>) -> Reasons
        ensures { AreReasons result (λ reason. due_after reason (entry_of entry.entry) (has_reason self reason)) }
    {
        match entry {
            Entry::Run(statement) => match &statement.what {
                What::Checkpoint { items: _, files: _ } => Reasons::none(),
                _ => Reasons::added(&statement.what).or(self),
            },
            Entry::Test(_) => self,
            Entry::Last(statement) => Reasons::of_data(changed(&statement.what)).or(self),
        }
    }

    /// The same after a change of these globals.
    #[inline(always)]
    pub fn after_change(self, globals: &[u16]) -> Reasons
        ensures { AreReasons result (λ reason. adds_changed reason globals.now || has_reason self reason) }
    {
        Reasons::of_data(Numbers::of_items(globals)).or(self)
    }

    /// The reasons that speak of these globals' data.
    fn of_data(changed: Numbers) -> Reasons
        ensures data { (n : ℕ) → has_reason result (Data n) ≡ has_number changed n }
        ensures sync { (n : ℕ) → has_reason result (SyncBlock n) ≡ false }
        ensures input { has_reason result Input ≡ false }
        ensures depth { (n : ℕ) → has_reason result (Depth n) ≡ false }
    {
        let none = Numbers::none();
        Reasons {
            data: changed,
            sync: none,
            input: false,
            depth: none,
        }
    }

    /// The reasons to whose dues a statement adds.
    fn added(what: &What) -> Reasons
        ensures { AreReasons result (λ reason. adds reason (out-What what.now)) }
    {
        let asked = asked(what);
        Reasons {
            data: changed(what),
            sync: asked,
            input: reads(what),
            depth: asked,
        }
    }

    /// The reasons for which an entry breaks where something is due, or enough.
    pub fn broken_by(entry: Entry<'_>) -> Reasons
        ensures { AreReasons result (λ reason. may_break_at reason (entry_of entry.entry)) }
    {
        match entry {
            Entry::Run(statement) => Reasons::broken(&statement.what),
            _ => Reasons::none(),
        }
    }

    fn broken(what: &What) -> Reasons
        ensures { AreReasons result (λ reason. may_break reason (out-What what.now)) }
    {
        Reasons {
            data: omitted_items(what),
            sync: omitted_files(what),
            input: sends(what),
            depth: asked(what),
        }
    }
}

/// The globals that a statement may change.
fn changed(what: &What) -> Numbers
    ensures { AreNumbers result (λ n. is_among n (changed_by (out-What what.now))) }
{
    match what {
        What::Assign { to, value: _ } => spot_global(to),
        What::For {
            variable,
            from: _,
            to: _,
            down: _,
            step: _,
            body: _,
            last: _,
        } => variable_global(*variable),
        What::ReadUpdate {
            buffer,
            most: _,
            got,
        } => variable_global(*got).with(*buffer),
        What::WriteRead {
            file: _,
            buffer,
            send: _,
            room: _,
            got,
        } => variable_global(*got).with(*buffer),
        _ => Numbers::none(),
    }
}

fn spot_global(spot: &Spot) -> Numbers
    ensures { AreNumbers result (λ n. is_among n (global_of_spot spot.now)) }
{
    match spot {
        Spot::Local(_) => Numbers::none(),
        Spot::Simple(item) => Numbers::none().with(*item),
        Spot::Element { item, index: _ } => Numbers::none().with(*item),
    }
}

fn variable_global(variable: Variable) -> Numbers
    ensures { AreNumbers result (λ n. is_among n (global_of variable)) }
{
    match variable {
        Variable::Local(_) => Numbers::none(),
        Variable::Simple(item) => Numbers::none().with(item),
    }
}

/// The file that a statement asks.
fn asked(what: &What) -> Numbers
    ensures { AreNumbers result (λ n. is_among n (asked_by (out-What what.now))) }
{
    match what {
        What::WriteRead {
            file,
            buffer: _,
            send: _,
            room: _,
            got: _,
        } => Numbers::none().with(u16::from(*file)),
        _ => Numbers::none(),
    }
}

/// The globals that a CHECKPOINT doesn't name.
fn omitted_items(what: &What) -> Numbers
    ensures { AreNumbers result (λ n. omits_item n (out-What what.now)) }
{
    match what {
        What::Checkpoint { items, files: _ } => Numbers::of_items(items.as_slice()).others(),
        _ => Numbers::none(),
    }
}

/// The files that a CHECKPOINT doesn't name.
fn omitted_files(what: &What) -> Numbers
    ensures { AreNumbers result (λ n. omits_file n (out-What what.now)) }
{
    match what {
        What::Checkpoint { items: _, files } => Numbers::of_files(files.as_slice()).others(),
        _ => Numbers::none(),
    }
}
