ghost use Rattle.std.specs.Prelude.{◌≡◌, ◌||◌, ◌∷◌, ◌++◌, IfOk};
ghost use Rattle.std.specs.Option.{option_map};
ghost use Rattle.tal_tree.specs.declared.statement.What.{out-What};
ghost use Rattle.process_semantics.specs.SeenEntries.{entry_of};
ghost use Rattle.path_semantics.specs.Dues.{no_dues, with_changed, global_of_spot, global_of, changed_by, asked_by};
ghost use Rattle.path_semantics.specs.Dues.{reads, after_statement, after_entry, target_of, changed_by_return};

use gd_words::{List, NoMemory};
use process_semantics::Entry;
use std::alloc::Global;
use tal_tree::{Spot, Variable, What};

/// What is due along a path since its last CHECKPOINT: the globals that may have changed, the file of each WRITEREAD
/// that was made, and whether a request was read.
#[derive(Drop)]
pub struct Dues {
    pub globals: List<u16>,
    pub asked: List<u8>,
    pub read: bool,
}

impl Dues {
    /// Nothing is due.
    pub(crate) fn none(alloc: Global) -> Dues
        ensures { result ≡ no_dues }
    {
        Dues {
            globals: List::new(alloc),
            asked: List::new(alloc),
            read: false,
        }
    }

    /// The same dues once more.
    pub(crate) fn copy(&self, alloc: Global) -> Result<Dues, NoMemory>
        ensures { IfOk result (λ dues. dues ≡ self.now) }
    {
        let mut dues = Dues::none(alloc);
        dues.globals.extend_from_slice(self.globals.as_slice())?;
        dues.asked.extend_from_slice(self.asked.as_slice())?;
        dues.read = self.read;
        Ok(dues)
    }

    /// The dues after an entry.
    pub(crate) fn after(self, alloc: Global, entry: Entry<'_>) -> Result<Dues, NoMemory>
        ensures { IfOk result (λ dues. dues ≡ after_entry self (entry_of entry.entry)) }
    {
        match entry {
            Entry::Run(statement) => self.after_statement(alloc, &statement.what),
            Entry::Test(_) => Ok(self),
            Entry::Last(statement) => self.with_changed_by(&statement.what),
        }
    }

    fn after_statement(self, alloc: Global, what: &What) -> Result<Dues, NoMemory>
        ensures { IfOk result (λ dues. dues ≡ after_statement self (out-What what.now)) }
    {
        match what {
            What::Checkpoint { items: _, files: _ } => Ok(Dues::none(alloc)),
            _ => self.with_effects(what),
        }
    }

    fn with_effects(self, what: &What) -> Result<Dues, NoMemory>
        ensures { IfOk result (λ dues. dues ≡ record {
          globals = self.globals ++ changed_by (out-What what.now);
          asked = self.asked ++ asked_by (out-What what.now);
          read = self.read || reads (out-What what.now);
        }) }
    {
        let mut dues = self.with_changed_by(what)?;
        if let What::WriteRead {
            file,
            buffer: _,
            send: _,
            room: _,
            got: _,
        } = what
        {
            dues.asked.push(*file)?;
        }
        if let What::ReadUpdate {
            buffer: _,
            most: _,
            got: _,
        } = what
        {
            dues.read = true;
        }
        Ok(dues)
    }

    fn with_changed_by(self, what: &What) -> Result<Dues, NoMemory>
        ensures { IfOk result (λ dues. dues ≡ with_changed (changed_by (out-What what.now)) self) }
    {
        match what {
            What::Assign { to, value: _ } => self.with_spot(to),
            What::For {
                variable,
                from: _,
                to: _,
                down: _,
                step: _,
                body: _,
                last: _,
            } => self.with_variable(*variable),
            What::ReadUpdate {
                buffer,
                most: _,
                got,
            } => self.with_words(*buffer, *got),
            What::WriteRead {
                file: _,
                buffer,
                send: _,
                room: _,
                got,
            } => self.with_words(*buffer, *got),
            _ => Ok(self),
        }
    }

    fn with_words(mut self, buffer: u16, got: Variable) -> Result<Dues, NoMemory>
        ensures { IfOk result (λ dues. dues ≡ with_changed (buffer ∷ global_of got) self) }
    {
        self.globals.push(buffer)?;
        self.with_variable(got)
    }

    fn with_variable(mut self, variable: Variable) -> Result<Dues, NoMemory>
        ensures { IfOk result (λ dues. dues ≡ with_changed (global_of variable) self) }
    {
        if let Variable::Simple(item) = variable {
            self.globals.push(item)?;
        }
        Ok(self)
    }

    fn with_spot(mut self, spot: &Spot) -> Result<Dues, NoMemory>
        ensures { IfOk result (λ dues. dues ≡ with_changed (global_of_spot spot.now) self) }
    {
        match spot {
            Spot::Local(_) => {}
            Spot::Simple(item) => self.globals.push(*item)?,
            Spot::Element { item, index: _ } => self.globals.push(*item)?,
        }
        Ok(self)
    }

    /// The dues after a return to a frame with this next entry.
    pub(crate) fn after_return(self, next: Option<Entry<'_>>) -> Result<Dues, NoMemory>
        ensures { IfOk result (λ dues. dues ≡ with_changed (changed_by_return (option_map entry_of next.entry)) self) }
    {
        match next {
            Some(Entry::Run(statement)) => self.with_target(&statement.what),
            _ => Ok(self),
        }
    }

    fn with_target(self, what: &What) -> Result<Dues, NoMemory>
        ensures { IfOk result (λ dues. dues ≡ with_changed (target_of (out-What what.now)) self) }
    {
        match what {
            What::AssignCall {
                to,
                procedure: _,
                arguments: _,
            } => self.with_spot(to),
            _ => Ok(self),
        }
    }
}
