ghost use Rattle.std.specs.Prelude.{◌≡◌, ◌∷◌, ◌++◌, [], IfOk, OnOk};
ghost use Rattle.std.specs.Option.{option_map};
ghost use Rattle.tal_tree.specs.declared.statement.What.{out-What};
ghost use Rattle.tal_values.specs.Seen.{memory_now};
ghost use Rattle.tal_values.specs.Value.{value_of, cell_of, truth_of};
ghost use Rattle.process_semantics.specs.State.{Run, Test, Last, memory_of, runs_of};
ghost use Rattle.process_semantics.specs.Changes.{variable_cell};
ghost use Rattle.process_semantics.specs.Steps.{values_of, state_after_assigning, tested, state_after_entry, given};
ghost use Rattle.process_semantics.specs.Steps.{given_in, state_after_return};
ghost use Rattle.process_semantics.specs.Steps.{result_of, for_begun, inner_in, goes_round, next_word, tested_in};
ghost use Rattle.process_semantics.specs.Steps.{state_after_count_in, inner, or_ends};
ghost use Rattle.process_semantics.specs.SeenEntries.{entry_of};

use crate::execution::Execution;
use gd_words::{List, NoMemory, wrap_add, wrap_sub};
use process_semantics::{Entry, variable_cell};
use std::alloc::Global;
use tal_tree::{Cond, Expr, Spot, Statement, Variable, What};
use tal_values::{Cell, Memory, cell, truth, value};

impl<'a> Execution<'a> {
    /// The step at the point Inner. A trap ends the process.
    pub fn inner(&mut self, alloc: Global) -> Result<(), NoMemory>
        ensures { OnOk result (self.new ≡ record self.old { state = inner self.old.program self.old.state }) }
    {
        match self.next() {
            None => self.give_back(alloc, Some(0))?,
            Some(Entry::Run(statement)) => self.run(alloc, statement)?,
            Some(Entry::Test(statement)) => self.test(alloc, statement)?,
            Some(Entry::Last(statement)) => self.count_for(statement),
        }
        Ok(())
    }

    fn run(&mut self, alloc: Global, statement: &'a Statement) -> Result<(), NoMemory>
        ensures { OnOk result (self.new ≡ record self.old {
          state = or_ends self.old.state (inner_in self.old.program self.old.state statement.now
              (out-What statement.now.what));
        }) }
    {
        match &statement.what {
            What::Assign { to, value } => self.assign(alloc, to, value)?,
            What::AssignCall {
                to: _,
                procedure,
                arguments,
            } => self.call(alloc, *procedure, arguments.as_slice())?,
            What::If { test, yes, no } => self.choose(alloc, test, yes.as_slice(), no.as_slice())?,
            What::While { test, body } => self.go_round(alloc, statement, test, body.as_slice())?,
            What::For {
                variable,
                from,
                to: _,
                down: _,
                step: _,
                body: _,
                last: _,
            } => self.begin_for(alloc, statement, *variable, from)?,
            What::DoUntil { body, test } => self.go_back(alloc, statement, body.as_slice(), test)?,
            What::Call {
                procedure,
                arguments,
            } => self.call(alloc, *procedure, arguments.as_slice())?,
            What::Return(value) => self.return_value(alloc, value)?,
            What::CheckMonitor => self.done(),
            What::Open(_) => self.done(),
            What::Stop => self.end(),
            What::ReadUpdate {
                buffer: _,
                most: _,
                got: _,
            } => self.end(),
            What::Reply {
                buffer: _,
                count: _,
            } => self.end(),
            What::WriteRead {
                file: _,
                buffer: _,
                send: _,
                room: _,
                got: _,
            } => self.end(),
            What::Checkpoint { items: _, files: _ } => self.end(),
        }
        Ok(())
    }

    fn assign(&mut self, alloc: Global, to: &Spot, expr: &Expr) -> Result<(), NoMemory>
        ensures { OnOk result (self.new ≡ record self.old {
          state = or_ends self.old.state (state_after_assigning self.old.state
              (cell_of (memory_of self.old.program self.old.state) to.now)
              (value_of (memory_of self.old.program self.old.state) expr.now));
        }) }
    {
        let cell = cell(alloc, self.memory(), to)?;
        let word = value(alloc, self.memory(), expr)?;
        self.store(cell, word);
        Ok(())
    }

    fn store(&mut self, to: Option<Cell>, word: Option<i16>)
        ensures { self.new ≡ record self.old {
          state =
              or_ends self.old.state (state_after_assigning self.old.state to word);
        } }
    {
        match word {
            None => self.end(),
            Some(word) => match to {
                None => self.end(),
                Some(cell) => {
                    self.set_word(cell, word);
                    self.done();
                }
            },
        }
    }

    fn call(&mut self, alloc: Global, number: u16, arguments: &[Expr]) -> Result<(), NoMemory>
        ensures { OnOk result (self.new ≡ record self.old {
          state = or_ends self.old.state (state_after_entry self.old.program self.old.state number
              (values_of (memory_of self.old.program self.old.state) arguments.now));
        }) }
    {
        match values(alloc, self.memory(), arguments)? {
            None => self.end(),
            Some(words) => match self.program().procedures.get(usize::from(number)) {
                None => self.end(),
                Some(procedure) => self.enter(alloc, number, words, procedure)?,
            },
        }
        Ok(())
    }

    fn choose(
        &mut self,
        alloc: Global,
        test: &Cond,
        yes: &'a [Statement],
        no: &'a [Statement],
    ) -> Result<(), NoMemory>
        ensures { OnOk result (self.new ≡ record self.old {
          state = or_ends self.old.state (tested self.old.state (runs_of yes.now) (runs_of no.now)
              (truth_of (memory_of self.old.program self.old.state) test.now));
        }) }
    {
        match truth(alloc, self.memory(), test)? {
            None => self.end(),
            Some(true) => {
                self.done();
                self.put_all(yes)?;
            }
            Some(false) => {
                self.done();
                self.put_all(no)?;
            }
        }
        Ok(())
    }

    fn go_round(
        &mut self,
        alloc: Global,
        statement: &'a Statement,
        test: &Cond,
        body: &'a [Statement],
    ) -> Result<(), NoMemory>
        ensures { OnOk result (self.new ≡ record self.old {
          state = or_ends self.old.state (tested self.old.state (runs_of body.now ++ Run statement.now ∷ []) []
              (truth_of (memory_of self.old.program self.old.state) test.now));
        }) }
    {
        match truth(alloc, self.memory(), test)? {
            None => self.end(),
            Some(true) => {
                self.done();
                self.put(Entry::Run(statement))?;
                self.put_all(body)?;
            }
            Some(false) => self.done(),
        }
        Ok(())
    }

    fn go_back(
        &mut self,
        alloc: Global,
        statement: &'a Statement,
        body: &'a [Statement],
        test: &Cond,
    ) -> Result<(), NoMemory>
        ensures { OnOk result (self.new ≡ record self.old {
          state = or_ends self.old.state (tested self.old.state [] (runs_of body.now ++ Run statement.now ∷ [])
              (truth_of (memory_of self.old.program self.old.state) test.now));
        }) }
    {
        match truth(alloc, self.memory(), test)? {
            None => self.end(),
            Some(true) => self.done(),
            Some(false) => {
                self.done();
                self.put(Entry::Run(statement))?;
                self.put_all(body)?;
            }
        }
        Ok(())
    }

    fn begin_for(
        &mut self,
        alloc: Global,
        statement: &'a Statement,
        variable: Variable,
        from: &Expr,
    ) -> Result<(), NoMemory>
        ensures { OnOk result (self.new ≡ record self.old {
          state = or_ends self.old.state (for_begun self.old.state statement.now variable
              (value_of (memory_of self.old.program self.old.state) from.now));
        }) }
    {
        match value(alloc, self.memory(), from)? {
            None => self.end(),
            Some(word) => {
                self.set_word(variable_cell(variable), word);
                self.done();
                self.put(Entry::Test(statement))?;
            }
        }
        Ok(())
    }

    fn test(&mut self, alloc: Global, statement: &'a Statement) -> Result<(), NoMemory>
        ensures { OnOk result (self.new ≡ record self.old {
          state = or_ends self.old.state (tested_in self.old.program self.old.state statement.now
              (out-What statement.now.what));
        }) }
    {
        match &statement.what {
            What::For {
                variable,
                from: _,
                to,
                down,
                step: _,
                body,
                last: _,
            } => {
                let variable = self.memory().word(variable_cell(*variable));
                let limit = value(alloc, self.memory(), to)?;
                self.go_on(statement, body.as_slice(), within(*down, variable, limit))?;
            }
            _ => self.end(),
        }
        Ok(())
    }

    fn go_on(
        &mut self,
        statement: &'a Statement,
        body: &'a [Statement],
        holds: Option<bool>,
    ) -> Result<(), NoMemory>
        ensures { OnOk result (self.new ≡ record self.old {
          state = or_ends self.old.state (tested self.old.state
              (runs_of body.now ++ Last statement.now ∷ Test statement.now ∷ []) [] holds);
        }) }
    {
        match holds {
            None => self.end(),
            Some(true) => {
                self.done();
                self.put(Entry::Test(statement))?;
                self.put(Entry::Last(statement))?;
                self.put_all(body)?;
            }
            Some(false) => self.done(),
        }
        Ok(())
    }

    fn count_for(&mut self, statement: &Statement)
        ensures { self.new ≡ record self.old {
          state =
              or_ends self.old.state (state_after_count_in self.old.program self.old.state
              (out-What statement.now.what));
        } }
    {
        match &statement.what {
            What::For {
                variable,
                from: _,
                to: _,
                down,
                step,
                body: _,
                last: _,
            } => {
                let variable = variable_cell(*variable);
                match self.memory().word(variable) {
                    None => self.end(),
                    Some(word) => {
                        self.set_word(variable, next_word(*down, *step, word));
                        self.done();
                    }
                }
            }
            _ => self.end(),
        }
    }

    fn return_value(&mut self, alloc: Global, expr: &Option<Expr>) -> Result<(), NoMemory>
        ensures { OnOk result (self.new ≡ record self.old {
          state = or_ends self.old.state (state_after_return self.old.program self.old.state
              (result_of (memory_of self.old.program self.old.state) expr.now));
        }) }
    {
        let word = match expr {
            None => Some(0),
            Some(expr) => value(alloc, self.memory(), expr)?,
        };
        self.give_back(alloc, word)?;
        Ok(())
    }

    fn give_back(&mut self, alloc: Global, word: Option<i16>) -> Result<(), NoMemory>
        ensures { OnOk result (self.new ≡ record self.old
            { state = or_ends self.old.state (state_after_return self.old.program self.old.state word) }) }
    {
        match word {
            None => self.end(),
            Some(word) => {
                self.leave();
                match self.running_next() {
                    None => self.end(),
                    Some(next) => self.give(alloc, word, next)?,
                }
            }
        }
        Ok(())
    }

    fn give(&mut self, alloc: Global, word: i16, next: Option<Entry<'a>>) -> Result<(), NoMemory>
        ensures { OnOk result (self.new ≡ record self.old {
          state = or_ends self.old.state (given self.old.program word self.old.state
              (option_map entry_of next.entry));
        }) }
    {
        match next {
            Some(Entry::Run(statement)) => self.give_in(alloc, word, statement)?,
            _ => self.done(),
        }
        Ok(())
    }

    fn give_in(&mut self, alloc: Global, word: i16, statement: &Statement) -> Result<(), NoMemory>
        ensures { OnOk result (self.new ≡ record self.old {
          state = or_ends self.old.state (given_in self.old.program word self.old.state
              (out-What statement.now.what));
        }) }
    {
        match &statement.what {
            What::AssignCall {
                to,
                procedure: _,
                arguments: _,
            } => {
                let cell = cell(alloc, self.memory(), to)?;
                self.store(cell, Some(word));
            }
            _ => self.done(),
        }
        Ok(())
    }
}

fn within(down: bool, variable: Option<i16>, limit: Option<i16>) -> Option<bool>
    ensures { result ≡ goes_round down variable limit }
{
    let variable = variable?;
    let limit = limit?;
    Some(if down {
        variable >= limit
    } else {
        variable <= limit
    })
}

fn next_word(down: bool, step: i16, word: i16) -> i16
    ensures { result ≡ next_word down step word }
{
    if down {
        wrap_sub(word, step)
    } else {
        wrap_add(word, step)
    }
}

fn values(
    alloc: Global,
    memory: Memory<'_>,
    arguments: &[Expr],
) -> Result<Option<List<i16>>, NoMemory>
    ensures { IfOk result (λ words. words ≡ values_of (memory_now memory.entry) arguments.now) }
{
    let mut words = List::new(alloc);
    for argument in arguments {
        match value(alloc, memory, argument)? {
            None => return Ok(None),
            Some(word) => words.push(word)?,
        }
    }
    Ok(Some(words))
}
