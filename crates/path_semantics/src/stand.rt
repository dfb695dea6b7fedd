ghost use Rattle.std.specs.Prelude.{◌≡◌, ◌∷◌, ◌++◌, [], map, reverse, IfOk};
ghost use Rattle.std.specs.Option.{option_map};
ghost use Rattle.tal_tree.specs.declared.statement.What.{out-What};
ghost use Rattle.process_semantics.specs.State.{Run, Test, runs_of};
ghost use Rattle.process_semantics.specs.SeenEntries.{entry_of};
ghost use Rattle.path_semantics.specs.Place.{ways_of, rounds_of, ways, body_of, stand_at, settled, stands_after};
ghost use Rattle.path_semantics.specs.Place.{successors, first_stand, next_entry};

use crate::dues::Dues;
use crate::frame::Frame;
use gd_words::NoMemory;
use process_semantics::Entry;
use std::alloc::Global;
use std::marker::Model;
use tal_tree::{Program, Statement, What};

/// Where a path leads: a place, and what is due there.
#[derive(Drop)]
pub(crate) struct Stand<'a> {
    frames: Vec<Frame<'a>>,
    dues: Dues,
}

impl<'a> Model for Stand<'a> {
    ghost use Rattle.std.specs.Prelude.{reverse};
    ghost use Rattle.std.specs.Coded.{codes};
    ghost use Rattle.tal_tree.specs.contracts.statement.Statement as statement;
    ghost use Rattle.path_semantics.specs.Place as place;

    ghost Value = { place.Stand };

    ghost coded = { Prim.hlevel (codes, statement.the_row.coded) };

    ghost view = { λ stand. record { place = reverse stand.frames.items; dues = stand.dues } };
}

impl<'a> Stand<'a> {
    /// Where every path begins.
    pub(crate) fn first(alloc: Global, program: &'a Program) -> Result<Stand<'a>, NoMemory>
        ensures { IfOk result (λ stand. stand ≡ first_stand program.now) }
    {
        let running = body_of(alloc, program, program.main)?;
        stand_at(running, Vec::new(alloc), Dues::none(alloc))
    }

    /// What is due.
    pub(crate) fn dues(&self) -> &Dues
        ensures { result.now ≡ self.now.dues }
    {
        &self.dues
    }

    /// The next entry.
    pub(crate) fn next(&self) -> Option<Entry<'a>>
        ensures { option_map entry_of result ≡ next_entry self.now }
    {
        match self.frames.last() {
            None => None,
            Some(frame) => frame.next(),
        }
    }

    /// Where the next entry leads.
    pub(crate) fn successors(
        &self,
        alloc: Global,
        program: &'a Program,
    ) -> Result<Vec<Stand<'a>>, NoMemory>
        ensures { IfOk result (λ stands. stands.items ≡ successors program.now self.now) }
    {
        let mut callers = copy_all(alloc, self.frames.as_slice())?;
        let dues = self.dues.copy(alloc)?;
        let Some(running) = callers.pop() else {
            return Ok(Vec::new(alloc));
        };
        let way = Way {
            running,
            callers,
            dues,
        };
        way.stands_after(alloc, program)
    }
}

/// A way on: the frame that runs, its callers, MAIN first, and the dues, while procedures may still stand at their
/// ends.
#[derive(Drop)]
struct Way<'a> {
    running: Frame<'a>,
    callers: Vec<Frame<'a>>,
    dues: Dues,
}

impl<'a> Way<'a> {
    fn copy(&self, alloc: Global) -> Result<Way<'a>, NoMemory>
        ensures running { IfOk result (λ way. way.running ≡ self.now.running) }
        ensures callers { IfOk result (λ way. way.callers.items ≡ self.now.callers.items) }
        ensures dues { IfOk result (λ way. way.dues ≡ self.now.dues) }
    {
        let running = self.running.copy(alloc)?;
        let callers = copy_all(alloc, self.callers.as_slice())?;
        let dues = self.dues.copy(alloc)?;
        Ok(Way {
            running,
            callers,
            dues,
        })
    }

    fn stands_after(self, alloc: Global, program: &'a Program) -> Result<Vec<Stand<'a>>, NoMemory>
        ensures { IfOk result (λ stands. stands.items
            ≡ stands_after program.now self.entry.dues (self.entry.running ∷ reverse self.entry.callers.items)) }
    {
        let Way {
            mut running,
            callers,
            dues,
        } = self;
        let Some(entry) = running.take() else {
            return Ok(Vec::new(alloc));
        };
        let dues = dues.after(alloc, entry)?;
        let way = Way {
            running,
            callers,
            dues,
        };
        way.leads(alloc, program, entry)
    }

    fn leads(
        self,
        alloc: Global,
        program: &'a Program,
        entry: Entry<'a>,
    ) -> Result<Vec<Stand<'a>>, NoMemory>
        ensures { IfOk result (λ stands. stands.items
            ≡ map (settled self.entry.dues) (ways program.now (entry_of entry.entry) self.entry.running
            (reverse self.entry.callers.items))) }
    {
        match entry {
            Entry::Run(statement) => self.run(alloc, program, statement),
            Entry::Test(statement) => self.test(alloc, statement),
            Entry::Last(_) => self.one(alloc),
        }
    }

    fn run(
        mut self,
        alloc: Global,
        program: &'a Program,
        statement: &'a Statement,
    ) -> Result<Vec<Stand<'a>>, NoMemory>
        ensures { IfOk result (λ stands. stands.items
            ≡ map (settled self.entry.dues) (ways_of program.now statement.now self.entry.running
            (reverse self.entry.callers.items) (out-What statement.now.what))) }
    {
        match &statement.what {
            What::If { test: _, yes, no } => self.either(alloc, yes.as_slice(), no.as_slice()),
            What::While { test: _, body } => self.round(alloc, statement, body.as_slice()),
            What::DoUntil { body, test: _ } => self.back(alloc, statement, body.as_slice()),
            What::For {
                variable: _,
                from: _,
                to: _,
                down: _,
                step: _,
                body: _,
                last: _,
            } => {
                self.running.put(Entry::Test(statement))?;
                self.one(alloc)
            }
            What::AssignCall {
                to: _,
                procedure,
                arguments: _,
            } => self.call(alloc, program, statement, *procedure),
            What::Call {
                procedure,
                arguments: _,
            } => self.call(alloc, program, statement, *procedure),
            What::Return(_) => self.give_back(alloc),
            What::Stop => self.end(alloc),
            _ => self.one(alloc),
        }
    }

    fn test(mut self, alloc: Global, statement: &'a Statement) -> Result<Vec<Stand<'a>>, NoMemory>
        ensures { IfOk result (λ stands. stands.items
            ≡ map (settled self.entry.dues) (rounds_of statement.now self.entry.running
            (reverse self.entry.callers.items) (out-What statement.now.what))) }
    {
        match &statement.what {
            What::For {
                variable: _,
                from: _,
                to: _,
                down: _,
                step: _,
                body,
                last: _,
            } => {
                let on = self.copy(alloc)?;
                self.running.put(Entry::Test(statement))?;
                self.running.put(Entry::Last(statement))?;
                self.running.put_all(body.as_slice())?;
                self.or(alloc, on)
            }
            _ => self.one(alloc),
        }
    }

    fn either(
        mut self,
        alloc: Global,
        yes: &'a [Statement],
        no: &'a [Statement],
    ) -> Result<Vec<Stand<'a>>, NoMemory>
        ensures { IfOk result (λ stands. stands.items
            ≡ stand_at (runs_of yes.now ++ self.entry.running) (reverse self.entry.callers.items) self.entry.dues
            ∷ stand_at (runs_of no.now ++ self.entry.running) (reverse self.entry.callers.items) self.entry.dues ∷ []) }
    {
        let mut other = self.copy(alloc)?;
        self.running.put_all(yes)?;
        other.running.put_all(no)?;
        self.or(alloc, other)
    }

    fn round(
        mut self,
        alloc: Global,
        statement: &'a Statement,
        body: &'a [Statement],
    ) -> Result<Vec<Stand<'a>>, NoMemory>
        ensures { IfOk result (λ stands. stands.items
            ≡ stand_at (runs_of body.now ++ Run statement.now ∷ self.entry.running) (reverse self.entry.callers.items)
            self.entry.dues ∷ stand_at self.entry.running (reverse self.entry.callers.items) self.entry.dues ∷ []) }
    {
        let on = self.copy(alloc)?;
        self.running.put(Entry::Run(statement))?;
        self.running.put_all(body)?;
        self.or(alloc, on)
    }

    fn back(
        self,
        alloc: Global,
        statement: &'a Statement,
        body: &'a [Statement],
    ) -> Result<Vec<Stand<'a>>, NoMemory>
        ensures { IfOk result (λ stands. stands.items
            ≡ stand_at self.entry.running (reverse self.entry.callers.items) self.entry.dues
            ∷ stand_at (runs_of body.now ++ Run statement.now ∷ self.entry.running) (reverse self.entry.callers.items)
            self.entry.dues ∷ []) }
    {
        let mut again = self.copy(alloc)?;
        again.running.put(Entry::Run(statement))?;
        again.running.put_all(body)?;
        self.or(alloc, again)
    }

    fn call(
        self,
        alloc: Global,
        program: &'a Program,
        statement: &'a Statement,
        procedure: u16,
    ) -> Result<Vec<Stand<'a>>, NoMemory>
        ensures { IfOk result (λ stands. stands.items
            ≡ stand_at (body_of program.now procedure)
            ((Run statement.now ∷ self.entry.running) ∷ reverse self.entry.callers.items) self.entry.dues ∷ []) }
    {
        let Way {
            mut running,
            mut callers,
            dues,
        } = self;
        running.put(Entry::Run(statement))?;
        callers.push(running)?;
        let running = body_of(alloc, program, procedure)?;
        let way = Way {
            running,
            callers,
            dues,
        };
        way.one(alloc)
    }

    fn give_back(self, alloc: Global) -> Result<Vec<Stand<'a>>, NoMemory>
        ensures { IfOk result (λ stands. stands.items
            ≡ stand_at [] (reverse self.entry.callers.items) self.entry.dues ∷ []) }
    {
        let Way {
            running: _,
            callers,
            dues,
        } = self;
        let running = Frame::new(alloc);
        let way = Way {
            running,
            callers,
            dues,
        };
        way.one(alloc)
    }

    fn end(self, alloc: Global) -> Result<Vec<Stand<'a>>, NoMemory>
        ensures { IfOk result (λ stands. stands.items ≡ settled self.entry.dues [] ∷ []) }
    {
        let Way {
            running: _,
            callers: _,
            dues,
        } = self;
        let frames = Vec::new(alloc);
        let mut stands = Vec::new(alloc);
        stands.push(Stand { frames, dues })?;
        Ok(stands)
    }

    fn one(self, alloc: Global) -> Result<Vec<Stand<'a>>, NoMemory>
        ensures { IfOk result (λ stands. stands.items
            ≡ stand_at self.entry.running (reverse self.entry.callers.items) self.entry.dues ∷ []) }
    {
        let mut stands = Vec::new(alloc);
        stands.push(self.stand()?)?;
        Ok(stands)
    }

    fn or(self, alloc: Global, other: Way<'a>) -> Result<Vec<Stand<'a>>, NoMemory>
        ensures { IfOk result (λ stands. stands.items
            ≡ stand_at self.entry.running (reverse self.entry.callers.items) self.entry.dues
            ∷ stand_at other.entry.running (reverse other.entry.callers.items) other.entry.dues ∷ []) }
    {
        let mut stands = Vec::new(alloc);
        stands.push(self.stand()?)?;
        stands.push(other.stand()?)?;
        Ok(stands)
    }

    fn stand(self) -> Result<Stand<'a>, NoMemory>
        ensures { IfOk result (λ stand. stand ≡ stand_at self.entry.running (reverse self.entry.callers.items)
            self.entry.dues) }
    {
        let Way {
            running,
            callers,
            dues,
        } = self;
        stand_at(running, callers, dues)
    }
}

/// Leaves the procedures at whose end the program stands.
fn stand_at<'a>(
    mut running: Frame<'a>,
    mut callers: Vec<Frame<'a>>,
    mut dues: Dues,
) -> Result<Stand<'a>, NoMemory>
    ensures { IfOk result (λ stand. stand ≡ stand_at running.entry (reverse callers.entry.items) dues) }
{
    while running.next().is_none() {
        let Some(mut caller) = callers.pop() else {
            return Ok(Stand {
                frames: callers,
                dues,
            });
        };
        dues = dues.after_return(caller.take())?;
        running = caller;
    }
    callers.push(running)?;
    Ok(Stand {
        frames: callers,
        dues,
    })
}

fn body_of<'a>(alloc: Global, program: &'a Program, procedure: u16) -> Result<Frame<'a>, NoMemory>
    ensures { IfOk result (λ frame. frame ≡ body_of program.now procedure) }
{
    let mut frame = Frame::new(alloc);
    if let Some(procedure) = program.procedures.get(usize::from(procedure)) {
        frame.put_all(procedure.body.as_slice())?;
    }
    Ok(frame)
}

fn copy_all<'a>(alloc: Global, frames: &[Frame<'a>]) -> Result<Vec<Frame<'a>>, NoMemory>
    ensures { IfOk result (λ all. all.items ≡ frames.now) }
{
    let mut all = Vec::new(alloc);
    for frame in frames {
        all.push(frame.copy(alloc)?)?;
    }
    Ok(all)
}
