ghost use Rattle.std.specs.Prelude.{◌≡◌, ◌≤◌, length, IfOk};
ghost use Rattle.tal_tree.specs.declared.site.Kind.TheVariants.{Pair};
ghost use Rattle.process_semantics.specs.Calls.{asked_file, asked_words};
ghost use Rattle.process_semantics.specs.Process.{start_of};
ghost use Rattle.process_semantics.specs.Rests.{next_number};
ghost use Rattle.process_semantics.specs.State.{rest_of};
ghost use Rattle.tal_interp.specs.Sound.{IsLoadable};
ghost use Rattle.gd_words.specs.declared.limits.TheConstants.{MOST_GLOBALS};

use crate::interpreter::Interpreter;
use gd_words::{DeviceCall, List, NoMemory, Sector, Words};
use process_semantics::{Asked, Point};
use std::alloc::Global;
use std::marker::Model;
use tal_table::{Behaviour, Listed};
use tal_tree::{Item, Program};

/// A program that runs as a process. What runs is its table: the text of the program isn't kept.
#[derive(Drop)]
pub struct TalProcess {
    interpreter: Interpreter,
}

impl Model for TalProcess {
    ghost use Rattle.std.specs.Coded.{codes};
    ghost use Rattle.tal_tree.specs.contracts.statement.Statement as statement;
    ghost use Rattle.process_semantics.specs.State as semantics;
    ghost use Rattle.tal_interp.specs.Sound.{IsSound};

    ghost Value = { semantics.Execution };

    ghost coded = { Prim.hlevel (codes, statement.the_row.coded) };

    ghost view = { λ process. process.interpreter };

    ghost invariant = { λ process. IsSound process.interpreter };
}

impl TalProcess {
    /// A program at its beginning. All memory that its steps need is taken here.
    pub fn load(alloc: Global, program: &Program) -> Result<TalProcess, NoMemory>
        requires { IsLoadable program.now }
        ensures { IfOk result (λ process. ⟦<TalProcess as Behaviour>⟧.state process ≡ start_of (Pair program.now)) }
    {
        let interpreter = Interpreter::load(alloc, program)?;
        Ok(TalProcess { interpreter })
    }

    /// The items of its program.
    pub fn items(&self) -> &[Item]
        ensures value { result.now ≡ self.now.program.items }
        ensures few { length result.now ≤ MOST_GLOBALS }
    {
        self.interpreter.table.items()
    }

    /// The number of the file on which it asks, or awaits the reply; 0 elsewhere.
    pub fn asked_file(&self) -> u8
        ensures { result ≡ asked_file self.now.state }
    {
        self.interpreter.asked_file()
    }

    /// The words that it asks, or asked where it awaits the reply; none elsewhere.
    pub fn asked_words(&self) -> Words
        ensures { result ≡ asked_words self.now.program self.now.state }
    {
        self.interpreter.asked_words()
    }

    /// The number of what it does next: at a CHECKPOINT that of the CHECKPOINT itself. 0 at a procedure's end, and
    /// where it has ended.
    pub fn next_number(&self) -> u16
        ensures { result ≡ next_number (rest_of self.now.state.frames) }
    {
        self.interpreter.next_number()
    }
}

impl Behaviour for TalProcess {
    ghost use Rattle.process_semantics.specs.Process.{Runs};

    ghost state = { λ process. Runs process.program process.state };

    fn at(&self) -> Point {
        self.interpreter.point()
    }

    fn in_hand(&self) -> bool {
        self.interpreter.in_hand()
    }

    fn inner(&mut self) {
        self.interpreter.inner();
    }

    fn took(&mut self, words: &Words) {
        self.interpreter.took(words);
    }

    fn asked(&mut self) -> Asked {
        self.interpreter.asked()
    }

    fn got(&mut self, words: &Words) {
        self.interpreter.got(words);
    }

    fn answered(&mut self) -> Words {
        self.interpreter.answered()
    }

    fn device(&self) -> DeviceCall {
        DeviceCall::Nothing
    }

    fn device_done(&mut self, _found: &Sector) {}

    fn listed(&self) -> &Listed {
        self.interpreter.listed()
    }

    fn everything(&self) -> &Listed {
        self.interpreter.table.everything()
    }

    fn checkpointed(&mut self) {
        self.interpreter.checkpointed();
    }

    fn image(&self, alloc: Global, listed: &Listed) -> Result<List<i16>, NoMemory> {
        self.interpreter.image(alloc, listed.items.as_slice())
    }

    fn apply(&mut self, words: &[i16], in_hand: bool) -> bool {
        self.interpreter.apply(words, in_hand)
    }
}
