ghost use Rattle.std.specs.Prelude.{◌≡◌, ◌≤◌, length, OnOk};
ghost use Rattle.tal_code.specs.Parts.{Valued, Tested, nothing, built, parts_after, expr_in, cond_in};
ghost use Rattle.tal_code.specs.Room.{IsLow};

use crate::step::Instruction;
use gd_words::{List, NoMemory};
use std::alloc::Global;
use std::marker::Model;

/// The code of an expression.
#[derive(Drop)]
pub struct Code {
    steps: List<Instruction>,
}

impl Model for Code {
    ghost use Rattle.std.specs.Prelude.{◌≡◌};
    ghost use Rattle.tal_tree.specs.contracts.expression.Expr as expression;
    ghost use Rattle.tal_tree.specs.declared.expression.Expr.{Expr};
    ghost use Rattle.tal_code.specs.Parts as parts;
    ghost use Rattle.tal_code.specs.Room as room;

    ghost Value = { Expr };

    ghost coded = { expression.the_row.coded };

    ghost view = { λ code. parts.expr_in (parts.built code.steps).top };

    ghost invariant = { λ code. room.IsLow code.steps
        × ((parts.built code.steps).top ≡ parts.Valued (parts.expr_in (parts.built code.steps).top)) };
}

impl Code {
    pub(crate) fn steps(&self) -> &[Instruction]
        ensures top { (built result.now).top ≡ Valued self.now }
        ensures low { IsLow result.now }
    {
        self.steps.as_slice()
    }
}

/// The code of a condition.
#[derive(Drop)]
pub struct TestCode {
    steps: List<Instruction>,
}

impl Model for TestCode {
    ghost use Rattle.std.specs.Prelude.{◌≡◌};
    ghost use Rattle.tal_tree.specs.contracts.expression.Cond as condition;
    ghost use Rattle.tal_tree.specs.declared.expression.Cond.{Cond};
    ghost use Rattle.tal_code.specs.Parts as parts;
    ghost use Rattle.tal_code.specs.Room as room;

    ghost Value = { Cond };

    ghost coded = { condition.the_row.coded };

    ghost view = { λ code. parts.cond_in (parts.built code.steps).top };

    ghost invariant = { λ code. room.IsLow code.steps
        × ((parts.built code.steps).top ≡ parts.Tested (parts.cond_in (parts.built code.steps).top)) };
}

impl TestCode {
    pub(crate) fn steps(&self) -> &[Instruction]
        ensures top { (built result.now).top ≡ Tested self.now }
        ensures low { IsLow result.now }
    {
        self.steps.as_slice()
    }
}

/// Code that is being made.
#[derive(Drop)]
pub(crate) struct Draft {
    steps: List<Instruction>,
}

impl Model for Draft {
    ghost use Rattle.std.specs.Coded.{codes};
    ghost use Rattle.tal_tree.specs.contracts.expression.Expr as expression;
    ghost use Rattle.tal_tree.specs.contracts.expression.Cond as condition;
    ghost use Rattle.tal_code.specs.Parts as parts;
    ghost use Rattle.tal_code.specs.Room as room;

    ghost Value = { parts.PartStack };

    ghost coded = { Prim.hlevel (codes, expression.the_row.coded, condition.the_row.coded) };

    ghost view = { λ draft. parts.built draft.steps };

    ghost invariant = { λ draft. room.IsLow draft.steps };
}

impl Draft {
    pub(crate) fn new(alloc: Global) -> Draft
        ensures { result ≡ nothing }
    {
        Draft {
            steps: List::new(alloc),
        }
    }

    /// Puts a step after the others, where it leaves no more than 80 words below the top.
    pub(crate) fn push(&mut self, step: Instruction) -> Result<(), NoMemory>
        requires { length (parts_after step self.old).below ≤ 80 }
        ensures { OnOk result (self.new ≡ parts_after step self.old) }
    {
        self.steps.push(step)?;
        Ok(())
    }

    /// The code of the expression on top.
    pub(crate) fn finish(self) -> Code
        requires { self.top ≡ Valued (expr_in self.top) }
        ensures { result ≡ expr_in self.top }
    {
        let Draft { steps } = self;
        Code { steps }
    }

    /// The code of the condition on top.
    pub(crate) fn finish_test(self) -> TestCode
        requires { self.top ≡ Tested (cond_in self.top) }
        ensures { result ≡ cond_in self.top }
    {
        let Draft { steps } = self;
        TestCode { steps }
    }
}
