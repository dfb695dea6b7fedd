ghost use Rattle.std.specs.Prelude.{◌≡◌, [], ◌∷◌, ◌++◌, MatchOption, IsTrue, IfOk, OnOk, ◌↔◌};
ghost use Rattle.tal_recogniser.specs.Machine.{feed, open_levels, start};
ghost use Rattle.tal_recogniser.specs.Judged.{Fed};

use crate::symbol::Symbol;
use crate::table::{row, vanishes};
use std::alloc::Global;
use std::collections::VecDeque;
use std::marker::Model;
use tal_tokens::{NoMemory, Token};

/// What is still to come of a text, the next first, with the count of levels that stand open.
#[derive(Drop)]
pub struct Stack {
    symbols: VecDeque<Symbol>,
    depth: usize,
}

impl Model for Stack {
    ghost use Rattle.std.specs.Prelude.{List, ◌≡◌};
    ghost use Rattle.tal_recogniser.specs.declared.symbol.Symbol.{Symbol};
    ghost use Rattle.tal_recogniser.specs.Machine.{open_levels};

    ghost Value = { List Symbol };

    ghost view = { λ stack. stack.symbols.items };

    ghost invariant = { λ stack. stack.depth ≡ open_levels stack.symbols.items };
}

impl Stack {
    /// A whole text is to come.
    pub fn start(alloc: Global) -> Result<Stack, NoMemory>
        ensures { IfOk result (λ stack. stack ≡ start) }
    {
        let mut stack = Stack {
            symbols: VecDeque::new(alloc),
            depth: 0,
        };
        stack.push(Symbol::WantFinish)?;
        stack.push(Symbol::Lines)?;
        Ok(stack)
    }

    /// Whether nothing is to come.
    pub fn is_empty(&self) -> bool
        ensures { IsTrue result ↔ (self.now ≡ []) }
    {
        self.symbols.is_empty()
    }

    /// How many levels stand open.
    pub fn levels(&self) -> usize
        ensures { result ≡ open_levels self.now }
    {
        self.depth
    }

    fn push(&mut self, symbol: Symbol) -> Result<(), NoMemory>
        ensures { OnOk result (self.new ≡ symbol ∷ self.old) }
    {
        self.symbols.push_front(symbol)?;
        let held = self.symbols.len();
        if symbol == Symbol::LevelEnd {
            prove!(self.depth < held);
            self.depth += 1;
        }
        Ok(())
    }

    fn pop(&mut self) -> Option<Symbol>
        ensures { MatchOption result ((self.old ≡ []) × (self.new ≡ [])) (λ symbol. self.old ≡ symbol ∷ self.new) }
    {
        let symbol = self.symbols.pop_front()?;
        if symbol == Symbol::LevelEnd {
            self.depth -= 1;
        }
        Some(symbol)
    }

    fn put(&mut self, row: &[Symbol]) -> Result<(), NoMemory>
        ensures { OnOk result (self.new ≡ row.now ++ self.old) }
    {
        let mut k = row.len();
        while k > 0 {
            k -= 1;
            self.push(row[k])?;
        }
        Ok(())
    }

    /// Takes a token, if it may stand here, and answers whether it may.
    pub fn feed(&mut self, token: &Token) -> Result<bool, NoMemory>
        ensures { IfOk result (λ taken. Fed taken self.new (feed token.now self.old)) }
    {
        while let Some(symbol) = self.pop() {
            match row(symbol, token) {
                Some(row) => {
                    self.put(row)?;
                    return Ok(true);
                }
                None => {
                    if !vanishes(symbol) {
                        return Ok(false);
                    }
                }
            }
        }
        Ok(false)
    }
}
