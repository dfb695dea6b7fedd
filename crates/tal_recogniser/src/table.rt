ghost use Rattle.std.specs.Prelude.{◌≡◌, MatchOption, Some, None};
ghost use Rattle.tal_recogniser.specs.Machine.{step, vanishes};

use crate::declaration_table::{
    after_int_row, atom_row, bounds_row, constant_row, items_row, lines_row, literals_row,
    locals_row, main_row, names_row, parameters_row, procedures_row,
};
use crate::expression_table::{
    and_row, factor_row, index_row, neg_row, or_row, rel_row, term_row, times_row,
};
use crate::statement_table::{
    answer_row, argument_row, arguments_row, direction_row, else_row, further_row, right_row,
    right_tail_row, row_row, statement_row, step_row, values_row,
};
use crate::symbol::Symbol;
use crate::wanted_table::wanted_row;
use tal_tokens::Token;

/// What stands in a symbol's place after a token, as far as the token may stand there.
pub fn row(symbol: Symbol, token: &Token) -> Option<&'static [Symbol]>
    ensures { MatchOption result (step symbol token.now ≡ None) (λ r. step symbol token.now ≡ Some r.now) }
{
    match symbol {
        Symbol::LevelEnd => None,
        Symbol::Neg => neg_row(token),
        Symbol::OrTail => or_row(token),
        Symbol::AndTail => and_row(token),
        Symbol::RelTail => rel_row(token),
        Symbol::TermTail => term_row(token),
        Symbol::TimesTail => times_row(token),
        Symbol::Factor => factor_row(token),
        Symbol::IndexTail => index_row(token),
        Symbol::Statement => statement_row(token),
        Symbol::RowTail => row_row(token),
        Symbol::ElseTail => else_row(token),
        Symbol::Direction => direction_row(token),
        Symbol::StepTail => step_row(token),
        Symbol::Right => right_row(token),
        Symbol::RightTail => right_tail_row(token),
        Symbol::Answer => answer_row(token),
        Symbol::Argument => argument_row(token),
        Symbol::ArgumentsTail => arguments_row(token),
        Symbol::FurtherTail => further_row(token),
        Symbol::ValuesTail => values_row(token),
        Symbol::Lines => lines_row(token),
        Symbol::AfterInt => after_int_row(token),
        Symbol::Procedures => procedures_row(token),
        Symbol::BoundsTail => bounds_row(token),
        Symbol::ItemsTail => items_row(token),
        Symbol::Constant => constant_row(token),
        Symbol::Atom => atom_row(token),
        Symbol::LiteralsTail => literals_row(token),
        Symbol::ParametersTail => parameters_row(token),
        Symbol::NamesTail => names_row(token),
        Symbol::MainTail => main_row(token),
        Symbol::Locals => locals_row(token),
        _ => wanted_row(symbol, token),
    }
}

/// Whether a symbol needs no token.
pub fn vanishes(symbol: Symbol) -> bool
    ensures { result ≡ vanishes symbol }
{
    matches!(
        symbol,
        Symbol::LevelEnd
            | Symbol::OrTail
            | Symbol::AndTail
            | Symbol::RelTail
            | Symbol::TermTail
            | Symbol::TimesTail
            | Symbol::IndexTail
            | Symbol::Statement
            | Symbol::RowTail
            | Symbol::ElseTail
            | Symbol::StepTail
            | Symbol::RightTail
            | Symbol::Answer
            | Symbol::ArgumentsTail
            | Symbol::FurtherTail
            | Symbol::ValuesTail
            | Symbol::Lines
            | Symbol::Procedures
            | Symbol::BoundsTail
            | Symbol::ItemsTail
            | Symbol::LiteralsTail
            | Symbol::ParametersTail
            | Symbol::NamesTail
            | Symbol::MainTail
            | Symbol::Locals
    )
}
