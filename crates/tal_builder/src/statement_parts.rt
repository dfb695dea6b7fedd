//! Statements put together from what was found, as `expression_parts` does for expressions.

ghost use Rattle.std.specs.Prelude.{◌≡◌, [], ◌∷◌, ◌++◌, IfOk, OnOk};
ghost use Rattle.tal_syntax.specs.Grammar as g;
ghost use Rattle.tal_syntax.specs.Seen.{seen_expr, seen_direction, seen_step, seen_statement, seen_otherwise};
ghost use Rattle.tal_syntax.specs.Seen.{seen_row};

use crate::first::Named;
use gd_words::{Boxed, List, NoMemory};
use std::alloc::Global;
use tal_syntax::{Direction, Expr, ForHead, Next, Otherwise, Statement, Step, Test, Until};
use tal_tokens::At;

/// The empty statement.
#[inline(never)]
pub fn nothing_of(alloc: Global) -> Result<Boxed<Statement>, NoMemory>
    ensures { IfOk result (λ s. seen_statement s ≡ g.nothing) }
{
    let statement = Boxed::new(alloc, Statement::Nothing)?;
    Ok(statement)
}

/// Adds `";" statement` at the end.
#[inline(never)]
pub fn add_statement(
    all: &mut List<Next>,
    semicolon: At,
    statement: Boxed<Statement>,
) -> Result<(), NoMemory>
    ensures { OnOk result (all.new ≡ all.old ++ record { semicolon = semicolon; statement = statement } ∷ []) }
{
    let statement = statement.into_inner();
    all.push(Next {
        semicolon,
        statement,
    })?;
    Ok(())
}

/// `BEGIN statement { ";" statement } END`
#[inline(never)]
pub fn block_of(
    alloc: Global,
    begin: At,
    first: Boxed<Statement>,
    more: List<Next>,
    end: At,
) -> Result<Boxed<Statement>, NoMemory>
    ensures { IfOk result (λ s. seen_statement s ≡ g.block begin (seen_statement first) (seen_row more) end) }
{
    let statement = Boxed::new(alloc, Statement::Block(begin, first, more, end))?;
    Ok(statement)
}

/// What stands before the statement inside an IF or a WHILE.
#[inline(never)]
pub fn test_of(alloc: Global, head: At, test: Boxed<Expr>, end: At) -> Result<Boxed<Test>, NoMemory>
    ensures { IfOk result (λ t. t ≡ record { head = head; test = test; end = end }) }
{
    let test = test.into_inner();
    let test = Boxed::new(alloc, Test { head, test, end })?;
    Ok(test)
}

/// `IF expr THEN statement [ ELSE statement ]`
#[inline(never)]
pub fn if_of(
    alloc: Global,
    test: Boxed<Test>,
    inner: Boxed<Statement>,
    otherwise: Otherwise,
) -> Result<Boxed<Statement>, NoMemory>
    ensures { IfOk result (λ s. seen_statement s
        ≡ g.if_then test.head (seen_expr test.test) test.end (seen_statement inner) (seen_otherwise otherwise)) }
{
    let statement = Boxed::new(alloc, Statement::If(test, inner, otherwise))?;
    Ok(statement)
}

/// `WHILE expr DO statement`
#[inline(never)]
pub fn while_of(
    alloc: Global,
    test: Boxed<Test>,
    inner: Boxed<Statement>,
) -> Result<Boxed<Statement>, NoMemory>
    ensures { IfOk result (λ s. seen_statement s
        ≡ g.while_do test.head (seen_expr test.test) test.end (seen_statement inner)) }
{
    let statement = Boxed::new(alloc, Statement::While(test, inner))?;
    Ok(statement)
}

/// What stands before the statement inside a FOR.
#[inline(never)]
pub fn for_head_of(
    alloc: Global,
    head: At,
    named: Named,
    set_at: At,
    from: Boxed<Expr>,
    direction: Direction,
    to: Boxed<Expr>,
    step: Step,
    do_at: At,
) -> Result<Boxed<ForHead>, NoMemory>
    ensures { IfOk result (λ f. f ≡ record {
      head = head;
      at = named.at;
      name = named.name;
      set_at = set_at;
      from = from;
      direction = direction;
      to = to;
      step = step;
      do_at = do_at;
    }) }
{
    let from = from.into_inner();
    let to = to.into_inner();
    let counted = ForHead {
        head,
        at: named.at,
        name: named.name,
        set_at,
        from,
        direction,
        to,
        step,
        do_at,
    };
    let counted = Boxed::new(alloc, counted)?;
    Ok(counted)
}

/// `FOR name ":=" expr ( TO | DOWNTO ) expr [ BY constant ] DO statement`
#[inline(never)]
pub fn for_of(
    alloc: Global,
    counted: Boxed<ForHead>,
    inner: Boxed<Statement>,
) -> Result<Boxed<Statement>, NoMemory>
    ensures { IfOk result (λ s. seen_statement s
        ≡ g.for_do counted.head counted.at counted.name counted.set_at (seen_expr counted.from)
        (seen_direction counted.direction) (seen_expr counted.to) (seen_step counted.step) counted.do_at
        (seen_statement inner)) }
{
    let statement = Boxed::new(alloc, Statement::For(counted, inner))?;
    Ok(statement)
}

/// What stands around the statement inside a DO.
#[inline(never)]
pub fn until_of(
    alloc: Global,
    head: At,
    at: At,
    test: Boxed<Expr>,
) -> Result<Boxed<Until>, NoMemory>
    ensures { IfOk result (λ u. u ≡ record { head = head; at = at; test = test }) }
{
    let test = test.into_inner();
    let until = Boxed::new(alloc, Until { head, at, test })?;
    Ok(until)
}

/// `DO statement UNTIL expr`
#[inline(never)]
pub fn do_of(
    alloc: Global,
    inner: Boxed<Statement>,
    until: Boxed<Until>,
) -> Result<Boxed<Statement>, NoMemory>
    ensures { IfOk result (λ s. seen_statement s
        ≡ g.do_until until.head (seen_statement inner) until.at (seen_expr until.test)) }
{
    let statement = Boxed::new(alloc, Statement::DoUntil(inner, until))?;
    Ok(statement)
}
