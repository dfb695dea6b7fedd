ghost use Rattle.std.specs.Prelude.{◌≡◌, OnOk, IfOk, None};
ghost use Rattle.tal_names.specs.Faults.{least};
ghost use Rattle.tal_declarations.specs.Globals.{is_taken, taken_faults, atom_of, constant_meaning, first_of_atom};
ghost use Rattle.tal_declarations.specs.Globals.{first_of_constant, literal_faults, constant_faults, literal_value};
ghost use Rattle.tal_declarations.specs.Globals.{constant_value, atom_value, negated, bounds_by, is_reversed};
ghost use Rattle.tal_declarations.specs.Globals.{bounds_faults, array_by, extent_of, item_limits, item_faults};
ghost use Rattle.tal_declarations.specs.Globals.{item_meaning, with_extent, with_item, literal_line_faults};
ghost use Rattle.tal_declarations.specs.Globals.{with_literal, items_faults, with_items, literals_faults};
ghost use Rattle.tal_declarations.specs.Globals.{with_literals, line_faults, with_line, lines_faults, with_lines};
ghost use Rattle.tal_declarations.specs.Globals.{nothing_declared};
ghost use Rattle.tal_syntax.specs.Seen.{seen_atom, seen_constant, seen_bounds, seen_item, seen_items, seen_literal};
ghost use Rattle.tal_syntax.specs.Seen.{seen_literals, seen_globals, seen_lines};

use crate::table::{Declared, Extent};
use gd_words::limits::{MOST_ARRAY_WORDS, MOST_GLOBAL_WORDS, MOST_GLOBALS};
use gd_words::{Ident, List, NoMemory, wrap_neg};
use std::alloc::Global;
use tal_names::fault::{Rule, RuleFault};
use tal_names::least::{with_fault, with_fault_if};
use tal_names::meaning::Meaning;
use tal_names::names::Names;
use tal_names::system::system_of;
use tal_syntax::{At, Atom, Bounds, Constant, Globals, Item, Literal, NextItem, NextLiteral};
use tal_tree::{ProgramLimit, Shape};

/// Whether a name can't be declared.
pub fn is_taken(names: &Names, name: Ident) -> bool
    ensures { result ≡ is_taken names.now name }
{
    system_of(name).is_some() || names.is_declared(name)
}

/// Judges a name that is declared.
pub fn judge_taken(
    names: &Names,
    at: At,
    name: Ident,
    so_far: Option<RuleFault>,
) -> Option<RuleFault>
    ensures { result ≡ least so_far (taken_faults names.now at name) }
{
    with_fault_if(so_far, is_taken(names, name), at, Rule::Twice)
}

/// The number or name of a constant.
pub fn atom_of(constant: &Constant) -> &Atom
    ensures { seen_atom result.now ≡ atom_of (seen_constant constant.now) }
{
    match constant {
        Constant::Positive(atom) => atom,
        Constant::Negative(_, atom) => atom,
    }
}

/// What the name of a constant is declared as.
fn constant_meaning(names: &Names, constant: &Constant) -> Option<Meaning>
    ensures { result ≡ constant_meaning names.now (seen_constant constant.now) }
{
    match atom_of(constant) {
        Atom::Number(_, _) => None,
        Atom::Name(_, name) => names.meaning(*name),
    }
}

/// The first token of a number or name.
fn at_of_atom(atom: &Atom) -> At
    ensures { result ≡ first_of_atom (seen_atom atom.now) }
{
    match atom {
        Atom::Number(at, _) => *at,
        Atom::Name(at, _) => *at,
    }
}

/// The first token of a constant.
pub fn at_of_constant(constant: &Constant) -> At
    ensures { result ≡ first_of_constant (seen_constant constant.now) }
{
    match constant {
        Constant::Positive(atom) => at_of_atom(atom),
        Constant::Negative(sign, _) => *sign,
    }
}

/// Judges the name of a constant.
fn judge_literal(at: At, named: Option<Meaning>, so_far: Option<RuleFault>) -> Option<RuleFault>
    ensures { result ≡ least so_far (literal_faults at named) }
{
    match named {
        None => with_fault(so_far, at, Rule::Unknown),
        Some(Meaning::Literal(_)) => so_far,
        Some(_) => with_fault(so_far, at, Rule::WrongKind),
    }
}

/// Judges a constant whose name, if it has one, is declared as `named`.
pub fn judge_constant(
    constant: &Constant,
    named: Option<Meaning>,
    so_far: Option<RuleFault>,
) -> Option<RuleFault>
    ensures { result ≡ least so_far (constant_faults (seen_constant constant.now) named) }
{
    match atom_of(constant) {
        Atom::Number(_, _) => so_far,
        Atom::Name(at, _) => judge_literal(*at, named, so_far),
    }
}

fn literal_value(named: Option<Meaning>) -> Option<i16>
    ensures { result ≡ literal_value named }
{
    match named {
        None => None,
        Some(Meaning::Literal(value)) => Some(value),
        Some(_) => None,
    }
}

fn atom_value(atom: &Atom, named: Option<Meaning>) -> Option<i16>
    ensures { result ≡ atom_value (seen_atom atom.now) named }
{
    match atom {
        Atom::Number(_, value) => Some(*value),
        Atom::Name(_, _) => literal_value(named),
    }
}

/// The word that a constant is, where its name, if it has one, is declared as `named`.
pub fn constant_value(constant: &Constant, named: Option<Meaning>) -> Option<i16>
    ensures { result ≡ constant_value (seen_constant constant.now) named }
{
    match constant {
        Constant::Positive(atom) => atom_value(atom, named),
        Constant::Negative(_, atom) => match atom_value(atom, named) {
            None => None,
            Some(value) => Some(wrap_neg(value)),
        },
    }
}

/// Whether both bounds are words and the low one is above the high one.
fn is_reversed(low: Option<i16>, high: Option<i16>) -> bool
    ensures { result ≡ is_reversed low high }
{
    match low {
        None => false,
        Some(low) => match high {
            None => false,
            Some(high) => high < low,
        },
    }
}

/// The shape of an array and its words.
fn array_by(low: Option<i16>, high: Option<i16>) -> Extent
    ensures { result ≡ array_by (bounds_by low high) }
{
    let empty = Extent {
        shape: Shape::Simple,
        words: 0,
    };
    match low {
        None => empty,
        Some(low) => match high {
            None => empty,
            Some(high) => {
                if high < low {
                    return empty;
                }
                Extent {
                    shape: Shape::Array { low, high },
                    words: u32::from(high.abs_diff(low)) + 1,
                }
            }
        },
    }
}

/// Judges the bounds of an item.
#[tactic(auto, using(crate::proofs::Parts::parts))]
fn judge_bounds(names: &Names, bounds: &Bounds, so_far: Option<RuleFault>) -> Option<RuleFault>
    ensures { result ≡ least so_far (bounds_faults names.now (seen_bounds bounds.now)) }
{
    match bounds {
        Bounds::Simple => so_far,
        Bounds::Array(_, low, _, high, _) => {
            let low_named = constant_meaning(names, low);
            let high_named = constant_meaning(names, high);
            let so_far = judge_constant(low, low_named, so_far);
            let so_far = judge_constant(high, high_named, so_far);
            let reversed = is_reversed(
                constant_value(low, low_named),
                constant_value(high, high_named),
            );
            with_fault_if(so_far, reversed, at_of_constant(high), Rule::WrongKind)
        }
    }
}

/// The shape of an item and its words.
fn extent_of(names: &Names, bounds: &Bounds) -> Extent
    ensures { result ≡ extent_of names.now (seen_bounds bounds.now) }
{
    match bounds {
        Bounds::Simple => Extent {
            shape: Shape::Simple,
            words: 1,
        },
        Bounds::Array(_, low, _, high, _) => array_by(
            constant_value(low, constant_meaning(names, low)),
            constant_value(high, constant_meaning(names, high)),
        ),
    }
}

/// Judges whether an item of so many words is past a limit.
#[tactic(auto, using(crate::proofs::Parts::parts))]
fn judge_limits(
    declared: &Declared,
    at: At,
    words: u32,
    so_far: Option<RuleFault>,
) -> Option<RuleFault>
    ensures { result ≡ least so_far (item_limits declared.now at words) }
{
    let past_names = declared.items.len() >= MOST_GLOBALS;
    let past_words = MOST_GLOBAL_WORDS < declared.words.saturating_add(words);
    let so_far = with_fault_if(so_far, past_names, at, Rule::Limit(ProgramLimit::Globals));
    let so_far = with_fault_if(
        so_far,
        past_words,
        at,
        Rule::Limit(ProgramLimit::GlobalWords),
    );
    with_fault_if(
        so_far,
        MOST_ARRAY_WORDS < words,
        at,
        Rule::Limit(ProgramLimit::ArrayWords),
    )
}

/// Judges an item.
#[tactic(auto, using(crate::proofs::Parts::parts))]
fn judge_item(declared: &Declared, item: &Item, so_far: Option<RuleFault>) -> Option<RuleFault>
    ensures { result ≡ least so_far (item_faults declared.now (seen_item item.now)) }
{
    let so_far = judge_taken(&declared.names, item.at, item.name, so_far);
    let so_far = judge_bounds(&declared.names, &item.bounds, so_far);
    let words = extent_of(&declared.names, &item.bounds).words;
    judge_limits(declared, item.at, words, so_far)
}

/// What an item is declared as after so many others.
fn item_meaning(shape: Shape, before: usize) -> Meaning
    ensures { result ≡ item_meaning shape before }
{
    let number = before.min(MOST_GLOBALS) as u16;
    match shape {
        Shape::Simple => Meaning::Simple(number),
        Shape::Array { low: _, high: _ } => Meaning::Array(number),
        Shape::File(_) => Meaning::Simple(number),
    }
}

/// Declares an item.
fn declare_item(declared: &mut Declared, item: &Item) -> Result<(), NoMemory>
    ensures { OnOk result (declared.new ≡ with_item declared.old (seen_item item.now)) }
{
    let extent = extent_of(&declared.names, &item.bounds);
    let meaning = item_meaning(extent.shape, declared.items.len());
    declared.names.declare(item.name, meaning)?;
    declared.items.push(tal_tree::Item {
        name: item.name,
        shape: extent.shape,
    })?;
    declared.words = declared
        .words
        .saturating_add(extent.words)
        .min(MOST_GLOBAL_WORDS + 1);
    Ok(())
}

/// Judges and declares a LITERAL.
#[tactic(auto, using(crate::proofs::Parts::parts))]
fn declare_literal(
    declared: &mut Declared,
    literal: &Literal,
    so_far: Option<RuleFault>,
) -> Result<Option<RuleFault>, NoMemory>
    ensures least { IfOk result (λ o. o ≡ least so_far (literal_line_faults declared.old (seen_literal literal.now))) }
    ensures declared { OnOk result (declared.new ≡ with_literal declared.old (seen_literal literal.now)) }
{
    let named = constant_meaning(&declared.names, &literal.constant);
    let value = constant_value(&literal.constant, named).unwrap_or(0);
    let meaning = Meaning::Literal(value);
    let before = declared.names.declare(literal.name, meaning)?;
    let taken = system_of(literal.name).is_some() || before;
    let so_far = with_fault_if(so_far, taken, literal.at, Rule::Twice);
    Ok(judge_constant(&literal.constant, named, so_far))
}

/// Judges and declares the items that are left of a line.
fn declare_items(
    declared: &mut Declared,
    more: &[NextItem],
    so_far: Option<RuleFault>,
) -> Result<Option<RuleFault>, NoMemory>
    ensures least { IfOk result (λ o. o ≡ least so_far (items_faults declared.old (seen_items more.now))) }
    ensures declared { OnOk result (declared.new ≡ with_items declared.old (seen_items more.now)) }
{
    let mut so_far = so_far;
    for next in more {
        so_far = judge_item(declared, &next.item, so_far);
        declare_item(declared, &next.item)?;
    }
    Ok(so_far)
}

/// Judges and declares the LITERALs that are left of a line.
fn declare_literals(
    declared: &mut Declared,
    more: &[NextLiteral],
    so_far: Option<RuleFault>,
) -> Result<Option<RuleFault>, NoMemory>
    ensures least { IfOk result (λ o. o ≡ least so_far (literals_faults declared.old (seen_literals more.now))) }
    ensures declared { OnOk result (declared.new ≡ with_literals declared.old (seen_literals more.now)) }
{
    let mut so_far = so_far;
    for next in more {
        so_far = declare_literal(declared, &next.literal, so_far)?;
    }
    Ok(so_far)
}

/// Judges and declares what a line of globals declares.
#[tactic(auto, using(crate::proofs::Parts::parts))]
fn declare_line(
    declared: &mut Declared,
    line: &Globals,
    so_far: Option<RuleFault>,
) -> Result<Option<RuleFault>, NoMemory>
    ensures least { IfOk result (λ o. o ≡ least so_far (line_faults declared.old (seen_globals line.now))) }
    ensures declared { OnOk result (declared.new ≡ with_line declared.old (seen_globals line.now)) }
{
    match line {
        Globals::Int(line) => {
            let so_far = judge_item(declared, &line.first, so_far);
            declare_item(declared, &line.first)?;
            declare_items(declared, line.more.as_slice(), so_far)
        }
        Globals::Literal(line) => {
            let so_far = declare_literal(declared, &line.first, so_far)?;
            declare_literals(declared, line.more.as_slice(), so_far)
        }
    }
}

/// Judges the lines of globals, and what they declare.
pub fn declared_by(
    declared: &mut Declared,
    lines: &[Globals],
) -> Result<Option<RuleFault>, NoMemory>
    ensures least { IfOk result (λ o. o ≡ least None (lines_faults declared.old (seen_lines lines.now))) }
    ensures declared { OnOk result (declared.new ≡ with_lines declared.old (seen_lines lines.now)) }
{
    let mut so_far = None;
    for line in lines {
        so_far = declare_line(declared, line, so_far)?;
    }
    Ok(so_far)
}

/// Nothing is declared.
pub fn nothing_declared(alloc: Global) -> Declared
    ensures { result ≡ nothing_declared }
{
    Declared {
        names: Names::new(alloc),
        items: List::new(alloc),
        words: 0,
    }
}
