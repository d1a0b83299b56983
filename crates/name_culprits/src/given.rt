//! What statements give names (ANSI X3.9-1978, 8.1, 8.4, 8.6 and 15.4).

ghost use Rattle.std.specs.Prelude.{◌≡◌, [], Bool, IfOk};
ghost use Rattle.meaning.specs.NameRules.{given_by};
ghost use Rattle.meaning.specs.Syntax.{shape_tree};
ghost use Rattle.meaning.specs.Uses.{Symbols as Said, is_one_of};
ghost use Rattle.symbols.specs.Listed.{trees_at};
ghost use Rattle.symbols.specs.SymbolsAt.{symbols_at};
ghost use Rattle.name_uses.specs.Held.{AreNames, names_at};
ghost use Rattle.symbols.specs.Stages.{IsBehind};
ghost use Rattle.rule_passes.specs.Telling.{Finds};
ghost use Rattle.name_uses.specs.NamesIn.{AreDefined, bounded, constant, declared, defined, typed};
ghost use Rattle.name_uses.specs.NamesIn.{valued};
ghost use Rattle.name_culprits.specs.Names.{giving_line, names_by};
ghost use Rattle.name_culprits.specs.GivesAt.{gives_at};

use crate::culprit::Giving;
use meaning::syntax::{Declarator, Item, NamedConstant, Shape};
use std::alloc::{AllocError, Global};
use symbols::{Stage, Symbols, declarators_in, defined_by};

/// The names in a type or DIMENSION statement.
fn declared_names<'a>(
    alloc: Global,
    declarators: &'a [Declarator],
) -> Result<Vec<&'a [u8]>, AllocError>
    ensures { IfOk result (AreNames (declared declarators.now)) }
{
    let mut names = Vec::new(alloc);
    for declarator in declarators {
        names.push(declarator.name.as_slice())?;
    }
    Ok(names)
}

/// Those that it gives bounds.
fn bounded_names<'a>(
    alloc: Global,
    declarators: &'a [Declarator],
) -> Result<Vec<&'a [u8]>, AllocError>
    ensures { IfOk result (AreNames (bounded declarators.now)) }
{
    let mut names = Vec::new(alloc);
    for declarator in declarators {
        if declarator.bounds.len() > 0 {
            names.push(declarator.name.as_slice())?;
        }
    }
    Ok(names)
}

/// The names of constants.
fn constant_names<'a>(
    alloc: Global,
    constants: &'a [NamedConstant],
) -> Result<Vec<&'a [u8]>, AllocError>
    ensures { IfOk result (AreNames (constant constants.now)) }
{
    let mut names = Vec::new(alloc);
    for constant in constants {
        names.push(constant.name.as_slice())?;
    }
    Ok(names)
}

/// The names in a type statement.
#[tactic(auto, using(crate::proofs::Lines::typed_names))]
fn typed_names<'a>(alloc: Global, shape: &'a Shape) -> Result<Vec<&'a [u8]>, AllocError>
    ensures { IfOk result (AreNames (typed (shape_tree shape.now))) }
{
    match shape {
        Shape::Integer(declarators) => declared_names(alloc, declarators),
        Shape::Logical(declarators) => declared_names(alloc, declarators),
        _ => Ok(Vec::new(alloc)),
    }
}

/// The names in a PARAMETER statement.
fn valued_names<'a>(alloc: Global, shape: &'a Shape) -> Result<Vec<&'a [u8]>, AllocError>
    ensures { IfOk result (AreNames (valued (shape_tree shape.now))) }
{
    match shape {
        Shape::Parameter(constants) => constant_names(alloc, constants),
        _ => Ok(Vec::new(alloc)),
    }
}

/// The name of the statement function that a statement defines.
fn function_name<'a>(
    alloc: Global,
    symbols: &Symbols,
    shape: &'a Shape,
) -> Result<Vec<&'a [u8]>, AllocError>
    ensures { IfOk result (AreNames (defined (symbols_at symbols.now) (shape_tree shape.now))) }
{
    let mut names = Vec::new(alloc);
    match defined_by(&symbols.ranks, shape) {
        Some(function) => names.push(function.name)?,
        None => {}
    }
    Ok(names)
}

/// That name, if the statement is a statement function's.
fn defined_names<'a>(
    alloc: Global,
    symbols: &Symbols,
    defines: bool,
    shape: &'a Shape,
) -> Result<Vec<&'a [u8]>, AllocError>
    ensures { IfOk result (AreDefined defines (symbols_at symbols.now) (shape_tree shape.now)) }
{
    if defines {
        function_name(alloc, symbols, shape)
    } else {
        Ok(Vec::new(alloc))
    }
}

/// The names that a statement gives bounds.
fn arrays_in<'a>(alloc: Global, shape: &'a Shape) -> Result<Vec<&'a [u8]>, AllocError>
    ensures { (said : Said) (defines : Bool) →
        IfOk result (AreNames (given_by said defines (shape_tree shape.now)).bounded) }
{
    bounded_names(alloc, declarators_in(shape))
}

/// The names that it gives bounds or an expression.
fn shaped_names<'a>(
    alloc: Global,
    symbols: &Symbols,
    defines: bool,
    shape: &'a Shape,
) -> Result<Vec<&'a [u8]>, AllocError>
    ensures { IfOk result
        (AreNames
        (names_by Giving.Either
        (given_by (symbols_at symbols.now) defines (shape_tree shape.now)))) }
{
    let mut names = arrays_in(alloc, shape)?;
    let more = defined_names(alloc, symbols, defines, shape)?;
    names.extend_from_slice(&more)?;
    Ok(names)
}

/// The names that a statement gives something; it defines a statement function or doesn't.
pub fn names_given<'a>(
    alloc: Global,
    symbols: &Symbols,
    defines: bool,
    shape: &'a Shape,
    giving: Giving,
) -> Result<Vec<&'a [u8]>, AllocError>
    ensures { IfOk result
        (AreNames
        (names_by giving (given_by (symbols_at symbols.now) defines (shape_tree shape.now)))) }
{
    match giving {
        Giving::Typed => typed_names(alloc, shape),
        Giving::Bounds => arrays_in(alloc, shape),
        Giving::Value => valued_names(alloc, shape),
        Giving::Expression => defined_names(alloc, symbols, defines, shape),
        Giving::Either => shaped_names(alloc, symbols, defines, shape),
    }
}

/// Whether a name is one of these.
pub fn is_among(names: &[&[u8]], name: &[u8]) -> bool
    ensures { result ≡ is_one_of (names_at names.now) name.now }
{
    for one in names {
        if name == *one {
            return true;
        }
    }
    false
}

/// Whether the statement that comes now gives a name something.
fn gives(
    alloc: Global,
    symbols: &Symbols,
    stage: &Stage,
    item: &Item,
    giving: Giving,
    name: &[u8],
) -> Result<bool, AllocError>
    ensures { IfOk result
        (Finds (IsBehind symbols.now stage.now) (gives_at symbols.now giving item.now name.now)) }
{
    let defines = stage.is_defining(symbols, item);
    let names = names_given(alloc, symbols, defines, &*item.form.shape, giving)?;
    Ok(is_among(&names, name))
}

/// The line of the first of some statements that gives a name something.
pub fn line_giving(
    alloc: Global,
    symbols: &Symbols,
    before: &[&Item],
    giving: Giving,
    name: &[u8],
) -> Result<Option<u32>, AllocError>
    ensures { IfOk
        result (λ l. l
        ≡ giving_line (symbols_at symbols.now) giving [] (trees_at before.now) name.now) }
{
    let mut stage = Stage::new();
    for item in before {
        let is_there = gives(alloc, symbols, &stage, item, giving, name)?;
        if is_there {
            return Ok(Some(item.line));
        }
        stage.pass(symbols, item);
    }
    Ok(None)
}
