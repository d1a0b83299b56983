//! What statements give names: a type, bounds, a value, an expression (ANSI X3.9-1978, 8.1, 8.4,
//! 8.6 and 15.4).

ghost use Rattle.std.specs.Prelude.{IfOk};
ghost use Rattle.meaning.specs.NameRules.{given_by as by_shape};
ghost use Rattle.meaning.specs.Syntax.{shape_tree};
ghost use Rattle.symbols.specs.SymbolsAt.{symbols_at};
ghost use Rattle.name_uses.specs.Held.{AreNames};
ghost use Rattle.name_rules.specs.GivenAt.{IsGiven};
ghost use Rattle.name_uses.specs.NamesIn.{AreDefined, bounded as names_bounded};
ghost use Rattle.name_uses.specs.NamesIn.{constant as names_constant, declared as names_declared};
ghost use Rattle.name_uses.specs.NamesIn.{defined as names_defined, typed as names_typed};
ghost use Rattle.name_uses.specs.NamesIn.{valued as names_valued};

use meaning::syntax::{Declarator, NamedConstant, Shape};
use std::alloc::{AllocError, Global};
use symbols::{Symbols, declarators_in, defined_by};

/// The names that a statement gives a type, bounds, a value, an expression as a statement function.
pub struct Given<'a> {
    pub typed: Vec<&'a [u8]>,
    pub bounded: Vec<&'a [u8]>,
    pub valued: Vec<&'a [u8]>,
    pub defined: Vec<&'a [u8]>,
}

impl Drop for Given<'_> {
    fn drop(self) {
        let Given {
            typed,
            bounded,
            valued,
            defined,
        } = self;
        drop(typed);
        drop(bounded);
        drop(valued);
        drop(defined);
    }
}

/// The names in a type or DIMENSION statement.
pub fn declared_names<'a>(
    alloc: Global,
    declarators: &'a [Declarator],
) -> Result<Vec<&'a [u8]>, AllocError>
    ensures { IfOk result (AreNames (names_declared declarators.now)) }
{
    let mut names = Vec::new(alloc);
    for declarator in declarators {
        names.push(declarator.name.as_slice())?;
    }
    Ok(names)
}

/// Those that it gives bounds.
fn bounded_names<'a>(
    alloc: Global,
    declarators: &'a [Declarator],
) -> Result<Vec<&'a [u8]>, AllocError>
    ensures { IfOk result (AreNames (names_bounded declarators.now)) }
{
    let mut names = Vec::new(alloc);
    for declarator in declarators {
        if declarator.bounds.len() > 0 {
            names.push(declarator.name.as_slice())?;
        }
    }
    Ok(names)
}

/// The names in a type statement.
#[tactic(auto, using(crate::proofs::GivenMore::typed_names))]
fn typed_names<'a>(alloc: Global, shape: &'a Shape) -> Result<Vec<&'a [u8]>, AllocError>
    ensures { IfOk result (AreNames (names_typed (shape_tree shape.now))) }
{
    match shape {
        Shape::Integer(declarators) => declared_names(alloc, declarators),
        Shape::Logical(declarators) => declared_names(alloc, declarators),
        _ => Ok(Vec::new(alloc)),
    }
}

/// The names of constants.
fn constant_names<'a>(
    alloc: Global,
    constants: &'a [NamedConstant],
) -> Result<Vec<&'a [u8]>, AllocError>
    ensures { IfOk result (AreNames (names_constant constants.now)) }
{
    let mut names = Vec::new(alloc);
    for constant in constants {
        names.push(constant.name.as_slice())?;
    }
    Ok(names)
}

/// The names in a PARAMETER statement.
fn valued_names<'a>(alloc: Global, shape: &'a Shape) -> Result<Vec<&'a [u8]>, AllocError>
    ensures { IfOk result (AreNames (names_valued (shape_tree shape.now))) }
{
    match shape {
        Shape::Parameter(constants) => constant_names(alloc, constants),
        _ => Ok(Vec::new(alloc)),
    }
}

/// The name of the statement function that a statement defines.
fn function_name<'a>(
    alloc: Global,
    symbols: &Symbols,
    shape: &'a Shape,
) -> Result<Vec<&'a [u8]>, AllocError>
    ensures { IfOk result
        (AreNames (names_defined (symbols_at symbols.now) (shape_tree shape.now))) }
{
    let mut names = Vec::new(alloc);
    match defined_by(&symbols.ranks, shape) {
        Some(function) => names.push(function.name)?,
        None => {}
    }
    Ok(names)
}

/// That name, if the statement is a statement function's.
fn defined_names<'a>(
    alloc: Global,
    symbols: &Symbols,
    defines: bool,
    shape: &'a Shape,
) -> Result<Vec<&'a [u8]>, AllocError>
    ensures { IfOk result (AreDefined defines (symbols_at symbols.now) (shape_tree shape.now)) }
{
    if defines {
        function_name(alloc, symbols, shape)
    } else {
        Ok(Vec::new(alloc))
    }
}

/// What a statement gives names; it defines a statement function or doesn't.
pub fn given_by<'a>(
    alloc: Global,
    symbols: &Symbols,
    defines: bool,
    shape: &'a Shape,
) -> Result<Given<'a>, AllocError>
    ensures { IfOk result
        (IsGiven (by_shape (symbols_at symbols.now) defines (shape_tree shape.now))) }
{
    let typed = typed_names(alloc, shape)?;
    let bounded = bounded_names(alloc, declarators_in(shape))?;
    let valued = valued_names(alloc, shape)?;
    let defined = defined_names(alloc, symbols, defines, shape)?;
    Ok(Given {
        typed,
        bounded,
        valued,
        defined,
    })
}
