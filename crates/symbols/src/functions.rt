//! Statement functions (ANSI X3.9-1978, 15.4).

ghost use Rattle.std.specs.Prelude.{◌≡◌, ℕ, List, is_some, map, option_map, IfOk};
ghost use Rattle.meaning.specs.Scopes.{defined_by as definition_by, definition_if, definitions_of};
ghost use Rattle.meaning.specs.Scopes.{is_specification as is_specification_statement};
ghost use Rattle.meaning.specs.Syntax.{expr_tree, shape_tree};
ghost use Rattle.symbols.specs.Functions.{definition_at, definition_named, dummies_at};
ghost use Rattle.name_maps.specs.Keeping.{kept_at};
ghost use Rattle.symbols.specs.Listed.{trees_at};
ghost use Rattle.symbols.specs.RanksAt.{arrays_at};

use crate::arrays::{Ranks, has_rank};
use indexmap::IndexMap;
use meaning::syntax::{Expr, Exprs, Item, Shape};
use name_maps::add_first;
use std::alloc::{AllocError, Global};

/// A statement function: its name, its dummies, if it has any, and its expression.
#[derive(Clone, Copy)]
pub struct Function<'a> {
    pub name: &'a [u8],
    pub dummies: Option<&'a Exprs>,
    pub body: &'a Expr,
}

/// The statement function with these parts, unless its name is that of an array.
fn function_if<'a>(
    ranks: &Ranks,
    name: &'a [u8],
    dummies: Option<&'a Exprs>,
    body: &'a Expr,
) -> Option<Function<'a>>
    ensures { option_map definition_at result
        ≡ definition_if (is_some (arrays_at ranks.now name.now)) name.now (dummies_at dummies.entry)
        (expr_tree body.now) }
{
    if has_rank(ranks, name) {
        None
    } else {
        Some(Function {
            name,
            dummies,
            body,
        })
    }
}

/// The statement function that a statement defines, if it stands before all executable statements
/// (ANSI X3.9-1978, 15.4.1).
pub fn defined_by<'a>(ranks: &Ranks, shape: &'a Shape) -> Option<Function<'a>>
    ensures { option_map definition_at result
        ≡ definition_by (arrays_at ranks.now) (shape_tree shape.now) }
{
    match shape {
        Shape::Assignment {
            name,
            subscripts,
            value,
        } => match subscripts {
            Exprs::Empty => None,
            Exprs::More(_, _) => function_if(ranks, name, Some(subscripts), value),
        },
        Shape::Definition(name, value) => function_if(ranks, name, None, value),
        _ => None,
    }
}

/// Whether a statement is a PROGRAM, IMPLICIT, IMPLICIT NONE, PARAMETER, type, DIMENSION, DATA or
/// FORMAT statement (ANSI X3.9-1978, chapter 7).
pub fn is_specification(shape: &Shape) -> bool
    ensures { result ≡ is_specification_statement (shape_tree shape.now) }
{
    match shape {
        Shape::Program(_) => true,
        Shape::Implicit(_) => true,
        Shape::ImplicitNone => true,
        Shape::Parameter(_) => true,
        Shape::Integer(_) => true,
        Shape::Logical(_) => true,
        Shape::Dimension(_) => true,
        Shape::Data(_) => true,
        Shape::Format(_) => true,
        _ => false,
    }
}

/// The statement functions of a program unit, first to last: those before all executable
/// statements.
pub fn functions_of<'a>(
    alloc: Global,
    ranks: &Ranks,
    items: &[&'a Item],
) -> Result<Vec<Function<'a>>, AllocError>
    ensures { IfOk
        result (λ found. map definition_at found.items
        ≡ definitions_of (arrays_at ranks.now) (trees_at items.now)) }
{
    let mut found = Vec::new(alloc);
    for item in items {
        let shape = &*item.form.shape;
        match defined_by(ranks, shape) {
            Some(function) => found.push(function)?,
            None => {
                if !is_specification(shape) {
                    return Ok(found);
                }
            }
        }
    }
    Ok(found)
}

/// Statement functions by their names, the first of each name.
pub fn functions_by_name<'a>(
    alloc: Global,
    functions: &[Function<'a>],
) -> Result<IndexMap<Vec<u8>, Function<'a>>, AllocError>
    ensures { IfOk
        result (λ kept. (n : List ℕ) → option_map definition_at (kept_at kept n)
        ≡ definition_named (map definition_at functions.now) n) }
{
    let mut kept = IndexMap::new(alloc);
    for function in functions {
        add_first(&mut kept, alloc, function.name, *function)?;
    }
    Ok(kept)
}
