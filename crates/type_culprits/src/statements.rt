//! Statements with something of the wrong type (ANSI X3.9-1978, chapter 6).

ghost use Rattle.std.specs.Prelude.{◌≡◌, IfOk};
ghost use Rattle.meaning.specs.Syntax.{shape_tree};
ghost use Rattle.symbols.specs.SymbolsAt.{symbols_at};
ghost use Rattle.type_culprits.specs.Clashes.{asker_of as asker_by, further_asker, wrong_in};
ghost use Rattle.type_culprits.specs.Told.{asker_at, tell};

use crate::clashes::first_asked;
use crate::culprit::{Asker, Place, TypeCulprit};
use crate::naming::{Naming, dummies_in};
use expectations::expectations_of;
use meaning::syntax::Shape;
use std::alloc::{AllocError, Global};
use symbols::Symbols;

/// What asks for the type of a statement's expressions.
fn asker_of(shape: &Shape) -> Asker
    ensures { asker_at result ≡ asker_by (shape_tree shape.now) }
{
    match shape {
        Shape::Assignment { name, .. } => Asker::Named(name),
        Shape::Definition(name, _) => Asker::Named(name),
        Shape::Write { .. } => Asker::At(Place::Limit),
        Shape::Print { .. } => Asker::At(Place::Limit),
        Shape::Do { .. } => Asker::At(Place::Limit),
        Shape::DoWhile { .. } => Asker::At(Place::Condition),
        Shape::LogicalIf(_, _) => Asker::At(Place::Condition),
        Shape::IfThen(_) => Asker::At(Place::Condition),
        Shape::ElseIf(_) => Asker::At(Place::Condition),
        Shape::Parameter(_) => Asker::At(Place::Constant),
        Shape::Data(_) => Asker::At(Place::Data),
        Shape::ComputedGoTo { .. } => Asker::At(Place::ComputedGoTo),
        Shape::ArithmeticIf { .. } => Asker::At(Place::ArithmeticIf),
        _ => Asker::At(Place::Bound),
    }
}

/// What asks for that of the expressions behind the first: of a logical IF the statement that it
/// has.
fn asker_behind(shape: &Shape) -> Asker
    ensures { asker_at result ≡ further_asker (shape_tree shape.now) }
{
    match shape {
        Shape::LogicalIf(_, statement) => asker_of(statement),
        _ => asker_of(shape),
    }
}

/// K5: the first expression of a statement that is of the wrong type; the statement defines a
/// statement function or doesn't.
///
/// # Errors
///
/// `AllocError` only where a growth was refused.
pub fn wrong_type<'a>(
    alloc: Global,
    symbols: &Symbols,
    defines: bool,
    shape: &'a Shape,
) -> Result<Option<TypeCulprit<'a>>, AllocError>
    ensures { IfOk
        result (λ c. tell c
        ≡ wrong_in (symbols_at symbols.now).names defines (shape_tree shape.now)) }
{
    let naming = Naming {
        symbols,
        dummies: dummies_in(defines, shape),
    };
    let expected = expectations_of(alloc, symbols, shape)?;
    Ok(first_asked(&naming, asker_of(shape), asker_behind(shape), &expected))
}
