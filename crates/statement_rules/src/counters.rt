//! The variables of the DO statements around a statement (ANSI X3.9-1978, 11.10.5).

ghost use Rattle.std.specs.Prelude.{◌≡◌, OnOk};
ghost use Rattle.meaning.specs.Surroundings.{counted_by};
ghost use Rattle.meaning.specs.Syntax.{shape_tree};
ghost use Rattle.meaning.specs.Uses.{is_one_of};
ghost use Rattle.statement_rules.specs.Counters.{EntersCounter, counters, shape_variable};

use meaning::syntax::Shape;
use std::alloc::{AllocError, Global};

/// The variable that a DO statement counts with.
pub fn counter_of(shape: &Shape) -> Option<&[u8]>
    ensures { shape_variable result ≡ counted_by (shape_tree shape.now) }
{
    match shape {
        Shape::Do { variable, .. } => Some(variable),
        _ => None,
    }
}

/// Whether a name is one of the variables.
pub fn is_counter(variables: &[Vec<u8>], name: &[u8]) -> bool
    ensures { result ≡ is_one_of (counters variables.now) name.now }
{
    for variable in variables {
        if name == variable.as_slice() {
            return true;
        }
    }
    false
}

/// Puts the variable of a DO statement to those around, if it is one. The `AllocError` comes where
/// a growth was refused.
pub fn enter_counter(
    variables: &mut Vec<Vec<u8>>,
    alloc: Global,
    shape: &Shape,
) -> Result<(), AllocError>
    ensures { OnOk result (EntersCounter shape.now variables.old.items variables.new.items) }
{
    match counter_of(shape) {
        Some(variable) => {
            let own = Vec::from_slice(alloc, variable)?;
            variables.push(own)?;
            Ok(())
        }
        None => Ok(()),
    }
}
