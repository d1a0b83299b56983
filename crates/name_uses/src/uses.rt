//! Uses of names in expressions (ANSI X3.9-1978, 5.3, 6.1 and 15.2).

ghost use Rattle.std.specs.Prelude.{◌≡◌, ◌++◌, ◌∷◌, [], Bool, flat_map, option_map, OnOk};
ghost use Rattle.std.specs.List.{filter, list_any};
ghost use Rattle.meaning.specs.Syntax.{expr_tree, exprs_tree, limits_tree, unit_tree};
ghost use Rattle.meaning.specs.Typing.{option_list};
ghost use Rattle.meaning.specs.Uses.{Use, limit_uses, unit_uses, uses_in, uses_in_all};
ghost use Rattle.name_uses.specs.UsesAt.{arguments_at, use_at, uses_at};

use meaning::syntax::{Expr, Exprs, Limits, Unit};
use std::alloc::AllocError;

/// What stands behind a name in parentheses.
#[derive(Clone, Copy)]
pub enum Arguments<'a> {
    /// No parentheses.
    Bare,
    /// Parentheses with nothing in them.
    Without,
    /// Subscripts or arguments, one at least.
    With(&'a Exprs),
}

/// A use of a name.
#[derive(Clone, Copy)]
pub struct NameUse<'a> {
    pub name: &'a [u8],
    pub arguments: Arguments<'a>,
}

/// A test of uses of names.
pub trait Sought {
    /// Whether a use passes.
    ghost is_use: { Self → Use → Bool };

    /// Whether a use passes.
    fn is(&self, one: &NameUse) -> bool
        ensures { result ≡ is_use self.now (use_at one.now) };
}

/// Puts a use behind those that are there.
pub fn add_use<'a>(
    uses: &mut Vec<NameUse<'a>>,
    name: &'a [u8],
    arguments: Arguments<'a>,
) -> Result<(), AllocError>
    ensures { OnOk result
        (uses_at uses.new.items ≡ uses_at uses.old.items
        ++ record { name = name.now; arguments = arguments_at arguments.entry } ∷ []) }
{
    uses.push(NameUse { name, arguments })?;
    Ok(())
}

/// Puts the uses in an expression behind those that are there, from the left.
#[cycle(uses)]
#[tactic(auto, using(symbols::proofs::Passes::appended, symbols::proofs::Passes::nothing_more))]
pub fn add_uses<'a>(uses: &mut Vec<NameUse<'a>>, expression: &'a Expr) -> Result<(), AllocError>
    ensures { OnOk result
        (uses_at uses.new.items ≡ uses_at uses.old.items ++ uses_in (expr_tree expression.now)) }
{
    match expression {
        Expr::Number(_) | Expr::Truth(_) => Ok(()),
        Expr::Name(name) => add_use(uses, name, Arguments::Bare),
        Expr::Signed(_, operand) => add_uses(uses, operand),
        Expr::Not(operand) => add_uses(uses, operand),
        Expr::Binary(_, left, right) => {
            add_uses(uses, left)?;
            add_uses(uses, right)
        }
        Expr::Paren(operand) => add_uses(uses, operand),
        Expr::Call(name) => add_use(uses, name, Arguments::Without),
        Expr::Element(name, arguments) => {
            add_use(uses, name, Arguments::With(arguments))?;
            add_all_uses(uses, arguments)
        }
    }
}

/// Puts the uses in a list behind those that are there.
#[cycle(uses)]
#[tactic(auto, using(symbols::proofs::Passes::appended, symbols::proofs::Passes::nothing_more))]
pub fn add_all_uses<'a>(
    uses: &mut Vec<NameUse<'a>>,
    expressions: &'a Exprs,
) -> Result<(), AllocError>
    ensures { OnOk result
        (uses_at uses.new.items ≡ uses_at uses.old.items
        ++ uses_in_all (exprs_tree expressions.now)) }
{
    match expressions {
        Exprs::Empty => Ok(()),
        Exprs::More(first, rest) => {
            add_uses(uses, first)?;
            add_all_uses(uses, rest)
        }
    }
}

/// Puts the uses in an expression that may be written behind those that are there.
#[tactic(auto, using(symbols::proofs::Passes::appended, symbols::proofs::Passes::nothing_more))]
pub fn add_option_uses<'a>(
    uses: &mut Vec<NameUse<'a>>,
    expression: &'a Option<Expr>,
) -> Result<(), AllocError>
    ensures { OnOk result
        (uses_at uses.new.items ≡ uses_at uses.old.items
        ++ flat_map uses_in (option_list (option_map expr_tree expression.now))) }
{
    match expression {
        Some(expression) => add_uses(uses, expression),
        None => Ok(()),
    }
}

/// Puts the uses in a unit behind those that are there.
#[tactic(auto, using(symbols::proofs::Passes::nothing_more))]
pub fn add_unit_uses<'a>(uses: &mut Vec<NameUse<'a>>, unit: &'a Unit) -> Result<(), AllocError>
    ensures { OnOk result
        (uses_at uses.new.items ≡ uses_at uses.old.items ++ unit_uses (unit_tree unit.now)) }
{
    match unit {
        Unit::Star => Ok(()),
        Unit::Number(number) => add_uses(uses, number),
    }
}

/// Puts the uses in the limits of a DO behind those that are there.
#[tactic(auto, using(symbols::proofs::Passes::appended, symbols::proofs::Passes::nothing_more))]
pub fn add_limit_uses<'a>(uses: &mut Vec<NameUse<'a>>, limits: &'a Limits) -> Result<(), AllocError>
    ensures { OnOk result
        (uses_at uses.new.items ≡ uses_at uses.old.items ++ limit_uses (limits_tree limits.now)) }
{
    add_uses(uses, &limits.first)?;
    add_uses(uses, &limits.last)?;
    add_option_uses(uses, &limits.step)
}

/// Puts the uses that pass a test behind those that are there.
pub fn add_passing<'a, S: Sought>(
    uses: &mut Vec<NameUse<'a>>,
    found: &[NameUse<'a>],
    sought: &S,
) -> Result<(), AllocError>
    ensures { OnOk result
        (uses_at uses.new.items ≡ uses_at uses.old.items
        ++ filter (S.is_use sought.now) (uses_at found.now)) }
{
    for one in found {
        if sought.is(one) {
            uses.push(*one)?;
        }
    }
    Ok(())
}

/// Whether one of the uses passes a test.
pub fn has_passing<S: Sought>(found: &[NameUse], sought: &S) -> bool
    ensures { result ≡ list_any (S.is_use sought.now) (uses_at found.now) }
{
    for one in found {
        if sought.is(one) {
            return true;
        }
    }
    false
}
