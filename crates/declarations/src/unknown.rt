//! Expressions that are no constants (ANSI X3.9-1978, 4.3 and 6.1.3).

ghost use Rattle.std.specs.Prelude.{◌≡◌};
ghost use Rattle.declarations.specs.Unknown.{has_unknown_at, is_none_at};

use crate::known::value_of;
use expressions::Constants;
use meaning::syntax::Expr;

/// Whether a name in an expression is no constant's, or stands with parentheses.
#[tactic(auto, using(rule_passes::proofs::Missing::any_both))]
fn has_unknown<C: Constants>(constants: &C, expression: &Expr) -> bool
    requires { C.is_sound constants.now }
    ensures { result ≡ has_unknown_at (C.known constants.now) expression.now }
{
    match expression {
        Expr::Number(_) => false,
        Expr::Truth(_) => false,
        Expr::Name(name) => constants.constant(name).is_none(),
        Expr::Signed(_, operand) => has_unknown(constants, operand),
        Expr::Not(operand) => has_unknown(constants, operand),
        Expr::Binary(_, left, right) => {
            has_unknown(constants, left) || has_unknown(constants, right)
        }
        Expr::Paren(operand) => has_unknown(constants, operand),
        Expr::Element(_, _) => true,
        Expr::Call(_) => true,
    }
}

/// Whether an expression isn't one of constants that are known, or faults.
pub fn is_no_constant<C: Constants>(constants: &C, expression: &Expr) -> bool
    requires { C.is_sound constants.now }
    ensures { result ≡ is_none_at (C.types constants.now) (C.known constants.now) expression.now }
{
    has_unknown(constants, expression) || value_of(constants, expression).is_none()
}
