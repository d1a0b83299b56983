//! How expressions are named in messages.

ghost use Rattle.std.specs.Prelude.{◌≡◌};
ghost use Rattle.meaning.specs.Syntax.{expr_tree};
ghost use Rattle.type_culprits.specs.Words.{truth_word as truth_word_of, word_in};

use meaning::syntax::Expr;

/// A logical constant.
pub(crate) fn truth_word(value: bool) -> &'static [u8]
    ensures { result.now ≡ truth_word_of value }
{
    if value { b".TRUE." } else { b".FALSE." }
}

/// The first constant or name in an expression, as it stands there.
pub fn first_word(expression: &Expr) -> &[u8]
    ensures { result.now ≡ word_in (expr_tree expression.now) }
{
    match expression {
        Expr::Number(digits) => digits,
        Expr::Truth(value) => truth_word(*value),
        Expr::Name(name) => name,
        Expr::Signed(_, operand) => first_word(operand),
        Expr::Not(operand) => first_word(operand),
        Expr::Binary(_, left, _) => first_word(left),
        Expr::Paren(operand) => first_word(operand),
        Expr::Element(name, _) => name,
        Expr::Call(name) => name,
    }
}
