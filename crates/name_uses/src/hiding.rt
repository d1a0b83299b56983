//! Names that are hidden in a part of a statement (ANSI X3.9-1978, 9.3, 15.4 and 18.2.3).

ghost use Rattle.std.specs.Prelude.{◌≡◌, is_none, not};
ghost use Rattle.meaning.specs.Scopes.{is_dummy as is_dummy_of, listed};
ghost use Rattle.meaning.specs.Syntax.{exprs_tree};
ghost use Rattle.meaning.specs.Uses.{is_variable_of};
ghost use Rattle.name_uses.specs.UsesAt.{use_at};

use crate::uses::{Arguments, NameUse, Sought};
use meaning::syntax::{Expr, Exprs};

/// Whether a name is one of the dummies of a statement function (ANSI X3.9-1978, 15.4.1).
pub fn is_dummy(dummies: &Exprs, name: &[u8]) -> bool
    ensures { result ≡ is_dummy_of (listed (exprs_tree dummies.now)) name.now }
{
    match dummies {
        Exprs::Empty => false,
        Exprs::More(dummy, rest) => match dummy {
            Expr::Name(own) => name == own.as_slice() || is_dummy(rest, name),
            _ => is_dummy(rest, name),
        },
    }
}

/// Whether a use has no parentheses.
fn is_bare(one: &NameUse) -> bool
    ensures { result ≡ is_none (use_at one.now).arguments }
{
    match one.arguments {
        Arguments::Bare => true,
        Arguments::Without => false,
        Arguments::With(_) => false,
    }
}

/// The uses that are not hidden by the dummies of a statement function.
#[derive(Clone, Copy)]
pub struct Shown<'a> {
    pub dummies: &'a Exprs,
}

impl Sought for Shown<'_> {
    ghost is_use = { λ s u. not (is_dummy_of (listed (exprs_tree s.dummies.now)) u.name) };

    fn is(&self, one: &NameUse) -> bool {
        !is_dummy(self.dummies, one.name)
    }
}

/// The uses that are not those of the variable of an implied DO.
#[derive(Clone, Copy)]
pub struct Outside<'a> {
    pub variable: &'a [u8],
}

impl Sought for Outside<'_> {
    ghost is_use = { λ s u. not (is_variable_of s.variable.now u) };

    fn is(&self, one: &NameUse) -> bool {
        !(is_bare(one) && self.variable == one.name)
    }
}
