//! References to functions (ANSI X3.9-1978, 15.2 and 15.3).

ghost use Rattle.std.specs.Prelude.{◌≡◌, is_none};
ghost use Rattle.meaning.specs.NameRules.{is_function_use as is_function_use_by};
ghost use Rattle.symbols.specs.SymbolsAt.{symbols_at};
ghost use Rattle.name_uses.specs.UsesAt.{arguments_at, use_at};

use crate::uses::{Arguments, NameUse};
use symbols::{Symbols, is_other_name};

/// Whether a name stands without parentheses.
pub fn is_bare(arguments: Arguments) -> bool
    ensures { result ≡ is_none (arguments_at arguments.entry) }
{
    match arguments {
        Arguments::Bare => true,
        Arguments::Without => false,
        Arguments::With(_) => false,
    }
}

/// Whether a use refers to a function that is no statement function.
pub fn is_function_use(symbols: &Symbols, one: &NameUse) -> bool
    ensures { result ≡ is_function_use_by (symbols_at symbols.now) (use_at one.now) }
{
    is_other_name(symbols, one.name) && !is_bare(one.arguments)
}
