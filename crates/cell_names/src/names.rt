//! The variables and arrays of a program unit, in the order of their cells.

ghost use Rattle.std.specs.Prelude.{◌≡◌, IfOk};
ghost use Rattle.appearances.specs.Appearing.{variables_at};
ghost use Rattle.cell_names.specs.Cells.{AreApart, are_named};
ghost use Rattle.meaning.specs.Arrays.{cell_of};
ghost use Rattle.storage.specs.Checked.{named_of_program, numbers_in};
ghost use Rattle.storage.specs.Numbered.{named};
ghost use Rattle.symbols.specs.SymbolsAt.{symbols_at};

use crate::cells::with_dimensions;
use crate::named::Named;
use appearances::variables_in_order;
use declarations::declared_in;
use meaning::syntax::Tree;
use std::alloc::{AllocError, Global};
use symbols::{Symbols, items_of};

/// The variables and then the arrays of a program unit, in the order of their cells, which are
/// those by which the program numbers them. The `AllocError` comes where a growth was refused, and
/// where one has 2^64 cells or more, as none has in a program unit that keeps the rules.
pub fn names_of(alloc: Global, tree: &Tree) -> Result<Vec<Named>, AllocError>
    ensures are { IfOk result (λ names. are_named names.items ≡ named_of_program tree.now) }
    ensures numbers { IfOk result (λ names. cell_of (are_named names.items) ≡ numbers_in tree.now) }
    ensures apart { IfOk result (λ names. AreApart (are_named names.items)) }
{
    let items = items_of(alloc, tree)?;
    let symbols = Symbols::new(alloc, items.as_slice())?;
    let names = names_by(alloc, &symbols);
    drop(symbols);
    names
}

// Those of the statements of which this is known.
fn names_by(alloc: Global, symbols: &Symbols) -> Result<Vec<Named>, AllocError>
    ensures { IfOk result
        (λ names. are_named names.items
        ≡ named (symbols_at symbols.now).names.arrays (variables_at symbols.now)) }
{
    let names = variables_in_order(alloc, symbols)?;
    let declared = declared_in(alloc, symbols)?;
    let found = with_dimensions(alloc, &declared.arrays, names.as_slice());
    drop(declared);
    found
}
