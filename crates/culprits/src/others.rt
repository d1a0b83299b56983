//! What other crates tell of a statement behind others, among the culprits of all rules (ANSI
//! X3.9-1978, chapters 4 to 9, 12 and 13).

ghost use Rattle.std.specs.Prelude.{◌≡◌, IfOk};
ghost use Rattle.meaning.specs.Syntax.{shape_tree};
ghost use Rattle.meaning.specs.Trees.{item_tree};
ghost use Rattle.symbols.specs.Listed.{trees_at};
ghost use Rattle.symbols.specs.SymbolsAt.{symbols_at};
ghost use Rattle.culprits.specs.Culprits.{disputed_in, misformed_in, misgiven_in, mistyped_in};
ghost use Rattle.culprits.specs.Culprits.{numbered_in, sized_in};
ghost use Rattle.culprits.specs.Told.{tell};

use crate::culprit::Culprit;
use data_culprits::bad_data;
use meaning::syntax::{Item, Shape};
use name_culprits::disputed_name;
use number_culprits::bad_number;
use output_culprits::bad_output;
use size_culprits::large_array;
use std::alloc::{AllocError, Global};
use symbols::Symbols;
use type_culprits::wrong_type;

/// K5: what is of the wrong type in a statement that defines a statement function or doesn't (6.1
/// to 6.4).
pub fn type_culprit<'a>(
    alloc: Global,
    symbols: &Symbols,
    defines: bool,
    shape: &'a Shape,
) -> Result<Option<Culprit<'a>>, AllocError>
    ensures { IfOk
        result (λ c. tell c
        ≡ mistyped_in (symbols_at symbols.now) defines (shape_tree shape.now)) }
{
    match wrong_type(alloc, symbols, defines, shape)? {
        None => Ok(None),
        Some(culprit) => Ok(Some(Culprit::Type { culprit })),
    }
}

/// K10: what breaks the rule on DATA statements (chapter 9).
pub fn data_culprit<'a>(
    alloc: Global,
    symbols: &Symbols,
    before: &[&Item],
    item: &'a Item,
) -> Result<Option<Culprit<'a>>, AllocError>
    ensures { IfOk
        result (λ c. tell c
        ≡ misgiven_in (symbols_at symbols.now) (trees_at before.now) (item_tree item.now)) }
{
    match bad_data(alloc, symbols, before, item)? {
        None => Ok(None),
        Some(culprit) => Ok(Some(Culprit::Data { culprit })),
    }
}

/// K11: what breaks the rule on units and formats (12.3, 12.4 and 13.1).
pub fn output_culprit<'a>(
    alloc: Global,
    symbols: &Symbols,
    before: &[&Item],
    item: &'a Item,
) -> Result<Option<Culprit<'a>>, AllocError>
    ensures { IfOk
        result (λ c. tell c
        ≡ misformed_in (symbols_at symbols.now) (trees_at symbols.now.items.now)
        (trees_at before.now) (item_tree item.now)) }
{
    match bad_output(alloc, symbols, before, item)? {
        None => Ok(None),
        Some(culprit) => Ok(Some(Culprit::Output { culprit })),
    }
}

/// K6: what breaks the rule on integer constants and constant expressions (4.3, 5.1.1 and 8.6).
pub fn number_culprit<'a>(
    alloc: Global,
    symbols: &Symbols,
    before: &[&Item],
    item: &'a Item,
) -> Result<Option<Culprit<'a>>, AllocError>
    ensures { IfOk
        result (λ c. tell c
        ≡ numbered_in (symbols_at symbols.now) (trees_at before.now) (item_tree item.now)) }
{
    match bad_number(alloc, symbols, before, item)? {
        None => Ok(None),
        Some(culprit) => Ok(Some(Culprit::Number { culprit })),
    }
}

/// K7: what breaks the rule on the sizes of arrays (5.1).
pub fn size_culprit<'a>(
    alloc: Global,
    symbols: &Symbols,
    before: &[&Item],
    item: &'a Item,
) -> Result<Option<Culprit<'a>>, AllocError>
    ensures { IfOk
        result (λ c. tell c
        ≡ sized_in (symbols_at symbols.now) (trees_at before.now) (item_tree item.now)) }
{
    match large_array(alloc, symbols, before, item)? {
        None => Ok(None),
        Some(culprit) => Ok(Some(Culprit::Size { culprit })),
    }
}

/// K4: what breaks the rule on what names are (8.1, 8.4 to 8.6 and 15.4).
pub fn name_culprit<'a>(
    alloc: Global,
    symbols: &Symbols,
    before: &[&Item],
    item: &'a Item,
) -> Result<Option<Culprit<'a>>, AllocError>
    ensures { IfOk
        result (λ c. tell c
        ≡ disputed_in (symbols_at symbols.now) (trees_at before.now) (item_tree item.now)) }
{
    match disputed_name(alloc, symbols, before, item)? {
        None => Ok(None),
        Some(culprit) => Ok(Some(Culprit::Name { culprit })),
    }
}
