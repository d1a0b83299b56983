//! The uses of names in a statement (ANSI X3.9-1978, chapters 5 to 15).

ghost use Rattle.std.specs.Prelude.{IfOk};
ghost use Rattle.meaning.specs.Syntax.{shape_tree};
ghost use Rattle.symbols.specs.SymbolsAt.{symbols_at};
ghost use Rattle.name_uses.specs.Held.{AreUses};
ghost use Rattle.name_uses.specs.UsesIn.{reads_in, uses_in};

use crate::statements::{add_reads, add_sets};
use crate::uses::NameUse;
use meaning::syntax::Shape;
use std::alloc::{AllocError, Global};
use symbols::Symbols;

/// What a statement has values of; it defines a statement function or doesn't.
pub fn reads_of<'a>(
    alloc: Global,
    symbols: &Symbols,
    defines: bool,
    shape: &'a Shape,
) -> Result<Vec<NameUse<'a>>, AllocError>
    ensures { IfOk result
        (AreUses (reads_in (symbols_at symbols.now) defines (shape_tree shape.now))) }
{
    let mut uses = Vec::new(alloc);
    add_reads(&mut uses, alloc, symbols, defines, shape)?;
    Ok(uses)
}

/// What a statement sets and what it has values of.
pub fn uses_of<'a>(
    alloc: Global,
    symbols: &Symbols,
    defines: bool,
    shape: &'a Shape,
) -> Result<Vec<NameUse<'a>>, AllocError>
    ensures { IfOk result
        (AreUses (uses_in (symbols_at symbols.now) defines (shape_tree shape.now))) }
{
    let mut uses = Vec::new(alloc);
    add_sets(&mut uses, symbols, defines, shape)?;
    add_reads(&mut uses, alloc, symbols, defines, shape)?;
    Ok(uses)
}
