//! Where statement functions are defined (ANSI X3.9-1978, 15.4).

ghost use Rattle.std.specs.Prelude.{◌≡◌, ◌<◌, ◌-◌, ◌^◌, [], IfOk};
ghost use Rattle.meaning.specs.Trees.{members_tree};
ghost use Rattle.symbols.specs.SymbolsAt.{symbols_at};
ghost use Rattle.rule_laws.specs.Read.{HeadsExecute};
ghost use Rattle.appearances.specs.FunctionsFound.{AreFoundIn, Passes, PassesOne};

use indexmap::IndexMap;
use meaning::syntax::{Item, Member};
use name_maps::add_first;
use std::alloc::{AllocError, Global};
use storage::FunctionAt;
use symbols::{Symbols, defined_by, is_specification};

/// Passes a statement, and keeps where it stands if it is a statement function's; how many of these
/// have come then, or nothing where it is executable.
fn pass_statement(
    functions: &mut IndexMap<Vec<u8>, FunctionAt>,
    alloc: Global,
    symbols: &Symbols,
    item: &Item,
    at: usize,
    member: usize,
) -> Result<Option<usize>, AllocError>
    requires { at < 2 ^ 64 - 1 }
    ensures { IfOk result (Passes symbols.now functions.old functions.new at member item.now) }
{
    let shape = &*item.form.shape;
    match defined_by(&symbols.ranks, shape) {
        Some(function) => {
            add_first(functions, alloc, function.name, FunctionAt { at, member })?;
            Ok(Some(at + 1))
        }
        None => {
            if is_specification(shape) {
                Ok(Some(at))
            } else {
                Ok(None)
            }
        }
    }
}

/// Passes a member of the body; a DO or block IF statement is executable.
fn pass_member(
    functions: &mut IndexMap<Vec<u8>, FunctionAt>,
    alloc: Global,
    symbols: &Symbols,
    one: &Member,
    at: usize,
    member: usize,
) -> Result<Option<usize>, AllocError>
    requires { at < 2 ^ 64 - 1 }
    ensures { IfOk result (PassesOne symbols.now functions.old functions.new at member one.now) }
{
    match one {
        Member::Plain(item) => pass_statement(functions, alloc, symbols, item, at, member),
        Member::Loop(_) => Ok(None),
        Member::Block(_) => Ok(None),
    }
}

/// Keeps where the statement functions are defined: all stand before the first executable
/// statement.
fn find_functions(
    functions: &mut IndexMap<Vec<u8>, FunctionAt>,
    alloc: Global,
    symbols: &Symbols,
    body: &[Member],
) -> Result<(), AllocError>
    requires none { functions.old.entries ≡ [] }
    requires executing { HeadsExecute (symbols_at symbols.now).names.arrays
        (members_tree body.now) }
    ensures { IfOk result (λ _. AreFoundIn symbols.now body.now functions.new) }
{
    let mut at: usize = 0;
    for (member, one) in body.iter().enumerate() {
        match pass_member(functions, alloc, symbols, one, at, member)? {
            Some(next) => at = next,
            None => return Ok(()),
        }
    }
    Ok(())
}

/// Where the statement functions of a body are defined, none of which stands in a range or an arm,
/// or behind one.
pub fn functions_in(
    alloc: Global,
    symbols: &Symbols,
    body: &[Member],
) -> Result<IndexMap<Vec<u8>, FunctionAt>, AllocError>
    requires { HeadsExecute (symbols_at symbols.now).names.arrays (members_tree body.now) }
    ensures { IfOk result (AreFoundIn symbols.now body.now) }
{
    let mut functions = IndexMap::new(alloc);
    find_functions(&mut functions, alloc, symbols, body)?;
    Ok(functions)
}
