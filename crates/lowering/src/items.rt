//! The codes of output lists (ANSI X3.9-1978, 12.8.2).

ghost use Rattle.std.specs.Prelude.{◌≡◌, IfOk, IsSome, Some, [], ◌∷◌};
ghost use Rattle.meaning.specs.declared.syntax.Tree.{Tree};
ghost use Rattle.meaning.specs.Syntax.{ExprTree, expr_tree, limits_tree, list_item_tree};
ghost use Rattle.meaning.specs.Syntax.{list_items_tree, loop_item, value_item};
ghost use Rattle.program.specs.Codes.{setting_in};
ghost use Rattle.program.specs.Items.{AreItems, IsItem, IsWholeArray, StandsFor, is_logical_type};
ghost use Rattle.ruly_laws.specs.Statements.{AreItemsCodable, IsItemCodable, IsLoopCodable};
ghost use Rattle.ruly_laws.specs.Statements.{IsValueCodable};
ghost use Rattle.lowering.specs.Lists.{AreEach, codes_in};

use crate::codes::{code_in, repeat_in};
use expressions::{Cells, Numbering};
use meaning::syntax::{DataType, Expr, Limits, ListItem, ListItems};
use program::{ListCode, ListCodes, WholeArray};
use std::alloc::{AllocError, Global};
use storage::CheckedProgram;

// Whether a type is LOGICAL.
fn is_logical(data_type: Option<DataType>) -> bool
    ensures { result ≡ is_logical_type data_type }
{
    match data_type {
        Some(DataType::Logical) => true,
        Some(DataType::Integer) => false,
        None => false,
    }
}

// A whole array by its cells, which stand one behind the other.
fn whole_array(cells: Cells<'_>) -> WholeArray
    requires { IsSome cells.place.cell }
    ensures { (t : Tree) (e : ExprTree) → StandsFor t e (Some cells.entry) →
        IsWholeArray t e result }
{
    let place = cells.place;
    match place.first() {
        Some(first) => WholeArray {
            first,
            size: place.size(),
            is_logical: is_logical(cells.data_type),
        },
        None => unreachable!(),
    }
}

// The cells of the array that an expression is the name of.
fn array_in<'a>(item: &Expr, program: &'a CheckedProgram) -> Option<Cells<'a>>
    ensures { StandsFor program.now (expr_tree item.now) result }
{
    match item {
        Expr::Name(name) => program.array(name),
        _ => None,
    }
}

// The code of an item that is no implied DO.
fn value_code(alloc: Global, item: &Expr, program: &CheckedProgram) -> Result<ListCode, AllocError>
    requires { IsValueCodable (setting_in program.now) (expr_tree item.now) }
    ensures { IfOk result (IsItem program.now (value_item (expr_tree item.now))) }
{
    match array_in(item, program) {
        Some(cells) => Ok(ListCode::Array(whole_array(cells))),
        None => Ok(ListCode::Value(code_in(alloc, item, program)?)),
    }
}

// The code of an implied DO.
#[cycle(listed)]
fn loop_code(
    alloc: Global,
    items: &ListItems,
    variable: &[u8],
    limits: &Limits,
    program: &CheckedProgram,
) -> Result<ListCode, AllocError>
    requires counted { IsLoopCodable (setting_in program.now) variable.now
        (limits_tree limits.now) }
    requires items { AreItemsCodable (setting_in program.now) (list_items_tree items.now) }
    ensures { IfOk result (IsItem program.now
        (loop_item (list_items_tree items.now) variable.now (limits_tree limits.now))) }
{
    let repeat = repeat_in(alloc, variable, limits, program)?;
    match list_code(alloc, items, program) {
        Ok(codes) => Ok(ListCode::Loop(Box::new(alloc, codes)?, repeat)),
        Err(AllocError) => {
            drop(repeat);
            Err(AllocError)
        }
    }
}

// The code of an item.
#[cycle(listed)]
fn item_code(
    alloc: Global,
    item: &ListItem,
    program: &CheckedProgram,
) -> Result<ListCode, AllocError>
    requires { IsItemCodable (setting_in program.now) (list_item_tree item.now) }
    ensures { IfOk result (IsItem program.now (list_item_tree item.now)) }
{
    match item {
        ListItem::Value(expression) => value_code(alloc, expression, program),
        ListItem::Loop {
            items,
            variable,
            limits,
        } => loop_code(alloc, items, variable, limits, program),
    }
}

// Puts the codes of items where none is yet, first to last.
#[cycle(listed)]
fn add_codes(
    alloc: Global,
    codes: &mut Vec<ListCode>,
    items: &ListItems,
    program: &CheckedProgram,
) -> Result<(), AllocError>
    requires none { codes.old.items ≡ [] }
    requires codable { AreItemsCodable (setting_in program.now) (list_items_tree items.now) }
    ensures { IfOk result (λ _. AreEach program.now (list_items_tree items.now) codes.new.items) }
{
    let mut rest = items;
    while let ListItems::More(item, others) = rest {
        codes.push(item_code(alloc, item, program)?)?;
        rest = others;
    }
    Ok(())
}

// A list with a code before those of another one.
fn before(alloc: Global, code: ListCode, list: ListCodes) -> Result<ListCodes, AllocError>
    ensures { IfOk result (λ longer. codes_in longer ≡ code ∷ codes_in list) }
{
    match Box::new(alloc, list) {
        Ok(others) => Ok(ListCodes::More(code, others)),
        Err(reason) => {
            drop(code);
            Err(reason.into())
        }
    }
}

// A list with these codes. It is made from the last one to the first.
fn list_of(alloc: Global, codes: &mut Vec<ListCode>) -> Result<ListCodes, AllocError>
    ensures { IfOk result (λ list. codes_in list ≡ codes.old.items) }
{
    let mut list = ListCodes::Empty;
    while let Some(code) = codes.pop() {
        list = before(alloc, code, list)?;
    }
    Ok(list)
}

/// The codes of the items of an output list, first to last.
#[cycle(listed)]
pub(crate) fn list_code(
    alloc: Global,
    items: &ListItems,
    program: &CheckedProgram,
) -> Result<ListCodes, AllocError>
    requires { AreItemsCodable (setting_in program.now) (list_items_tree items.now) }
    ensures { IfOk result (AreItems program.now (list_items_tree items.now)) }
{
    let mut codes = Vec::new(alloc);
    match add_codes(alloc, &mut codes, items, program) {
        Ok(()) => {
            let list = list_of(alloc, &mut codes);
            drop(codes);
            list
        }
        Err(AllocError) => {
            drop(codes);
            Err(AllocError)
        }
    }
}
