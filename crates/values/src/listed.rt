//! The values of the items in output lists, behind those found before (ANSI X3.9-1978, 12.8.2).

ghost use Rattle.std.specs.Prelude.{◌≡◌, ◌+◌, ◌<◌, IfOk, Some};
ghost use Rattle.meaning.specs.Lists.{item_value};
ghost use Rattle.meaning.specs.Maps.{value_at as value_in};
ghost use Rattle.meaning.specs.Stores.{IsLater, Reads};
ghost use Rattle.meaning.specs.Syntax.{expr_tree};
ghost use Rattle.expressions.specs.Listed.{AddsItem};
ghost use Rattle.storage.specs.Checked.{count_in};
ghost use Rattle.program.specs.Items.{IsSingle, IsWholeArray};
ghost use Rattle.values.specs.Programs.{map_at, scope_in};

use crate::codes::{value, value_by};
use array_store::Store;
use meaning::cell::Cell;
use meaning::ending::{FaultKind, Value};
use meaning::syntax::Expr;
use postfix::Code;
use program::{Program, WholeArray};
use std::alloc::AllocError;

/// Puts the value of an item of an output list that is no array behind those found before, by its
/// code. `room` is how many items may follow, and is lessened by one; the fault is that of the
/// expression, or F8 where there is no room. The `AllocError` comes where a growth was refused.
pub fn add_value<S: Store>(
    found: &mut Vec<Value>,
    room: &mut usize,
    program: &Program,
    item: &Expr,
    code: &Code,
    store: &mut S,
) -> Result<Result<(), FaultKind>, AllocError>
    requires single { IsSingle program.now (expr_tree item.now) code.now }
    requires sized { (S.world store.old).cells ≡ count_in program.now }
    ensures reads { IfOk result (AddsItem (S.world store.old) (S.world store.new)
        (λ m. item_value (scope_in program.now) (expr_tree item.now) (map_at program.now m)
        room.old)
        (map_at program.now) found.old.items found.new.items room.new) }
    ensures later { IsLater (S.world store.old) (S.world store.new) }
{
    if *room == 0 {
        return Ok(Err(FaultKind::F8));
    }
    match value(program, code, store) {
        Ok(x) => {
            found.push(x)?;
            *room -= 1;
            Ok(Ok(()))
        }
        Err(kind) => Ok(Err(kind)),
    }
}

// The number in the cell of an element of a whole array, counted from 0.
fn element_number<S: Store>(
    program: &Program,
    item: &Expr,
    array: WholeArray,
    at: usize,
    store: &mut S,
) -> i32
    requires array { IsWholeArray program.now (expr_tree item.now) array }
    requires within { at < array.size }
    requires sized { (S.world store.old).cells ≡ count_in program.now }
    ensures reads { Reads (S.world store.old) (S.world store.new)
        (λ m. value_in m (Some (array.first + at)) ≡ result) }
    ensures cells { (S.world store.new).cells ≡ (S.world store.old).cells }
{
    store.read(Cell(array.first + at))
}

/// Puts the elements of a whole array that is an item of an output list behind the values found
/// before, in their order. `room` is lessened by as many; the fault is F8 where they are more. The
/// `AllocError` comes where a growth was refused.
pub fn add_array<S: Store>(
    found: &mut Vec<Value>,
    room: &mut usize,
    program: &Program,
    item: &Expr,
    array: WholeArray,
    store: &mut S,
) -> Result<Result<(), FaultKind>, AllocError>
    requires array { IsWholeArray program.now (expr_tree item.now) array }
    requires sized { (S.world store.old).cells ≡ count_in program.now }
    ensures reads { IfOk result (AddsItem (S.world store.old) (S.world store.new)
        (λ m. item_value (scope_in program.now) (expr_tree item.now) (map_at program.now m)
        room.old)
        (map_at program.now) found.old.items found.new.items room.new) }
    ensures later { IsLater (S.world store.old) (S.world store.new) }
{
    if array.size > *room {
        return Ok(Err(FaultKind::F8));
    }
    for at in 0..array.size {
        let x = element_number(program, item, array, at, store);
        found.push(value_by(array.is_logical, x))?;
    }
    *room -= array.size;
    Ok(Ok(()))
}
