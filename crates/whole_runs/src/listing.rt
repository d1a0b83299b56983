//! The values of output lists over any store (ANSI X3.9-1978, 12.8.2).

ghost use Rattle.std.specs.Prelude.{◌≡◌, ◌≢◌, IfOk, pos};
ghost use Rattle.meaning.specs.Lists.{listed, trips_listed};
ghost use Rattle.meaning.specs.Stores.{IsLater};
ghost use Rattle.meaning.specs.Syntax.{expr_tree, limits_tree, list_item_tree, list_items_tree};
ghost use Rattle.meaning.specs.Syntax.{loop_item, value_item};
ghost use Rattle.meaning.specs.Trips.{trips};
ghost use Rattle.storage.specs.Checked.{count_in};
ghost use Rattle.program.specs.Codes.{AreLimits, IsCell};
ghost use Rattle.program.specs.Items.{AreItems, IsItem};
ghost use Rattle.values.specs.Programs.{scope_in};
ghost use Rattle.evaluator.specs.Listing.{FindsOver, item_listed};
ghost use Rattle.evaluator.specs.Over.{ListsOver};

use array_store::Store;
use evaluator::{Span, add_to, count_of, set_variable, values_of_codes};
use meaning::ending::{FaultKind, Value};
use meaning::syntax::{Expr, Limits, ListItem, ListItems};
use program::{ListCode, ListCodes, Program, Repeat};
use std::alloc::{AllocError, Global};
use values::{add_array, add_value};

// How many items a list has at most.
const LIMIT: usize = 65_536;

// Puts the values of items behind those found before, once for each trip of an implied DO, whose
// variable has its first value.
#[cycle(listing)]
fn add_trips<S: Store>(
    found: &mut Vec<Value>,
    room: &mut usize,
    program: &Program,
    items: &ListItems,
    codes: &ListCodes,
    variable: &[u8],
    cell: usize,
    span: Span,
    store: &mut S,
) -> Result<Result<(), FaultKind>, AllocError>
    requires coded { AreItems program.now (list_items_tree items.now) codes.now }
    requires counted { IsCell program.now variable.now cell }
    requires sized { (S.world store.old).cells ≡ count_in program.now }
    requires some { span.step ≢ pos 0 }
    ensures finds { IfOk result (FindsOver program.now (S.world store.old) (S.world store.new)
        (trips_listed (listed (scope_in program.now) (list_items_tree items.now)) variable.now
        span.step (trips span.first span.last span.step))
        found.old.items found.new.items room.old room.new) }
    ensures later { IsLater (S.world store.old) (S.world store.new) }
{
    for _ in 0..count_of(span) {
        match add_items(found, room, program, items, codes, store)? {
            Ok(()) => {}
            Err(kind) => return Ok(Err(kind)),
        }
        match add_to(program, cell, span.step, store)? {
            Ok(()) => {}
            Err(kind) => return Ok(Err(kind)),
        }
    }
    Ok(Ok(()))
}

// Puts the values of an implied DO behind those found before; F8 where it would be an item too
// many.
#[cycle(listing)]
fn add_loop<S: Store>(
    found: &mut Vec<Value>,
    room: &mut usize,
    program: &Program,
    items: &ListItems,
    codes: &ListCodes,
    variable: &[u8],
    limits: &Limits,
    repeat: &Repeat,
    store: &mut S,
) -> Result<Result<(), FaultKind>, AllocError>
    requires coded { AreItems program.now (list_items_tree items.now) codes.now }
    requires counted { IsCell program.now variable.now repeat.now.variable }
    requires limited { AreLimits program.now (limits_tree limits.now) repeat.now }
    requires sized { (S.world store.old).cells ≡ count_in program.now }
    ensures finds { IfOk result (FindsOver program.now (S.world store.old) (S.world store.new)
        (item_listed (scope_in program.now)
        (loop_item (list_items_tree items.now) variable.now (limits_tree limits.now)))
        found.old.items found.new.items room.old room.new) }
    ensures later { IsLater (S.world store.old) (S.world store.new) }
{
    if *room == 0 {
        return Ok(Err(FaultKind::F8));
    }
    *room -= 1;
    let cell = repeat.variable;
    match values_of_codes(program, repeat, store) {
        Ok(span) => {
            set_variable(program, cell, span.first, store)?;
            add_trips(
                found, room, program, items, codes, variable, cell, span, store,
            )
        }
        Err(kind) => Ok(Err(kind)),
    }
}

// Puts the values of an implied DO behind those found before, by its code.
#[cycle(listing)]
fn add_repeated<S: Store>(
    found: &mut Vec<Value>,
    room: &mut usize,
    program: &Program,
    items: &ListItems,
    variable: &[u8],
    limits: &Limits,
    code: &ListCode,
    store: &mut S,
) -> Result<Result<(), FaultKind>, AllocError>
    requires coded { IsItem program.now
        (loop_item (list_items_tree items.now) variable.now (limits_tree limits.now)) code.now }
    requires sized { (S.world store.old).cells ≡ count_in program.now }
    ensures finds { IfOk result (FindsOver program.now (S.world store.old) (S.world store.new)
        (item_listed (scope_in program.now)
        (loop_item (list_items_tree items.now) variable.now (limits_tree limits.now)))
        found.old.items found.new.items room.old room.new) }
    ensures later { IsLater (S.world store.old) (S.world store.new) }
{
    match code {
        ListCode::Loop(codes, repeat) => add_loop(
            found, room, program, items, codes, variable, limits, repeat, store,
        ),
        _ => Ok(Ok(())),
    }
}

// Puts the value of an item that is no implied DO, or the elements of a whole array, behind those
// found before.
fn add_single<S: Store>(
    found: &mut Vec<Value>,
    room: &mut usize,
    program: &Program,
    item: &Expr,
    code: &ListCode,
    store: &mut S,
) -> Result<Result<(), FaultKind>, AllocError>
    requires coded { IsItem program.now (value_item (expr_tree item.now)) code.now }
    requires sized { (S.world store.old).cells ≡ count_in program.now }
    ensures finds { IfOk result (FindsOver program.now (S.world store.old) (S.world store.new)
        (item_listed (scope_in program.now) (value_item (expr_tree item.now)))
        found.old.items found.new.items room.old room.new) }
    ensures later { IsLater (S.world store.old) (S.world store.new) }
{
    match code {
        ListCode::Value(value) => add_value(found, room, program, item, value, store),
        ListCode::Array(array) => add_array(found, room, program, item, *array, store),
        ListCode::Loop(_, _) => Ok(Ok(())),
    }
}

// Puts the values of an item behind those found before.
#[cycle(listing)]
fn add_one<S: Store>(
    found: &mut Vec<Value>,
    room: &mut usize,
    program: &Program,
    item: &ListItem,
    code: &ListCode,
    store: &mut S,
) -> Result<Result<(), FaultKind>, AllocError>
    requires coded { IsItem program.now (list_item_tree item.now) code.now }
    requires sized { (S.world store.old).cells ≡ count_in program.now }
    ensures finds { IfOk result (FindsOver program.now (S.world store.old) (S.world store.new)
        (item_listed (scope_in program.now) (list_item_tree item.now))
        found.old.items found.new.items room.old room.new) }
    ensures later { IsLater (S.world store.old) (S.world store.new) }
{
    match item {
        ListItem::Value(expression) => { add_single(found, room, program, expression, code, store) }
        ListItem::Loop {
            items,
            variable,
            limits,
        } => add_repeated(found, room, program, items, variable, limits, code, store),
    }
}

// Puts the values of items behind those found before, first to last.
#[cycle(listing)]
fn add_items<S: Store>(
    found: &mut Vec<Value>,
    room: &mut usize,
    program: &Program,
    items: &ListItems,
    codes: &ListCodes,
    store: &mut S,
) -> Result<Result<(), FaultKind>, AllocError>
    requires coded { AreItems program.now (list_items_tree items.now) codes.now }
    requires sized { (S.world store.old).cells ≡ count_in program.now }
    ensures finds { IfOk result (FindsOver program.now (S.world store.old) (S.world store.new)
        (listed (scope_in program.now) (list_items_tree items.now))
        found.old.items found.new.items room.old room.new) }
    ensures later { IsLater (S.world store.old) (S.world store.new) }
{
    match items {
        ListItems::Empty => Ok(Ok(())),
        ListItems::More(item, rest) => match codes {
            ListCodes::Empty => Ok(Ok(())),
            ListCodes::More(code, others) => {
                match add_one(found, room, program, item, code, store)? {
                    Ok(()) => add_items(found, room, program, rest, others, store),
                    Err(kind) => Ok(Err(kind)),
                }
            }
        },
    }
}

/// The values of an output list by the codes of its items, first to last: a whole array stands for
/// its elements in their order, and an implied DO sets its variable and stands for its items once
/// for each trip. The fault is the leftmost one: that of an expression, F2 where an addition to a
/// variable leaves INTEGER, F5 where a step is zero, F8 where an item comes behind 65,536, an
/// implied DO being one each time that it is reached. The `AllocError` comes where a growth was
/// refused, or the store refused a write.
pub fn list_values<S: Store>(
    alloc: Global,
    program: &Program,
    list: &ListItems,
    codes: &ListCodes,
    store: &mut S,
) -> Result<Result<Vec<Value>, FaultKind>, AllocError>
    requires coded { AreItems program.now (list_items_tree list.now) codes.now }
    requires sized { (S.world store.old).cells ≡ count_in program.now }
    ensures does { IfOk result (ListsOver program.now (S.world store.old) (S.world store.new)
        (list_items_tree list.now)) }
    ensures later { IsLater (S.world store.old) (S.world store.new) }
{
    let mut found = Vec::new(alloc);
    let mut room = LIMIT;
    match add_items(&mut found, &mut room, program, list, codes, store)? {
        Ok(()) => Ok(Ok(found)),
        Err(kind) => Ok(Err(kind)),
    }
}
