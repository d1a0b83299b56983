//! The constants that statements define, as far as one has come (ANSI X3.9-1978, 8.6).

ghost use Rattle.std.specs.Prelude.{◌≡◌, [], OnOk};
ghost use Rattle.rule_passes.specs.Telling.{Passes};
ghost use Rattle.declarations.specs.Tables.{EntersName, EntersOwn, IsBehind, LeavesOwn, PutsName};
ghost use Rattle.declarations.specs.Tables.{known_at, known_passing, known_with, scope_known};
ghost use Rattle.declarations.specs.Tables.{scope_types, types_in, value_at};

use expressions::{Constants, constant_value};
use indexmap::IndexMap;
use meaning::ending::Value;
use meaning::syntax::{DataType, Expr, Item, NamedConstant, Shape};
use std::alloc::{AllocError, Global};
use symbols::{Symbols, type_of_name};

/// The value of an expression of constants, if it has one; none where it faults.
pub fn value_of<C: Constants>(constants: &C, expression: &Expr) -> Option<Value>
    requires { C.is_sound constants.now }
    ensures { result ≡ value_at (C.types constants.now) (C.known constants.now) expression.now }
{
    match constant_value(expression, constants) {
        Ok(value) => Some(value),
        Err(_) => None,
    }
}

/// The constants that the statements so far define.
#[derive(Drop)]
pub struct Table<'a> {
    /// What names are.
    pub symbols: &'a Symbols<'a>,
    /// The values by the names; none where the expression faults.
    pub values: IndexMap<Vec<u8>, Option<Value>>,
}

impl Constants for Table<'_> {
    ghost is_sound = { λ _. Unit {0} };

    ghost types = { types_in };

    ghost known = { known_at };

    fn data_type(&self, name: &[u8]) -> Option<DataType> {
        type_of_name(self.symbols, name)
    }

    fn constant(&self, name: &[u8]) -> Option<Value> {
        match self.values.get(name) {
            Some(value) => *value,
            None => None,
        }
    }
}

/// The table in front of all statements, which has no constants.
pub fn table_of<'a>(alloc: Global, symbols: &'a Symbols<'a>) -> Table<'a>
    ensures symbols { result.symbols.now ≡ symbols.now }
    ensures behind { IsBehind result [] }
{
    Table {
        symbols,
        values: IndexMap::new(alloc),
    }
}

/// Puts a name with its value in front of those that are known.
fn put_name(
    table: &mut Table,
    alloc: Global,
    name: &[u8],
    value: Option<Value>,
) -> Result<(), AllocError>
    ensures known { OnOk result (PutsName table.old table.new name.now value) }
    ensures symbols { OnOk result (table.new.symbols ≡ table.old.symbols) }
{
    let own = Vec::from_slice(alloc, name)?;
    table.values.insert(own, value)?;
    Ok(())
}

/// Puts the constants of a PARAMETER statement in front of those that are known.
fn put_constants(
    table: &mut Table,
    alloc: Global,
    constants: &[NamedConstant],
) -> Result<(), AllocError>
    ensures known { OnOk result (known_at table.new ≡ known_with table.old constants.now) }
    ensures symbols { OnOk result (table.new.symbols ≡ table.old.symbols) }
{
    for constant in constants {
        let value = value_of(table, &constant.value);
        put_name(table, alloc, &constant.name, value)?;
    }
    Ok(())
}

/// Passes a statement: the table has its constants, too. The `AllocError` comes where a growth was
/// refused.
pub fn pass_constants(table: &mut Table, alloc: Global, item: &Item) -> Result<(), AllocError>
    ensures known { OnOk result (known_at table.new ≡ known_passing table.old item.now) }
    ensures symbols { OnOk result (table.new.symbols ≡ table.old.symbols) }
    ensures behind { OnOk result (Passes (IsBehind table.old) (IsBehind table.new) item.now) }
{
    match &*item.form.shape {
        Shape::Parameter(constants) => put_constants(table, alloc, constants),
        _ => Ok(()),
    }
}

/// A name of one's own, and its value if it has one.
#[derive(Clone, Copy)]
pub struct Own<'a> {
    /// The name.
    pub name: &'a [u8],
    /// Its value, if it has one.
    pub value: Option<Value>,
}

/// The constants so far, and names of one's own in front of them.
#[derive(Drop)]
pub struct Scope<'a> {
    /// The constants so far.
    pub table: &'a Table<'a>,
    /// The names of one's own, the last one first when one is sought.
    pub own: Vec<Own<'a>>,
}

impl Constants for Scope<'_> {
    ghost is_sound = { λ _. Unit {0} };

    ghost types = { scope_types };

    ghost known = { scope_known };

    fn data_type(&self, name: &[u8]) -> Option<DataType> {
        self.table.data_type(name)
    }

    fn constant(&self, name: &[u8]) -> Option<Value> {
        let mut found = self.table.constant(name);
        for own in &self.own {
            if name == own.name {
                found = own.value;
            }
        }
        found
    }
}

/// The scope of the constants so far alone.
pub fn scope_of<'a>(alloc: Global, table: &'a Table<'a>) -> Scope<'a>
    ensures table { result.table.now ≡ table.now }
    ensures own { result.own.items ≡ [] }
{
    Scope {
        table,
        own: Vec::new(alloc),
    }
}

/// Puts a name of one's own in front of what is known. The `AllocError` comes where a growth was
/// refused.
pub fn enter_name<'a: 'b, 'b>(
    scope: &mut Scope<'b>,
    name: &'a [u8],
    value: Option<Value>,
) -> Result<(), AllocError>
    ensures known { OnOk result (EntersName scope.old scope.new name.now value) }
    ensures table { OnOk result (scope.new.table ≡ scope.old.table) }
    ensures own { OnOk result (EntersOwn scope.old scope.new name.entry value) }
{
    scope.own.push(Own { name, value })?;
    Ok(())
}

/// Leaves the name that was put in front last.
pub fn leave_name(scope: &mut Scope)
    ensures own { LeavesOwn scope.old scope.new }
    ensures table { scope.new.table ≡ scope.old.table }
{
    let _ = scope.own.pop();
}
