//! Names of type REAL, and functions that aren't known (ANSI X3.9-1978, 4.1.2, 4.4 and 15.2).

ghost use Rattle.std.specs.Prelude.{◌≡◌, ◌++◌, [], Some, option_map, if◌then◌else◌, IfOk};
ghost use Rattle.std.specs.List.{find};
ghost use Rattle.meaning.specs.NameRules.{function_names, is_real as is_real_by, is_real_use};
ghost use Rattle.meaning.specs.NameRules.{is_unknown_function, names_defined, names_used};
ghost use Rattle.meaning.specs.Scopes.{defined_by as definition_by};
ghost use Rattle.meaning.specs.Syntax.{exprs_tree, shape_tree};
ghost use Rattle.meaning.specs.Types.{has_implicit_none};
ghost use Rattle.symbols.specs.Functions.{definition_at};
ghost use Rattle.symbols.specs.Listed.{trees_at};
ghost use Rattle.symbols.specs.SymbolsAt.{symbols_at};
ghost use Rattle.name_uses.specs.NamesIn.{constant, declared, valued};
ghost use Rattle.name_uses.specs.UsesAt.{uses_at};
ghost use Rattle.culprits.specs.Culprits.{real_in, unknown_in};
ghost use Rattle.finding.specs.Finding.{dummy_names_in, name_if};
ghost use Rattle.culprits.specs.Told.{tell};

use crate::culprit::Culprit;
use finding::first_passing;
use meaning::syntax::{Declarator, Expr, Exprs, NamedConstant, Shape};
use name_uses::{Arguments, NameUse, Sought, is_function_use, reads_of, uses_of};
use std::alloc::{AllocError, Global};
use symbols::{
    Function, Symbols, declarators_in, defined_by, is_implicit_none, is_intrinsic, is_other_name,
    type_of_name,
};

/// Whether a name is that of data of type REAL.
fn is_real(symbols: &Symbols, name: &[u8]) -> bool
    ensures { result ≡ is_real_by (symbols_at symbols.now) name.now }
{
    type_of_name(symbols, name).is_none()
}

/// The first of the constants that is.
fn first_constant<'a>(symbols: &Symbols, constants: &'a [NamedConstant]) -> Option<&'a [u8]>
    ensures { name_if result ≡ find (is_real_by (symbols_at symbols.now)) (constant constants.now) }
{
    for constant in constants {
        if is_real(symbols, &constant.name) {
            return Some(constant.name.as_slice());
        }
    }
    None
}

/// The first of the constants that a statement defines that is.
fn first_valued<'a>(symbols: &Symbols, shape: &'a Shape) -> Option<&'a [u8]>
    ensures { name_if result
        ≡ find (is_real_by (symbols_at symbols.now)) (valued (shape_tree shape.now)) }
{
    match shape {
        Shape::Parameter(constants) => first_constant(symbols, constants),
        _ => None,
    }
}

/// The first of the names in a type or DIMENSION statement that is.
fn first_declared<'a>(symbols: &Symbols, declarators: &'a [Declarator]) -> Option<&'a [u8]>
    ensures { name_if result
        ≡ find (is_real_by (symbols_at symbols.now)) (declared declarators.now) }
{
    for declarator in declarators {
        if is_real(symbols, &declarator.name) {
            return Some(declarator.name.as_slice());
        }
    }
    None
}

/// The first of the dummies that is.
fn first_dummy<'a>(symbols: &Symbols, dummies: &'a Exprs) -> Option<&'a [u8]>
    ensures { name_if result
        ≡ find (is_real_by (symbols_at symbols.now)) (dummy_names_in (exprs_tree dummies.now)) }
{
    match dummies {
        Exprs::Empty => None,
        Exprs::More(dummy, rest) => match dummy {
            Expr::Name(name) => {
                if is_real(symbols, name) {
                    Some(name.as_slice())
                } else {
                    first_dummy(symbols, rest)
                }
            }
            _ => first_dummy(symbols, rest),
        },
    }
}

/// The first that is, of a statement function and its dummies.
fn first_of_function<'a>(symbols: &Symbols, function: Function<'a>) -> Option<&'a [u8]>
    ensures { name_if result
        ≡ find (is_real_by (symbols_at symbols.now))
        (function_names (Some (definition_at function.entry))) }
{
    if is_real(symbols, function.name) {
        return Some(function.name);
    }
    match function.dummies {
        Some(dummies) => first_dummy(symbols, dummies),
        None => None,
    }
}

/// The first that is, of the statement function that a statement defines and its dummies.
fn first_defined<'a>(symbols: &Symbols, defines: bool, shape: &'a Shape) -> Option<&'a [u8]>
    ensures { name_if result
        ≡ find (is_real_by (symbols_at symbols.now))
        (if defines
        then function_names
        (definition_by (symbols_at symbols.now).names.arrays (shape_tree shape.now))
        else []) }
{
    if !defines {
        return None;
    }
    match defined_by(&symbols.ranks, shape) {
        Some(function) => first_of_function(symbols, function),
        None => None,
    }
}

/// The first of the names that a statement defines that is.

fn first_given<'a>(symbols: &Symbols, defines: bool, shape: &'a Shape) -> Option<&'a [u8]>
    ensures { name_if result
        ≡ find (is_real_by (symbols_at symbols.now))
        (names_defined (symbols_at symbols.now) defines (shape_tree shape.now)) }
{
    if let Some(name) = first_valued(symbols, shape) {
        return Some(name);
    }
    if let Some(name) = first_declared(symbols, declarators_in(shape)) {
        return Some(name);
    }
    first_defined(symbols, defines, shape)
}

/// A use of a variable, an array, a constant or a statement function of type REAL.
#[derive(Clone, Copy)]
struct Real<'a> {
    symbols: &'a Symbols<'a>,
}

impl Sought for Real<'_> {
    ghost is_use = { λ s u. is_real_use (symbols_at s.symbols.now) u };

    fn is(&self, one: &NameUse) -> bool {
        if !is_real(self.symbols, one.name) {
            return false;
        }
        match one.arguments {
            Arguments::Bare => true,
            Arguments::Without => !is_other_name(self.symbols, one.name),
            Arguments::With(_) => !is_other_name(self.symbols, one.name),
        }
    }
}

/// The first of the names in these uses that is.
#[tactic(auto, using(crate::proofs::Naming::used_first))]
fn first_used<'a>(symbols: &Symbols, uses: &[NameUse<'a>]) -> Option<&'a [u8]>
    ensures { name_if result
        ≡ find (is_real_by (symbols_at symbols.now))
        (names_used (is_real_use (symbols_at symbols.now)) (uses_at uses.now)) }
{
    match first_passing(uses, &Real { symbols }) {
        Some(one) => Some(one.name),
        None => None,
    }
}

/// The first of the names that a statement defines and of these uses that is.
fn first_real<'a>(
    symbols: &Symbols,
    defines: bool,
    shape: &'a Shape,
    uses: &[NameUse<'a>],
) -> Option<&'a [u8]>
    ensures { name_if result
        ≡ find (is_real_by (symbols_at symbols.now))
        (names_defined (symbols_at symbols.now) defines (shape_tree shape.now)
        ++ names_used (is_real_use (symbols_at symbols.now)) (uses_at uses.now)) }
{
    match first_given(symbols, defines, shape) {
        Some(name) => Some(name),
        None => first_used(symbols, uses),
    }
}

/// Whether one of the statements is IMPLICIT NONE.
fn is_without_letters(symbols: &Symbols) -> bool
    ensures { result ≡ has_implicit_none (trees_at symbols.now.items.now) }
{
    for item in symbols.items {
        if is_implicit_none(&*item.form.shape) {
            return true;
        }
    }
    false
}

/// K3: the first name in a statement that is of type REAL; the statement defines a statement
/// function or doesn't.
pub fn real_name<'a>(
    alloc: Global,
    symbols: &Symbols,
    defines: bool,
    shape: &'a Shape,
) -> Result<Option<Culprit<'a>>, AllocError>
    ensures { IfOk
        result (λ c. tell c
        ≡ real_in (symbols_at symbols.now) (has_implicit_none (trees_at symbols.now.items.now))
        defines
        (shape_tree shape.now)) }
{
    let uses = uses_of(alloc, symbols, defines, shape)?;
    match first_real(symbols, defines, shape, &uses) {
        None => Ok(None),
        Some(name) => Ok(Some(Culprit::Real {
            name,
            without_letters: is_without_letters(symbols),
        })),
    }
}

/// A reference to a function that isn't known.
#[derive(Clone, Copy)]
struct Unknown<'a> {
    symbols: &'a Symbols<'a>,
}

impl Sought for Unknown<'_> {
    ghost is_use = { λ s u. is_unknown_function (symbols_at s.symbols.now) u };

    fn is(&self, one: &NameUse) -> bool {
        is_function_use(self.symbols, one) && !is_intrinsic(one.name)
    }
}

/// K13: the first function in a statement that isn't known.
pub fn unknown_function<'a>(
    alloc: Global,
    symbols: &Symbols,
    defines: bool,
    shape: &'a Shape,
) -> Result<Option<Culprit<'a>>, AllocError>
    ensures { IfOk
        result (λ c. tell c ≡ unknown_in (symbols_at symbols.now) defines (shape_tree shape.now)) }
{
    let reads = reads_of(alloc, symbols, defines, shape)?;
    match first_passing(&reads, &Unknown { symbols }) {
        None => Ok(None),
        Some(one) => Ok(Some(Culprit::Unknown { name: one.name })),
    }
}
