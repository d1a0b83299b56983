//! Statement functions that break the rule on them (ANSI X3.9-1978, 15.4).

ghost use Rattle.std.specs.Prelude.{◌≡◌, flat_map, length, nat_lt, IfOk};
ghost use Rattle.std.specs.List.{list_any};
ghost use Rattle.meaning.specs.NameRules.{is_no_name};
ghost use Rattle.meaning.specs.Scopes.{defined_by as definition_by, dummy_name, listed};
ghost use Rattle.meaning.specs.Syntax.{exprs_tree, shape_tree};
ghost use Rattle.meaning.specs.Trees.{item_tree};
ghost use Rattle.meaning.specs.Uses.{is_before_executables, is_one_of};
ghost use Rattle.symbols.specs.Functions.{definition_at};
ghost use Rattle.symbols.specs.Listed.{trees_at};
ghost use Rattle.symbols.specs.SymbolsAt.{symbols_at};
ghost use Rattle.name_uses.specs.UsesAt.{uses_at};
ghost use Rattle.finding.specs.Finding.{name_if};
ghost use Rattle.function_culprits.specs.Functions.{bad_among, bad_dummies_in, bad_in};
ghost use Rattle.function_culprits.specs.Functions.{called_among, conditional_in, crowded_in};
ghost use Rattle.function_culprits.specs.Functions.{defined_told, doubled_in, is_dummy_use};
ghost use Rattle.function_culprits.specs.Functions.{is_later_use, later_among, later_told};
ghost use Rattle.function_culprits.specs.Functions.{misdefined_at, misdefined_in, names_before};
ghost use Rattle.function_culprits.specs.Functions.{settled_by, twice_in, unnamed_in};
ghost use Rattle.function_culprits.specs.Told.{tell, told_at};

use crate::culprit::FunctionCulprit;
use finding::first_passing;
use meaning::syntax::{Expr, Exprs, Item, Shape};
use name_uses::{NameUse, Sought, add_uses, is_bare, is_dummy};
use std::alloc::{AllocError, Global};
use symbols::{Function, Stage, Symbols, defined_by, is_function_name, is_specification};

/// Whether there are more expressions than a number.
fn is_longer(expressions: &Exprs, number: u32) -> bool
    ensures { result ≡ nat_lt number (length (listed (exprs_tree expressions.now))) }
{
    match expressions {
        Exprs::Empty => false,
        Exprs::More(_, rest) => number == 0 || is_longer(rest, number - 1),
    }
}

/// Whether one of the dummies is no name.
fn has_no_name(dummies: &Exprs) -> bool
    ensures { result ≡ list_any is_no_name (listed (exprs_tree dummies.now)) }
{
    match dummies {
        Exprs::Empty => false,
        Exprs::More(dummy, rest) => match dummy {
            Expr::Name(_) => has_no_name(rest),
            _ => true,
        },
    }
}

/// The first dummy that stands again.
fn first_double(dummies: &Exprs) -> Option<&[u8]>
    ensures { name_if result ≡ twice_in (flat_map dummy_name (listed (exprs_tree dummies.now))) }
{
    match dummies {
        Exprs::Empty => None,
        Exprs::More(dummy, rest) => match dummy {
            Expr::Name(own) => {
                if is_dummy(rest, own) {
                    Some(own.as_slice())
                } else {
                    first_double(rest)
                }
            }
            _ => first_double(rest),
        },
    }
}

/// A function with more than 16 dummies.
fn crowded<'a>(function: Function<'a>) -> Option<FunctionCulprit<'a>>
    ensures { tell result ≡ crowded_in (definition_at function.entry) }
{
    match function.dummies {
        Some(dummies) => {
            if is_longer(dummies, 16) {
                Some(FunctionCulprit::Crowded {
                    name: function.name,
                })
            } else {
                None
            }
        }
        None => None,
    }
}

/// A function with a dummy that is no name.
fn unnamed<'a>(function: Function<'a>) -> Option<FunctionCulprit<'a>>
    ensures { tell result ≡ unnamed_in (definition_at function.entry) }
{
    match function.dummies {
        Some(dummies) => {
            if has_no_name(dummies) {
                Some(FunctionCulprit::Unnamed {
                    name: function.name,
                })
            } else {
                None
            }
        }
        None => None,
    }
}

/// A dummy of a function that stands twice.
fn doubled<'a>(function: Function<'a>) -> Option<FunctionCulprit<'a>>
    ensures { tell result ≡ doubled_in (definition_at function.entry) }
{
    match function.dummies {
        Some(dummies) => match first_double(dummies) {
            Some(name) => Some(FunctionCulprit::Doubled { name }),
            None => None,
        },
        None => None,
    }
}

/// A reference to a function that is a dummy.
#[derive(Clone, Copy)]
struct DummyReference<'a> {
    function: Function<'a>,
}

impl Sought for DummyReference<'_> {
    ghost is_use = { λ s u. is_dummy_use (definition_at s.function) u };

    fn is(&self, one: &NameUse) -> bool {
        if is_bare(one.arguments) {
            return false;
        }
        match self.function.dummies {
            Some(dummies) => is_dummy(dummies, one.name),
            None => false,
        }
    }
}

/// Whether what a statement says settles that a statement function of that name stands before all
/// executable statements: it defines the function, or it is executable.
fn settles_by(symbols: &Symbols, shape: &Shape, name: &[u8]) -> Option<bool>
    ensures { result ≡ settled_by (symbols_at symbols.now) (shape_tree shape.now) name.now }
{
    match defined_by(&symbols.ranks, shape) {
        Some(function) => {
            if name == function.name {
                Some(true)
            } else {
                None
            }
        }
        None => {
            if is_specification(shape) {
                None
            } else {
                Some(false)
            }
        }
    }
}

/// The same of a statement.
fn settles(symbols: &Symbols, item: &Item, name: &[u8]) -> Option<bool>
    ensures { result ≡ settled_by (symbols_at symbols.now) (item_tree item.now).shape name.now }
{
    settles_by(symbols, &*item.form.shape, name)
}

/// Whether a statement function of that name stands among statements before all executable ones.
fn is_defined_before(symbols: &Symbols, before: &[&Item], name: &[u8]) -> bool
    ensures { result
        ≡ is_one_of (names_before (symbols_at symbols.now) (trees_at before.now)) name.now }
{
    for item in before {
        match settles(symbols, item, name) {
            Some(answer) => return answer,
            None => {}
        }
    }
    false
}

/// A reference to a statement function that none before the statement is.
#[derive(Clone, Copy)]
struct LaterReference<'a> {
    symbols: &'a Symbols<'a>,
    before: &'a [&'a Item],
}

impl Sought for LaterReference<'_> {
    ghost is_use = { λ s u. is_later_use (symbols_at s.symbols.now)
        (names_before (symbols_at s.symbols.now) (trees_at s.before.now)) u };

    fn is(&self, one: &NameUse) -> bool {
        !is_bare(one.arguments)
            && is_function_name(self.symbols, one.name)
            && !is_defined_before(self.symbols, self.before, one.name)
    }
}

/// The first dummy that is referred to as a function.
fn called<'a>(function: Function, uses: &[NameUse<'a>]) -> Option<FunctionCulprit<'a>>
    ensures { tell result ≡ called_among (definition_at function.entry) (uses_at uses.now) }
{
    match first_passing(uses, &DummyReference { function }) {
        Some(one) => Some(FunctionCulprit::Called { name: one.name }),
        None => None,
    }
}

/// What is told of a function that is referred to too early.
fn told_later<'a>(own: &[u8], name: &'a [u8]) -> FunctionCulprit<'a>
    ensures { told_at result ≡ later_told own.now name.now }
{
    if own == name {
        FunctionCulprit::Recursive { name }
    } else {
        FunctionCulprit::Later { name }
    }
}

/// The first function that is referred to too early.
fn later<'a>(
    symbols: &Symbols,
    before: &[&Item],
    own: &[u8],
    uses: &[NameUse<'a>],
) -> Option<FunctionCulprit<'a>>
    ensures { tell result
        ≡ later_among (symbols_at symbols.now)
        (names_before (symbols_at symbols.now) (trees_at before.now))
        own.now (uses_at uses.now) }
{
    match first_passing(uses, &LaterReference { symbols, before }) {
        Some(one) => Some(told_later(own, one.name)),
        None => None,
    }
}

/// What breaks the rule in the dummies of a statement function.
fn bad_dummies<'a>(function: Function<'a>) -> Option<FunctionCulprit<'a>>
    ensures { tell result ≡ bad_dummies_in (definition_at function.entry) }
{
    if let Some(culprit) = crowded(function) {
        return Some(culprit);
    }
    if let Some(culprit) = unnamed(function) {
        return Some(culprit);
    }
    doubled(function)
}

/// What breaks the rule in what a statement function refers to.
fn bad_references<'a>(
    symbols: &Symbols,
    before: &[&Item],
    function: Function,
    uses: &[NameUse<'a>],
) -> Option<FunctionCulprit<'a>>
    ensures { tell result
        ≡ bad_among (symbols_at symbols.now)
        (names_before (symbols_at symbols.now) (trees_at before.now))
        (definition_at function.entry) (uses_at uses.now) }
{
    match called(function, uses) {
        Some(culprit) => Some(culprit),
        None => later(symbols, before, function.name, uses),
    }
}

/// What breaks the rule at a statement function.
fn bad_function<'a>(
    alloc: Global,
    symbols: &Symbols,
    before: &[&Item],
    function: Function<'a>,
) -> Result<Option<FunctionCulprit<'a>>, AllocError>
    ensures { IfOk
        result (λ c. tell c
        ≡ bad_in (symbols_at symbols.now)
        (names_before (symbols_at symbols.now) (trees_at before.now))
        (definition_at function.entry)) }
{
    if let Some(culprit) = bad_dummies(function) {
        return Ok(Some(culprit));
    }
    let mut uses = Vec::new(alloc);
    add_uses(&mut uses, function.body)?;
    Ok(bad_references(symbols, before, function, &uses))
}

/// What breaks the rule under a logical IF.
fn conditional<'a>(symbols: &Symbols, shape: &'a Shape) -> Option<FunctionCulprit<'a>>
    ensures { tell result ≡ conditional_in (symbols_at symbols.now) (shape_tree shape.now) }
{
    match shape {
        Shape::LogicalIf(_, statement) => match defined_by(&symbols.ranks, statement) {
            Some(function) => Some(FunctionCulprit::Conditional {
                name: function.name,
            }),
            None => None,
        },
        _ => None,
    }
}

/// Whether no executable statement stands before.
fn is_early(symbols: &Symbols, before: &[&Item]) -> bool
    ensures { result ≡ is_before_executables (symbols_at symbols.now) (trees_at before.now) }
{
    let mut stage = Stage::new();
    for item in before {
        stage.pass(symbols, item);
    }
    stage.is_before_executables
}

/// What breaks the rule at a statement function that stands behind statements.
fn misdefined_function<'a>(
    alloc: Global,
    symbols: &Symbols,
    before: &[&Item],
    function: Function<'a>,
) -> Result<Option<FunctionCulprit<'a>>, AllocError>
    ensures { IfOk
        result (λ c. tell c
        ≡ defined_told (symbols_at symbols.now)
        (is_before_executables (symbols_at symbols.now) (trees_at before.now))
        (names_before (symbols_at symbols.now) (trees_at before.now))
        (definition_at function.entry)) }
{
    if !is_early(symbols, before) {
        return Ok(Some(FunctionCulprit::Late {
            name: function.name,
        }));
    }
    match bad_function(alloc, symbols, before, function)? {
        Some(culprit) => Ok(Some(culprit)),
        None => Ok(None),
    }
}

/// What breaks the rule in what a statement behind others says.
fn misdefined_shape<'a>(
    alloc: Global,
    symbols: &Symbols,
    before: &[&Item],
    shape: &'a Shape,
) -> Result<Option<FunctionCulprit<'a>>, AllocError>
    ensures { IfOk
        result (λ c. tell c
        ≡ misdefined_in (symbols_at symbols.now)
        (is_before_executables (symbols_at symbols.now) (trees_at before.now))
        (names_before (symbols_at symbols.now) (trees_at before.now)) (shape_tree shape.now)
        (definition_by (symbols_at symbols.now).names.arrays (shape_tree shape.now))) }
{
    match defined_by(&symbols.ranks, shape) {
        None => Ok(conditional(symbols, shape)),
        Some(function) => match misdefined_function(alloc, symbols, before, function)? {
            Some(culprit) => Ok(Some(culprit)),
            None => Ok(None),
        },
    }
}

/// K12: what breaks the rule on statement functions at a statement behind others, but how deep they
/// go and how large they become.
pub fn misdefined_name<'a>(
    alloc: Global,
    symbols: &Symbols,
    before: &[&Item],
    item: &'a Item,
) -> Result<Option<FunctionCulprit<'a>>, AllocError>
    ensures { IfOk
        result (λ c. tell c
        ≡ misdefined_at (symbols_at symbols.now) (trees_at before.now) (item_tree item.now)) }
{
    misdefined_shape(alloc, symbols, before, &*item.form.shape)
}
