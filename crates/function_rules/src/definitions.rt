//! Statement functions (ANSI X3.9-1978, 15.4).

ghost use Rattle.std.specs.Prelude.{◌≡◌, ◌||◌, ◌&&◌, flat_map, length, nat_lt, IfOk, OnOk};
ghost use Rattle.std.specs.List.{list_any};
ghost use Rattle.meaning.specs.NameRules.{breaks_function_rules};
ghost use Rattle.meaning.specs.NameRules.{has_bad_dummies as has_bad_dummies_by, is_no_name};
ghost use Rattle.meaning.specs.NameRules.{sets_no_array as sets_no_array_by};
ghost use Rattle.meaning.specs.Scopes.{dummy_name, listed};
ghost use Rattle.meaning.specs.Syntax.{exprs_tree, shape_tree};
ghost use Rattle.symbols.specs.Functions.{definition_at, dummies_at};
ghost use Rattle.symbols.specs.SymbolsAt.{symbols_at};
ghost use Rattle.function_rules.specs.Earlier.{is_dummy_use, is_later_use, stands_twice};
ghost use Rattle.function_rules.specs.Measured.{is_kept};
ghost use Rattle.rule_passes.specs.Telling.{AddsTold};
ghost use Rattle.function_rules.specs.Behind.{DescribesAt, IsHere, KeepsLevel, KeepsNodes};
ghost use Rattle.function_rules.specs.Behind.{is_bad as is_bad_behind, is_ill as is_ill_behind};

use crate::measures::{Measure, keep_measure, measure_of};
use indexmap::IndexMap;
use meaning::refusal::{Broken, Rule};
use meaning::syntax::{Expr, Exprs, Item, Shape};
use name_uses::{NameUse, Sought, add_uses, has_passing, is_bare, is_dummy};
use rule_passes::{Behind, add_told};
use std::alloc::{AllocError, Global};
use symbols::{Function, Stage, Symbols, defined_by, is_function_name};

/// Whether there are more expressions than a number.
fn is_longer(expressions: &Exprs, number: u32) -> bool
    ensures { result ≡ nat_lt number (length (listed (exprs_tree expressions.now))) }
{
    match expressions {
        Exprs::Empty => false,
        Exprs::More(_, rest) => number == 0 || is_longer(rest, number - 1),
    }
}

/// Whether one of the dummies is no name.
fn has_no_name(dummies: &Exprs) -> bool
    ensures { result ≡ list_any is_no_name (listed (exprs_tree dummies.now)) }
{
    match dummies {
        Exprs::Empty => false,
        Exprs::More(dummy, rest) => match dummy {
            Expr::Name(_) => has_no_name(rest),
            _ => true,
        },
    }
}

/// Whether two of the dummies are one name.
fn has_same(dummies: &Exprs) -> bool
    ensures { result ≡ stands_twice (flat_map dummy_name (listed (exprs_tree dummies.now))) }
{
    match dummies {
        Exprs::Empty => false,
        Exprs::More(dummy, rest) => match dummy {
            Expr::Name(own) => is_dummy(rest, own) || has_same(rest),
            _ => has_same(rest),
        },
    }
}

/// Whether there are more than 16 dummies, one is no name or two are one name.
#[tactic(auto, using(crate::proofs::Twice::twice_is))]
fn has_bad_dummies(function: Function) -> bool
    ensures { result ≡ has_bad_dummies_by (definition_at function.entry) }
{
    match function.dummies {
        Some(dummies) => is_longer(dummies, 16) || has_no_name(dummies) || has_same(dummies),
        None => false,
    }
}

/// A reference to a function that is a dummy.
#[derive(Clone, Copy)]
struct DummyReference<'a> {
    dummies: Option<&'a Exprs>,
}

impl Sought for DummyReference<'_> {
    ghost is_use = { λ s u. is_dummy_use (dummies_at s.dummies) u };

    fn is(&self, one: &NameUse) -> bool {
        if is_bare(one.arguments) {
            return false;
        }
        match self.dummies {
            Some(dummies) => is_dummy(dummies, one.name),
            None => false,
        }
    }
}

/// A reference to a statement function that none of those that are kept is.
#[derive(Clone, Copy)]
struct LaterReference<'a> {
    symbols: &'a Symbols<'a>,
    kept: &'a IndexMap<Vec<u8>, Measure>,
}

impl Sought for LaterReference<'_> {
    ghost is_use = { λ s u. is_later_use (symbols_at s.symbols.now) (is_kept s.kept.now) u };

    fn is(&self, one: &NameUse) -> bool {
        !is_bare(one.arguments)
            && is_function_name(self.symbols, one.name)
            && !self.kept.contains_key(one.name)
    }
}

/// Whether a statement function calls too deep, or its expression becomes too large.
fn is_too_deep(measure: Measure) -> bool
    ensures { result ≡ (nat_lt 32 measure.level || nat_lt 65536 measure.nodes) }
{
    measure.level > 32 || measure.nodes > 65536
}

/// Whether the expression of a statement function breaks the rule, by the uses in it.
fn has_bad_body(
    symbols: &Symbols,
    kept: &IndexMap<Vec<u8>, Measure>,
    function: Function,
    uses: &[NameUse],
) -> bool
    ensures { result ≡ is_ill_behind symbols.now kept.now function.entry uses.now }
{
    let dummy = DummyReference {
        dummies: function.dummies,
    };
    let later = LaterReference { symbols, kept };
    has_passing(uses, &dummy)
        || has_passing(uses, &later)
        || is_too_deep(measure_of(kept, function.body, uses))
}

/// Whether a statement function breaks the rule, by the measures of those before it.
fn is_bad(
    alloc: Global,
    symbols: &Symbols,
    kept: &IndexMap<Vec<u8>, Measure>,
    function: Function,
) -> Result<bool, AllocError>
    ensures { IfOk result (λ b. b ≡ is_bad_behind symbols.now kept.now function.entry) }
{
    if has_bad_dummies(function) {
        return Ok(true);
    }
    let mut uses = Vec::new(alloc);
    add_uses(&mut uses, function.body)?;
    Ok(has_bad_body(symbols, kept, function, &uses))
}

/// Whether a statement under a logical IF assigns to what is no array and has parentheses.
fn sets_no_array(symbols: &Symbols, shape: &Shape) -> bool
    ensures { result ≡ sets_no_array_by (symbols_at symbols.now) (shape_tree shape.now) }
{
    match shape {
        Shape::LogicalIf(_, statement) => defined_by(&symbols.ranks, statement).is_some(),
        _ => false,
    }
}

/// The statement function that a statement defines.
fn function_here<'a>(symbols: &Symbols, stage: &Stage, item: &'a Item) -> Option<Function<'a>>
    ensures { IsHere symbols.now stage.now item.now result }
{
    if stage.is_before_executables {
        defined_by(&symbols.ranks, &*item.form.shape)
    } else {
        None
    }
}

/// Keeps the measure of a statement function, if there is one.
fn keep_function(
    kept: &mut IndexMap<Vec<u8>, Measure>,
    alloc: Global,
    function: Option<Function>,
) -> Result<(), AllocError>
    ensures levels { OnOk result (KeepsLevel kept.old kept.new function.entry) }
    ensures nodes { OnOk result (KeepsNodes kept.old kept.new function.entry) }
{
    match function {
        Some(function) => {
            let mut uses = Vec::new(alloc);
            add_uses(&mut uses, function.body)?;
            let measure = measure_of(kept, function.body, &uses);
            keep_measure(kept, alloc, function.name, measure)
        }
        None => Ok(()),
    }
}

/// The rule on statement functions.
struct Definitions<'a> {
    alloc: Global,
    symbols: &'a Symbols<'a>,
    stage: Stage,
    /// The measures of the statement functions that were passed.
    kept: IndexMap<Vec<u8>, Measure>,
}

impl Drop for Definitions<'_> {
    fn drop(self) {
        let Definitions {
            alloc: _,
            symbols: _,
            stage: _,
            kept,
        } = self;
        drop(kept);
    }
}

impl Behind for Definitions<'_> {
    ghost breaks = { λ s before x. breaks_function_rules (symbols_at s.symbols.now) before x };

    ghost knows = { λ s before. DescribesAt s.symbols.now s.stage s.kept before };

    fn is_broken(&self, item: &Item) -> Result<bool, AllocError> {
        let shape = &*item.form.shape;
        match defined_by(&self.symbols.ranks, shape) {
            Some(function) => {
                if self.stage.is_before_executables {
                    is_bad(self.alloc, self.symbols, &self.kept, function)
                } else {
                    Ok(true)
                }
            }
            None => Ok(sets_no_array(self.symbols, shape)),
        }
    }

    fn pass(&mut self, item: &Item) -> Result<(), AllocError> {
        let function = function_here(self.symbols, &self.stage, item);
        keep_function(&mut self.kept, self.alloc, function)?;
        self.stage.pass(self.symbols, item);
        Ok(())
    }
}

/// K12: adds the pair of each line at which a statement function breaks the rule on them.
pub fn add_bad_definitions(
    pairs: &mut Vec<Broken>,
    alloc: Global,
    symbols: &Symbols,
    items: &[&Item],
) -> Result<(), AllocError>
    ensures { OnOk result
        (AddsTold (breaks_function_rules (symbols_at symbols.now)) Rule.K12 items.now
        pairs.old.items
        pairs.new.items) }
{
    let mut definitions = Definitions {
        alloc,
        symbols,
        stage: Stage::new(),
        kept: IndexMap::new(alloc),
    };
    add_told(pairs, &mut definitions, Rule::K12, items)
}
