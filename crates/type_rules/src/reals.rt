//! Names of type REAL (ANSI X3.9-1978, 4.1.2 and 4.4).

ghost use Rattle.std.specs.Prelude.{◌≡◌, ◌||◌, Some, OnOk};
ghost use Rattle.meaning.specs.NameRules.{has_real_name, is_real as is_real_by, is_real_use};
ghost use Rattle.meaning.specs.Syntax.{exprs_tree, shape_tree};
ghost use Rattle.symbols.specs.SymbolsAt.{symbols_at};
ghost use Rattle.symbols.specs.Stages.{IsBehind};
ghost use Rattle.rule_passes.specs.Telling.{AddsTold};
ghost use Rattle.name_uses.specs.NamesIn.{constant, declared, valued};
ghost use Rattle.type_rules.specs.RealNames.{any_defined_real, any_real, dummies as names_of};
ghost use Rattle.type_rules.specs.RealNames.{has_real as has_real_by, of_function};

use meaning::refusal::{Broken, Rule};
use meaning::syntax::{Declarator, Expr, Exprs, Item, NamedConstant, Shape};
use name_uses::{Arguments, NameUse, Sought, has_passing, uses_of};
use rule_passes::{Behind, add_told};
use std::alloc::{AllocError, Global};
use symbols::{Function, Stage, Symbols, declarators_in, defined_by, is_other_name, type_of_name};

/// Whether a name is that of data of type REAL.
fn is_real(symbols: &Symbols, name: &[u8]) -> bool
    ensures { result ≡ is_real_by (symbols_at symbols.now) name.now }
{
    type_of_name(symbols, name).is_none()
}

/// Whether one of the constants is.
fn has_real_constant(symbols: &Symbols, constants: &[NamedConstant]) -> bool
    ensures { result ≡ any_real (symbols_at symbols.now) (constant constants.now) }
{
    for constant in constants {
        if is_real(symbols, &constant.name) {
            return true;
        }
    }
    false
}

/// Whether one of the constants that a statement defines is.
fn defines_real_constant(symbols: &Symbols, shape: &Shape) -> bool
    ensures { result ≡ any_real (symbols_at symbols.now) (valued (shape_tree shape.now)) }
{
    match shape {
        Shape::Parameter(constants) => has_real_constant(symbols, constants),
        _ => false,
    }
}

/// Whether one of the names in a type or DIMENSION statement is.
fn has_real_declarator(symbols: &Symbols, declarators: &[Declarator]) -> bool
    ensures { result ≡ any_real (symbols_at symbols.now) (declared declarators.now) }
{
    for declarator in declarators {
        if is_real(symbols, &declarator.name) {
            return true;
        }
    }
    false
}

/// Whether one of the dummies is.
#[tactic(auto, using(rule_passes::proofs::Missing::any_both))]
fn has_real_dummy(symbols: &Symbols, dummies: &Exprs) -> bool
    ensures { result ≡ any_real (symbols_at symbols.now) (names_of (exprs_tree dummies.now)) }
{
    match dummies {
        Exprs::Empty => false,
        Exprs::More(dummy, rest) => match dummy {
            Expr::Name(name) => is_real(symbols, name) || has_real_dummy(symbols, rest),
            _ => has_real_dummy(symbols, rest),
        },
    }
}

/// Whether a statement function is, or one of its dummies.
fn is_real_function(symbols: &Symbols, function: Function) -> bool
    ensures { result ≡ any_real (symbols_at symbols.now) (of_function function.entry) }
{
    if is_real(symbols, function.name) {
        return true;
    }
    match function.dummies {
        Some(dummies) => has_real_dummy(symbols, dummies),
        None => false,
    }
}

/// Whether one of the names that a statement defines is.
fn defines_real(symbols: &Symbols, defines: bool, shape: &Shape) -> bool
    ensures { result ≡ any_defined_real symbols.now defines shape.now }
{
    if defines_real_constant(symbols, shape)
        || has_real_declarator(symbols, declarators_in(shape))
    {
        return true;
    }
    if !defines {
        return false;
    }
    match defined_by(&symbols.ranks, shape) {
        Some(function) => is_real_function(symbols, function),
        None => false,
    }
}

/// A use of a variable, an array, a constant or a statement function of type REAL.
#[derive(Clone, Copy)]
struct Real<'a> {
    symbols: &'a Symbols<'a>,
}

impl Sought for Real<'_> {
    ghost is_use = { λ s u. is_real_use (symbols_at s.symbols.now) u };

    fn is(&self, one: &NameUse) -> bool {
        if !is_real(self.symbols, one.name) {
            return false;
        }
        match one.arguments {
            Arguments::Bare => true,
            Arguments::Without => !is_other_name(self.symbols, one.name),
            Arguments::With(_) => !is_other_name(self.symbols, one.name),
        }
    }
}

/// Whether one of the names that a statement defines or of its uses is one of these.
fn has_real(symbols: &Symbols, defines: bool, shape: &Shape, uses: &[NameUse]) -> bool
    ensures { result ≡ has_real_by symbols.now defines shape.now uses.now }
{
    defines_real(symbols, defines, shape) || has_passing(uses, &Real { symbols })
}

/// The rule on names of type REAL.
#[derive(Drop)]
struct Reals<'a> {
    alloc: Global,
    symbols: &'a Symbols<'a>,
    stage: Stage,
}

impl Behind for Reals<'_> {
    ghost breaks = { λ s before x. has_real_name (symbols_at s.symbols.now) before x };

    ghost knows = { λ s before. IsBehind s.symbols.now s.stage before };

    fn is_broken(&self, item: &Item) -> Result<bool, AllocError> {
        let defines = self.stage.is_defining(self.symbols, item);
        let shape = &*item.form.shape;
        let uses = uses_of(self.alloc, self.symbols, defines, shape)?;
        Ok(has_real(self.symbols, defines, shape, &uses))
    }

    fn pass(&mut self, item: &Item) -> Result<(), AllocError> {
        self.stage.pass(self.symbols, item);
        Ok(())
    }
}

/// K3: adds the pair of each line at which a name of type REAL is defined or used.
pub fn add_real_names(
    pairs: &mut Vec<Broken>,
    alloc: Global,
    symbols: &Symbols,
    items: &[&Item],
) -> Result<(), AllocError>
    ensures { OnOk result
        (AddsTold (has_real_name (symbols_at symbols.now)) Rule.K3 items.now pairs.old.items
        pairs.new.items) }
{
    let mut reals = Reals {
        alloc,
        symbols,
        stage: Stage::new(),
    };
    add_told(pairs, &mut reals, Rule::K3, items)
}
