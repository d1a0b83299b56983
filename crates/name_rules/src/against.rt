//! Uses of names against what they are (ANSI X3.9-1978, 8.6 and 15.4).

ghost use Rattle.std.specs.Prelude.{◌≡◌, ◌||◌, []};
ghost use Rattle.meaning.specs.NameRules.{is_against_role, sets_constant as sets_constant_by};
ghost use Rattle.meaning.specs.Syntax.{shape_tree};
ghost use Rattle.symbols.specs.SymbolsAt.{symbols_at};
ghost use Rattle.symbols.specs.Stages.{IsBehind};
ghost use Rattle.name_uses.specs.UsesAt.{uses_at};
ghost use Rattle.name_rules.specs.Disputed.{is_used_against};
ghost use Rattle.name_rules.specs.Disputed.{goes_against};

use meaning::syntax::{Item, Shape};
use name_uses::{Arguments, NameUse, Sought, has_passing, uses_of};
use rule_passes::Behind;
use std::alloc::{AllocError, Global};
use symbols::{Stage, Symbols, is_constant_name, is_function_name};

/// A use of a constant with parentheses, or of a statement function without.
#[derive(Clone, Copy)]
struct AgainstRole<'a> {
    symbols: &'a Symbols<'a>,
}

impl Sought for AgainstRole<'_> {
    ghost is_use = { λ s u. is_against_role (symbols_at s.symbols.now) u };

    fn is(&self, one: &NameUse) -> bool {
        match one.arguments {
            Arguments::Bare => is_function_name(self.symbols, one.name),
            Arguments::Without => is_constant_name(self.symbols, one.name),
            Arguments::With(_) => is_constant_name(self.symbols, one.name),
        }
    }
}

/// Whether a statement assigns to a constant.
fn sets_constant(symbols: &Symbols, shape: &Shape) -> bool
    ensures { result ≡ sets_constant_by (symbols_at symbols.now) (shape_tree shape.now) }
{
    match shape {
        Shape::Assignment { name, .. } => is_constant_name(symbols, name),
        Shape::Definition(name, _) => is_constant_name(symbols, name),
        Shape::LogicalIf(_, statement) => sets_constant(symbols, statement),
        _ => false,
    }
}

/// Whether one of the uses of a statement is against what the name is, or it assigns to a constant.
fn is_against(symbols: &Symbols, uses: &[NameUse], shape: &Shape) -> bool
    ensures { result
        ≡ goes_against (symbols_at symbols.now) (uses_at uses.now) (shape_tree shape.now) }
{
    has_passing(uses, &AgainstRole { symbols }) || sets_constant(symbols, shape)
}

/// The rule on such uses.
#[derive(Drop)]
pub struct Against<'a> {
    alloc: Global,
    symbols: &'a Symbols<'a>,
    stage: Stage,
}

impl<'a> Against<'a> {
    /// The rule, where no statement was passed yet.
    pub fn new(alloc: Global, symbols: &'a Symbols<'a>) -> Against<'a>
        ensures same { result.symbols.now ≡ symbols.now }
        ensures none { IsBehind result.symbols.now result.stage [] }
    {
        Against {
            alloc,
            symbols,
            stage: Stage::new(),
        }
    }
}

impl Behind for Against<'_> {
    ghost breaks = { λ s before x. is_used_against (symbols_at s.symbols.now) before x };

    ghost knows = { λ s before. IsBehind s.symbols.now s.stage before };

    fn is_broken(&self, item: &Item) -> Result<bool, AllocError> {
        let defines = self.stage.is_defining(self.symbols, item);
        let shape = &*item.form.shape;
        let uses = uses_of(self.alloc, self.symbols, defines, shape)?;
        Ok(is_against(self.symbols, &uses, shape))
    }

    fn pass(&mut self, item: &Item) -> Result<(), AllocError> {
        self.stage.pass(self.symbols, item);
        Ok(())
    }
}
