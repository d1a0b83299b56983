//! Names that are used as variables and as functions (ANSI X3.9-1978, 18.2).

ghost use Rattle.std.specs.Prelude.{◌≡◌, IfOk, OnOk, []};
ghost use Rattle.meaning.specs.NameRules.{is_function_use as is_function_use_by};
ghost use Rattle.meaning.specs.NameRules.{is_variable_use as is_variable_use_by};
ghost use Rattle.name_maps.specs.NameSets.{texts};
ghost use Rattle.symbols.specs.SymbolsAt.{symbols_at};
ghost use Rattle.name_rules.specs.Disputed.{is_used_twofold};
ghost use Rattle.name_uses.specs.Held.{AreNames, Joins};
ghost use Rattle.name_rules.specs.HeldNames.{IsTwofold, KnowsUsed, functions_at, is_twofold};
ghost use Rattle.name_rules.specs.HeldNames.{variables_at};

use indexmap::IndexSet;
use meaning::syntax::{Item, Shape};
use name_uses::{
    NameUse, Sought, add_names, has_seen, is_bare, is_function_use, names_passing, reads_of,
    set_of, uses_of,
};
use rule_passes::Behind;
use std::alloc::{AllocError, Global};
use symbols::{Stage, Symbols, is_other_name};

/// A use as a variable.
#[derive(Clone, Copy)]
struct VariableUse<'a> {
    symbols: &'a Symbols<'a>,
}

impl Sought for VariableUse<'_> {
    ghost is_use = { λ s u. is_variable_use_by (symbols_at s.symbols.now) u };

    fn is(&self, one: &NameUse) -> bool {
        is_other_name(self.symbols, one.name) && is_bare(one.arguments)
    }
}

/// A use as a function.
#[derive(Clone, Copy)]
struct FunctionUse<'a> {
    symbols: &'a Symbols<'a>,
}

impl Sought for FunctionUse<'_> {
    ghost is_use = { λ s u. is_function_use_by (symbols_at s.symbols.now) u };

    fn is(&self, one: &NameUse) -> bool {
        is_function_use(self.symbols, one)
    }
}

/// The names that a statement uses as variables.
fn variables_in<'a>(
    alloc: Global,
    symbols: &Symbols,
    defines: bool,
    shape: &'a Shape,
) -> Result<Vec<&'a [u8]>, AllocError>
    ensures { IfOk result (AreNames (variables_at symbols.now defines shape.now)) }
{
    let uses = uses_of(alloc, symbols, defines, shape)?;
    names_passing(alloc, &uses, &VariableUse { symbols })
}

/// Those that it uses as functions.
fn functions_in<'a>(
    alloc: Global,
    symbols: &Symbols,
    defines: bool,
    shape: &'a Shape,
) -> Result<Vec<&'a [u8]>, AllocError>
    ensures { IfOk result (AreNames (functions_at symbols.now defines shape.now)) }
{
    let reads = reads_of(alloc, symbols, defines, shape)?;
    names_passing(alloc, &reads, &FunctionUse { symbols })
}

/// Puts the names that a statement uses as variables to those that were seen.
fn add_variables(
    seen: &mut IndexSet<Vec<u8>>,
    alloc: Global,
    symbols: &Symbols,
    defines: bool,
    shape: &Shape,
) -> Result<(), AllocError>
    ensures { OnOk result (Joins seen.old seen.new (variables_at symbols.now defines shape.now)) }
{
    let names = variables_in(alloc, symbols, defines, shape)?;
    add_names(seen, alloc, &names)
}

/// Puts those that it uses as functions to them.
fn add_functions(
    seen: &mut IndexSet<Vec<u8>>,
    alloc: Global,
    symbols: &Symbols,
    defines: bool,
    shape: &Shape,
) -> Result<(), AllocError>
    ensures { OnOk result (Joins seen.old seen.new (functions_at symbols.now defines shape.now)) }
{
    let names = functions_in(alloc, symbols, defines, shape)?;
    add_names(seen, alloc, &names)
}

/// Whether a name is used as a variable and as a function, one of them here.
fn is_either(
    known: &Twofold,
    here: &IndexSet<Vec<u8>>,
    variables: &[&[u8]],
    functions: &[&[u8]],
) -> bool
    ensures { result ≡ is_twofold known.now (texts here.now.keys) variables.now functions.now }
{
    has_seen(&known.functions, variables)
        || has_seen(here, variables)
        || has_seen(&known.variables, functions)
}

/// Whether a name is used as a variable and as a function: in a statement, or in it and in those
/// before.
fn is_both(known: &Twofold, variables: &[&[u8]], functions: &[&[u8]]) -> Result<bool, AllocError>
    ensures { IfOk result (IsTwofold known.now variables.now functions.now) }
{
    let here = set_of(known.alloc, functions)?;
    Ok(is_either(known, &here, variables, functions))
}

/// The rule on such names.
pub struct Twofold<'a> {
    alloc: Global,
    symbols: &'a Symbols<'a>,
    stage: Stage,
    /// The names that are used as variables.
    variables: IndexSet<Vec<u8>>,
    /// Those that are used as functions.
    functions: IndexSet<Vec<u8>>,
}

impl Drop for Twofold<'_> {
    fn drop(self) {
        let Twofold {
            alloc: _,
            symbols: _,
            stage: _,
            variables,
            functions,
        } = self;
        drop(variables);
        drop(functions);
    }
}

impl<'a> Twofold<'a> {
    /// The rule, where no statement was passed yet.
    pub fn new(alloc: Global, symbols: &'a Symbols<'a>) -> Twofold<'a>
        ensures same { result.symbols.now ≡ symbols.now }
        ensures none { KnowsUsed result [] }
    {
        Twofold {
            alloc,
            symbols,
            stage: Stage::new(),
            variables: IndexSet::new(alloc),
            functions: IndexSet::new(alloc),
        }
    }
}

impl Behind for Twofold<'_> {
    ghost breaks = { λ s before x. is_used_twofold (symbols_at s.symbols.now) before x };

    ghost knows = { λ s before. KnowsUsed s before };

    fn is_broken(&self, item: &Item) -> Result<bool, AllocError> {
        let defines = self.stage.is_defining(self.symbols, item);
        let shape = &*item.form.shape;
        let variables = variables_in(self.alloc, self.symbols, defines, shape)?;
        let functions = functions_in(self.alloc, self.symbols, defines, shape)?;
        is_both(self, &variables, &functions)
    }

    fn pass(&mut self, item: &Item) -> Result<(), AllocError> {
        let defines = self.stage.is_defining(self.symbols, item);
        let shape = &*item.form.shape;
        add_variables(
            &mut self.variables,
            self.alloc,
            self.symbols,
            defines,
            shape,
        )?;
        add_functions(
            &mut self.functions,
            self.alloc,
            self.symbols,
            defines,
            shape,
        )?;
        self.stage.pass(self.symbols, item);
        Ok(())
    }
}
