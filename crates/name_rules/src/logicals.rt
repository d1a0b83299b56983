//! Intrinsic functions in LOGICAL statements (ANSI X3.9-1978, 8.4.1 and 15.3).

ghost use Rattle.std.specs.Prelude.{◌≡◌, IfOk, OnOk, []};
ghost use Rattle.meaning.specs.NameRules.{is_intrinsic_use as is_intrinsic_use_by};
ghost use Rattle.meaning.specs.Syntax.{shape_tree};
ghost use Rattle.name_maps.specs.NameSets.{texts};
ghost use Rattle.symbols.specs.SymbolsAt.{symbols_at};
ghost use Rattle.name_rules.specs.Disputed.{is_logical_intrinsic};
ghost use Rattle.name_uses.specs.Held.{AreNames, Joins};
ghost use Rattle.name_uses.specs.NamesIn.{logical as names_logical};
ghost use Rattle.name_rules.specs.HeldNames.{IsLogical, KnowsLogical, intrinsics_at};
ghost use Rattle.name_rules.specs.HeldNames.{is_logical as is_logical_by};

use crate::given::declared_names;
use indexmap::IndexSet;
use meaning::syntax::{Item, Shape};
use name_uses::{
    NameUse, Sought, add_names, has_seen, is_function_use, names_passing, reads_of, set_of,
};
use rule_passes::Behind;
use std::alloc::{AllocError, Global};
use symbols::{Stage, Symbols, is_intrinsic};

/// A reference to an intrinsic function.
#[derive(Clone, Copy)]
struct IntrinsicUse<'a> {
    symbols: &'a Symbols<'a>,
}

impl Sought for IntrinsicUse<'_> {
    ghost is_use = { λ s u. is_intrinsic_use_by (symbols_at s.symbols.now) u };

    fn is(&self, one: &NameUse) -> bool {
        is_function_use(self.symbols, one) && is_intrinsic(one.name)
    }
}

/// The names in a LOGICAL statement.
#[tactic(auto, using(crate::proofs::GivenMore::logical_names, crate::proofs::GivenMore::integer_names))]
fn logical_names<'a>(alloc: Global, shape: &'a Shape) -> Result<Vec<&'a [u8]>, AllocError>
    ensures { IfOk result (AreNames (names_logical (shape_tree shape.now))) }
{
    match shape {
        Shape::Logical(declarators) => declared_names(alloc, declarators),
        _ => Ok(Vec::new(alloc)),
    }
}

/// The intrinsic functions that a statement uses.
fn intrinsics_in<'a>(
    alloc: Global,
    symbols: &Symbols,
    defines: bool,
    shape: &'a Shape,
) -> Result<Vec<&'a [u8]>, AllocError>
    ensures { IfOk result (AreNames (intrinsics_at symbols.now defines shape.now)) }
{
    let reads = reads_of(alloc, symbols, defines, shape)?;
    names_passing(alloc, &reads, &IntrinsicUse { symbols })
}

/// Puts the names in a LOGICAL statement to those that were seen.
fn add_logical(seen: &mut IndexSet<Vec<u8>>, alloc: Global, shape: &Shape) -> Result<(), AllocError>
    ensures { OnOk result (Joins seen.old seen.new (names_logical (shape_tree shape.now))) }
{
    let names = logical_names(alloc, shape)?;
    add_names(seen, alloc, &names)
}

/// Puts the intrinsic functions that a statement uses to them.
fn add_intrinsics(
    seen: &mut IndexSet<Vec<u8>>,
    alloc: Global,
    symbols: &Symbols,
    defines: bool,
    shape: &Shape,
) -> Result<(), AllocError>
    ensures { OnOk result (Joins seen.old seen.new (intrinsics_at symbols.now defines shape.now)) }
{
    let names = intrinsics_in(alloc, symbols, defines, shape)?;
    add_names(seen, alloc, &names)
}

/// Whether an intrinsic function is used and stands in a LOGICAL statement, one of both here.
fn is_either(
    known: &Logicals,
    here: &IndexSet<Vec<u8>>,
    names: &[&[u8]],
    functions: &[&[u8]],
) -> bool
    ensures { result ≡ is_logical_by known.now (texts here.now.keys) names.now functions.now }
{
    has_seen(&known.intrinsics, names)
        || has_seen(here, names)
        || has_seen(&known.logicals, functions)
}

/// Whether an intrinsic function is used and stands in a LOGICAL statement: in a statement, or in
/// it and in those before.
fn is_logical(known: &Logicals, names: &[&[u8]], functions: &[&[u8]]) -> Result<bool, AllocError>
    ensures { IfOk result (IsLogical known.now names.now functions.now) }
{
    let here = set_of(known.alloc, functions)?;
    Ok(is_either(known, &here, names, functions))
}

/// The rule on such functions.
pub struct Logicals<'a> {
    alloc: Global,
    symbols: &'a Symbols<'a>,
    stage: Stage,
    /// The intrinsic functions that are used.
    intrinsics: IndexSet<Vec<u8>>,
    /// The names in LOGICAL statements.
    logicals: IndexSet<Vec<u8>>,
}

impl Drop for Logicals<'_> {
    fn drop(self) {
        let Logicals {
            alloc: _,
            symbols: _,
            stage: _,
            intrinsics,
            logicals,
        } = self;
        drop(intrinsics);
        drop(logicals);
    }
}

impl<'a> Logicals<'a> {
    /// The rule, where no statement was passed yet.
    pub fn new(alloc: Global, symbols: &'a Symbols<'a>) -> Logicals<'a>
        ensures same { result.symbols.now ≡ symbols.now }
        ensures none { KnowsLogical result [] }
    {
        Logicals {
            alloc,
            symbols,
            stage: Stage::new(),
            intrinsics: IndexSet::new(alloc),
            logicals: IndexSet::new(alloc),
        }
    }
}

impl Behind for Logicals<'_> {
    ghost breaks = { λ s before x. is_logical_intrinsic (symbols_at s.symbols.now) before x };

    ghost knows = { λ s before. KnowsLogical s before };

    fn is_broken(&self, item: &Item) -> Result<bool, AllocError> {
        let defines = self.stage.is_defining(self.symbols, item);
        let shape = &*item.form.shape;
        let names = logical_names(self.alloc, shape)?;
        let functions = intrinsics_in(self.alloc, self.symbols, defines, shape)?;
        is_logical(self, &names, &functions)
    }

    fn pass(&mut self, item: &Item) -> Result<(), AllocError> {
        let defines = self.stage.is_defining(self.symbols, item);
        let shape = &*item.form.shape;
        add_logical(&mut self.logicals, self.alloc, shape)?;
        add_intrinsics(
            &mut self.intrinsics,
            self.alloc,
            self.symbols,
            defines,
            shape,
        )?;
        self.stage.pass(self.symbols, item);
        Ok(())
    }
}
