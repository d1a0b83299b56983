//! What names are: constants, arrays, statement functions (ANSI X3.9-1978, chapters 5, 8 and 15,
//! and 18.2).

ghost use Rattle.std.specs.Prelude.{◌≡◌, ◌<◌, [], ℕ, List, Some, is_some, map, option_map};
ghost use Rattle.std.specs.Prelude.{slice_get, IfOk};
ghost use Rattle.std.proofs.Props.{props};
ghost use Rattle.symbols.specs.Sameness.{definition_set, definitions_set};
ghost use Rattle.meaning.specs.NameRules.{length_if};
ghost use Rattle.meaning.specs.Scopes.{arrays_of, definitions_of};
ghost use Rattle.meaning.specs.Uses.{defined_constants, is_array, is_constant, is_function};
ghost use Rattle.meaning.specs.Uses.{is_other};
ghost use Rattle.symbols.specs.Functions.{definition_at, definition_named, dummies_at};
ghost use Rattle.name_maps.specs.Keeping.{kept_at};
ghost use Rattle.symbols.specs.Listed.{trees_at};
ghost use Rattle.name_maps.specs.NameSets.{texts, with_names};
ghost use Rattle.symbols.specs.SymbolsBy.{symbols_by};
ghost use Rattle.meaning.specs.Types.{has_implicit_none};
ghost use Rattle.symbols.specs.TypedNames.{implicit_parts, letter_type};

use crate::arrays::{Ranks, has_rank, rank};
use crate::constants::constants_of;
use crate::declared::{Types, data_type, types_by_letter};
use crate::functions::{Function, functions_by_name, functions_of};
use indexmap::{IndexMap, IndexSet};
use meaning::syntax::{DataType, Item};
use name_maps::has_name;
use std::alloc::{AllocError, Global};

/// What the statements of a program unit say of names.
pub struct Symbols<'a> {
    /// The statements of the unit, first to last.
    pub items: &'a [&'a Item],
    /// The arrays.
    pub ranks: Ranks<'a>,
    /// The statement functions, first to last.
    pub functions: Vec<Function<'a>>,
    types: Types<'a>,
    by_name: IndexMap<Vec<u8>, Function<'a>>,
    constants: IndexSet<Vec<u8>>,
    ghost typed: { types.items.now ≡ items.now },
    ghost ranked: { ranks.items.now ≡ items.now },
    ghost listed: { map definition_at functions.items
        ≡ definitions_of (arrays_of (trees_at items.now)) (trees_at items.now) } by { Prim.hlevel
            (props, definition_set, definitions_set) },
    ghost named: { (n : List ℕ) → option_map definition_at (kept_at by_name n)
        ≡ definition_named (definitions_of (arrays_of (trees_at items.now)) (trees_at items.now))
        n } by { Prim.hlevel (props, definition_set, definitions_set) },
    ghost valued: { texts constants.keys ≡ with_names [] (defined_constants (trees_at items.now)) },
}

impl Drop for Symbols<'_> {
    fn drop(self) {
        let Symbols {
            items: _,
            ranks,
            functions,
            types,
            by_name,
            constants,
        } = self;
        drop(ranks);
        drop(functions);
        drop(types);
        drop(by_name);
        drop(constants);
    }
}

impl<'a> Symbols<'a> {
    /// What statements say of names.
    pub fn new(alloc: Global, items: &'a [&'a Item]) -> Result<Self, AllocError>
        ensures { IfOk result (λ symbols. symbols.items.now ≡ items.now) }
    {
        let types = Types::new(alloc, items)?;
        let ranks = Ranks::new(alloc, items)?;
        let functions = functions_of(alloc, &ranks, items)?;
        let by_name = functions_by_name(alloc, &functions)?;
        let constants = constants_of(alloc, items)?;
        Ok(Symbols {
            items,
            ranks,
            functions,
            types,
            by_name,
            constants,
        })
    }
}

/// The type of a name, if it isn't REAL (ANSI X3.9-1978, 4.1.2).
pub fn type_of_name(symbols: &Symbols, name: &[u8]) -> Option<DataType>
    ensures { result ≡ (symbols_by symbols.now.items.now).names.types name.now }
{
    data_type(&symbols.types, name)
}

/// The types of the names that begin with each letter, by its code (ANSI X3.9-1978, 4.1.2 and 8.5).
pub fn letter_types_of(
    alloc: Global,
    symbols: &Symbols,
) -> Result<Vec<Option<DataType>>, AllocError>
    ensures { IfOk
        result (λ letters. (c : ℕ) → c < 256 → slice_get letters.items c
        ≡ Some (letter_type (has_implicit_none (trees_at symbols.now.items.now))
        (implicit_parts (trees_at symbols.now.items.now)) c)) }
{
    types_by_letter(alloc, &symbols.types)
}

/// How many dimensions a name has, if it is that of an array (ANSI X3.9-1978, 5.1).
pub fn rank_of_name(symbols: &Symbols, name: &[u8]) -> Option<usize>
    ensures { result ≡ length_if ((symbols_by symbols.now.items.now).names.arrays name.now) }
{
    rank(&symbols.ranks, name)
}

/// Whether a name is that of an array (ANSI X3.9-1978, 5.1).
pub fn is_array_name(symbols: &Symbols, name: &[u8]) -> bool
    ensures { result ≡ is_array (symbols_by symbols.now.items.now) name.now }
{
    has_rank(&symbols.ranks, name)
}

/// Whether a name is that of a constant (ANSI X3.9-1978, 8.6).
pub fn is_constant_name(symbols: &Symbols, name: &[u8]) -> bool
    ensures { result ≡ is_constant (symbols_by symbols.now.items.now) name.now }
{
    has_name(&symbols.constants, name)
}

/// The first statement function of a name (ANSI X3.9-1978, 15.4).
pub fn function_named<'a>(symbols: &Symbols<'a>, name: &[u8]) -> Option<Function<'a>>
    ensures found { option_map definition_at result
        ≡ definition_named
        (definitions_of (symbols_by symbols.now.items.now).names.arrays
        (trees_at symbols.now.items.now))
        name.now }
    ensures dummies { option_map (λ f. dummies_at f.dummies) result
        ≡ (symbols_by symbols.now.items.now).names.functions name.now }
{
    match symbols.by_name.get(name) {
        Some(function) => Some(*function),
        None => None,
    }
}

/// Whether a name is that of a statement function (ANSI X3.9-1978, 15.4).
pub fn is_function_name(symbols: &Symbols, name: &[u8]) -> bool
    ensures { result ≡ is_function (symbols_by symbols.now.items.now) name.now }
{
    function_named(symbols, name).is_some()
}

/// Whether a name is none of these: a variable, or a function of another kind.
pub fn is_other_name(symbols: &Symbols, name: &[u8]) -> bool
    ensures { result ≡ is_other (symbols_by symbols.now.items.now) name.now }
{
    !is_constant_name(symbols, name)
        && !is_array_name(symbols, name)
        && !is_function_name(symbols, name)
}
