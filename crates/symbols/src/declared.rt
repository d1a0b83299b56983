//! The data types of names (ANSI X3.9-1978, 4.1.2, 8.4 and 8.5).

ghost use Rattle.std.specs.Prelude.{false, ◌≡◌, ◌<◌, ◌++◌, ℕ, List, Some, slice_get, map, IfOk};
ghost use Rattle.std.specs.Prelude.{OnOk};
ghost use Rattle.std.specs.Option.{option_or};
ghost use Rattle.std.specs.List.{list_any};
ghost use Rattle.meaning.specs.Syntax.{declarator_tree, implicit_tree, letters_tree, shape_tree};
ghost use Rattle.meaning.specs.Types.{by_first_letter, declared_by};
ghost use Rattle.meaning.specs.Types.{has_implicit_none as is_without_letters, implied_in};
ghost use Rattle.meaning.specs.Types.{is_among, is_implicit_none as implicit_none_is, typed_as};
ghost use Rattle.meaning.specs.Types.{typed_in, types_of};
ghost use Rattle.symbols.specs.TypedNames.{implicit_parts, letter_type, part_at, typed_names};
ghost use Rattle.name_maps.specs.Keeping.{kept_at};
ghost use Rattle.symbols.specs.Listed.{trees_at};

use indexmap::IndexMap;
use meaning::syntax::{DataType, Declarator, ImplicitPart, Item, Letters, Shape};
use name_maps::add_first;
use std::alloc::{AllocError, Global};

/// Keeps the type of the names that declarators are the first to give one.
fn add_typed(
    kept: &mut IndexMap<Vec<u8>, DataType>,
    alloc: Global,
    data_type: DataType,
    declarators: &[Declarator],
) -> Result<(), AllocError>
    ensures { OnOk result
        ((n : List ℕ) → kept_at kept.new n
        ≡ option_or (kept_at kept.old n)
        (declared_by (typed_as data_type (map declarator_tree declarators.now)) n)) }
{
    for declarator in declarators {
        add_first(kept, alloc, &declarator.name, data_type)?;
    }
    Ok(())
}

/// Keeps the type of the names that a statement is the first to give one.
fn add_types_in(
    kept: &mut IndexMap<Vec<u8>, DataType>,
    alloc: Global,
    shape: &Shape,
) -> Result<(), AllocError>
    ensures { OnOk result
        ((n : List ℕ) → kept_at kept.new n
        ≡ option_or (kept_at kept.old n) (declared_by (typed_in (shape_tree shape.now)) n)) }
{
    match shape {
        Shape::Integer(declarators) => add_typed(kept, alloc, DataType::Integer, declarators),
        Shape::Logical(declarators) => add_typed(kept, alloc, DataType::Logical, declarators),
        _ => Ok(()),
    }
}

/// The types that type statements give names.
fn types_declared(alloc: Global, items: &[&Item]) -> Result<IndexMap<Vec<u8>, DataType>, AllocError>
    ensures { IfOk
        result (λ kept. (n : List ℕ) → kept_at kept n
        ≡ declared_by (typed_names (trees_at items.now)) n) }
{
    let mut kept = IndexMap::new(alloc);
    for item in items {
        add_types_in(&mut kept, alloc, &*item.form.shape)?;
    }
    Ok(kept)
}

/// Whether a letter is among these.
fn is_one(letters: &Letters, code: usize) -> bool
    ensures { result ≡ is_among code (letters_tree letters.now) }
{
    let first = usize::from(letters.first);
    let last = match letters.last {
        Some(last) => usize::from(last),
        None => first,
    };
    first <= code && code <= last
}

/// Whether a letter is among those of a part of an IMPLICIT statement.
fn has_letter(part: &ImplicitPart, code: usize) -> bool
    ensures { result ≡ list_any (is_among code) (implicit_tree part.now).letters }
{
    for letters in &part.letters {
        if is_one(letters, code) {
            return true;
        }
    }
    false
}

/// Puts parts of an IMPLICIT statement behind those that are there.
fn add_parts<'a>(
    found: &mut Vec<&'a ImplicitPart>,
    parts: &'a [ImplicitPart],
) -> Result<(), AllocError>
    ensures { OnOk result
        (map part_at found.new.items ≡ map part_at found.old.items ++ map implicit_tree parts.now) }
{
    for part in parts {
        found.push(part)?;
    }
    Ok(())
}

/// Puts the parts of a statement, if it is an IMPLICIT statement, behind those that are there.
fn add_parts_in<'a>(found: &mut Vec<&'a ImplicitPart>, shape: &'a Shape) -> Result<(), AllocError>
    ensures { OnOk result
        (map part_at found.new.items ≡ map part_at found.old.items
        ++ implied_in (shape_tree shape.now)) }
{
    match shape {
        Shape::Implicit(parts) => add_parts(found, parts),
        _ => Ok(()),
    }
}

/// The parts of the IMPLICIT statements, first to last.
fn parts_of<'a>(alloc: Global, items: &[&'a Item]) -> Result<Vec<&'a ImplicitPart>, AllocError>
    ensures { IfOk result (λ found. map part_at found.items ≡ implicit_parts (trees_at items.now)) }
{
    let mut found = Vec::new(alloc);
    for item in items {
        add_parts_in(&mut found, &*item.form.shape)?;
    }
    Ok(found)
}

/// Whether a statement is IMPLICIT NONE.
pub fn is_implicit_none(shape: &Shape) -> bool
    ensures { result ≡ implicit_none_is (shape_tree shape.now) }
{
    match shape {
        Shape::ImplicitNone => true,
        _ => false,
    }
}

/// Whether one of the statements is IMPLICIT NONE.
fn has_implicit_none(items: &[&Item]) -> bool
    ensures { result ≡ is_without_letters (trees_at items.now) }
{
    for item in items {
        if is_implicit_none(&*item.form.shape) {
            return true;
        }
    }
    false
}

/// The type of the names that begin with a letter, where no IMPLICIT NONE stands.
fn implied_type_of(parts: &[&ImplicitPart], code: usize) -> Option<DataType>
    ensures { result ≡ letter_type false (map part_at parts.now) code }
{
    for part in parts {
        if has_letter(part, code) {
            return Some(part.data_type);
        }
    }
    if 73 <= code && code <= 78 {
        Some(DataType::Integer)
    } else {
        None
    }
}

/// The type of the names that begin with a letter.
fn letter_type_of(implicit_none: bool, parts: &[&ImplicitPart], code: usize) -> Option<DataType>
    ensures { result ≡ letter_type implicit_none (map part_at parts.now) code }
{
    if implicit_none {
        None
    } else {
        implied_type_of(parts, code)
    }
}

/// The types of the names that begin with each of so many letters, by their codes.
fn letter_types(
    alloc: Global,
    implicit_none: bool,
    parts: &[&ImplicitPart],
    count: usize,
) -> Result<Vec<Option<DataType>>, AllocError>
    ensures { IfOk
        result (λ types. (c : ℕ) → c < count → slice_get types.items c
        ≡ Some (letter_type implicit_none (map part_at parts.now) c)) }
{
    let mut types = Vec::new(alloc);
    for code in 0..count {
        types.push(letter_type_of(implicit_none, parts, code))?;
    }
    Ok(types)
}

/// The data types of the names of a program unit.
pub struct Types<'a> {
    /// The statements of the unit, first to last.
    pub items: &'a [&'a Item],
    /// The types that type statements give names.
    declared: IndexMap<Vec<u8>, DataType>,
    /// The types of the names that begin with each letter, by its code.
    letters: Vec<Option<DataType>>,
    ghost given: { (n : List ℕ) → kept_at declared n
        ≡ declared_by (typed_names (trees_at items.now)) n },
    ghost implied: { (c : ℕ) → c < 256 → slice_get letters.items c
        ≡ Some (letter_type (is_without_letters (trees_at items.now))
        (implicit_parts (trees_at items.now)) c) },
}

impl Drop for Types<'_> {
    fn drop(self) {
        let Types {
            items: _,
            declared,
            letters,
        } = self;
        drop(declared);
        drop(letters);
    }
}

impl<'a> Types<'a> {
    /// The types of the names of statements.
    pub fn new(alloc: Global, items: &'a [&'a Item]) -> Result<Self, AllocError>
        ensures { IfOk result (λ types. types.items.now ≡ items.now) }
    {
        let declared = types_declared(alloc, items)?;
        let parts = parts_of(alloc, items)?;
        let letters = letter_types(alloc, has_implicit_none(items), &parts, 256)?;
        Ok(Types {
            items,
            declared,
            letters,
        })
    }
}

/// The type that the first letter of a name gives it.
fn type_by_letter(types: &Types, name: &[u8]) -> Option<DataType>
    ensures { result
        ≡ by_first_letter (is_without_letters (trees_at types.now.items.now))
        (implicit_parts (trees_at types.now.items.now)) name.now }
{
    match name.first() {
        Some(letter) => match types.letters.get(usize::from(*letter)) {
            Some(data_type) => *data_type,
            None => None,
        },
        None => None,
    }
}

/// The type of a name, if it isn't REAL (ANSI X3.9-1978, 4.1.2).
pub fn data_type(types: &Types, name: &[u8]) -> Option<DataType>
    ensures { result ≡ types_of (trees_at types.now.items.now) name.now }
{
    match types.declared.get(name) {
        Some(data_type) => Some(*data_type),
        None => type_by_letter(types, name),
    }
}

/// The types of the names that begin with each letter, by its code, in a table of one's own.
pub fn types_by_letter(alloc: Global, types: &Types) -> Result<Vec<Option<DataType>>, AllocError>
    ensures { IfOk
        result (λ letters. (c : ℕ) → c < 256 → slice_get letters.items c
        ≡ Some (letter_type (is_without_letters (trees_at types.now.items.now))
        (implicit_parts (trees_at types.now.items.now)) c)) }
{
    Vec::from_slice(alloc, &types.letters)
}
