//! What the parts of a program say of names (ANSI X3.9-1978, 2.12, 5.4, 8.6 and 15.4).

ghost use Rattle.std.specs.Prelude.{◌≡◌, ◌<◌, ◌≤◌, ◌^◌, List, ℕ, IfSome, MatchOption, Some};
ghost use Rattle.std.specs.Prelude.{option_map, slice_get};
ghost use Rattle.std.specs.Option.{option_copied};
ghost use Rattle.expressions.specs.Names.{IsFunction};
ghost use Rattle.storage.specs.Agreed.{IsNumbered};
ghost use Rattle.storage.specs.Checked.{names_in};
ghost use Rattle.storage.specs.Kept.{IsStored, Says, StartsWithByte, by_first, function_by};
ghost use Rattle.storage.specs.Kept.{shown_at, shown_by};
ghost use Rattle.storage.specs.Told.{IsArrayIn, IsNamedIn, TellsArray, format_at, text_format_at};
ghost use Rattle.storage.specs.Whereabouts.{IsPlace, Whereabouts, where_in};
ghost use Rattle.meaning.specs.Characters.{number_of};
ghost use Rattle.meaning.specs.Formats.{format_in as format_in_text, undoubled};
ghost use Rattle.meaning.specs.Syntax.{exprs_tree, no_exprs, shape_tree};
ghost use Rattle.meaning.specs.declared.syntax.Tree.{Tree};
ghost use Rattle.format_edit.specs.Formatted.{descriptors};
ghost use Rattle.label_targets.specs.Output.{has_output_in};
ghost use Rattle.label_targets.specs.Places.{place_in};

use crate::parts::{Entry, Parts, Storage};
use expressions::{Cells, ElementAddress, Function, Named};
use format_edit::Format;
use meaning::number::number;
use meaning::syntax::{DataType, Exprs, Member, Shape};

/// The place of what is kept so.
fn place_of(storage: &Option<Storage>) -> ElementAddress<'_>
    ensures { (w : Whereabouts) → w.count < 2 ^ 64 → IsStored w storage.now → IsPlace w result }
{
    match storage {
        Some(storage) => ElementAddress::new(storage.first, &storage.dimensions),
        None => ElementAddress::nowhere(),
    }
}

/// The type that the first letter of a name gives it.
fn type_by_letter(letters: &[Option<DataType>], name: &[u8]) -> Option<DataType>
    ensures kept { result ≡ by_first letters.now name.now }
    ensures byte { StartsWithByte name.now }
{
    match name.first() {
        Some(letter) => match letters.get(usize::from(*letter)) {
            Some(data_type) => *data_type,
            None => None,
        },
        None => None,
    }
}

/// The place of a variable or an array.
pub(crate) fn find_in<'a>(parts: &'a Parts, name: &[u8]) -> ElementAddress<'a>
    requires { IsNumbered parts.now }
    ensures { IsPlace (where_in parts.now.tree name.now) result }
{
    match parts.entries.get(name) {
        Some(entry) => place_of(&entry.storage),
        None => ElementAddress::nowhere(),
    }
}

/// What a name stands for of which this is kept.
fn named_by(entry: &Entry) -> Named<'_>
    ensures { (t : Tree) (n : List ℕ) → Says t n entry.now → IsNamedIn t n result }
{
    match entry.value {
        Some(value) => Named::Constant(value),
        None => Named::Variable(Cells {
            place: place_of(&entry.storage),
            data_type: entry.data_type,
        }),
    }
}

/// What a name without parentheses stands for.
pub(crate) fn named_in<'a>(parts: &'a Parts, name: &[u8]) -> Named<'a>
    requires { IsNumbered parts.now }
    ensures { IsNamedIn parts.now.tree name.now result }
{
    match parts.entries.get(name) {
        Some(entry) => named_by(entry),
        None => Named::Variable(Cells {
            place: ElementAddress::nowhere(),
            data_type: type_by_letter(&parts.letters, name),
        }),
    }
}

/// The cells of an array; none of a variable.
fn array_of(storage: &Storage, data_type: Option<DataType>) -> Option<Cells<'_>>
    ensures { TellsArray storage.now data_type result }
{
    if storage.dimensions.is_empty() {
        return None;
    }
    Some(Cells {
        place: ElementAddress::new(storage.first, &storage.dimensions),
        data_type,
    })
}

/// The cells of the array of which this is kept.
fn array_by(entry: &Entry) -> Option<Cells<'_>>
    ensures { (t : Tree) (n : List ℕ) → Says t n entry.now → IsArrayIn t n result }
{
    match &entry.storage {
        Some(storage) => array_of(storage, entry.data_type),
        None => None,
    }
}

/// The cells of an array.
pub(crate) fn array_in<'a>(parts: &'a Parts, name: &[u8]) -> Option<Cells<'a>>
    requires { IsNumbered parts.now }
    ensures { IsArrayIn parts.now.tree name.now result }
{
    match parts.entries.get(name) {
        Some(entry) => array_by(entry),
        None => None,
    }
}

/// The statement function that a statement defines; one without dummies has none of these.
fn function_by_shape<'a>(at: usize, none: &'a Exprs, shape: &'a Shape) -> Option<Function<'a>>
    requires { exprs_tree none.now ≡ no_exprs }
    ensures shown { (n : List ℕ) → function_by n result ≡ shown_by n (shape_tree shape.now) }
    ensures at { IfSome result (λ f. f.at ≡ at) }
{
    match shape {
        Shape::Assignment {
            name: _,
            subscripts,
            value,
        } => Some(Function {
            at,
            dummies: subscripts,
            body: value,
        }),
        Shape::Definition(_, value) => Some(Function {
            at,
            dummies: none,
            body: value,
        }),
        _ => None,
    }
}

/// The statement function that a member of the body defines.
fn function_by_member<'a>(
    at: usize,
    none: &'a Exprs,
    member: Option<&'a Member>,
) -> Option<Function<'a>>
    requires { exprs_tree none.now ≡ no_exprs }
    ensures shown { (n : List ℕ) → function_by n result ≡ shown_at n (option_copied member.entry) }
    ensures at { IfSome result (λ f. f.at ≡ at) }
{
    match member {
        Some(Member::Plain(item)) => function_by_shape(at, none, &*item.form.shape),
        Some(Member::Loop(_)) => None,
        Some(Member::Block(_)) => None,
        None => None,
    }
}

/// The member at a place of a list.
fn member_at(members: &[Member], at: usize) -> Option<&Member>
    ensures { option_copied result ≡ slice_get members.now at }
{
    members.get(at)
}

/// The statement function with a name.
pub(crate) fn function_in<'a>(parts: &'a Parts, name: &[u8]) -> Option<Function<'a>>
    requires { IsNumbered parts.now }
    ensures { IsFunction (names_in parts.now.tree).definitions name.now result }
{
    match parts.functions.get(name) {
        Some(found) => {
            let at = found.at;
            function_by_member(
                at,
                &parts.no_dummies,
                member_at(&parts.tree.body, found.member),
            )
        }
        None => None,
    }
}

/// The label that digits spell, leading zeros aside, if it isn't too great.
fn label_of(digits: &[u8]) -> Option<u32>
    ensures { MatchOption result (2 ^ 32 ≤ number_of digits.now) (λ s. s ≡ number_of digits.now) }
{
    let label = number(digits);
    if label > 0xffff_ffff {
        None
    } else {
        Some(label as u32)
    }
}

/// The format of the FORMAT statement that has the label which digits spell.
pub(crate) fn format_in<'a>(parts: &'a Parts, digits: &[u8]) -> Option<&'a Format>
    requires { IsNumbered parts.now }
    ensures { option_map (λ f. descriptors f.now) result ≡ format_at parts.now.tree digits.now }
{
    let label = label_of(digits)?;
    parts.formats.get(&label)
}

/// The format in a character constant that is the format of a statement.
pub(crate) fn text_format_in<'a>(parts: &'a Parts, text: &[u8]) -> Option<&'a Format>
    requires { IsNumbered parts.now }
    ensures kept { option_map (λ f. descriptors f.now) result ≡
        text_format_at parts.now.tree text.now }
    ensures read { IfSome result
        (λ f. format_in_text (undoubled text.now) ≡ Some (descriptors f.now)) }
{
    parts.texts.get(text)
}

/// The place in its list to which a label leads.
pub(crate) fn place_in_parts(parts: &Parts, label: u32) -> Option<usize>
    requires { IsNumbered parts.now }
    ensures { result ≡ place_in parts.now.tree label }
{
    parts.label_targets.place(label)
}

/// Whether a DO statement with this line has output in its range.
pub(crate) fn has_output_in_parts(parts: &Parts, line: u32) -> bool
    requires { IsNumbered parts.now }
    ensures { result ≡ has_output_in parts.now.tree line }
{
    parts.label_targets.has_output(line)
}
