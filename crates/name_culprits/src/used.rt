//! Names that are used against what they are, and all of the rule (ANSI X3.9-1978, 8.5, 8.6 and
//! 15.4).

ghost use Rattle.std.specs.Prelude.{◌≡◌, option_map, IfOk};
ghost use Rattle.std.specs.List.{find};
ghost use Rattle.meaning.specs.NameRules.{is_against_role, is_implicit as is_implicit_shape};
ghost use Rattle.meaning.specs.Syntax.{shape_tree};
ghost use Rattle.meaning.specs.Trees.{item_tree};
ghost use Rattle.meaning.specs.Types.{is_implicit_none as is_none};
ghost use Rattle.meaning.specs.Uses.{is_constant, is_defining as is_defining_behind};
ghost use Rattle.symbols.specs.Listed.{trees_at};
ghost use Rattle.symbols.specs.SymbolsAt.{symbols_at};
ghost use Rattle.symbols.specs.Stages.{IsBehind};
ghost use Rattle.name_uses.specs.UsesAt.{use_at, uses_at};
ghost use Rattle.name_culprits.specs.Names.{against_told, assigned_in, assigned_told, disputed_in};
ghost use Rattle.name_culprits.specs.Names.{line_if, rival_in, used_in};
ghost use Rattle.name_culprits.specs.Searched.{disputed_at};
ghost use Rattle.name_culprits.specs.Told.{rival, tell, told_at};

use crate::culprit::NameCulprit;
use crate::names::{Search, overgiven};
use finding::first_passing;
use meaning::syntax::{Item, Shape};
use name_uses::{Arguments, NameUse, Sought, is_bare, uses_of};
use std::alloc::{AllocError, Global};
use symbols::{Stage, Symbols, is_constant_name, is_function_name, is_implicit_none};

/// A use of a constant with parentheses, or of a statement function without.
#[derive(Clone, Copy)]
struct AgainstRole<'a> {
    symbols: &'a Symbols<'a>,
}

impl Sought for AgainstRole<'_> {
    ghost is_use = { λ s u. is_against_role (symbols_at s.symbols.now) u };

    fn is(&self, one: &NameUse) -> bool {
        match one.arguments {
            Arguments::Bare => is_function_name(self.symbols, one.name),
            Arguments::Without => is_constant_name(self.symbols, one.name),
            Arguments::With(_) => is_constant_name(self.symbols, one.name),
        }
    }
}

/// What is told of it.
fn against<'a>(one: NameUse<'a>) -> NameCulprit<'a>
    ensures { told_at result ≡ against_told (use_at one.entry) }
{
    if is_bare(one.arguments) {
        NameCulprit::Bare { name: one.name }
    } else {
        NameCulprit::Referenced { name: one.name }
    }
}

/// A name, if it is a constant's.
fn assigned_name<'a>(symbols: &Symbols, name: &'a [u8]) -> Option<NameCulprit<'a>>
    ensures { tell result ≡ assigned_told (is_constant (symbols_at symbols.now) name.now) name.now }
{
    if is_constant_name(symbols, name) {
        Some(NameCulprit::Set { name })
    } else {
        None
    }
}

/// The name of a constant that a statement assigns to.
fn assigned<'a>(symbols: &Symbols, shape: &'a Shape) -> Option<NameCulprit<'a>>
    ensures { tell result ≡ assigned_in (symbols_at symbols.now) (shape_tree shape.now) }
{
    match shape {
        Shape::Assignment { name, .. } => assigned_name(symbols, name),
        Shape::Definition(name, _) => assigned_name(symbols, name),
        Shape::LogicalIf(_, statement) => assigned(symbols, statement),
        _ => None,
    }
}

/// The first name of a statement that is used against what it is.
fn used<'a>(symbols: &Symbols, uses: &[NameUse<'a>], shape: &'a Shape) -> Option<NameCulprit<'a>>
    ensures { tell result
        ≡ used_in (symbols_at symbols.now) (uses_at uses.now) (shape_tree shape.now) }
{
    match first_passing(uses, &AgainstRole { symbols }) {
        Some(one) => Some(against(one)),
        None => assigned(symbols, shape),
    }
}

/// Whether a statement is an IMPLICIT statement.
fn is_implicit(shape: &Shape) -> bool
    ensures { result ≡ is_implicit_shape (shape_tree shape.now) }
{
    match shape {
        Shape::ImplicitNone => true,
        Shape::Implicit(_) => true,
        _ => false,
    }
}

/// The line of the first IMPLICIT statement.
fn implicit_line(before: &[&Item]) -> Option<u32>
    ensures { result ≡ line_if (find (λ y. is_implicit_shape y.shape) (trees_at before.now)) }
{
    for item in before {
        if is_implicit(&*item.form.shape) {
            return Some(item.line);
        }
    }
    None
}

/// The line of the first IMPLICIT NONE.
fn none_line(before: &[&Item]) -> Option<u32>
    ensures { result ≡ line_if (find (λ y. is_none y.shape) (trees_at before.now)) }
{
    for item in before {
        if is_implicit_none(&*item.form.shape) {
            return Some(item.line);
        }
    }
    None
}

/// What is told of an IMPLICIT statement.
fn rival_at<'a>(line: Option<u32>) -> Option<NameCulprit<'a>>
    ensures { tell result ≡ option_map rival line }
{
    match line {
        Some(line) => Some(NameCulprit::Rival { line }),
        None => None,
    }
}

/// IMPLICIT NONE beside another IMPLICIT statement.
fn rival_statement<'a>(before: &[&Item], shape: &Shape) -> Option<NameCulprit<'a>>
    ensures { tell result ≡ rival_in (trees_at before.now) (shape_tree shape.now) }
{
    match shape {
        Shape::ImplicitNone => rival_at(implicit_line(before)),
        Shape::Implicit(_) => rival_at(none_line(before)),
        _ => None,
    }
}

/// How far one has come behind statements.
fn stage_behind(symbols: &Symbols, before: &[&Item]) -> Stage
    ensures { IsBehind symbols.now result (trees_at before.now) }
{
    let mut stage = Stage::new();
    for item in before {
        stage.pass(symbols, item);
    }
    stage
}

/// Whether the statement behind these is that of a statement function.
fn is_defining(symbols: &Symbols, before: &[&Item], item: &Item) -> bool
    ensures { result
        ≡ is_defining_behind (symbols_at symbols.now) (trees_at before.now) (item_tree item.now) }
{
    stage_behind(symbols, before).is_defining(symbols, item)
}

/// What is told of a statement of a line, which defines a statement function or doesn't.
fn disputed<'a>(
    search: &Search,
    defines: bool,
    shape: &'a Shape,
) -> Result<Option<NameCulprit<'a>>, AllocError>
    ensures { IfOk result (λ c. tell c ≡ disputed_at search.now defines (shape_tree shape.now)) }
{
    if let Some(culprit) = overgiven(search, defines, shape)? {
        return Ok(Some(culprit));
    }
    let uses = uses_of(search.alloc, search.symbols, defines, shape)?;
    if let Some(culprit) = used(search.symbols, &uses, shape) {
        return Ok(Some(culprit));
    }
    Ok(rival_statement(search.before, shape))
}

/// K4: the first thing by which a statement behind others breaks the rule on what names are, but
/// what it says of letters, of variables that are functions too, and of LOGICAL intrinsic
/// functions.
pub fn disputed_name<'a>(
    alloc: Global,
    symbols: &Symbols,
    before: &[&Item],
    item: &'a Item,
) -> Result<Option<NameCulprit<'a>>, AllocError>
    ensures { IfOk
        result (λ c. tell c
        ≡ disputed_in (symbols_at symbols.now) (trees_at before.now) (item_tree item.now)) }
{
    let search = Search {
        alloc,
        symbols,
        before,
        line: item.line,
    };
    disputed(
        &search,
        is_defining(symbols, before, item),
        &*item.form.shape,
    )
}
