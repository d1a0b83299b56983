//! What statements give names that is given already (ANSI X3.9-1978, 8.1, 8.4, 8.6 and 15.4).

ghost use Rattle.std.specs.Prelude.{◌≡◌, ◌++◌, ◌∷◌, [], IfOk, OnOk};
ghost use Rattle.meaning.specs.NameRules.{given_by};
ghost use Rattle.meaning.specs.Syntax.{shape_tree};
ghost use Rattle.name_uses.specs.Held.{names_at};
ghost use Rattle.name_culprits.specs.Names.{again_in, given_before, names_by, seen_told, shared_in};
ghost use Rattle.name_culprits.specs.Names.{two_roles_in, twice_in};
ghost use Rattle.name_culprits.specs.Searched.{again_one, before_at, given_at, symbols_in};
ghost use Rattle.name_culprits.specs.Told.{tell};

use crate::culprit::{Giving, NameCulprit};
use crate::given::{is_among, line_giving, names_given};
use meaning::syntax::{Item, Shape};
use std::alloc::{AllocError, Global};
use symbols::Symbols;

/// What names are sought in.
#[derive(Clone, Copy)]
pub struct Search<'a> {
    pub alloc: Global,
    pub symbols: &'a Symbols<'a>,
    /// The statements before.
    pub before: &'a [&'a Item],
    /// The line of the statement.
    pub line: u32,
}

/// A name that a statement before gives something.
fn before<'a>(
    search: &Search,
    giving: Giving,
    name: &'a [u8],
) -> Result<Option<NameCulprit<'a>>, AllocError>
    ensures { IfOk
        result (λ c. tell c
        ≡ given_before (symbols_in search.now) giving (before_at search.now) name.now) }
{
    match line_giving(search.alloc, search.symbols, search.before, giving, name)? {
        Some(line) => Ok(Some(NameCulprit::Given { name, giving, line })),
        None => Ok(None),
    }
}

/// A name that the statement itself gives it a second time.
fn seen<'a>(giving: Giving, line: u32, is_seen: bool, name: &'a [u8]) -> Option<NameCulprit<'a>>
    ensures { tell result ≡ seen_told giving line is_seen name.now }
{
    if is_seen {
        Some(NameCulprit::Given { name, giving, line })
    } else {
        None
    }
}

/// A name that is given already.
fn again_one<'a>(
    search: &Search,
    giving: Giving,
    earlier: &[&[u8]],
    name: &'a [u8],
) -> Result<Option<NameCulprit<'a>>, AllocError>
    ensures { IfOk
        result (λ c. tell c ≡ again_one search.now giving (names_at earlier.now) name.now) }
{
    match before(search, giving, name)? {
        Some(culprit) => Ok(Some(culprit)),
        None => Ok(seen(giving, search.line, is_among(earlier, name), name)),
    }
}

/// Puts a name behind others.
fn add_name<'a>(names: &mut Vec<&'a [u8]>, name: &'a [u8]) -> Result<(), AllocError>
    ensures { OnOk result (names_at names.new.items ≡ names_at names.old.items ++ name.now ∷ []) }
{
    names.push(name)?;
    Ok(())
}

/// The first of the names that is given already.
fn again<'a>(
    search: &Search,
    giving: Giving,
    names: &[&'a [u8]],
) -> Result<Option<NameCulprit<'a>>, AllocError>
    ensures { IfOk
        result (λ c. tell c
        ≡ again_in (symbols_in search.now) giving (before_at search.now) search.now.line []
        (names_at names.now)) }
{
    let mut earlier = Vec::new(search.alloc);
    for name in names {
        match again_one(search, giving, &earlier, *name)? {
            Some(culprit) => return Ok(Some(culprit)),
            None => {}
        }
        add_name(&mut earlier, *name)?;
    }
    Ok(None)
}

/// The first of the names that a statement before gives something.
fn shared<'a>(
    search: &Search,
    giving: Giving,
    names: &[&'a [u8]],
) -> Result<Option<NameCulprit<'a>>, AllocError>
    ensures { IfOk
        result (λ c. tell c
        ≡ shared_in (symbols_in search.now) giving (before_at search.now) (names_at names.now)) }
{
    for name in names {
        match before(search, giving, *name)? {
            Some(culprit) => return Ok(Some(culprit)),
            None => {}
        }
    }
    Ok(None)
}

/// The first name of a statement that is given something twice.
fn again_by<'a>(
    search: &Search,
    defines: bool,
    shape: &'a Shape,
    giving: Giving,
) -> Result<Option<NameCulprit<'a>>, AllocError>
    ensures { IfOk
        result (λ c. tell c
        ≡ again_in (symbols_in search.now) giving (before_at search.now) search.now.line []
        (names_by giving (given_by (symbols_in search.now) defines (shape_tree shape.now)))) }
{
    let names = names_given(search.alloc, search.symbols, defines, shape, giving)?;
    again(search, giving, &names)
}

/// The first name of a statement that gives it one thing, where a statement before gives it
/// another.
fn shared_by<'a>(
    search: &Search,
    defines: bool,
    shape: &'a Shape,
    here: Giving,
    giving: Giving,
) -> Result<Option<NameCulprit<'a>>, AllocError>
    ensures { IfOk
        result (λ c. tell c
        ≡ shared_in (symbols_in search.now) giving (before_at search.now)
        (names_by here (given_by (symbols_in search.now) defines (shape_tree shape.now)))) }
{
    let names = names_given(search.alloc, search.symbols, defines, shape, here)?;
    shared(search, giving, &names)
}

/// The first name that is given something twice.
fn twice<'a>(
    search: &Search,
    defines: bool,
    shape: &'a Shape,
) -> Result<Option<NameCulprit<'a>>, AllocError>
    ensures { IfOk
        result (λ c. tell c
        ≡ twice_in (symbols_in search.now) (before_at search.now) search.now.line
        (given_by (symbols_in search.now) defines (shape_tree shape.now))) }
{
    if let Some(culprit) = again_by(search, defines, shape, Giving::Typed)? {
        return Ok(Some(culprit));
    }
    if let Some(culprit) = again_by(search, defines, shape, Giving::Bounds)? {
        return Ok(Some(culprit));
    }
    if let Some(culprit) = again_by(search, defines, shape, Giving::Value)? {
        return Ok(Some(culprit));
    }
    again_by(search, defines, shape, Giving::Expression)
}

/// The first name that is a constant, and an array or a statement function.
fn two_roles<'a>(
    search: &Search,
    defines: bool,
    shape: &'a Shape,
) -> Result<Option<NameCulprit<'a>>, AllocError>
    ensures { IfOk
        result (λ c. tell c
        ≡ two_roles_in (symbols_in search.now) (before_at search.now)
        (given_by (symbols_in search.now) defines (shape_tree shape.now))) }
{
    if let Some(culprit) = shared_by(search, defines, shape, Giving::Value, Giving::Either)? {
        return Ok(Some(culprit));
    }
    shared_by(search, defines, shape, Giving::Either, Giving::Value)
}

/// The first name of a statement that is given too much; the statement defines a statement function
/// or doesn't.
pub fn overgiven<'a>(
    search: &Search,
    defines: bool,
    shape: &'a Shape,
) -> Result<Option<NameCulprit<'a>>, AllocError>
    ensures { IfOk result (λ c. tell c ≡ given_at search.now defines (shape_tree shape.now)) }
{
    if let Some(culprit) = twice(search, defines, shape)? {
        return Ok(Some(culprit));
    }
    two_roles(search, defines, shape)
}
