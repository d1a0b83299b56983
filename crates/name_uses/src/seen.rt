//! Names that were seen.

ghost use Rattle.std.specs.Prelude.{◌≡◌, IfOk, OnOk};
ghost use Rattle.std.specs.List.{list_any};
ghost use Rattle.meaning.specs.NameRules.{names_used, repeats as repeats_among};
ghost use Rattle.meaning.specs.Uses.{is_one_of};
ghost use Rattle.name_maps.specs.NameSets.{texts};
ghost use Rattle.name_uses.specs.UsesAt.{uses_at};
ghost use Rattle.name_uses.specs.Held.{Adds, AreNames, Holds, names_at};

use crate::uses::{NameUse, Sought};
use indexmap::IndexSet;
use name_maps::{add_name, has_name};
use std::alloc::{AllocError, Global};

/// Puts names to those that were seen.
pub fn add_names(
    seen: &mut IndexSet<Vec<u8>>,
    alloc: Global,
    names: &[&[u8]],
) -> Result<(), AllocError>
    ensures { OnOk result (Adds seen.old seen.new names.now) }
{
    for name in names {
        add_name(seen, alloc, name)?;
    }
    Ok(())
}

/// A set of names.
pub fn set_of(alloc: Global, names: &[&[u8]]) -> Result<IndexSet<Vec<u8>>, AllocError>
    ensures { IfOk result (λ set. Holds set.keys (names_at names.now)) }
{
    let mut set = IndexSet::new(alloc);
    add_names(&mut set, alloc, names)?;
    Ok(set)
}

/// Whether one of the names was seen.
pub fn has_seen(seen: &IndexSet<Vec<u8>>, names: &[&[u8]]) -> bool
    ensures { result ≡ list_any (is_one_of (texts seen.now.keys)) (names_at names.now) }
{
    for name in names {
        if has_name(seen, name) {
            return true;
        }
    }
    false
}

/// Whether one of the names was seen, or stands twice.
pub fn repeats(alloc: Global, seen: &IndexSet<Vec<u8>>, names: &[&[u8]]) -> Result<bool, AllocError>
    ensures { IfOk result (λ b. b ≡ repeats_among (texts seen.now.keys) (names_at names.now)) }
{
    let mut here = IndexSet::new(alloc);
    for name in names {
        if has_name(seen, name) {
            return Ok(true);
        }
        if has_name(&here, name) {
            return Ok(true);
        }
        add_name(&mut here, alloc, name)?;
    }
    Ok(false)
}

/// The names of the uses that pass a test.
pub fn names_passing<'a, S: Sought>(
    alloc: Global,
    uses: &[NameUse<'a>],
    sought: &S,
) -> Result<Vec<&'a [u8]>, AllocError>
    ensures { IfOk result (AreNames (names_used (S.is_use sought.now) (uses_at uses.now))) }
{
    let mut names = Vec::new(alloc);
    for one in uses {
        if sought.is(one) {
            names.push(one.name)?;
        }
    }
    Ok(names)
}
