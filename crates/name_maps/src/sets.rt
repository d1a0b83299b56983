//! Sets of names, in the order in which they came.

ghost use Rattle.std.specs.Prelude.{◌≡◌, OnOk};
ghost use Rattle.std.specs.List.{list_any};
ghost use Rattle.std.specs.Str.{bytes_eq};
ghost use Rattle.name_maps.specs.NameSets.{texts, with_name};

use indexmap::IndexSet;
use std::alloc::{AllocError, Global};

/// Whether a name is one of a set.
pub fn has_name(names: &IndexSet<Vec<u8>>, name: &[u8]) -> bool
    ensures { result ≡ list_any (bytes_eq name.now) (texts names.now.keys) }
{
    names.contains(name)
}

/// Puts a name behind those that are there, unless it is one of them.
pub fn add_name(names: &mut IndexSet<Vec<u8>>, alloc: Global, name: &[u8]) -> Result<(), AllocError>
    ensures { OnOk result (texts names.new.keys ≡ with_name (texts names.old.keys) name.now) }
{
    if !names.contains(name) {
        let own = Vec::from_slice(alloc, name)?;
        names.insert(own)?;
    }
    Ok(())
}
