//! What names are first given.

ghost use Rattle.std.specs.Prelude.{◌≡◌, ℕ, List, Some, None, if◌then◌else◌, OnOk};
ghost use Rattle.std.specs.Option.{option_or};
ghost use Rattle.std.specs.Str.{bytes_eq};
ghost use Rattle.name_maps.specs.Keeping.{kept_at};

use indexmap::IndexMap;
use std::alloc::{AllocError, Global};

/// Keeps a value under a name, unless one is kept there.
pub fn add_first<V: Copy>(
    kept: &mut IndexMap<Vec<u8>, V>,
    alloc: Global,
    name: &[u8],
    value: V,
) -> Result<(), AllocError>
    ensures { OnOk result
        ((n : List ℕ) → kept_at kept.new n
        ≡ option_or (kept_at kept.old n) (if bytes_eq n name.now then Some value else None)) }
{
    if !kept.contains_key(name) {
        let own = Vec::from_slice(alloc, name)?;
        kept.insert(own, value)?;
    }
    Ok(())
}
