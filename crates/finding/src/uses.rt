//! The first of uses that passes a test.

ghost use Rattle.finding.specs.Finding.{IsFirstUse};

use name_uses::{NameUse, Sought};

/// The first use that passes a test.
pub fn first_passing<'a, S: Sought>(found: &[NameUse<'a>], sought: &S) -> Option<NameUse<'a>>
    ensures { IsFirstUse (S.is_use sought.now) found.now result }
{
    for one in found {
        if sought.is(one) {
            return Some(*one);
        }
    }
    None
}
