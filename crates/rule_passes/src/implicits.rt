//! IMPLICIT NONE, which is the program's own, beside other IMPLICIT statements (ANSI X3.9-1978,
//! 8.5).

ghost use Rattle.std.specs.Prelude.{◌≡◌, []};
ghost use Rattle.meaning.specs.NameRules.{has_rival};
ghost use Rattle.rule_passes.specs.Rivals.{KnowsImplicit};

use crate::pass::Behind;
use meaning::syntax::{Item, Shape};
use std::alloc::AllocError;

/// The rule on IMPLICIT NONE beside other IMPLICIT statements.
#[derive(Drop)]
pub struct Rivals {
    /// An IMPLICIT statement of either kind was passed.
    any: bool,
    /// IMPLICIT NONE was passed.
    none: bool,
}

impl Behind for Rivals {
    ghost breaks = { λ _ before x. has_rival before x };

    ghost knows = { λ s before. KnowsImplicit s.any s.none before };

    fn is_broken(&self, item: &Item) -> Result<bool, AllocError> {
        Ok(match &*item.form.shape {
            Shape::ImplicitNone => self.any || self.none,
            Shape::Implicit(_) => self.none,
            _ => false,
        })
    }

    fn pass(&mut self, item: &Item) -> Result<(), AllocError> {
        match &*item.form.shape {
            Shape::ImplicitNone => {
                self.any = true;
                self.none = true;
            }
            Shape::Implicit(_) => {
                self.any = true;
            }
            _ => {}
        }
        Ok(())
    }
}

impl Rivals {
    /// The rule, where no statement was passed yet.
    pub fn new() -> Rivals
        ensures { KnowsImplicit result.any result.none [] }
    {
        Rivals {
            any: false,
            none: false,
        }
    }
}
