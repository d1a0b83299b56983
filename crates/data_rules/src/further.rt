//! Each DATA statement that breaks the rule on them, whatever others do (ANSI X3.9-1978, chapter
//! 9).

ghost use Rattle.std.specs.Prelude.{◌≡◌, map, is_some, IfOk, OnOk};
ghost use Rattle.meaning.specs.Initial.{has_bad_data};
ghost use Rattle.meaning.specs.Syntax.{data_set_tree};
ghost use Rattle.meaning.specs.Trees.{item_tree};
ghost use Rattle.symbols.specs.SymbolsAt.{symbols_at};
ghost use Rattle.declarations.specs.ArraysKept.{AreArrays};
ghost use Rattle.declarations.specs.Tables.{known_at};
ghost use Rattle.rule_passes.specs.Telling.{AddsTold};
ghost use Rattle.meaning.specs.declared.refusal.Rule.TheVariants.{K10 as rule_K10};
ghost use Rattle.data_rules.specs.DataFurther.{PassesOneMore, gave_twice};
ghost use Rattle.data_rules.specs.DataSets.{fill_sets, stage_empty};
ghost use Rattle.data_rules.specs.declared.filling.Way.TheVariants.{Dry as way_dry};
ghost use Rattle.data_rules.specs.Lacking.{names_kept};

use crate::filling::{Filling, Way};
use crate::lacking::{Known, pass_names};
use crate::starting::{counted_sets, give_sets};
use declarations::{Table, table_of};
use expressions::Dimensions;
use indexmap::IndexMap;
use meaning::refusal::{Broken, Rule};
use meaning::syntax::{DataSet, Item};
use rule_passes::add_broken;
use std::alloc::{AllocError, Global};
use symbols::Symbols;

/// What DATA statements have given behind one more, and whether that one breaks its rule.
#[derive(Drop)]
pub struct OneMore {
    /// What was given: nothing by those that don't fit, all by the others.
    pub filling: Filling,
    /// Whether it breaks its rule.
    pub is_bad: bool,
}

/// Whether the lists of sets and their values fit, whatever was given before.
fn fits<'a>(
    alloc: Global,
    table: &'a Table<'a>,
    arrays: &IndexMap<Vec<u8>, Dimensions>,
    sets: &'a [DataSet],
) -> Result<bool, AllocError>
    requires { AreArrays (symbols_at table.now.symbols.now) arrays.now }
    ensures { IfOk
        result (λ b. b
        ≡ is_some (fill_sets (symbols_at table.now.symbols.now) (known_at table.now)
        (map data_set_tree sets.now) (stage_empty way_dry))) }
{
    let filling = Filling::new(alloc, Way::Dry);
    match give_sets(filling, alloc, table, arrays, sets)? {
        Some(filling) => {
            drop(filling);
            Ok(true)
        }
        None => Ok(false),
    }
}

/// Whether a place that had a value was given another.
fn is_twice(way: Way) -> bool
    ensures { result ≡ gave_twice way }
{
    match way {
        Way::Once => false,
        Way::Again { twice } => twice,
        Way::Dry => false,
    }
}

/// Goes on behind one statement more. It is tried first, since one that doesn't fit gives nothing;
/// one that gives something twice gives all that it has. The `AllocError` comes where a growth was
/// refused.
pub fn pass_one_more<'a>(
    filling: Filling,
    alloc: Global,
    table: &'a Table<'a>,
    sizeless: &[&[u8]],
    arrays: &IndexMap<Vec<u8>, Dimensions>,
    item: &'a Item,
) -> Result<OneMore, AllocError>
    requires { AreArrays (symbols_at table.now.symbols.now) arrays.now }
    ensures { IfOk
        result (PassesOneMore table.now (names_kept sizeless.now) (item_tree item.now) filling) }
{
    let known = Known { table, sizeless };
    let sets = counted_sets(&known, &*item.form.shape);
    if !fits(alloc, table, arrays, sets)? {
        return Ok(OneMore {
            filling,
            is_bad: true,
        });
    }
    let Filling { given, way: _ } = filling;
    let again = Filling {
        given,
        way: Way::Again { twice: false },
    };
    match give_sets(again, alloc, table, arrays, sets)? {
        Some(more) => {
            let is_bad = is_twice(more.way);
            let Filling { given, way: _ } = more;
            let filling = Filling {
                given,
                way: Way::Once,
            };
            Ok(OneMore { filling, is_bad })
        }
        None => unreachable!(),
    }
}

/// K10: adds the pair of each line at which a DATA statement breaks the rule on them, in the order
/// of the statements.
///
/// # Errors
///
/// `AllocError` only where a growth was refused.
pub fn add_bad_data(
    pairs: &mut Vec<Broken>,
    alloc: Global,
    symbols: &Symbols,
    arrays: &IndexMap<Vec<u8>, Dimensions>,
    items: &[&Item],
) -> Result<(), AllocError>
    requires { AreArrays (symbols_at symbols.now) arrays.now }
    ensures { OnOk result
        (AddsTold (has_bad_data (symbols_at symbols.now)) rule_K10 items.now pairs.old.items
        pairs.new.items) }
{
    let mut table = table_of(alloc, symbols);
    let mut sizeless = Vec::new(alloc);
    let mut filling = Filling::new(alloc, Way::Once);
    for &item in items {
        let one_more = pass_one_more(filling, alloc, &table, &sizeless, arrays, item)?;
        add_broken(pairs, one_more.is_bad, item.line, Rule::K10)?;
        filling = one_more.filling;
        pass_names(&mut table, &mut sizeless, alloc, item)?;
    }
    drop(filling);
    Ok(())
}
