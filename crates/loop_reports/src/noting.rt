//! What is noted of DO statements, by the lines where they stand.

ghost use Rattle.std.specs.Prelude.{◌≡◌, ℕ, IsSome, OnOk};
ghost use Rattle.std.specs.BTreeMap.{get};
ghost use Rattle.std.specs.Ordering.{nat_cmp};
ghost use Rattle.loop_reports.specs.Noting.{at_line, noted_at, ordered_once, reached_once};
ghost use Rattle.loop_reports.specs.Noting.{staged_once};

use crate::row::Row;
use block_stage::StageStats;
use std::alloc::{AllocError, Global};
use std::collections::BTreeMap;

/// Notes that the DO statement at a line is reached, with so many trips. The `AllocError` comes
/// where a growth was refused.
pub fn note_reached(
    rows: &mut BTreeMap<u32, Row>,
    alloc: Global,
    line: u32,
    trips: u64,
) -> Result<(), AllocError>
    ensures { OnOk result ((q : ℕ) →
        noted_at rows.new q ≡ at_line line (reached_once trips) (noted_at rows.old) q) }
{
    add_row(rows, alloc, line)?;
    if let Some(row) = rows.get_mut(&line) {
        row.reach(trips);
    }
    Ok(())
}

/// Notes that so many trips of the DO statement at a line were executed in order. The `AllocError`
/// comes where a growth was refused.
pub fn note_ordered(
    rows: &mut BTreeMap<u32, Row>,
    alloc: Global,
    line: u32,
    trips: u64,
) -> Result<(), AllocError>
    ensures { OnOk result ((q : ℕ) →
        noted_at rows.new q ≡ at_line line (ordered_once trips) (noted_at rows.old) q) }
{
    add_row(rows, alloc, line)?;
    if let Some(row) = rows.get_mut(&line) {
        row.pass(trips);
    }
    Ok(())
}

/// Notes a stage of the DO statement at a line, before which so many trips of the execution were
/// done. The `AllocError` comes where a growth was refused.
pub fn note_staged(
    rows: &mut BTreeMap<u32, Row>,
    alloc: Global,
    line: u32,
    done: u64,
    told: &StageStats,
) -> Result<(), AllocError>
    ensures { OnOk result ((q : ℕ) →
        noted_at rows.new q ≡ at_line line (staged_once done told.now) (noted_at rows.old) q) }
{
    add_row(rows, alloc, line)?;
    if let Some(row) = rows.get_mut(&line) {
        row.add(done, told)?;
    }
    Ok(())
}

// Makes room for what is noted of the statement at a line, unless something is.
fn add_row(rows: &mut BTreeMap<u32, Row>, alloc: Global, line: u32) -> Result<(), AllocError>
    ensures same { OnOk result ((q : ℕ) → noted_at rows.new q ≡ noted_at rows.old q) }
    ensures there { OnOk result (IsSome (get nat_cmp rows.new line)) }
{
    if !rows.contains_key(&line) {
        rows.insert(line, Row::new(alloc))?;
    }
    Ok(())
}
