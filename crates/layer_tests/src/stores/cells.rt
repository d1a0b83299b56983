//! A store that holds the value of each cell.

ghost use Rattle.std.specs.Prelude.{◌≡◌, ◌<◌, IfOk};

use array_store::{Store, Whole};
use meaning::cell::Cell;
use std::alloc::AllocError;
use std::test::*;

const VALUES: &[i32] = &[5, -2_147_483_648, 2_147_483_647];

#[test]
fn reads_and_writes(rt: HostRuntime) -> Result<(), Fail> {
    let mut whole = Whole::new(rt.alloc(), VALUES)?;
    assert!(rt; whole.read(Cell(0)) == 5);
    assert!(rt; whole.read(Cell(2)) == 2_147_483_647);
    whole.write(Cell(0), 60);
    whole.write(Cell(2), -7);
    whole.write(Cell(2), 70);
    assert!(rt; whole.read(Cell(0)) == 60);
    assert!(rt; whole.read(Cell(1)) == -2_147_483_648);
    assert!(rt; whole.read(Cell(2)) == 70);
    assert!(rt; whole.cells() == [60, -2_147_483_648, 70].as_slice());
    Ok(())
}

// Values are put into consecutive cells; the ones before and behind stay.
#[test]
fn puts(rt: HostRuntime) -> Result<(), Fail> {
    let mut whole = Whole::new(rt.alloc(), &[10, 11, 12, 13, 14])?;
    whole.put(Cell(1), &[-1, -2, -3]);
    assert!(rt; whole.cells() == [10, -1, -2, -3, 14].as_slice());
    whole.put(Cell(3), &[30, 40]);
    assert!(rt; whole.cells() == [10, -1, -2, 30, 40].as_slice());
    whole.put(Cell(5), &[]);
    whole.put(Cell(0), &[1, 2, 3, 4, 5]);
    assert!(rt; whole.cells() == [1, 2, 3, 4, 5].as_slice());
    Ok(())
}

#[test]
fn no_cells(rt: HostRuntime) -> Result<(), Fail> {
    let whole = Whole::new(rt.alloc(), &[])?;
    assert!(rt; whole.cells().is_empty());
    Ok(())
}

/// Writes a value to a cell, and reads it.
#[tactic(auto, using(meaning::proofs::Stores::known_written))]
fn read_back<S: Store>(store: &mut S, cell: Cell, value: i32) -> Result<i32, AllocError>
    requires { cell.0 < (S.world store.old).cells }
    ensures value { IfOk result (λ v. v ≡ value) }
    ensures cells { (S.world store.new).cells ≡ (S.world store.old).cells }
{
    store.write(cell, value)?;
    Ok(store.read(cell))
}

#[test]
fn reads_what_was_written(rt: HostRuntime) -> Result<(), Fail> {
    let mut whole = Whole::new(rt.alloc(), &[1, 2, 3])?;
    assert!(rt; read_back(&mut whole, Cell(2), 30)? == 30);
    assert!(rt; read_back(&mut whole, Cell(0), 10)? == 10);
    assert!(rt; whole.cells() == [10, 2, 30].as_slice());
    Ok(())
}

/// Exchanges the values of two cells.
fn exchange<S: Store>(store: &mut S, one: Cell, other: Cell) -> Result<(), AllocError>
    requires one { one.0 < (S.world store.old).cells }
    requires other { other.0 < (S.world store.old).cells }
{
    let value = store.read(one);
    let new_value = store.read(other);
    store.write(one, new_value)?;
    store.write(other, value)
}

#[test]
fn exchanges(rt: HostRuntime) -> Result<(), Fail> {
    let mut whole = Whole::new(rt.alloc(), &[1, 2, 3, 4])?;
    exchange(&mut whole, Cell(0), Cell(3))?;
    assert!(rt; whole.cells() == [4, 2, 3, 1].as_slice());
    exchange(&mut whole, Cell(1), Cell(1))?;
    assert!(rt; whole.cells() == [4, 2, 3, 1].as_slice());
    Ok(())
}
