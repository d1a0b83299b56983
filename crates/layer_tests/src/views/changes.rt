//! What views wrote, when their whole store is let go, and views that are used again.

ghost use Rattle.std.specs.Prelude.{◌≡◌, ◌<◌, ◌≤◌, IfOk, length};

use array_store::{Store, Whole};
use meaning::cell::Cell;
use private_view::{View, WriteSet};
use std::alloc::{AllocError, Global};
use std::process::Abort;
use std::test::*;

/// So many cells: two pages of 64, and a page of two.
const CELLS: usize = 130;

/// A store in which each cell has its own number.
fn numbered(alloc: Global, count: usize) -> Result<Whole, AllocError>
    requires { count ≤ 130 }
{
    let mut values = Vec::new(alloc);
    for number in 0..count {
        values.push(number as i32)?;
    }
    Whole::new(alloc, &values)
}

/// A store in which each cell has 7.
fn sevens(alloc: Global, count: usize) -> Result<Whole, AllocError> {
    let values = vec![in alloc; 7; count]?;
    Whole::new(alloc, &values)
}

/// That a view of 130 cells exposed and wrote nothing, and shows no page.
fn is_unused(rt: &impl Abort, view: &View<'_>) {
    for number in 0..CELLS {
        assert!(rt; !view.exposed().has(Cell(number)), "{number}");
        assert!(rt; !view.written().has(Cell(number)), "{number}");
    }
    for page in 0..3 {
        assert!(rt; view.page(page).is_none(), "{page}");
    }
    assert!(rt; !view.is_lost());
}

/// Reads a cell, and compares its value.
fn reads(rt: &impl Abort, view: &mut View<'_>, number: usize, want: i32)
    requires { number < length view.old.base }
    ensures { length view.new.base ≡ length view.old.base }
{
    let value = view.read(Cell(number));
    assert!(rt; value == want, "{number}");
}

/// Writes 1000 more than their numbers to the cells of the first page.
fn write_page(view: &mut View<'_>) -> Result<(), AllocError>
    requires { length view.old.base ≡ 130 }
    ensures { length view.new.base ≡ 130 }
{
    for number in 0..64 {
        view.write(Cell(number), number as i32 + 1000)?;
    }
    Ok(())
}

/// What a view wrote that read cell 65, and wrote cell 64 and all of the first page. It shows both
/// pages.
fn first_changes(rt: &impl Abort, alloc: Global, base: &Whole) -> Result<WriteSet, AllocError>
    requires { length base.now ≡ 130 }
    ensures { IfOk result (λ c. c.cells ≡ 130) }
{
    let mut view = View::new(alloc, base);
    reads(rt, &mut view, 65, 65);
    view.write(Cell(64), -64)?;
    write_page(&mut view)?;
    reads(rt, &mut view, 63, 1063);
    assert!(rt; view.exposed().has(Cell(65)));
    assert!(rt; view.page(0).is_some());
    assert!(rt; view.page(1).is_some());
    Ok(view.into_changes())
}

/// That a store of sevens has what was written to the first page and to cell 64.
fn check_first(rt: &impl Abort, cells: &[i32]) {
    for (number, &value) in cells.iter().enumerate() {
        let want = match number {
            0..=63 => number as i32 + 1000,
            64 => -64,
            _ => 7,
        };
        assert!(rt; value == want, "{number}");
    }
}

/// Uses a view again: it reads what the base has, and writes cell 129, cell 2 and cell 64, so that
/// pages are copied in another order.
fn use_again(rt: &impl Abort, view: &mut View<'_>) -> Result<(), AllocError>
    requires { length view.old.base ≡ 130 }
    ensures { length view.new.base ≡ 130 }
{
    is_unused(rt, view);
    reads(rt, view, 0, 0);
    reads(rt, view, 64, 64);
    view.write(Cell(129), 1290)?;
    reads(rt, view, 1, 1);
    view.write(Cell(2), 20)?;
    view.write(Cell(64), 640)?;
    reads(rt, view, 3, 3);
    reads(rt, view, 2, 20);
    reads(rt, view, 65, 65);
    reads(rt, view, 128, 128);
    reads(rt, view, 129, 1290);
    Ok(())
}

/// That a store of sevens has what was written to cells 2, 64 and 129.
fn check_again(rt: &impl Abort, cells: &[i32]) {
    for (number, &value) in cells.iter().enumerate() {
        let want = match number {
            2 => 20,
            64 => 640,
            129 => 1290,
            _ => 7,
        };
        assert!(rt; value == want, "{number}");
    }
}

/// Puts what was written into a store of sevens, and answers it.
fn applied(rt: &impl Abort, alloc: Global, changes: &WriteSet) -> Result<Whole, AllocError>
    requires { changes.now.cells ≡ 130 }
{
    let mut target = sevens(alloc, CELLS)?;
    assert!(rt; target.cells().len() == CELLS);
    changes.apply_to(&mut target);
    Ok(target)
}

/// Lets what a view wrote go into a store, and uses the view again.
fn apply_and_use(rt: &impl Abort, alloc: Global, base: &Whole) -> Result<(), AllocError>
    requires { length base.now ≡ 130 }
{
    let changes = first_changes(rt, alloc, base)?;
    let first = applied(rt, alloc, &changes)?;
    check_first(rt, first.cells());
    let mut view = View::again(changes, base);
    use_again(rt, &mut view)?;
    let second = applied(rt, alloc, &view.into_changes())?;
    check_again(rt, second.cells());
    Ok(())
}

#[test]
fn view_used_again(rt: HostRuntime) -> Result<(), Fail> {
    let base = numbered(rt.alloc(), CELLS)?;
    assert!(rt; base.cells().len() == CELLS);
    apply_and_use(&rt, rt.alloc(), &base)?;
    for (number, &value) in base.cells().iter().enumerate() {
        assert!(rt; value == number as i32, "{number}");
    }
    Ok(())
}

/// The second page of the numbered cells, with 1 written to the first cell of it.
const SECOND_PAGE: &[i32] = &[
    1, 65, 66, 67, 68, 69, 70, 71, 72, 73, 74, 75, 76, 77, 78, 79, 80, 81, 82, 83, 84, 85, 86, 87,
    88, 89, 90, 91, 92, 93, 94, 95, 96, 97, 98, 99, 100, 101, 102, 103, 104, 105, 106, 107, 108,
    109, 110, 111, 112, 113, 114, 115, 116, 117, 118, 119, 120, 121, 122, 123, 124, 125, 126, 127,
];

/// That words are these.
fn check_words(rt: &impl Abort, words: &[u64], wanted: &[u64]) {
    assert!(rt; words == wanted, "{wanted:?}");
}

/// Writes cell 64, reads cell 65, which stands in the page that is copied, and looks at what is
/// exposed, written and shown. Puts what was written into a store.
fn write_beside_read(
    rt: &impl Abort,
    alloc: Global,
    base: &Whole,
    target: &mut Whole,
) -> Result<(), AllocError>
    requires base { length base.now ≡ 130 }
    requires target { length target.old ≡ 130 }
{
    let mut view = View::new(alloc, base);
    view.write(Cell(64), 1)?;
    reads(rt, &mut view, 65, 65);
    check_words(rt, view.exposed().words(), &[0, 2]);
    check_words(rt, view.written().words(), &[0, 1]);
    assert!(rt; view.page(0).is_none());
    let page = view.page(1).expect(rt, "a page");
    assert!(rt; page == SECOND_PAGE);
    assert!(rt; !view.is_lost());
    view.apply(target);
    Ok(())
}

// A cell that stands in a copied page and wasn't written is exposed by a read, isn't told as
// written, and isn't applied.
#[test]
fn cell_beside_a_written_one(rt: HostRuntime) -> Result<(), Fail> {
    let base = numbered(rt.alloc(), CELLS)?;
    let mut target = sevens(rt.alloc(), CELLS)?;
    assert!(rt; base.cells().len() == CELLS);
    assert!(rt; target.cells().len() == CELLS);
    write_beside_read(&rt, rt.alloc(), &base, &mut target)?;
    for (number, &value) in target.cells().iter().enumerate() {
        let want = if number == 64 { 1 } else { 7 };
        assert!(rt; value == want, "{number}");
    }
    Ok(())
}

/// How many cells stores have: less than a page, a page, and pages with more behind them.
const COUNTS: &[usize] = &[1, 63, 64, 65, 130];

/// Writes twice its number to each cell.
fn write_all(view: &mut View<'_>, count: usize) -> Result<(), AllocError>
    requires few { count ≤ 130 }
    requires base { count ≡ length view.old.base }
    ensures { length view.new.base ≡ length view.old.base }
{
    for number in 0..count {
        view.write(Cell(number), number as i32 * 2)?;
    }
    Ok(())
}

/// What a view wrote that wrote to each of so many cells, put into a store of sevens.
fn all_applied(alloc: Global, base: &Whole, target: &mut Whole) -> Result<(), AllocError>
    requires few { length base.now ≤ 130 }
    requires target { length target.old ≡ length base.now }
{
    let mut view = View::new(alloc, base);
    write_all(&mut view, base.cells().len())?;
    view.into_changes().apply_to(target);
    Ok(())
}

#[test]
fn all_cells_written(rt: HostRuntime) -> Result<(), Fail> {
    for &count in COUNTS {
        assert!(rt; count <= CELLS);
        let base = numbered(rt.alloc(), count)?;
        let mut target = sevens(rt.alloc(), count)?;
        assert!(rt; base.cells().len() == count);
        assert!(rt; target.cells().len() == count);
        all_applied(rt.alloc(), &base, &mut target)?;
        for (number, &value) in target.cells().iter().enumerate() {
            let want = i32::try_from(number).unwrap_or(0).wrapping_mul(2);
            assert!(rt; value == want, "{number} of {count}");
        }
    }
    Ok(())
}
