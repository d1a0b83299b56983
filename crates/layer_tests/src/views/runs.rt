//! Views in which cells are exposed from the start.

ghost use Rattle.std.specs.Prelude.{◌≡◌, ◌<◌, length};

use array_store::{Store, Whole};
use meaning::cell::Cell;
use private_view::View;
use std::alloc::{AllocError, Global};
use std::process::Abort;
use std::test::*;

/// So many cells that there are whole groups of 512.
const MANY: usize = 2_000;

/// The value of each cell in the base.
const SEVENS: &[i32] = &[7; MANY];

/// Reads an element.
fn reads(rt: &impl Abort, view: &mut View<'_>, number: usize, want: i32)
    requires { number < length view.old.base }
    ensures { length view.new.base ≡ length view.old.base }
{
    let value = view.read_element(Cell(number));
    assert!(rt; value == want, "{number}");
}

/// Reads elements of a view, and writes one of them.
fn use_run(rt: &impl Abort, view: &mut View<'_>) -> Result<(), AllocError>
    requires { length view.old.base ≡ 2000 }
    ensures { length view.new.base ≡ 2000 }
{
    reads(rt, view, 1_024, 7);
    reads(rt, view, 1_535, 7);
    view.write(Cell(1_200), 8)?;
    reads(rt, view, 1_199, 7);
    reads(rt, view, 1_200, 8);
    reads(rt, view, 1_201, 7);
    Ok(())
}

/// That a view exposed a cell, or not, and wrote none but one.
fn look(rt: &impl Abort, view: &View<'_>, number: usize, want: bool) {
    assert!(rt; view.exposed().has(Cell(number)) == want, "{number}");
    assert!(rt;
        view.written().has(Cell(number)) == (number == 1_200),
        "{number}"
    );
}

/// Of the cells from 600 on up to 1,600 those of one whole group are exposed; reads of these expose
/// no other, and a write no less.
fn show_group(rt: &impl Abort, alloc: Global, base: &Whole) -> Result<(), AllocError>
    requires { length base.now ≡ 2000 }
{
    let mut view = View::new(alloc, base);
    view.expose(600, 1_600);
    use_run(rt, &mut view)?;
    for number in 0..MANY {
        look(rt, &view, number, number / 512 == 2);
    }
    Ok(())
}

#[test]
fn exposed_from_the_start(rt: HostRuntime) -> Result<(), Fail> {
    let base = Whole::new(rt.alloc(), SEVENS)?;
    show_group(&rt, rt.alloc(), &base)?;
    Ok(())
}
