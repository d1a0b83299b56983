//! Views of a whole store.

ghost use Rattle.std.specs.Prelude.{◌≡◌, ◌<◌, length};

use array_store::{Store, Whole};
use marks::Marks;
use meaning::cell::Cell;
use private_view::View;
use std::alloc::{AllocError, Global};
use std::process::Abort;
use std::test::*;

/// What a view is asked to do with a cell, and what must come of it.
#[derive(Clone, Copy, Debug)]
enum Step {
    /// This value is read.
    Reads(usize, i32),
    /// This value is read as that of an element of an array.
    Finds(usize, i32),
    /// This value is written.
    Writes(usize, i32),
}

use Step::{Finds, Reads, Writes};

/// What a view is asked to do, and which cells it then exposes and has written.
struct Course {
    steps: &'static [Step],
    exposed: &'static [usize],
    written: &'static [usize],
}

/// A base, the course of a view of it, the values that the view is applied to, and those behind it.
struct Story {
    base: &'static [i32],
    course: Course,
    target: &'static [i32],
    behind: &'static [i32],
}

const BASE: &[i32] = &[10, 11, 12, 13, 14, 15, 16, 17, 18, 19];

const BEHIND: &[i32] = &[10, 100, 12, 13, 41, 15, 16, 17, 18, 2_147_483_647];

/// Cell 1 is read twice and then written, cell 4 is written, read and written again, cell 9 is
/// written and read, and cells 0 and 6 are read alone.
const STORY: &[Step] = &[
    Reads(1, 11),
    Reads(1, 11),
    Writes(4, -40),
    Reads(4, -40),
    Writes(1, 100),
    Reads(1, 100),
    Reads(0, 10),
    Writes(9, 2_147_483_647),
    Writes(4, 41),
    Reads(4, 41),
    Finds(6, 16),
    Finds(9, 2_147_483_647),
];

/// Cells 1 and 2 are written; the value that cell 1 has in the base is read before, and nothing is
/// read of cell 0.
const SHORT_STORY: &[Step] = &[
    Reads(1, 6),
    Writes(1, 9),
    Reads(1, 9),
    Writes(2, 4),
    Reads(2, 4),
];

/// The last two are applied to other values than the base has: what a view didn't write stays.
const STORIES: &[Story] = &[
    Story {
        base: BASE,
        course: Course {
            steps: STORY,
            exposed: &[0, 1, 6],
            written: &[1, 4, 9],
        },
        target: BASE,
        behind: BEHIND,
    },
    Story {
        base: &[5, 6, 7],
        course: Course {
            steps: SHORT_STORY,
            exposed: &[1],
            written: &[1, 2],
        },
        target: &[0, 0, 0],
        behind: &[0, 9, 4],
    },
    Story {
        base: &[1, 2, 3],
        course: Course {
            steps: &[Writes(2, 30)],
            exposed: &[],
            written: &[2],
        },
        target: &[-1, -2, -3],
        behind: &[-1, -2, 30],
    },
    Story {
        base: &[1, 2, 3],
        course: Course {
            steps: &[],
            exposed: &[],
            written: &[],
        },
        target: &[-1, -2, 30],
        behind: &[-1, -2, 30],
    },
];

/// Reads and writes, and compares what is read.
fn play<S: Store>(
    rt: &impl Abort,
    store: &mut S,
    count: usize,
    steps: &[Step],
) -> Result<(), AllocError>
    requires { count ≡ (S.world store.old).cells }
    ensures { (S.world store.new).cells ≡ (S.world store.old).cells }
{
    for &step in steps {
        match step {
            Reads(number, want) => {
                assert!(rt; number < count, "{step:?}");
                let value = store.read(Cell(number));
                assert!(rt; value == want, "{step:?}");
            }
            Finds(number, want) => {
                assert!(rt; number < count, "{step:?}");
                let value = store.read_element(Cell(number));
                assert!(rt; value == want, "{step:?}");
            }
            Writes(number, value) => {
                assert!(rt; number < count, "{step:?}");
                store.write(Cell(number), value)?;
            }
        }
    }
    Ok(())
}

/// That a set has these of so many cells and no other.
fn has_exactly(rt: &impl Abort, marks: &Marks, count: usize, wanted: &[usize]) {
    for number in 0..count {
        let want = wanted.contains(&number);
        assert!(rt; marks.has(Cell(number)) == want, "{number}");
    }
}

/// That cells have these values.
fn check_values(rt: &impl Abort, cells: &[i32], wanted: &[i32]) {
    assert!(rt; cells == wanted, "{wanted:?}");
}

/// That a view of so many cells exposed and wrote these and no other, and isn't lost.
fn look(rt: &impl Abort, view: &View<'_>, count: usize, exposed: &[usize], written: &[usize]) {
    has_exactly(rt, view.exposed(), count, exposed);
    has_exactly(rt, view.written(), count, written);
    assert!(rt; !view.is_lost());
}

/// Takes a course's steps with a view, looks at the view before and behind them, and applies it.
fn tell(
    rt: &impl Abort,
    alloc: Global,
    base: &Whole,
    target: &mut Whole,
    course: &Course,
) -> Result<(), AllocError>
    requires { length target.old ≡ length base.now }
{
    let count = base.cells().len();
    let mut view = View::new(alloc, base);
    look(rt, &view, count, &[], &[]);
    play(rt, &mut view, count, course.steps)?;
    look(rt, &view, count, course.exposed, course.written);
    view.apply(target);
    Ok(())
}

/// Tells a story, and compares the values that it leaves: the base stays as it was.
fn check_story(rt: &impl Abort, alloc: Global, story: &Story) -> Result<(), AllocError> {
    let base = Whole::new(alloc, story.base)?;
    let mut target = Whole::new(alloc, story.target)?;
    assert!(rt; story.target.len() == story.base.len());
    tell(rt, alloc, &base, &mut target, &story.course)?;
    check_values(rt, target.cells(), story.behind);
    check_values(rt, base.cells(), story.base);
    Ok(())
}

#[test]
fn stories(rt: HostRuntime) -> Result<(), Fail> {
    for story in STORIES {
        check_story(&rt, rt.alloc(), story)?;
    }
    Ok(())
}

// A whole store gives the same values.
#[test]
fn story_of_a_whole_store(rt: HostRuntime) -> Result<(), Fail> {
    let mut whole = Whole::new(rt.alloc(), BASE)?;
    play(&rt, &mut whole, BASE.len(), STORY)?;
    check_values(&rt, whole.cells(), BEHIND);
    Ok(())
}

/// What two blocks over the same three cells do, and whether the one behind exposes what the one
/// before wrote. The block before writes cell 1, and the block behind writes it before it reads it,
/// or only reads it.
const MEETINGS: &[(&[Step], &[Step], bool)] = &[
    (
        &[Writes(1, 20)],
        &[Reads(0, 1), Writes(1, 21), Reads(1, 21)],
        false,
    ),
    (&[Writes(1, 20)], &[Reads(1, 2)], true),
];

/// Whether a view that takes these steps exposes one of these cells.
fn exposes(
    rt: &impl Abort,
    alloc: Global,
    base: &Whole,
    steps: &[Step],
    written: &Marks,
) -> Result<bool, AllocError> {
    let mut view = View::new(alloc, base);
    play(rt, &mut view, base.cells().len(), steps)?;
    Ok(view.exposed().meets(written))
}

/// Whether a view that takes the steps behind exposes what one wrote that took the steps before.
fn views_meet(
    rt: &impl Abort,
    alloc: Global,
    base: &Whole,
    before: &[Step],
    behind: &[Step],
) -> Result<bool, AllocError> {
    let mut view = View::new(alloc, base);
    play(rt, &mut view, base.cells().len(), before)?;
    exposes(rt, alloc, base, behind, view.written())
}

#[test]
fn views_that_meet(rt: HostRuntime) -> Result<(), Fail> {
    let base = Whole::new(rt.alloc(), &[1, 2, 3])?;
    for &(before, behind, want) in MEETINGS {
        let met = views_meet(&rt, rt.alloc(), &base, before, behind)?;
        assert!(rt; met == want, "{behind:?}");
    }
    Ok(())
}

/// The greatest number of cells, and those at the borders of words of 64.
const MOST: usize = 16_777_216;

const BORDERS: Course = Course {
    steps: &[
        Reads(0, 7),
        Reads(63, 7),
        Reads(MOST - 1, 7),
        Writes(64, 1),
        Writes(MOST - 1, 2),
        Writes(0, 3),
        Reads(64, 1),
        Reads(MOST - 1, 2),
        Reads(0, 3),
        Finds(63, 7),
        Finds(62, 7),
        Finds(65, 7),
        Finds(65, 7),
        Finds(64, 1),
        Finds(MOST - 1, 2),
    ],
    exposed: &[0, 62, 63, 65, MOST - 1],
    written: &[0, 64, MOST - 1],
};

/// That the cells at the borders have what was written to them, and the other ones what they had.
fn check_borders(rt: &impl Abort, cells: &[i32]) {
    for (number, &value) in cells.iter().enumerate() {
        let want = match number {
            0 => 3,
            64 => 1,
            16_777_215 => 2,
            _ => 7,
        };
        assert!(rt; value == want, "{number}");
    }
}

/// Takes the course at the borders over these values.
fn tell_borders(rt: &impl Abort, alloc: Global, values: &[i32]) -> Result<(), AllocError> {
    let base = Whole::new(alloc, values)?;
    let mut target = Whole::new(alloc, values)?;
    tell(rt, alloc, &base, &mut target, &BORDERS)?;
    drop(base);
    check_borders(rt, target.cells());
    Ok(())
}

#[test]
fn borders(rt: HostRuntime) -> Result<(), Fail> {
    let values = vec![in rt.alloc(); 7; MOST]?;
    tell_borders(&rt, rt.alloc(), &values)?;
    Ok(())
}

/// How many cells a store has, the last page of 64 that it has, and how many of them are in it.
const SHORT: &[(usize, usize, usize)] = &[
    (1, 0, 1),
    (63, 0, 63),
    (64, 0, 64),
    (65, 1, 1),
    (130, 2, 2),
];

/// That a view shows so many values of a page: 7 in the last one, and 5 before it.
fn check_page(rt: &impl Abort, view: &View<'_>, page: usize, count: usize) {
    let shown = view.page(page).expect(rt, "a page");
    assert!(rt; shown.len() == count, "{page}");
    for (number, &value) in shown.iter().enumerate() {
        let want = if number + 1 == count { 7 } else { 5 };
        assert!(rt; value == want, "{number} of {page}");
    }
}

/// Writes the last cell of a store, behind which its page is shown, and no other one is.
fn write_last(
    rt: &impl Abort,
    alloc: Global,
    base: &Whole,
    page: usize,
    count: usize,
) -> Result<(), AllocError>
    requires some { 0 < length base.now }
    requires few { page < 3 }
{
    let last = base.cells().len() - 1;
    let mut view = View::new(alloc, base);
    assert!(rt; view.page(page).is_none());
    view.write(Cell(last), 7)?;
    check_page(rt, &view, page, count);
    assert!(rt; view.page(page + 1).is_none());
    assert!(rt; page == 0 || view.page(0).is_none());
    Ok(())
}

#[test]
fn last_pages(rt: HostRuntime) -> Result<(), Fail> {
    for &(cells, page, count) in SHORT {
        let values = vec![in rt.alloc(); 5; cells]?;
        let base = Whole::new(rt.alloc(), &values)?;
        assert!(rt; !base.cells().is_empty());
        assert!(rt; page < 3);
        write_last(&rt, rt.alloc(), &base, page, count)?;
    }
    let none = Whole::new(rt.alloc(), &[])?;
    let view = View::new(rt.alloc(), &none);
    assert!(rt; view.page(0).is_none());
    Ok(())
}

/// So many cells that several pages are copied.
const MANY: usize = 300;

/// Reads a cell, and asserts that the view is lost where the cell couldn't be marked, and only
/// then.
fn reads(rt: &impl Abort, view: &mut View<'_>, number: usize, want: i32)
    requires { number < length view.old.base }
    ensures { length view.new.base ≡ length view.old.base }
{
    let was_lost = view.is_lost();
    let value = view.read(Cell(number));
    assert!(rt; value == want, "{number}");
    let is_marked = view.exposed().has(Cell(number)) || view.written().has(Cell(number));
    assert!(rt; view.is_lost() == (was_lost || !is_marked), "{number}");
}

/// Writes a cell for the first time, and asserts that a refused write isn't told as written; then
/// writes it again.
fn writes(rt: &impl Abort, view: &mut View<'_>, number: usize, value: i32)
    requires { number < length view.old.base }
    ensures { length view.new.base ≡ length view.old.base }
{
    if view.write(Cell(number), value).is_err() {
        assert!(rt; !view.written().has(Cell(number)), "{number}");
        assert!(rt; view.write(Cell(number), value).is_ok(), "{number}");
    }
    assert!(rt; view.written().has(Cell(number)), "{number}");
}

/// The value of each cell in the base.
const FIVES: &[i32] = &[5; MANY];

/// The value of a cell behind the writes: each third cell is written.
fn third_or_five(number: usize) -> i32 {
    if number % 3 == 0 { 6 } else { 5 }
}

/// Writes each third cell, and reads the other ones.
fn mark_each(rt: &impl Abort, view: &mut View<'_>)
    requires { length view.old.base ≡ 300 }
    ensures { length view.new.base ≡ 300 }
{
    for number in 0..MANY {
        if number % 3 == 0 {
            writes(rt, view, number, 6);
            assert!(rt; !view.exposed().has(Cell(number)), "{number}");
        } else {
            reads(rt, view, number, 5);
        }
    }
}

/// Reads each cell again: no other cell became written.
fn read_each(rt: &impl Abort, view: &mut View<'_>)
    requires { length view.old.base ≡ 300 }
    ensures { length view.new.base ≡ 300 }
{
    for number in 0..MANY {
        reads(rt, view, number, third_or_five(number));
        let is_written = view.written().has(Cell(number));
        assert!(rt; is_written == (number % 3 == 0), "{number}");
    }
}

/// That each third cell has what was written, and the other ones what they had.
fn check_thirds(rt: &impl Abort, cells: &[i32]) {
    for (number, &value) in cells.iter().enumerate() {
        assert!(rt; value == third_or_five(number), "{number}");
    }
}

/// Marks and reads each cell of a view, and applies it.
fn mark_and_apply(rt: &impl Abort, alloc: Global, base: &Whole, target: &mut Whole)
    requires base { length base.now ≡ 300 }
    requires target { length target.old ≡ 300 }
{
    let mut view = View::new(alloc, base);
    mark_each(rt, &mut view);
    read_each(rt, &mut view);
    view.apply(target);
}

// Where an allocation is refused, a write leaves the view as it was, and a read answers its value
// and loses the view.
#[test]
fn refused(rt: HostRuntime) -> Result<(), Fail> {
    let base = Whole::new(rt.alloc(), FIVES)?;
    let mut target = Whole::new(rt.alloc(), FIVES)?;
    mark_and_apply(&rt, rt.alloc(), &base, &mut target);
    drop(base);
    check_thirds(&rt, target.cells());
    Ok(())
}
