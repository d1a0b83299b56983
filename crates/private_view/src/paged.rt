//! A view of a whole store by its pages.

ghost use Rattle.std.specs.Prelude.{◌≢◌, ◌||◌, true, None, ◌-◌, min, ◌↔◌, IsTrue, OnErr, [], ◌∷◌};
ghost use Rattle.std.specs.Prelude.{◌⊎◌, vec_len, vec_capacity, slice_set, slice_get, ◌≡◌, ◌<◌};
ghost use Rattle.std.specs.Prelude.{◌≤◌, ◌+◌, ◌*◌, ◌/◌, ◌%◌, ◌++◌, ◌^◌, ℕ, ℤ, pos, Some, length};
ghost use Rattle.std.specs.Prelude.{is_some, IfOk, IfSome, OnOk, IsSome, slice_index_or};
ghost use Rattle.std.specs.FinSet as set;
ghost use Rattle.std.specs.FinMap as map;
ghost use Rattle.marks.specs.Words.{tells, word_at};
ghost use Rattle.std.specs.Int.{bit_at};
ghost use Rattle.meaning.specs.Stores.{after_write, known, overlay, LeavesRead};
ghost use Rattle.array_store.specs.Whole.{world_of};
ghost use Rattle.private_view.specs.Fronts.{with_first};
ghost use Rattle.private_view.specs.Views.{ArePaged, ArePlaced, HasSome, TakesAll, TakesPage};
ghost use Rattle.private_view.specs.Views.{ExposesRun, IsRun};
ghost use Rattle.private_view.specs.Views.{Wrote, coded_wrote, is_in, of_page, IsCopied, IsKept};
ghost use Rattle.private_view.specs.Views.{Seen, ShowsPage, WroteIn, coded_seen, new_view, slot_at};
ghost use Rattle.private_view.specs.Views.{value_at, world_seen, written_by};

use array_store::{Store, Whole};
use marks::{Marks, lowest_bit, without_bit};
use meaning::cell::Cell;
use std::alloc::{AllocError, Global};
use std::marker::Model;

/// What was written over a whole store, and which of its cells were read before they were written.
/// The whole store itself stays as it is.
#[derive(Drop)]
pub(crate) struct Paged<'a> {
    base: &'a Whole,
    written: Marks,
    exposed: Marks,
    // By page: its place among those that were copied, if it was.
    slots: Vec<usize>,
    // The pages that were copied, and 64 values of each.
    numbers: Vec<usize>,
    values: Vec<i32>,
    lost: bool,
    // The cells of the run, from one on up to another: each is exposed and none was written, so
    // they are read without a look at either set.
    run_from: usize,
    run_until: usize,
}

impl<'a> Model for Paged<'a> {
    ghost Value = { Seen };

    ghost coded = { coded_seen };

    ghost view = { λ v. record {
      base = v.base.now;
      exposed = v.exposed;
      written = written_by v.written (value_at v.slots.items v.values.items);
      lost = v.lost;
    } };

    ghost invariant = { λ v.
        IsKept v.base.now v.written v.slots.items v.numbers.items v.values.items
        × IsRun v.run_from v.run_until v.exposed v.written };
}

/// What a view wrote, without the loan of the whole store that it stood on. Another view can be
/// kept in its place.
#[derive(Drop)]
pub struct WriteSet {
    cells: usize,
    written: Marks,
    exposed: Marks,
    slots: Vec<usize>,
    numbers: Vec<usize>,
    values: Vec<i32>,
}

impl Model for WriteSet {
    ghost Value = { Wrote };

    ghost coded = { coded_wrote };

    ghost view = { λ h. record {
      cells = h.cells;
      written = written_by h.written (value_at h.slots.items h.values.items);
    } };

    ghost invariant = { λ h.
        ArePaged h.cells h.written h.slots.items h.numbers.items h.values.items };
}

impl<'a> Paged<'a> {
    /// A view in which nothing was read or written. It takes no memory, and no time for each cell.
    pub(crate) fn new(alloc: Global, base: &'a Whole) -> Paged<'a>
        ensures { result ≡ new_view base.entry.now }
    {
        let written = Marks::new(alloc);
        let exposed = Marks::new(alloc);
        let slots = Vec::new(alloc);
        unused(
            base,
            written,
            exposed,
            slots,
            Vec::new(alloc),
            Vec::new(alloc),
        )
    }

    /// A view in which nothing was read or written, kept where another one was. It takes no memory,
    /// and no time for each cell.
    pub(crate) fn again(changes: WriteSet, base: &'a Whole) -> Paged<'a>
        ensures { result ≡ new_view base.entry.now }
    {
        let mut written = changes.written;
        let mut exposed = changes.exposed;
        let mut numbers = changes.numbers;
        let mut values = changes.values;
        written.clear();
        exposed.clear();
        numbers.clear();
        values.clear();
        unused(base, written, exposed, changes.slots, numbers, values)
    }

    /// The cells that were read before they were written.
    pub(crate) fn exposed(&self) -> &Marks
        ensures { result.now ≡ self.now.exposed }
    {
        &self.exposed
    }

    /// The cells that were written.
    pub(crate) fn written(&self) -> &Marks
        ensures { (c : ℕ) → set.contains result.now c ≡ is_some (map.get self.now.written c) }
    {
        &self.written
    }

    /// The values of the cells from 64 times the page's number on, fewer in the last page, exactly
    /// where one of these cells was written. It takes no memory.
    pub(crate) fn page(&self, page: usize) -> Option<&[i32]>
        ensures some { IsTrue (is_some result) ↔ WroteIn self.now page }
        ensures values { IfSome result (λ p. ShowsPage self.now page p.now) }
    {
        if !has_some(self.written.words(), page) {
            return None;
        }
        let count = page_len(self.base.cells().len(), page);
        Some(copied_page(&self.slots, &self.numbers, &self.values, page, count))
    }

    /// Whether a cell was read that couldn't be marked as exposed, since memory was refused.
    pub(crate) fn is_lost(&self) -> bool
        ensures { result ≡ self.now.lost }
    {
        self.lost
    }

    /// Exposes the cells of whole groups of 512 among those from one on up to another, in a view in
    /// which nothing was written, and has them read at once. Where memory is refused the view stays
    /// as it was.
    pub(crate) fn expose(&mut self, from: usize, until: usize)
        requires { (c : ℕ) → map.get self.old.written c ≡ None }
        ensures rest { self.new ≡ record self.old { exposed = self.new.exposed } }
        ensures run { ExposesRun from until self.old.exposed self.new.exposed }
    {
        // None of the first 64 cells, which have their values elsewhere.
        let first = from.saturating_sub(1) / 512 + 1;
        let behind = until / 512;
        if first >= behind {
            return;
        }
        match self.exposed.set_groups(first, behind) {
            Ok(()) => {
                self.run_from = 512 * first;
                self.run_until = 512 * behind;
            }
            Err(_) => {}
        }
    }

    /// The value of a cell, if it is one of the run: it is exposed and wasn't written, and none of
    /// the first 64.
    #[inline(always)]
    pub(crate) fn value_in_run(&self, cell: Cell) -> Option<i32>
        requires { cell.0 < length self.now.base }
        ensures far { IfSome result (λ x. 64 ≤ cell.0) }
        ensures value { IfSome result (λ x. x ≡ known (world_seen self.now) cell.0) }
        ensures after { IfSome result
            (λ x. LeavesRead cell.0 (world_seen self.now) (world_seen self.now)) }
    {
        if self.run_from <= cell.0 && cell.0 < self.run_until {
            Some(self.base.read(cell))
        } else {
            None
        }
    }

    // Reads a cell that wasn't written, and marks it. It stands by itself, so that a cell that is
    // marked is read quickly.
    #[inline(never)]
    fn read_new(&mut self, cell: Cell) -> i32
        requires inside { cell.0 < length self.old.base }
        requires unwritten { map.get self.old.written cell.0 ≡ None }
        ensures value { result ≡ known (world_seen self.old) cell.0 }
        ensures after { LeavesRead cell.0 (world_seen self.old) (world_seen self.new) }
        ensures base { self.new.base ≡ self.old.base }
    {
        if self.exposed.set_at_hand(cell) {
            return self.base.read(cell);
        }
        self.read_first(cell)
    }

    // The same where its mark takes memory.
    #[cold]
    #[inline(never)]
    fn read_first(&mut self, cell: Cell) -> i32
        requires inside { cell.0 < length self.old.base }
        requires unwritten { map.get self.old.written cell.0 ≡ None }
        ensures value { result ≡ known (world_seen self.old) cell.0 }
        ensures after { LeavesRead cell.0 (world_seen self.old) (world_seen self.new) }
        ensures base { self.new.base ≡ self.old.base }
    {
        let value = self.base.read(cell);
        match self.exposed.set(cell) {
            Ok(()) => value,
            Err(_) => {
                self.lost = true;
                value
            }
        }
    }

    // Writes a cell for the first time, which may take memory. It stands by itself, so that a cell
    // that was written is written quickly.
    #[inline(never)]
    fn write_new(&mut self, cell: Cell, value: i32) -> Result<(), AllocError>
        requires { cell.0 < length self.old.base }
        ensures ok { OnOk result
            (world_seen self.new ≡ after_write cell.0 value (world_seen self.old)) }
        ensures err { OnErr result (world_seen self.new ≡ world_seen self.old) }
        ensures base { self.new.base ≡ self.old.base }
    {
        if is_copied(&self.slots, &self.numbers, cell.0 / 64) && self.written.set_at_hand(cell) {
            self.run_until = end_before(self.run_from, self.run_until, cell.0);
            put_value(&self.slots, &self.numbers, &mut self.values, cell.0, value);
            return Ok(());
        }
        self.write_first(cell, value)
    }

    // The same where its page isn't copied, or its mark takes memory.
    #[cold]
    #[inline(never)]
    fn write_first(&mut self, cell: Cell, value: i32) -> Result<(), AllocError>
        requires { cell.0 < length self.old.base }
        ensures ok { OnOk result
            (world_seen self.new ≡ after_write cell.0 value (world_seen self.old)) }
        ensures err { OnErr result (world_seen self.new ≡ world_seen self.old) }
        ensures base { self.new.base ≡ self.old.base }
    {
        hold(
            self.base,
            &mut self.slots,
            &mut self.numbers,
            &mut self.values,
            cell.0 / 64,
        )?;
        self.written.set(cell)?;
        self.run_until = end_before(self.run_from, self.run_until, cell.0);
        put_value(&self.slots, &self.numbers, &mut self.values, cell.0, value);
        Ok(())
    }

    // Gives a cell that was written another value. It takes no memory.
    fn put_again(&mut self, cell: usize, value: i32)
        requires { IsSome (map.get self.old.written cell) }
        ensures { self.new ≡ record self.old { written = map.insert self.old.written cell value } }
    {
        put_value(&self.slots, &self.numbers, &mut self.values, cell, value);
    }

    /// Gives those of the first 64 cells that a mask has, which were written, other values. It
    /// takes no memory.
    pub(crate) fn put_first(&mut self, mask: u64, values: &[i32; 64])
        requires { (b : ℕ) → b < 64 → bit_at mask b ≡ 1 → IsSome (map.get self.old.written b) }
        ensures { self.new ≡ with_first mask values.now self.old }
    {
        let mut left = mask;
        'bits: while left != 0 {
            let at = lowest_bit(left);
            self.put_again(at, values[at]);
            left = without_bit(left, at);
        }
    }

    /// Lets the whole store go, and keeps what was written. It takes no memory.
    pub(crate) fn into_changes(self) -> WriteSet
        ensures { result ≡ record { cells = length self.entry.base; written = self.entry.written } }
    {
        WriteSet {
            cells: self.base.cells().len(),
            written: self.written,
            exposed: self.exposed,
            slots: self.slots,
            numbers: self.numbers,
            values: self.values,
        }
    }
}

impl WriteSet {
    /// Puts what was written into a whole store of as many cells. It takes no memory.
    pub fn apply_to(&self, target: &mut Whole)
        requires { length target.old ≡ self.now.cells }
        ensures values { known (world_of target.new) ≡
            overlay (known (world_of target.old)) (map.get self.now.written) }
        ensures len { length target.new ≡ length target.old }
    {
        put_all(
            self.written.words(),
            &self.slots,
            &self.numbers,
            &self.values,
            target,
        );
    }
}

// A view in which nothing was read or written, of what is new or was emptied.
fn unused<'a>(
    base: &'a Whole,
    written: Marks,
    exposed: Marks,
    slots: Vec<usize>,
    numbers: Vec<usize>,
    values: Vec<i32>,
) -> Paged<'a>
    requires written { written ≡ set.empty }
    requires exposed { exposed ≡ set.empty }
    requires numbers { numbers.items ≡ [] }
    requires values { values.items ≡ [] }
    ensures { result ≡ new_view base.entry.now }
{
    Paged {
        base,
        written,
        exposed,
        slots,
        numbers,
        values,
        lost: false,
        run_from: 64,
        run_until: 0,
    }
}

// Where a run of cells ends, if it ends before a cell that is written.
fn end_before(from: usize, until: usize, cell: usize) -> usize
    ensures less { result ≤ until }
    ensures out { (cell < from) ⊎ (result ≤ cell) }
{
    if from <= cell {
        return until.min(cell);
    }
    until
}

// Whether one of the cells of a page is marked.
fn has_some(words: &[u64], page: usize) -> bool
    ensures { IsTrue result ↔ HasSome words.now page }
{
    match words.get(page) {
        Some(word) => *word != 0,
        None => false,
    }
}

// The first so many values of a page that was copied.
fn copied_page<'a>(
    slots: &[usize],
    numbers: &[usize],
    values: &'a [i32],
    page: usize,
    count: usize,
) -> &'a [i32]
    requires copied { IsCopied slots.now numbers.now page }
    requires long { length values.now ≡ 64 * length numbers.now }
    requires most { count ≤ 64 }
    ensures len { length result.now ≡ count }
    ensures is { (b : ℕ) → b < count →
        slice_get result.now b ≡ Some (value_at slots.now values.now (64 * page + b)) }
{
    let slot = match slots.get(page) {
        Some(slot) => *slot,
        None => 0,
    };
    let from = 64 * slot;
    &values[from..from + count]
}

// Puts the values of those cells of a page that its mask word has into a whole store, one by one.
fn put_bits(word: u64, page: usize, part: &[i32], target: &mut Whole)
    requires small { page < 2 ^ 58 }
    requires len { length part.now ≡ 64 }
    requires within { (c : ℕ) → is_in word page c ≡ true → c < length target.old }
    ensures takes { TakesPage target.old target.new word page (of_page part.now) }
    ensures len { length target.new ≡ length target.old }
{
    let mut left = word;
    'bits: while left != 0 {
        let bit = lowest_bit(left);
        target.write(Cell(64 * page + bit), part[bit]);
        left = without_bit(left, bit);
    }
}

// The same, and all at once where the word has each cell of the page.
fn put_page(word: u64, page: usize, part: &[i32], target: &mut Whole)
    requires small { page < 2 ^ 58 }
    requires len { length part.now ≡ 64 }
    requires within { (c : ℕ) → is_in word page c ≡ true → c < length target.old }
    ensures takes { TakesPage target.old target.new word page (of_page part.now) }
    ensures len { length target.new ≡ length target.old }
{
    if word == u64::MAX {
        target.put(Cell(64 * page), part);
    } else {
        put_bits(word, page, part, target);
    }
}

// The same by the mask words of all pages.
fn put_marked(words: &[u64], page: usize, part: &[i32], target: &mut Whole)
    requires few { length words.now ≤ 2 ^ 58 }
    requires len { length part.now ≡ 64 }
    requires within { (c : ℕ) → tells words.now c ≡ true → c < length target.old }
    ensures takes { TakesPage target.old target.new
        (word_at words.now page) page (of_page part.now) }
    ensures len { length target.new ≡ length target.old }
{
    if let Some(word) = words.get(page) {
        put_page(*word, page, part, target);
    }
}

// Puts the values of marked cells into a whole store, page by page of those that were copied.
fn put_all(words: &[u64], slots: &[usize], numbers: &[usize], values: &[i32], target: &mut Whole)
    requires few { length words.now ≤ 2 ^ 58 }
    requires copied { (c : ℕ) → tells words.now c ≡ true → IsCopied slots.now numbers.now (c / 64) }
    requires placed { ArePlaced slots.now numbers.now }
    requires long { length values.now ≡ 64 * length numbers.now }
    requires within { (c : ℕ) → tells words.now c ≡ true → c < length target.old }
    ensures takes { TakesAll target.old target.new words.now (value_at slots.now values.now) }
    ensures len { length target.new ≡ length target.old }
{
    for at in 0..numbers.len() {
        let page = numbers[at];
        let part = copied_page(slots, numbers, values, page, 64);
        put_marked(words, page, part, target);
    }
}

// The value of a cell in a page that was copied.
#[inline(always)]
fn value_of(slots: &[usize], numbers: &[usize], values: &[i32], cell: usize) -> i32
    requires copied { IsCopied slots.now numbers.now (cell / 64) }
    requires long { length values.now ≡ 64 * length numbers.now }
    ensures { result ≡ value_at slots.now values.now cell }
{
    match slots.get(cell / 64) {
        Some(slot) => values[*slot * 64 + cell % 64],
        None => values[cell % 64],
    }
}

// Whether a page was copied.
fn is_copied(slots: &[usize], numbers: &[usize], page: usize) -> bool
    ensures { IsTrue result ↔ IsCopied slots.now numbers.now page }
{
    let slot = match slots.get(page) {
        Some(slot) => *slot,
        None => 0,
    };
    match numbers.get(slot) {
        Some(number) => *number == page,
        None => false,
    }
}

// Sees that a page has an entry.
fn grow_to(slots: &mut Vec<usize>, page: usize) -> Result<(), AllocError>
    requires { page < 2 ^ 58 }
    ensures same { (k : ℕ) → slot_at slots.new.items k ≡ slot_at slots.old.items k }
    ensures long { OnOk result (page < vec_len slots.new) }
{
    if slots.len() <= page {
        slots.resize(page + 1, 0)?;
    }
    Ok(())
}

// Puts the values of a page behind others; the last page is filled up.
fn add_page(values: &mut Vec<i32>, part: &[i32]) -> Result<(), AllocError>
    requires { length part.now ≤ 64 }
    ensures len { OnOk result (length values.new.items ≡ length values.old.items + 64) }
    ensures before { (i : ℕ) → i < length values.old.items →
        slice_index_or values.new.items i (pos 0) ≡ slice_index_or values.old.items i (pos 0) }
    ensures there { OnOk result
        ((i : ℕ) → i < length part.now →
        slice_index_or values.new.items (length values.old.items + i) (pos 0)
        ≡ slice_index_or part.now i (pos 0)) }
    ensures err { OnErr result (values.new.items ≡ values.old.items) }
{
    let start = values.len();
    values.reserve(64)?;
    if values.extend_from_slice(part).is_err() {
        unreachable!()
    }
    if values.resize(start + 64, 0).is_err() {
        unreachable!()
    }
    Ok(())
}

// Puts a page's number behind others, where there is room, and notes its place.
fn add_number(slots: &mut Vec<usize>, numbers: &mut Vec<usize>, page: usize)
    requires room { vec_len numbers.old < vec_capacity numbers.old }
    requires within { page < vec_len slots.old }
    ensures numbers { numbers.new.items ≡ numbers.old.items ++ page ∷ [] }
    ensures slots { slots.new.items ≡ slice_set slots.old.items page (length numbers.old.items) }
{
    slots[page] = numbers.len();
    if numbers.push(page).is_err() {
        unreachable!()
    }
}

// Puts the value of a cell in a page that was copied.
#[inline(always)]
fn put_value(slots: &[usize], numbers: &[usize], values: &mut Vec<i32>, cell: usize, value: i32)
    requires copied { IsCopied slots.now numbers.now (cell / 64) }
    requires long { length values.old.items ≡ 64 * length numbers.now }
    ensures { values.new.items
        ≡ slice_set values.old.items (64 * slot_at slots.now (cell / 64) + cell % 64) value }
{
    match slots.get(cell / 64) {
        Some(slot) => values[*slot * 64 + cell % 64] = value,
        None => values[cell % 64] = value,
    }
}

// How many of so many cells are in a page.
fn page_len(cells: usize, page: usize) -> usize
    requires { 64 * page ≤ cells }
    ensures { result ≡ min 64 (cells - 64 * page) }
{
    (cells - 64 * page).min(64)
}

// The values of a page, fewer in the last one.
fn page_of(base: &Whole, page: usize) -> &[i32]
    requires { 64 * page < length base.now }
    ensures len { length result.now ≡ min 64 (length base.now - 64 * page) }
    ensures is { (i : ℕ) → i < length result.now → slice_index_or result.now i (pos 0)
        ≡ slice_index_or base.now (64 * page + i) (pos 0) }
    ensures small { page < 2 ^ 58 }
{
    let cells = base.cells();
    let count = page_len(cells.len(), page);
    let from = 64 * page;
    &cells[from..from + count]
}

// Sees that a page is copied.
fn hold(
    base: &Whole,
    slots: &mut Vec<usize>,
    numbers: &mut Vec<usize>,
    values: &mut Vec<i32>,
    page: usize,
) -> Result<(), AllocError>
    requires within { 64 * page < length base.now }
    requires placed { ArePlaced slots.old.items numbers.old.items }
    requires long { length values.old.items ≡ 64 * length numbers.old.items }
    ensures placed { ArePlaced slots.new.items numbers.new.items }
    ensures copied { OnOk result (IsCopied slots.new.items numbers.new.items page) }
    ensures kept { (k : ℕ) → IsCopied slots.old.items numbers.old.items k →
        IsCopied slots.new.items numbers.new.items k }
    ensures same { (c : ℕ) → IsCopied slots.old.items numbers.old.items (c / 64) →
        value_at slots.new.items values.new.items c ≡ value_at slots.old.items values.old.items c }
    ensures based { (c : ℕ) → c < length base.now →
        IsCopied slots.new.items numbers.new.items (c / 64) →
        IsCopied slots.old.items numbers.old.items (c / 64)
        ⊎ (Some (value_at slots.new.items values.new.items c) ≡ slice_get base.now c) }
    ensures long { length values.new.items ≡ 64 * length numbers.new.items }
{
    if is_copied(slots, numbers, page) {
        return Ok(());
    }
    let part = page_of(base, page);
    grow_to(slots, page)?;
    numbers.reserve(1)?;
    add_page(values, part)?;
    add_number(slots, numbers, page);
    Ok(())
}

impl<'a> Store for Paged<'a> {
    ghost world = { world_seen };

    #[inline(always)]
    fn read(&mut self, cell: Cell) -> i32 {
        let is_own = self.written.has(cell);
        if is_own {
            return value_of(&self.slots, &self.numbers, &self.values, cell.0);
        }
        if self.exposed.has(cell) {
            return self.base.read(cell);
        }
        self.read_new(cell)
    }

    #[inline(always)]
    fn write(&mut self, cell: Cell, value: i32) -> Result<(), AllocError> {
        if self.written.has(cell) {
            put_value(&self.slots, &self.numbers, &mut self.values, cell.0, value);
            return Ok(());
        }
        self.write_new(cell, value)
    }
}
