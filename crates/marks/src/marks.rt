//! A set of cells.

ghost use Rattle.std.specs.Prelude.{true, false, ◌≡◌, ◌≢◌, ◌↔◌, ◌==◌, ◌||◌, ◌<◌, ◌≤◌, ◌+◌, ◌*◌};
ghost use Rattle.std.specs.Prelude.{◌/◌, length, min, ◌^◌, ℕ, IsTrue, OnOk, OnErr, vec_len};
ghost use Rattle.std.specs.Ordering.{nat_cmp};
ghost use Rattle.std.specs.FinSet as set;
ghost use Rattle.std.specs.Coded.{coded_ℕ};
ghost use Rattle.std.specs.Int.{bit_at};
ghost use Rattle.marks.specs.Cells.{Share, is_within};
ghost use Rattle.marks.specs.Words.{AreBehind, AreLeft, IsSummed, MeetIn, MeetTold, SomeMeet};
ghost use Rattle.marks.specs.Words.{tells, set_of, word_at};

use meaning::cell::Cell;
use std::alloc::{AllocError, Global};
use std::marker::Model;
use std::simd::prelude::*;

/// A set of cells. Contracts see the set of their numbers, and not how it is kept.
#[derive(Drop)]
pub struct Marks {
    words: Vec<u64>,
    // A bit for each eight words, which is there where one of them isn't 0.
    groups: Vec<u64>,
}

impl Model for Marks {
    ghost Value = { set.FinSet nat_cmp };

    ghost coded = { set.code coded_ℕ };

    ghost view = { λ m. set_of m.words.items };

    ghost invariant = { λ m. IsSummed m.words.items m.groups.items };
}

/// Whether a mask word has a bit.
pub fn has_bit(word: u64, bit: usize) -> bool
    requires { bit < 64 }
    ensures { result ≡ (bit_at word bit == 1) }
{
    word >> bit & 1 == 1
}

/// A mask word with a bit.
pub fn with_bit(word: u64, bit: usize) -> u64
    requires { bit < 64 }
    ensures has { bit_at result bit ≡ 1 }
    ensures others { (i : ℕ) → i ≢ bit → bit_at result i ≡ bit_at word i }
{
    word | (1 << bit)
}

/// The lowest bit of a mask word that isn't 0.
pub fn lowest_bit(word: u64) -> usize
    requires { word ≢ 0 }
    ensures small { result < 64 }
    ensures has { bit_at word result ≡ 1 }
    ensures lowest { (i : ℕ) → i < result → bit_at word i ≡ 0 }
{
    word.trailing_zeros() as usize
}

/// A mask word without a bit that it has.
pub fn without_bit(word: u64, bit: usize) -> u64
    requires small { bit < 64 }
    requires has { bit_at word bit ≡ 1 }
    ensures gone { bit_at result bit ≡ 0 }
    ensures others { (i : ℕ) → i < 64 → i ≢ bit → bit_at result i ≡ bit_at word i }
    ensures less { result < word }
{
    word & !(1 << bit)
}

// Whether words tell a cell.
fn is_told(words: &[u64], cell: usize) -> bool
    ensures { result ≡ tells words.now cell }
{
    match words.get(cell / 64) {
        Some(word) => has_bit(*word, cell % 64),
        None => false,
    }
}

// Sees that there is a word at a place.
fn grow_to(words: &mut Vec<u64>, at: usize) -> Result<(), AllocError>
    requires { at < 2 ^ 58 }
    ensures same { (q : ℕ) → tells words.new.items q ≡ tells words.old.items q }
    ensures long { OnOk result (at < vec_len words.new) }
    ensures longer { vec_len words.old ≤ vec_len words.new }
    ensures most { (n : ℕ) → at < n → vec_len words.old ≤ n → vec_len words.new ≤ n }
{
    if words.len() <= at {
        words.resize(at + 1, 0)?;
    }
    Ok(())
}

// Puts a cell in.
fn put(words: &mut Vec<u64>, cell: usize)
    requires { cell / 64 < vec_len words.old }
    ensures told { (q : ℕ) → tells words.new.items q ≡ (q == cell || tells words.old.items q) }
    ensures len { vec_len words.new ≡ vec_len words.old }
{
    let at = cell / 64;
    words[at] = with_bit(words[at], cell % 64);
}

// Whether eight words from a place on share a bit.
fn meet_eight(a: &[u64], b: &[u64], at: usize) -> bool
    requires a { at + 8 ≤ length a.now }
    requires b { at + 8 ≤ length b.now }
    ensures { IsTrue result ↔ MeetIn a.now b.now at (at + 8) }
{
    (u64x8::from_slice(&a[at..]) & u64x8::from_slice(&b[at..])).reduce_or() != 0
}

// Whether two words share a bit.
fn meet_one(a: &[u64], b: &[u64], at: usize) -> bool
    requires a { at < length a.now }
    requires b { at < length b.now }
    ensures { IsTrue result ↔ MeetIn a.now b.now at (at + 1) }
{
    a[at] & b[at] != 0
}

// Whether words from a place up to another share a bit.
fn meet_some(a: &[u64], b: &[u64], from: usize, to: usize) -> bool
    requires a { to ≤ length a.now }
    requires b { to ≤ length b.now }
    ensures { IsTrue result ↔ MeetIn a.now b.now from to }
{
    for at in from..to {
        if meet_one(a, b, at) {
            return true;
        }
    }
    false
}

// Whether the eight words of a group share a bit; past its last word a set has none.
fn meet_group(a: &[u64], b: &[u64], group: usize) -> bool
    requires { group < 2 ^ 58 }
    ensures { IsTrue result ↔ MeetIn a.now b.now (8 * group) (8 * group + 8) }
{
    let from = 8 * group;
    let to = a.len().min(b.len());
    if from + 8 <= to {
        meet_eight(a, b, from)
    } else {
        meet_some(a, b, from, to)
    }
}

// Whether one of 64 groups that a mask has, from the first one on, shares a bit.
fn meet_groups(a: &[u64], b: &[u64], mask: u64, first: usize) -> bool
    requires { first + 64 ≤ 2 ^ 58 }
    ensures { IsTrue result ↔ MeetTold a.now b.now mask first 64 }
{
    let mut left = mask;
    'bits: while left != 0 {
        let bit = lowest_bit(left);
        if meet_group(a, b, first + bit) {
            return true;
        }
        left = without_bit(left, bit);
    }
    false
}

// Whether words share a bit in a group that two masks both have.
fn meet_by(a: &[u64], b: &[u64], mine: &[u64], others: &[u64]) -> bool
    requires { length mine.now ≤ 2 ^ 50 }
    ensures met { IsTrue result ↔ SomeMeet a.now b.now mine.now others.now }
    ensures words { (k : ℕ) → word_at a.now k < 2 ^ 64 }
{
    for at in 0..mine.len().min(others.len()) {
        let mask = mine[at] & others[at];
        if mask != 0 && meet_groups(a, b, mask, 64 * at) {
            return true;
        }
    }
    false
}

// Makes the eight words of a group 0; past its last word a set has none.
fn clear_group(words: &mut Vec<u64>, group: usize)
    requires { group < 2 ^ 58 }
    ensures len { length words.new.items ≡ length words.old.items }
    ensures none { (k : ℕ) → k / 8 ≡ group → word_at words.new.items k ≡ 0 }
    ensures others { (k : ℕ) → k / 8 ≢ group →
        word_at words.new.items k ≡ word_at words.old.items k }
{
    let to = words.len().min(8 * group + 8);
    for at in 8 * group..to {
        words[at] = 0;
    }
}

// Makes the words of those of 64 groups 0 that a mask has, from the first one on.
fn clear_groups(words: &mut Vec<u64>, mask: u64, first: usize)
    requires { first + 64 ≤ 2 ^ 58 }
    ensures len { length words.new.items ≡ length words.old.items }
    ensures left { AreLeft words.old.items words.new.items mask first 64 }
{
    let mut left = mask;
    'bits: while left != 0 {
        let bit = lowest_bit(left);
        clear_group(words, first + bit);
        left = without_bit(left, bit);
    }
}

// Makes the words of the groups 0 that masks have.
fn clear_by(words: &mut Vec<u64>, groups: &[u64])
    requires { length groups.now ≤ 2 ^ 50 }
    ensures len { length words.new.items ≡ length words.old.items }
    ensures left { AreBehind words.old.items words.new.items groups.now (length groups.now) }
{
    for at in 0..groups.len() {
        clear_groups(words, groups[at], 64 * at);
    }
}

// Gives words from a place up to another all their bits.
fn fill_words(words: &mut [u64], from: usize, to: usize)
    requires order { from ≤ to }
    requires within { to ≤ length words.old }
    ensures told { (q : ℕ) → tells words.new q
        ≡ (is_within (64 * from) (64 * to) q || tells words.old q) }
    ensures len { length words.new ≡ length words.old }
{
    for at in from..to {
        words[at] = u64::MAX;
    }
}

// The same of words that can grow.
fn fill_in(words: &mut Vec<u64>, from: usize, to: usize)
    requires order { from ≤ to }
    requires within { to ≤ vec_len words.old }
    ensures told { (q : ℕ) → tells words.new.items q
        ≡ (is_within (64 * from) (64 * to) q || tells words.old.items q) }
    ensures len { vec_len words.new ≡ vec_len words.old }
{
    fill_words(words, from, to);
}

// Puts groups from one on up to another in.
fn raise_groups(groups: &mut Vec<u64>, from: usize, to: usize)
    requires order { from ≤ to }
    requires within { to ≤ 64 * vec_len groups.old }
    ensures told { (q : ℕ) → tells groups.new.items q
        ≡ (is_within from to q || tells groups.old.items q) }
    ensures len { vec_len groups.new ≡ vec_len groups.old }
{
    for group in from..to {
        put(groups, group);
    }
}

impl Marks {
    /// No cells. It takes no memory.
    pub fn new(alloc: Global) -> Marks
        ensures { result ≡ set.empty }
    {
        Marks {
            words: Vec::new(alloc),
            groups: Vec::new(alloc),
        }
    }

    /// Adds a cell. The `AllocError` comes where memory was refused, and the set stays as it was.
    #[inline(always)]
    pub fn set(&mut self, cell: Cell) -> Result<(), AllocError>
        ensures ok { OnOk result (self.new ≡ set.insert self.old cell.0) }
        ensures err { OnErr result (self.new ≡ self.old) }
    {
        if is_told(&self.words, cell.0) {
            return Ok(());
        }
        self.put_in(cell)
    }

    /// Adds a cell where its word is there and its group is raised, and tells whether it did; else
    /// the set stays as it was. It takes no memory.
    #[inline(always)]
    pub fn set_at_hand(&mut self, cell: Cell) -> bool
        ensures yes { result ≡ true → self.new ≡ set.insert self.old cell.0 }
        ensures no { result ≡ false → self.new ≡ self.old }
    {
        if cell.0 / 64 < self.words.len() && is_told(&self.groups, cell.0 / 512) {
            put(&mut self.words, cell.0);
            return true;
        }
        false
    }

    // Adds a cell, which may take memory. It stands by itself, so that a cell that is in the set is
    // passed over quickly.
    #[inline(never)]
    fn put_in(&mut self, cell: Cell) -> Result<(), AllocError>
        ensures ok { OnOk result (self.new ≡ set.insert self.old cell.0) }
        ensures err { OnErr result (self.new ≡ self.old) }
    {
        if self.set_at_hand(cell) {
            return Ok(());
        }
        self.raise(cell)
    }

    // The same of one whose word isn't there, or whose group isn't raised.
    #[cold]
    #[inline(never)]
    fn raise(&mut self, cell: Cell) -> Result<(), AllocError>
        ensures ok { OnOk result (self.new ≡ set.insert self.old cell.0) }
        ensures err { OnErr result (self.new ≡ self.old) }
    {
        grow_to(&mut self.words, cell.0 / 64)?;
        grow_to(&mut self.groups, cell.0 / 512 / 64)?;
        put(&mut self.groups, cell.0 / 512);
        put(&mut self.words, cell.0);
        Ok(())
    }

    /// Adds the cells of whole groups, each of which has 512 cells: those of the groups from one on
    /// up to another. The `AllocError` comes where memory was refused, and the set stays as it was.
    /// Its time is that of the groups.
    pub fn set_groups(&mut self, from: usize, to: usize) -> Result<(), AllocError>
        requires { to ≤ 2 ^ 55 }
        ensures ok { OnOk result ((c : ℕ) → set.contains self.new c
            ≡ (is_within (512 * from) (512 * to) c || set.contains self.old c)) }
        ensures err { OnErr result (self.new ≡ self.old) }
    {
        if from >= to {
            return Ok(());
        }
        grow_to(&mut self.words, 8 * to - 1)?;
        grow_to(&mut self.groups, (to - 1) / 64)?;
        raise_groups(&mut self.groups, from, to);
        fill_in(&mut self.words, 8 * from, 8 * to);
        Ok(())
    }

    /// Takes all cells out. It takes no memory, and its time is that of the groups that are set,
    /// not of the cells.
    pub fn clear(&mut self)
        ensures { self.new ≡ set.empty }
    {
        clear_by(&mut self.words, &self.groups);
        self.groups.fill(0);
    }

    /// Whether a cell is in the set.
    pub fn has(&self, cell: Cell) -> bool
        ensures { result ≡ set.contains self.now cell.0 }
    {
        is_told(&self.words, cell.0)
    }

    /// Whether a cell is in both sets. It takes no memory.
    pub fn meets(&self, other: &Marks) -> bool
        ensures { IsTrue result ↔ Share self.now other.now }
    {
        meet_by(&self.words, &other.words, &self.groups, &other.groups)
    }

    /// The mask words: bit b of word k tells whether cell 64*k+b is in the set; none past the last
    /// word is. It takes no memory.
    pub fn words(&self) -> &[u64]
        ensures told { (c : ℕ) → set.contains self.now c ≡ tells result.now c }
        ensures few { length result.now ≤ 2 ^ 58 }
    {
        &self.words
    }
}
