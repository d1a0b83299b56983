//! Letters in IMPLICIT statements (ANSI X3.9-1978, 8.5).

ghost use Rattle.std.specs.Prelude.{◌≡◌, ◌||◌, ◌+◌, ◌-◌, ◌≤◌, ◌==◌, map, IfOk, OnOk, []};
ghost use Rattle.meaning.specs.NameRules.{is_reversed as is_reversed_by, last_letter};
ghost use Rattle.meaning.specs.Syntax.{implicit_tree, letters_tree, shape_tree};
ghost use Rattle.meaning.specs.Types.{implied_in, is_among};
ghost use Rattle.name_rules.specs.Disputed.{has_clashing_letters};
ghost use Rattle.name_rules.specs.Lettered.{AddsLetters, AreLetters, KnowsLetters, Takes};
ghost use Rattle.name_rules.specs.Lettered.{any_among, any_from, are_among, clash_by, clash_from};
ghost use Rattle.name_rules.specs.Lettered.{count_in_range, has, letters_at};
ghost use Rattle.name_rules.specs.Lettered.{letters_of as letters_of_all};

use meaning::syntax::{ImplicitPart, Item, Letters, Shape};
use rule_passes::Behind;
use std::alloc::{AllocError, Global};
use std::collections::BTreeSet;

/// The last of some letters.
fn last_of(letters: &Letters) -> u8
    ensures { result ≡ last_letter (letters_tree letters.now) }
{
    match letters.last {
        Some(last) => last,
        None => letters.first,
    }
}

/// Whether they are out of order.
fn is_reversed(letters: &Letters) -> bool
    ensures { result ≡ is_reversed_by (letters_tree letters.now) }
{
    last_of(letters) < letters.first
}

/// The code of the first.
fn first_of(letters: &Letters) -> u32
    ensures exact { result ≡ (letters_tree letters.now).first_letter }
    ensures small { result ≤ 255 }
{
    u32::from(letters.first)
}

/// How many they are.
fn count_of(letters: &Letters) -> u32
    ensures exact { result ≡ count_in_range (letters_tree letters.now) }
    ensures small { result ≤ 256 }
{
    (u32::from(last_of(letters)) + 1).saturating_sub(first_of(letters))
}

/// Whether one of so many codes was taken.
fn has_code(taken: &BTreeSet<u32>, code: u32, count: u32) -> bool
    requires { code + count ≤ 65536 }
    ensures { result ≡ any_from (has taken.now) code count }
{
    if count == 0 {
        return false;
    }
    taken.contains(&code) || has_code(taken, code + 1, count - 1)
}

/// Whether one of some letters was taken.
fn has_taken(taken: &BTreeSet<u32>, letters: &Letters) -> bool
    ensures { result ≡ any_among (has taken.now) (letters_tree letters.now) }
{
    has_code(taken, first_of(letters), count_of(letters))
}

/// Takes a code.
fn take_code(taken: &mut BTreeSet<u32>, code: u32) -> Result<(), AllocError>
    ensures { OnOk result (Takes taken.old taken.new (λ c. code == c)) }
{
    taken.insert(code)?;
    Ok(())
}

/// Takes so many codes.
fn take_codes(taken: &mut BTreeSet<u32>, code: u32, count: u32) -> Result<(), AllocError>
    requires { code + count ≤ 65536 }
    ensures { OnOk result (Takes taken.old taken.new (λ c. any_from (λ k. k == c) code count)) }
{
    if count == 0 {
        return Ok(());
    }
    take_code(taken, code)?;
    take_codes(taken, code + 1, count - 1)
}

/// Takes some letters.
fn take_letters(taken: &mut BTreeSet<u32>, letters: &Letters) -> Result<(), AllocError>
    ensures { OnOk result (Takes taken.old taken.new (λ c. is_among c (letters_tree letters.now))) }
{
    take_codes(taken, first_of(letters), count_of(letters))
}

/// Whether some letters are out of order, or one of them was taken, before the statement or in it.
fn is_clashing(taken: &BTreeSet<u32>, here: &BTreeSet<u32>, letters: &Letters) -> bool
    ensures { result ≡ clash_by (has taken.now) (has here.now) (letters_tree letters.now) }
{
    is_reversed(letters) || has_taken(taken, letters) || has_taken(here, letters)
}

/// Whether one of the letters of a statement clashes.
fn clashes(alloc: Global, taken: &BTreeSet<u32>, letters: &[&Letters]) -> Result<bool, AllocError>
    ensures { IfOk result (λ b. b ≡ clash_from (has taken.now) (map letters_at letters.now)) }
{
    let mut here = BTreeSet::new(alloc);
    for one in letters {
        if is_clashing(taken, &here, one) {
            return Ok(true);
        }
        take_letters(&mut here, one)?;
    }
    Ok(false)
}

/// Puts letters behind those that are there.
fn add_letters<'a>(found: &mut Vec<&'a Letters>, letters: &'a [Letters]) -> Result<(), AllocError>
    ensures { OnOk result (AddsLetters found.old found.new (map letters_tree letters.now)) }
{
    for one in letters {
        found.push(one)?;
    }
    Ok(())
}

/// The letters in the parts of an IMPLICIT statement.
fn letters_of_parts<'a>(
    alloc: Global,
    parts: &'a [ImplicitPart],
) -> Result<Vec<&'a Letters>, AllocError>
    ensures { IfOk result (AreLetters (letters_of_all (map implicit_tree parts.now))) }
{
    let mut found = Vec::new(alloc);
    for part in parts {
        add_letters(&mut found, &part.letters)?;
    }
    Ok(found)
}

/// The letters in a statement.
fn letters_in<'a>(alloc: Global, shape: &'a Shape) -> Result<Vec<&'a Letters>, AllocError>
    ensures { IfOk result (AreLetters (letters_of_all (implied_in (shape_tree shape.now)))) }
{
    match shape {
        Shape::Implicit(parts) => letters_of_parts(alloc, parts),
        _ => Ok(Vec::new(alloc)),
    }
}

/// Takes letters.
fn take_all(taken: &mut BTreeSet<u32>, letters: &[&Letters]) -> Result<(), AllocError>
    ensures { OnOk result (Takes taken.old taken.new (are_among (map letters_at letters.now))) }
{
    for one in letters {
        take_letters(taken, one)?;
    }
    Ok(())
}

/// The rule on letters in IMPLICIT statements.
pub struct Implied {
    alloc: Global,
    /// The codes of the letters that have come.
    taken: BTreeSet<u32>,
}

impl Drop for Implied {
    fn drop(self) {
        let Implied { alloc: _, taken } = self;
        drop(taken);
    }
}

impl Implied {
    /// The rule, where no statement was passed yet.
    pub fn new(alloc: Global) -> Implied
        ensures { KnowsLetters result.taken [] }
    {
        Implied {
            alloc,
            taken: BTreeSet::new(alloc),
        }
    }
}

impl Behind for Implied {
    ghost breaks = { λ _ before x. has_clashing_letters before x };

    ghost knows = { λ s before. KnowsLetters s.taken before };

    fn is_broken(&self, item: &Item) -> Result<bool, AllocError> {
        let letters = letters_in(self.alloc, &*item.form.shape)?;
        clashes(self.alloc, &self.taken, &letters)
    }

    fn pass(&mut self, item: &Item) -> Result<(), AllocError> {
        let letters = letters_in(self.alloc, &*item.form.shape)?;
        take_all(&mut self.taken, &letters)
    }
}
