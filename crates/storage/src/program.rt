//! Programs that keep the rules.

ghost use Rattle.std.specs.Prelude.{◌≡◌, IfSome, Ok, Some, length, option_map};
ghost use Rattle.meaning.specs.Rules.{checked};
ghost use Rattle.meaning.specs.Trees.{members_tree, nested};
ghost use Rattle.label_targets.specs.Kept.{IsKept};
ghost use Rattle.label_targets.specs.Output.{has_output_in};
ghost use Rattle.label_targets.specs.Places.{place_in};
ghost use Rattle.format_edit.specs.Formatted.{descriptors};
ghost use Rattle.storage.specs.Checked.{count_in, names_in, numbers_in};
ghost use Rattle.storage.specs.Agreed.{IsNumbered, IsReadFrom};
ghost use Rattle.storage.specs.Told.{AreStarts, format_at, text_format_at};

use crate::parts::Parts;
use crate::queries::{
    array_in, find_in, format_in, function_in, has_output_in_parts, named_in, place_in_parts,
    text_format_in,
};
use expressions::{Cells, ElementAddress, Function, Named, Numbering};
use format_edit::Format;
use meaning::syntax::Tree;
use std::marker::Model;

/// A program that keeps the rules. Contracts see its tree; what is kept beside it agrees with what
/// the statements say.
#[derive(Drop)]
pub struct CheckedProgram {
    parts: Parts,
}

impl Model for CheckedProgram {
    ghost use Rattle.meaning.specs.declared.syntax.Tree.{Tree};
    ghost use Rattle.meaning.specs.contracts.syntax.Tree as trees;

    ghost Value = { Tree };

    ghost coded = { trees.the_row.coded };

    ghost use Rattle.storage.specs.Agreed.{IsNumbered};

    ghost view = { λ p. p.parts.tree };

    ghost invariant = { λ p. IsNumbered p.parts };
}

impl CheckedProgram {
    /// The program of a tree that breaks no rule, with what is kept beside it.
    pub fn new(parts: Parts) -> CheckedProgram
        requires { IsNumbered parts }
        ensures { result ≡ parts.tree }
    {
        CheckedProgram { parts }
    }

    /// Its program unit, which breaks no rule.
    pub fn tree(&self) -> &Tree
        ensures tree { result.now ≡ self.now }
        ensures allowed { checked (nested self.now) ≡ Ok (nested self.now) }
        ensures kept { IsKept self.now (members_tree self.now.body.items) }
    {
        &self.parts.tree
    }

    /// The values that the cells start with.
    pub fn starts(&self) -> &[i32]
        ensures many { length result.now ≡ count_in self.now }
        ensures started { AreStarts self.now result.now }
    {
        &self.parts.starts
    }

    /// The format of the FORMAT statement that has the label which digits spell, leading zeros
    /// aside (ANSI X3.9-1978, 3.4 and 13.1.1); `None` where there is none.
    pub fn format(&self, digits: &[u8]) -> Option<&Format>
        ensures { option_map (λ f. descriptors f.now) result ≡ format_at self.now digits.now }
    {
        format_in(&self.parts, digits)
    }

    /// The place in its list to which a transfer to the label leads: that of its statement, or, of
    /// END IF, that behind the block IF (ANSI X3.9-1978, 11.1 to 11.9); `None` where no list has
    /// the label.
    pub fn place(&self, label: u32) -> Option<usize>
        ensures { result ≡ place_in self.now label }
    {
        place_in_parts(&self.parts, label)
    }

    /// Whether a DO statement with this initial line has a WRITE or PRINT statement in its range.
    pub fn has_output(&self, line: u32) -> bool
        ensures { result ≡ has_output_in self.now line }
    {
        has_output_in_parts(&self.parts, line)
    }

    /// The format in a character constant that is the format of a WRITE or PRINT statement of the
    /// program (ANSI X3.9-1978, 12.4); it was read once. `None` where no statement has that
    /// constant.
    pub fn text_format(&self, text: &[u8]) -> Option<&Format>
        ensures kept { option_map (λ f. descriptors f.now) result ≡
            text_format_at self.now text.now }
        ensures read { IfSome result (λ f. IsReadFrom text.now (Some f.now)) }
    {
        text_format_in(&self.parts, text)
    }
}

impl Numbering for CheckedProgram {
    ghost is_sound = { λ _. Unit {0} };

    ghost names = { names_in };

    ghost numbers = { numbers_in };

    ghost count = { count_in };

    fn functions(&self) -> usize {
        self.parts.function_count
    }

    fn find(&self, name: &[u8]) -> ElementAddress<'_> {
        find_in(&self.parts, name)
    }

    fn named(&self, name: &[u8]) -> Named<'_> {
        named_in(&self.parts, name)
    }

    fn array(&self, name: &[u8]) -> Option<Cells<'_>> {
        array_in(&self.parts, name)
    }

    fn function(&self, name: &[u8]) -> Option<Function<'_>> {
        function_in(&self.parts, name)
    }
}
