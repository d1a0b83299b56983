//! Programs that keep the rules, with what their statements need.

ghost use Rattle.std.specs.Prelude.{◌≡◌, ◌<◌, [], IfSome, Ok, Some, length, option_map};
ghost use Rattle.meaning.specs.Answers.{message_at};
ghost use Rattle.meaning.specs.Rules.{checked};
ghost use Rattle.meaning.specs.Trees.{Members, members_tree, nested};
ghost use Rattle.label_targets.specs.Kept.{IsKept};
ghost use Rattle.label_targets.specs.Lists.{IsListIn};
ghost use Rattle.label_targets.specs.Output.{has_output_in};
ghost use Rattle.label_targets.specs.Places.{place_in};
ghost use Rattle.format_edit.specs.Formatted.{descriptors};
ghost use Rattle.storage.specs.Agreed.{IsReadFrom};
ghost use Rattle.storage.specs.Told.{AreStarts, format_at, text_format_at};
ghost use Rattle.storage.specs.Checked.{count_in, items_in, names_in, numbers_in};
ghost use Rattle.program.specs.Kept.{AreFunctions, AreKept, HasNoOther};
ghost use Rattle.program.specs.Listed.{HasOrders};
ghost use Rattle.program.specs.Prepared.{AreOrdersAt};
ghost use Rattle.program.specs.Programs.{IsActionAt};

use crate::Action;
use crate::actions::Actions;
use crate::lists::Lists;
use expressions::Numbering;
use format_edit::Format;
use meaning::ending::StopMessage;
use meaning::syntax::Tree;
use postfix::{Code, Orders};
use std::alloc::Global;
use std::marker::Model;

/// A program that keeps the rules, what each statement needs, the codes of its statement functions,
/// and the orders of its lists.
#[derive(Drop)]
pub(crate) struct Parts {
    pub unit: storage::CheckedProgram,
    pub actions: Actions,
    pub functions: Vec<Code>,
    pub lists: Lists,
}

/// A program that keeps the rules. Contracts see its tree; what its statements need agrees with
/// what they say.
#[derive(Drop)]
pub struct Program {
    parts: Parts,
}

impl Model for Program {
    ghost use Rattle.meaning.specs.declared.syntax.Tree.{Tree};
    ghost use Rattle.meaning.specs.contracts.syntax.Tree as trees;

    ghost Value = { Tree };

    ghost coded = { trees.the_row.coded };

    ghost use Rattle.program.specs.Programs.{IsCoded};

    ghost view = { λ p. p.parts.unit };

    ghost invariant = { λ p. IsCoded p.parts };
}

impl Program {
    /// The program with what its statements need, with the codes of its statement functions, and
    /// with the orders of its lists.
    pub fn new(
        unit: storage::CheckedProgram,
        actions: Actions,
        functions: Vec<Code>,
        lists: Lists,
    ) -> Program
        requires actions { AreKept unit actions (items_in unit) }
        requires others { HasNoOther actions (items_in unit) }
        requires functions { AreFunctions unit functions.items }
        requires lists { (ms : Members) → IsListIn unit ms → HasOrders unit lists ms }
        ensures { result ≡ unit }
    {
        Program {
            parts: Parts {
                unit,
                actions,
                functions,
                lists,
            },
        }
    }

    /// Its program unit, which breaks no rule.
    pub fn tree(&self) -> &Tree
        ensures tree { result.now ≡ self.now }
        ensures allowed { checked (nested self.now) ≡ Ok (nested self.now) }
        ensures kept { IsKept self.now (members_tree self.now.body.items) }
    {
        self.parts.unit.tree()
    }

    /// What its names stand for, and their cells.
    pub fn unit(&self) -> &storage::CheckedProgram
        ensures { result.now ≡ self.now }
    {
        &self.parts.unit
    }

    /// The values that the cells start with.
    pub fn starts(&self) -> &[i32]
        ensures many { length result.now ≡ count_in self.now }
        ensures started { AreStarts self.now result.now }
    {
        self.parts.unit.starts()
    }

    /// The format of the FORMAT statement that has the label which digits spell, as
    /// `storage::CheckedProgram` has it.
    pub fn format(&self, digits: &[u8]) -> Option<&Format>
        ensures { option_map (λ f. descriptors f.now) result ≡ format_at self.now digits.now }
    {
        self.parts.unit.format(digits)
    }

    /// The format in a character constant that is the format of a statement, as
    /// `storage::CheckedProgram` has it.
    pub fn text_format(&self, text: &[u8]) -> Option<&Format>
        ensures kept { option_map (λ f. descriptors f.now) result ≡
            text_format_at self.now text.now }
        ensures read { IfSome result (λ f. IsReadFrom text.now (Some f.now)) }
    {
        self.parts.unit.text_format(text)
    }

    /// The place in its list to which a transfer to the label leads, as `storage::CheckedProgram`
    /// has it.
    pub fn place(&self, label: u32) -> Option<usize>
        ensures { result ≡ place_in self.now label }
    {
        self.parts.unit.place(label)
    }

    /// Whether a DO statement with this initial line has a WRITE or PRINT statement in its range.
    pub fn has_output(&self, line: u32) -> bool
        ensures { result ≡ has_output_in self.now line }
    {
        self.parts.unit.has_output(line)
    }

    /// The cell of a variable; `None` where the name without subscripts has none.
    pub fn cell(&self, name: &[u8]) -> Option<usize>
        ensures is { result ≡ numbers_in self.now name.now [] }
        ensures small { IfSome result (λ c. c < count_in self.now) }
    {
        match self.parts.unit.find(name).cell() {
            Some(cell) => Some(cell.0),
            None => None,
        }
    }

    /// What the statement with this initial line needs.
    #[inline(always)]
    pub fn action(&self, line: u32) -> Option<&Action>
        ensures { IsActionAt self.now line result }
    {
        self.parts.actions.at(line)
    }

    /// The orders of the list whose first statement has this initial line.
    #[inline(always)]
    pub fn orders(&self, line: u32) -> Option<&Orders>
        ensures { AreOrdersAt self.now line result }
    {
        self.parts.lists.at(line)
    }

    /// How many cells its variables and arrays have.
    #[inline(always)]
    pub fn cells(&self) -> usize
        ensures { result ≡ count_in self.now }
    {
        self.parts.unit.starts().len()
    }

    /// How many statement functions it has.
    #[inline(always)]
    pub fn callable(&self) -> usize
        ensures { result ≡ length (names_in self.now).definitions }
    {
        self.parts.unit.functions()
    }

    /// The codes of its statement functions, first to last.
    #[inline(always)]
    pub fn functions(&self) -> &[Code]
        ensures { AreFunctions self.now result.now }
    {
        &self.parts.functions
    }

    /// What the STOP statement with this initial line tells, also one under a logical IF (ANSI
    /// X3.9-1978, 11.12). It is moved out of the program, which is used up: no memory is allocated.
    pub fn into_message(self, alloc: Global, line: u32) -> StopMessage
        ensures { result ≡ message_at (items_in self) line }
    {
        let Program { parts } = self;
        let Parts {
            unit,
            mut actions,
            functions,
            lists,
        } = parts;
        let message = actions.take_message(alloc, line);
        drop(unit);
        drop(actions);
        drop(functions);
        drop(lists);
        message
    }
}
