//! What a statement does to the lists of a program unit.

ghost use Rattle.std.specs.Prelude.{◌≡◌, option_map};
ghost use Rattle.meaning.specs.Nesting.{effect_of, named_label, is_else, is_end, is_opening};
ghost use Rattle.meaning.specs.Nesting.{may_end, named};
ghost use Rattle.meaning.specs.Trees.{item_tree};
ghost use Rattle.nesting.specs.Open.{effect};

use meaning::number::number;
use meaning::syntax::{Item, Shape};

/// What a statement does to the lists of a program unit.
#[derive(Clone, Copy)]
pub enum Effect {
    /// DO and DO WHILE open a range, and name its label, which is 4294967296 where it is more, or
    /// none.
    OpensRange(Option<u64>),
    /// END DO closes a range.
    ClosesRange,
    /// IF THEN opens a block IF.
    OpensBlock,
    /// ELSE IF and ELSE open the next arm of a block IF.
    OpensArm,
    /// END IF closes a block IF.
    ClosesBlock,
    /// END closes the program unit.
    ClosesUnit,
    /// Any other statement stands in a list, and may be the last one of a range or not (ANSI
    /// X3.9-1978, 11.10).
    Stands(bool),
}

/// The label that a DO or DO WHILE statement names.
fn named_by(label: &Option<Vec<u8>>) -> Option<u64>
    ensures { result ≡ named_label (option_map (λ l. l.items) label.now) }
{
    match label {
        Some(digits) => Some(number(digits)),
        None => None,
    }
}

/// What the statement does.
pub fn effect_of_item(item: &Item) -> Effect
    ensures { effect result ≡ effect_of (item_tree item.now).shape }
{
    match &*item.form.shape {
        Shape::Do { label, .. } => Effect::OpensRange(named_by(label)),
        Shape::DoWhile { label, .. } => Effect::OpensRange(named_by(label)),
        Shape::EndDo => Effect::ClosesRange,
        Shape::IfThen(_) => Effect::OpensBlock,
        Shape::ElseIf(_) => Effect::OpensArm,
        Shape::Else => Effect::OpensArm,
        Shape::EndIf => Effect::ClosesBlock,
        Shape::End => Effect::ClosesUnit,
        Shape::Assignment { .. } => Effect::Stands(true),
        Shape::Definition(_, _) => Effect::Stands(true),
        Shape::Write { .. } => Effect::Stands(true),
        Shape::Print { .. } => Effect::Stands(true),
        Shape::ComputedGoTo { .. } => Effect::Stands(true),
        Shape::LogicalIf(_, _) => Effect::Stands(true),
        Shape::Continue => Effect::Stands(true),
        _ => Effect::Stands(false),
    }
}

/// Whether the statement is ELSE.
pub fn is_else_item(item: &Item) -> bool
    ensures { result ≡ is_else (item_tree item.now).shape }
{
    match &*item.form.shape {
        Shape::Else => true,
        _ => false,
    }
}

/// The label of the range that is opened.
pub fn label_named(done: Effect) -> Option<u64>
    ensures { result ≡ named (effect done) }
{
    match done {
        Effect::OpensRange(label) => label,
        Effect::ClosesRange
        | Effect::OpensBlock
        | Effect::OpensArm
        | Effect::ClosesBlock
        | Effect::ClosesUnit
        | Effect::Stands(_) => None,
    }
}

/// Whether the statement may be the last one of a range (ANSI X3.9-1978, 11.10).
pub fn may_end_range(done: Effect) -> bool
    ensures { result ≡ may_end (effect done) }
{
    match done {
        Effect::Stands(may) => may,
        Effect::ClosesRange => true,
        Effect::OpensRange(_)
        | Effect::OpensBlock
        | Effect::OpensArm
        | Effect::ClosesBlock
        | Effect::ClosesUnit => false,
    }
}

/// Whether the program unit is closed.
pub fn closes_unit(done: Effect) -> bool
    ensures { result ≡ is_end (effect done) }
{
    match done {
        Effect::ClosesUnit => true,
        Effect::OpensRange(_)
        | Effect::ClosesRange
        | Effect::OpensBlock
        | Effect::OpensArm
        | Effect::ClosesBlock
        | Effect::Stands(_) => false,
    }
}

/// Whether a range or a block IF is opened.
pub fn opens_level(done: Effect) -> bool
    ensures { result ≡ is_opening (effect done) }
{
    match done {
        Effect::OpensRange(_) | Effect::OpensBlock => true,
        Effect::ClosesRange
        | Effect::OpensArm
        | Effect::ClosesBlock
        | Effect::ClosesUnit
        | Effect::Stands(_) => false,
    }
}
