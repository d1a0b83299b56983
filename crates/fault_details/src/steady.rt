//! Whether the limits of a DO statement have the values still that they had when it was executed:
//! its range may have set what they are made of (ANSI X3.9-1978, 11.10.3).

use expressions::Numbering;
use meaning::syntax::{Arm, Expr, Exprs, Limits, ListItem, ListItems, Loop, Member, Shape};
use storage::CheckedProgram;

// Whether an item of an output list sets a variable, which an implied DO does.
#[cycle(listed)]
fn item_sets(item: &ListItem, name: &[u8]) -> bool {
    match item {
        ListItem::Value(_) => false,
        ListItem::Loop {
            items,
            variable,
            limits: _,
        } => variable.as_slice() == name || list_sets(items, name),
    }
}

// Whether one of the items of an output list does.
#[cycle(listed)]
fn list_sets(list: &ListItems, name: &[u8]) -> bool {
    match list {
        ListItems::Empty => false,
        ListItems::More(item, rest) => item_sets(item, name) || list_sets(rest, name),
    }
}

// Whether a statement that is no logical IF sets a variable, or an element of an array, of this
// name.
fn simple_sets(shape: &Shape, name: &[u8]) -> bool {
    match shape {
        Shape::Assignment {
            name: target,
            subscripts: _,
            value: _,
        } => target.as_slice() == name,
        Shape::Definition(target, _) => target.as_slice() == name,
        Shape::Do {
            label: _,
            comma: _,
            variable,
            limits: _,
        } => variable.as_slice() == name,
        Shape::Write { control: _, list } => list_sets(list, name),
        Shape::Print { format: _, list } => list_sets(list, name),
        _ => false,
    }
}

// The same of any statement.
fn sets(shape: &Shape, name: &[u8]) -> bool {
    match shape {
        Shape::LogicalIf(_, statement) => simple_sets(statement, name),
        _ => simple_sets(shape, name),
    }
}

// Whether a statement of a member does.
#[cycle(members)]
fn member_sets(member: &Member, name: &[u8]) -> bool {
    match member {
        Member::Plain(item) => sets(&item.form.shape, name),
        Member::Loop(repeated) => {
            sets(&repeated.head.form.shape, name) || some_sets(&repeated.range, name)
        }
        Member::Block(block) => arms_set(&block.arms, name),
    }
}

// Whether a statement of a list does.
#[cycle(members)]
fn some_sets(members: &[Member], name: &[u8]) -> bool {
    for member in members {
        if member_sets(member, name) {
            return true;
        }
    }
    false
}

// Whether a statement of arms does.
#[cycle(members)]
fn arms_set(arms: &[Arm], name: &[u8]) -> bool {
    for arm in arms {
        if some_sets(&arm.body, name) {
            return true;
        }
    }
    false
}

// Whether a DO statement or its range sets a variable, or an element of an array, of this name.
fn loop_sets(repeated: &Loop, name: &[u8]) -> bool {
    sets(&repeated.head.form.shape, name) || some_sets(&repeated.range, name)
}

// Whether an expression has the value that it had. Of a function that isn't known, since it may
// read any variable.
#[cycle(steady)]
fn is_steady(expression: &Expr, repeated: &Loop, program: &CheckedProgram) -> bool {
    match expression {
        Expr::Number(_) => true,
        Expr::Truth(_) => true,
        Expr::Name(name) => !loop_sets(repeated, name),
        Expr::Signed(_, operand) => is_steady(operand, repeated, program),
        Expr::Not(operand) => is_steady(operand, repeated, program),
        Expr::Paren(operand) => is_steady(operand, repeated, program),
        Expr::Binary(_, left, right) => {
            is_steady(left, repeated, program) && is_steady(right, repeated, program)
        }
        Expr::Element(name, subscripts) => {
            program.array(name).is_some()
                && !loop_sets(repeated, name)
                && are_steady(subscripts, repeated, program)
        }
        Expr::Call(_) => false,
    }
}

// Whether each of some expressions has.
#[cycle(steady)]
fn are_steady(expressions: &Exprs, repeated: &Loop, program: &CheckedProgram) -> bool {
    match expressions {
        Exprs::Empty => true,
        Exprs::More(first, rest) => {
            is_steady(first, repeated, program) && are_steady(rest, repeated, program)
        }
    }
}

// Whether the step has, if one is written.
fn is_step_steady(step: &Option<Expr>, repeated: &Loop, program: &CheckedProgram) -> bool {
    match step {
        Some(step) => is_steady(step, repeated, program),
        None => true,
    }
}

/// Whether the limits of a DO statement have the values that they had when it was executed. A DO
/// WHILE has none.
pub(crate) fn are_limits_steady(repeated: &Loop, program: &CheckedProgram) -> bool {
    match &*repeated.head.form.shape {
        Shape::Do {
            label: _,
            comma: _,
            variable: _,
            limits,
        } => {
            let Limits { first, last, step } = limits;
            is_steady(first, repeated, program)
                && is_steady(last, repeated, program)
                && is_step_steady(step, repeated, program)
        }
        _ => true,
    }
}
