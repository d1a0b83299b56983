//! What forms say, of texts that could be taken for others, and texts that have none.

use lexer::bare;
use meaning::refusal::{Refusal, Rule};
use meaning::statement::Statement;
use meaning::syntax::{Expr, Exprs, Form, Limits, Operator, Shape};
use parser::form;
use std::alloc::Global;
use std::process::Abort;

/// A name or a number.
#[derive(Clone, Copy, Debug)]
enum Leaf {
    Name(&'static str),
    Number(&'static str),
}

use Leaf::{Name, Number};

/// An assignment: the name, its subscript if there is one, and the value.
#[derive(Clone, Copy, Debug)]
struct Assigned {
    name: &'static str,
    subscript: Option<Leaf>,
    value: Leaf,
}

/// What a form is to say.
#[derive(Clone, Copy, Debug)]
enum Wanted {
    Assigns(Assigned),
    /// An arithmetic IF: its value, and its labels.
    Branches(Leaf, &'static str, &'static str, &'static str),
    /// A logical IF where two are equal, over an assignment.
    AssignsWhereEqual(Leaf, Leaf, Assigned),
    /// A DO statement with a comma behind its label: the label, the variable, and the first and the
    /// last value.
    Repeats(&'static str, &'static str, Leaf, Leaf),
}

use Wanted::{Assigns, AssignsWhereEqual, Branches, Repeats};

/// Columns 7 to 72 of statements, and what their forms say.
const FORMS: &[(&str, Wanted)] = &[
    ("IF (I) 10,20,30", Branches(Name("I"), "10", "20", "30")),
    (
        "IF(I)=3",
        Assigns(Assigned {
            name: "IF",
            subscript: Some(Name("I")),
            value: Number("3"),
        }),
    ),
    (
        "IF(I.EQ.1)IF(2)=3",
        AssignsWhereEqual(
            Name("I"),
            Number("1"),
            Assigned {
                name: "IF",
                subscript: Some(Number("2")),
                value: Number("3"),
            },
        ),
    ),
    (
        "DO10I=1",
        Assigns(Assigned {
            name: "DO10I",
            subscript: None,
            value: Number("1"),
        }),
    ),
    ("DO 10,I=1,5", Repeats("10", "I", Number("1"), Number("5"))),
];

/// Whether an expression is a name or a number.
fn is_leaf(expression: &Expr, wanted: Leaf) -> bool {
    match (expression, wanted) {
        (Expr::Name(name), Name(text)) => name.as_slice() == text.as_bytes(),
        (Expr::Number(digits), Number(text)) => digits.as_slice() == text.as_bytes(),
        _ => false,
    }
}

/// Whether there is this subscript alone, or none.
fn is_subscript(subscripts: &Exprs, wanted: Option<Leaf>) -> bool {
    match (subscripts, wanted) {
        (Exprs::Empty, None) => true,
        (Exprs::More(first, rest), Some(leaf)) => {
            is_leaf(first, leaf) && matches!(&**rest, Exprs::Empty)
        }
        _ => false,
    }
}

/// Whether it is this assignment.
fn is_assigned(shape: &Shape, wanted: Assigned) -> bool {
    match shape {
        Shape::Assignment {
            name,
            subscripts,
            value,
        } => {
            name.as_slice() == wanted.name.as_bytes()
                && is_subscript(subscripts, wanted.subscript)
                && is_leaf(value, wanted.value)
        }
        _ => false,
    }
}

/// Whether it is an arithmetic IF of this value and these labels.
fn is_branch(shape: &Shape, wanted: Leaf, labels: (&str, &str, &str)) -> bool {
    match shape {
        Shape::ArithmeticIf {
            value,
            negative,
            zero,
            positive,
        } => {
            is_leaf(value, wanted)
                && negative.as_slice() == labels.0.as_bytes()
                && zero.as_slice() == labels.1.as_bytes()
                && positive.as_slice() == labels.2.as_bytes()
        }
        _ => false,
    }
}

/// Whether an expression says that two are equal.
fn is_equality(expression: &Expr, one: Leaf, other: Leaf) -> bool {
    match expression {
        Expr::Binary(Operator::Equal, left, right) => is_leaf(left, one) && is_leaf(right, other),
        _ => false,
    }
}

/// Whether it is a logical IF where two are equal, over this assignment.
fn is_assigned_where_equal(shape: &Shape, one: Leaf, other: Leaf, wanted: Assigned) -> bool {
    match shape {
        Shape::LogicalIf(condition, under) => {
            is_equality(condition, one, other) && is_assigned(&**under, wanted)
        }
        _ => false,
    }
}

/// Whether limits go from one to another, and no step is written.
fn are_limits(limits: &Limits, one: Leaf, other: Leaf) -> bool {
    is_leaf(&limits.first, one) && is_leaf(&limits.last, other) && limits.step.is_none()
}

/// Whether it is a DO statement with a comma behind its label.
fn is_repeated(shape: &Shape, digits: &str, name: &str, one: Leaf, other: Leaf) -> bool {
    match shape {
        Shape::Do {
            label: Some(label),
            comma: true,
            variable,
            limits,
        } => {
            label.as_slice() == digits.as_bytes()
                && variable.as_slice() == name.as_bytes()
                && are_limits(limits, one, other)
        }
        _ => false,
    }
}

/// Whether a form says what is wanted.
fn says(shape: &Shape, wanted: Wanted) -> bool {
    match wanted {
        Assigns(assigned) => is_assigned(shape, assigned),
        Branches(value, negative, zero, positive) => {
            is_branch(shape, value, (negative, zero, positive))
        }
        AssignsWhereEqual(one, other, assigned) => {
            is_assigned_where_equal(shape, one, other, assigned)
        }
        Repeats(label, variable, one, other) => is_repeated(shape, label, variable, one, other),
    }
}

/// The form of a statement at line 3.
fn form_of(rt: &impl Abort, alloc: Global, columns: &[u8]) -> Result<Form, Refusal> {
    assert!(rt; columns.len() <= 1320, "the text is too long");
    let statement = Statement {
        line: 3,
        label: None,
        text: Vec::from_slice(alloc, columns).expect(rt, "memory"),
    };
    let text = bare(alloc, &statement).expect(rt, "memory");
    form(alloc, &text)
}

#[test]
fn forms(rt: HostRuntime) {
    for &(columns, wanted) in FORMS {
        match form_of(&rt, rt.alloc(), columns.as_bytes()) {
            Ok(read) => {
                assert!(rt; says(&*read.shape, wanted), "{columns}");
                drop(read);
            }
            Err(refusal) => panic!(rt; "{columns}: {refusal:?}"),
        }
    }
}

/// Columns 7 to 72 of statements that have no form, and the rule that they break.
const FORMLESS: &[(&str, Rule)] = &[
    ("DO 10 I=1.5", Rule::G1),
    ("A=2**-3", Rule::G1),
    ("FORMAT(I5", Rule::G1),
    ("CALL F(1)", Rule::G2),
];

#[test]
fn formless(rt: HostRuntime) {
    for &(columns, rule) in FORMLESS {
        match form_of(&rt, rt.alloc(), columns.as_bytes()) {
            Ok(read) => {
                drop(read);
                panic!(rt; "{columns}");
            }
            Err(refusal) => {
                assert!(rt; refusal == (Refusal::Rule { rule, line: 3 }), "{columns}");
            }
        }
    }
}
