//! What a fault was about.

ghost use Rattle.std.specs.Prelude.{◌≤◌};

use expressions::{Arguments, Dimension, Intrinsic};
use meaning::ending::{FaultKind, Value};
use meaning::syntax::{Operator, Sign};

/// The values of an element's first subscripts, in their order. An array has seven dimensions at
/// most (ANSI X3.9-1978, 5.1.1), so there are no more than seven.
#[derive(Clone, Copy)]
pub struct Subscripts {
    pub(crate) values: [i32; 7],
    pub(crate) count: usize,
    ghost few: { count ≤ 7 },
}

/// An edit descriptor that edits a value (ANSI X3.9-1978, 13.5.9.1 and 13.5.10).
#[derive(Clone, Copy)]
pub enum Field {
    /// `Iw.m`: an integer in so many positions, with at least m digits; `Iw` is `Iw.1`.
    Integer { width: u16, least: u16 },
    /// `Lw`: a logical value in so many positions.
    Logical { width: u16 },
}

/// What a fault was about.
#[derive(Clone, Copy)]
pub enum Detail<'a> {
    /// A subscript outside its bounds.
    Outside {
        array: &'a [u8],
        /// The subscripts before it.
        before: Subscripts,
        subscript: i32,
        bounds: Dimension,
        /// Whether further ones stand behind it, which weren't evaluated.
        further: bool,
    },
    /// An operator and its operands.
    Operands {
        operator: Operator,
        left: i32,
        right: i32,
    },
    /// A sign and its operand.
    Signed {
        sign: Sign,
        operand: i32,
    },
    /// An intrinsic function by its name, and its arguments.
    Function {
        name: &'a [u8],
        function: Intrinsic,
        arguments: Arguments,
    },
    /// The step of a DO statement, which is zero.
    Step,
    /// A value of an output list, and the edit descriptor of the other type that it meets.
    Clash {
        value: Value,
        field: Field,
    },
    /// A value of an output list for which the format has no edit descriptor.
    Unedited {
        value: Value,
    },
}

/// Why an evaluation stops.
#[derive(Clone, Copy)]
pub(crate) enum Stop<'a> {
    /// With a fault, and what it is about.
    Fault { kind: FaultKind, detail: Detail<'a> },
    /// What comes isn't evaluated here.
    Unknown,
}
