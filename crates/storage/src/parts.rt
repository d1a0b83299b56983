//! What is kept beside the tree of a program (ANSI X3.9-1978, 2.5, 2.12, 8.6 and 15.4).

use expressions::Dimensions;
use format_edit::Format;
use indexmap::IndexMap;
use label_targets::LabelTargets;
use meaning::ending::Value;
use meaning::syntax::{DataType, Exprs, Tree};
use std::collections::BTreeMap;

/// Where the values of a variable or an array are kept.
#[derive(Drop)]
pub struct Storage {
    /// The number of the first cell.
    pub first: usize,
    /// The dimensions, none for a variable.
    pub dimensions: Dimensions,
}

/// What is kept of a name.
#[derive(Drop)]
pub struct Entry {
    /// Its value, if it is a constant's.
    pub value: Option<Value>,
    /// Its type; none where it is REAL.
    pub data_type: Option<DataType>,
    /// Where its values are kept, if it is a variable's or an array's.
    pub storage: Option<Storage>,
}

/// Where a statement function is defined.
#[derive(Clone, Copy)]
pub struct FunctionAt {
    /// How many statement functions stand before it.
    pub at: usize,
    /// How many members of the body stand before its statement.
    pub member: usize,
}

/// The tree of a program and what is kept beside it.
#[derive(Drop)]
pub struct Parts {
    pub tree: Tree,
    /// The names of variables and then of arrays, in the order of their cells, and behind them
    /// those of constants and those in type statements.
    pub entries: IndexMap<Vec<u8>, Entry>,
    /// The types of the names that begin with each letter, by its code.
    pub letters: Vec<Option<DataType>>,
    /// The statement functions.
    pub functions: IndexMap<Vec<u8>, FunctionAt>,
    pub function_count: usize,
    /// No dummies, for those that have none.
    pub no_dummies: Exprs,
    /// The values that the cells start with.
    pub starts: Vec<i32>,
    /// The formats of the FORMAT statements by their labels.
    pub formats: BTreeMap<u32, Format>,
    /// The formats in character constants by the constants' texts.
    pub texts: IndexMap<Vec<u8>, Format>,
    /// Where labels lead, and which DO statements have output in their ranges.
    pub label_targets: LabelTargets,
}
