//! The values of the arguments of a statement function (ANSI X3.9-1978, 15.4).

use meaning::ending::Value;
use meaning::syntax::{Expr, Exprs};

/// The values of arguments, in their order; a statement function has sixteen at most.
#[derive(Clone, Copy)]
pub(crate) struct Given {
    values: [Value; 16],
    count: usize,
}

impl Given {
    /// None.
    pub fn none() -> Given {
        Given {
            values: [Value::Int(0); 16],
            count: 0,
        }
    }

    /// One more; `None` where there are sixteen.
    pub fn with(self, value: Value) -> Option<Given> {
        if self.count >= 16 {
            return None;
        }
        let mut values = self.values;
        values[self.count] = value;
        Some(Given {
            values,
            count: self.count + 1,
        })
    }

    /// Those that there are.
    pub fn values(&self) -> &[Value] {
        self.values.get(..self.count).unwrap_or(&[])
    }
}

// Whether an expression is a name.
fn is_name(expression: &Expr, name: &[u8]) -> bool {
    match expression {
        Expr::Name(letters) => letters.as_slice() == name,
        _ => false,
    }
}

/// The value of a dummy argument by its name, among the values of all.
pub(crate) fn dummy_value(dummies: &Exprs, name: &[u8], values: &[Value]) -> Option<Value> {
    match dummies {
        Exprs::Empty => None,
        Exprs::More(first, rest) => {
            let (value, behind) = values.split_first()?;
            if is_name(first, name) {
                Some(*value)
            } else {
                dummy_value(rest, name, behind)
            }
        }
    }
}
