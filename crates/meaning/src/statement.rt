//! Statements as the columns of a source hold them, and as bare texts.

ghost use Rattle.std.specs.Prelude.{◌≤◌, vec_len};

/// A statement: what the columns of its initial line and of its continuation lines hold (ANSI
/// X3.9-1978, 3.2 and 3.3).
#[derive(Drop)]
pub struct Statement {
    /// The number of its initial line, counted from 1.
    pub line: u32,
    /// Its statement label, where columns 1 to 5 hold one.
    pub label: Option<u32>,
    /// Columns 7 to 72 of its lines, joined.
    pub text: Vec<u8>,
    /// Twenty lines of 66 columns at most.
    ghost short: { vec_len text ≤ 1320 },
}

/// The bare text of a statement: without blanks and with letters raised, outside apostrophes.
#[derive(Drop)]
pub struct Bare {
    /// The number of the statement's initial line.
    pub line: u32,
    pub text: Vec<u8>,
    /// No longer than the statement.
    ghost short: { vec_len text ≤ 1320 },
}
