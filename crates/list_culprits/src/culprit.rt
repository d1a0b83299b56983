//! What breaks a rule on lists.

ghost use Rattle.std.specs.Prelude.{◌≡◌};

/// What kind of statement a label is of that no transfer of control may reach (ANSI X3.9-1978, 11.1
/// and chapter 7).
#[derive(Clone, Copy, Debug, PartialEq, Eq)]
pub enum Kind {
    Program,
    Implicit,
    Parameter,
    Integer,
    Logical,
    Dimension,
    Data,
    Format,
    StatementFunction,
    ElseIf,
    Else,
}

/// What breaks a rule on lists at a statement. The labels of K2 are the digits that the transfer
/// has.
#[derive(Clone, Copy)]
pub enum ListCulprit<'a> {
    /// K2: no statement has the label (ANSI X3.9-1978, 3.4).
    Nowhere { label: &'a [u8] },
    /// K2: the label is that of a statement that no transfer may reach (11.1, 11.7 and 11.8).
    Closed { label: &'a [u8], kind: Kind },
    /// K2: the label stands in the range of the DO statement of a line (11.10.8).
    InRange { label: &'a [u8], line: u32 },
    /// K2: the label stands in the block of the IF THEN, ELSE IF or ELSE statement of a line (11.6
    /// to 11.8).
    InBlock { label: &'a [u8], line: u32 },
    /// K2: the label stands in no list around.
    Apart { label: &'a [u8] },
    /// K2: the label stands around, and elsewhere too.
    Shared { label: &'a [u8] },
    /// K9: the variable of a DO or an implied DO is no INTEGER variable (11.10 and 12.8.2.3).
    Uncounted { name: &'a [u8] },
    /// K9: a variable is set that the DO statement of a line counts with (11.10.5).
    Counting { name: &'a [u8], line: u32 },
    /// K9: an implied DO has the variable of one around it (12.8.2.3).
    Implied { name: &'a [u8] },
}

impl<'a> ListCulprit<'a> {
    ghost use Rattle.list_culprits.specs.Told.{told_at};
    ghost use Rattle.list_culprits.specs.Texts.{word_of};

    /// The label or the name that it is about.
    pub fn word(self) -> &'a [u8]
        ensures { result.now ≡ word_of (told_at self.entry) }
    {
        match self {
            ListCulprit::Nowhere { label } => label,
            ListCulprit::Closed { label, .. } => label,
            ListCulprit::InRange { label, .. } => label,
            ListCulprit::InBlock { label, .. } => label,
            ListCulprit::Apart { label } => label,
            ListCulprit::Shared { label } => label,
            ListCulprit::Uncounted { name } => name,
            ListCulprit::Counting { name, .. } => name,
            ListCulprit::Implied { name } => name,
        }
    }
}
