//! What breaks the rule on statement functions.

ghost use Rattle.std.specs.Prelude.{◌≡◌};

/// What breaks the rule on statement functions at a statement (ANSI X3.9-1978, 15.4): the name of
/// the function, of a dummy argument or of another function.
#[derive(Clone, Copy)]
pub enum FunctionCulprit<'a> {
    /// It stands behind an executable statement.
    Late { name: &'a [u8] },
    /// It stands under a logical IF.
    Conditional { name: &'a [u8] },
    /// It has more than 16 dummy arguments.
    Crowded { name: &'a [u8] },
    /// A dummy argument of it is no name.
    Unnamed { name: &'a [u8] },
    /// The dummy argument stands twice.
    Doubled { name: &'a [u8] },
    /// The dummy argument is referred to as a function.
    Called { name: &'a [u8] },
    /// It refers to itself.
    Recursive { name: &'a [u8] },
    /// It refers to the statement function, which stands later.
    Later { name: &'a [u8] },
}

impl<'a> FunctionCulprit<'a> {
    ghost use Rattle.function_culprits.specs.Told.{told_at};
    ghost use Rattle.function_culprits.specs.Texts.{word_of};

    /// The name that it is about.
    pub fn word(self) -> &'a [u8]
        ensures { result.now ≡ word_of (told_at self.entry) }
    {
        match self {
            FunctionCulprit::Late { name } => name,
            FunctionCulprit::Conditional { name } => name,
            FunctionCulprit::Crowded { name } => name,
            FunctionCulprit::Unnamed { name } => name,
            FunctionCulprit::Doubled { name } => name,
            FunctionCulprit::Called { name } => name,
            FunctionCulprit::Recursive { name } => name,
            FunctionCulprit::Later { name } => name,
        }
    }
}
