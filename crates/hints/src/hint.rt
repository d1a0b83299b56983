//! The hints.

ghost use Rattle.std.specs.Prelude.{◌≡◌, true};
ghost use Rattle.std.specs.List.{list_all};
ghost use Rattle.meaning.specs.Statements.{is_printable};

/// What to write instead, in the place of what a source has.
#[derive(Clone, Copy, Debug, PartialEq, Eq)]
pub enum Hint {
    /// Tabs in columns 1 to 72.
    Tab,
    /// `!` in column 1.
    CommentMark,
    /// `#` in column 1.
    Preprocessor,
    /// `D` in column 1, before a statement.
    DebugLine,
    /// Letters where a label would stand, or the mark of a continuation line.
    Columns,
    /// `!` behind a statement.
    Comment,
    /// Quotation marks.
    Quotes,
    /// A statement that goes on behind column 72.
    Behind72,
    /// FORMAT with parentheses or apostrophes that don't pair.
    Format,
    /// `5HHELLO`.
    Hollerith,
    /// `&` at the end of a line.
    Ampersand,
    /// `;`.
    Semicolon,
    /// `::`.
    Colons,
    /// `==`, `<` and the like.
    Relation,
    /// `_` or `$`.
    NameCharacter,
    /// FUNCTION.
    Function,
    /// SUBROUTINE, CALL and the like.
    Subroutine,
    /// RETURN.
    Return,
    /// `INTEGER*4`.
    Length,
    /// `INTEGER A/5/`.
    InitialValue,
    /// `PARAMETER N=5`.
    Parameter,
    /// Output without a format.
    ListDirected,
    /// `ERR=` and the like in WRITE.
    Control,
    /// READ.
    Read,
    /// OPEN, REWIND and the like.
    Files,
    /// A unit other than 6.
    Unit,
    /// EXIT and CYCLE.
    Leave,
    /// ASSIGN, and GO TO by a variable.
    Assigned,
    /// DO without limits.
    Forever,
    /// `END PROGRAM`.
    End,
    /// `PROGRAM P(INPUT,OUTPUT)`.
    Program,
    /// INCLUDE.
    Include,
    /// Character constants and declarations.
    Characters,
    /// `1.5`, `1E6`.
    RealConstant,
    /// REAL, DOUBLE PRECISION, COMPLEX.
    Real,
    /// COMMON.
    Common,
    /// EQUIVALENCE.
    Equivalence,
    /// SAVE, EXTERNAL, INTRINSIC.
    Needless,
    /// PAUSE.
    Pause,
    /// CALL EXIT.
    Exit,
    /// A statement behind THEN.
    Then,
    /// A DO statement without a comma.
    Limits,
    /// Names that are REAL.
    Declare,
    /// F, E, D and G in FORMAT.
    RealEdit,
    /// T in FORMAT.
    TabEdit,
    /// Edit descriptors without a comma between them.
    EditComma,
    /// FLOAT, INT and the like.
    Conversion,
    /// SQRT.
    Root,
    /// The turn limit.
    Turns,
    /// MOD of a product that is too large.
    Product,
}

impl Hint {
    /// The hint in a line.
    pub fn text(self) -> &'static str
        ensures { list_all is_printable result.now ≡ true }
    {
        match self {
            Hint::Tab =>
                "write blanks for tabs (expand -t 8); for a tab and a digit that go on, five blanks and the digit",
            Hint::CommentMark => "write C for ! in column 1: a comment line has C or * there",
            Hint::Preprocessor => "run the preprocessor first, as cpp -traditional -P",
            Hint::DebugLine =>
                "write C for D in column 1 to leave the line out, or a blank to have its statement",
            Hint::Columns =>
                "write statements in columns 7 to 72, and C or * in column 1 of a comment line",
            Hint::Comment => "write the comment in a line of its own, with C in column 1",
            Hint::Quotes => "write apostrophes for quotation marks",
            Hint::Behind72 =>
                "columns 73 and more aren't read: go on in a continuation line, with a mark in column 6",
            Hint::Format => "pair the parentheses of FORMAT, and write texts between apostrophes",
            Hint::Hollerith =>
                "write 'HELLO' for 5HHELLO, and in FORMAT statements alone: there is no character data",
            Hint::Ampersand => "leave & out, and put a mark into column 6 of the next line",
            Hint::Semicolon => "write one statement in a line",
            Hint::Colons =>
                "write INTEGER N without ::, arrays as N(5), constants by PARAMETER (N=5), and values by DATA",
            Hint::Relation => "write .EQ., .NE., .LT., .LE., .GT. and .GE.",
            Hint::NameCharacter => "write names of letters and digits alone",
            Hint::Function =>
                "write a statement function, or its statements where it is used: a source is one program unit",
            Hint::Subroutine =>
                "write the subroutine's statements where it is called: a source is one program unit",
            Hint::Return =>
                "write STOP in the main program: there is no other program unit in a source",
            Hint::Length => "leave the length out: INTEGER and LOGICAL have one each",
            Hint::InitialValue => "write the values in a DATA statement",
            Hint::Parameter => "write parentheses: PARAMETER (N=5)",
            Hint::ListDirected =>
                "write records under a format, as WRITE (6,10) N with 10 FORMAT (1X,I10)",
            Hint::Control =>
                "leave ERR=, IOSTAT= and the like out: WRITE has a unit and a format alone",
            Hint::Read => "write the values in DATA or PARAMETER statements: nothing is read",
            Hint::Files => "leave it out: records are written on unit 6 alone",
            Hint::Unit => "write on unit 6",
            Hint::Leave =>
                "write GO TO: behind the range for EXIT, to its last statement for CYCLE",
            Hint::Assigned =>
                "write I=1 for ASSIGN 10 TO I, and the computed GO TO (10,20), I for GO TO I",
            Hint::Forever => "write DO WHILE (.TRUE.)",
            Hint::End => "write END alone",
            Hint::Program => "write PROGRAM and the name alone",
            Hint::Include => "put the lines of the file in its place",
            Hint::Characters =>
                "write texts in FORMAT statements, as 10 FORMAT (' N =',I5): there is no character data",
            Hint::RealConstant =>
                "scale to whole numbers, as 1.5 to 15 tenths: there is no REAL data; limits of DO have commas",
            Hint::Real =>
                "declare INTEGER, and scale to whole numbers, as 1.5 to 15 tenths: there is no REAL data",
            Hint::Common =>
                "leave it out, and give its arrays their bounds in a DIMENSION statement",
            Hint::Equivalence => "write one name for both: no names share storage",
            Hint::Needless => "leave it out: one program unit needs none",
            Hint::Pause => "leave it out, or write STOP",
            Hint::Exit => "write STOP",
            Hint::Then => "end the line behind THEN",
            Hint::Limits => "write a comma between the limits of the DO statement",
            Hint::Declare =>
                "declare the name INTEGER or LOGICAL, or, without IMPLICIT NONE, write IMPLICIT INTEGER (A-Z)",
            Hint::RealEdit => "write I for F, E, D and G: numbers are whole",
            Hint::TabEdit => "write nX for T: as many blanks as lead to its column",
            Hint::EditComma => "write a comma between edit descriptors",
            Hint::Conversion => "leave FLOAT, INT and the like out: all numbers are whole",
            Hint::Root => "write Newton's method in whole numbers, as examples/roots.f does",
            Hint::Turns =>
                "allow more turns by --turns, up to 1000000000000, unless the loop has no end",
            Hint::Product =>
                "take MOD of smaller numbers, as Schrage's method does for products: no result wraps",
        }
    }
}
