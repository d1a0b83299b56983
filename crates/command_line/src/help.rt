//! The texts that `--help`, `--version` and `--rule` without a name show.

/// What `--version` shows.
pub const VERSION: &str = "f77run 0.1.0\n";

/// What `--help` shows: what the program does, its options and its exit statuses.
pub const HELP: &str = "Usage: f77run [OPTIONS] [FILE]

Runs a FORTRAN 77 program: one program unit in fixed form, with INTEGER and
LOGICAL data. Without FILE, or where FILE is -, the source is standard input.
After -- each word is a FILE.

Options:
  --workers N    the most threads that run a loop, 1 to 64 [default: 4]
  --block N      the trips of a block by --speculate always, 1 to 1000000
                 [default: 64]
  --window N     the most blocks that are tried at a time, 1 to 256 [default: 8]
  --turns N      the most turns: each statement that is executed is one, 1 to
                 1000000000000 [default: 1000000000]
  --speculate W  the loops that are tried in parallel: adaptive (those that are
                 worth it), always (each) or never [default: adaptive]
  --check        check the source, and run nothing
  --count        report the turns that the program used
  --explain      show the statement that is refused or at fault, and say why
  --stages       report what came of the loops that were tried in parallel
  --rule [NAME]  show a rule or a fault, as K3 or F2, with a program that breaks
                 it and one that doesn't; without NAME list them all
  -h, --help     show this text
  -V, --version  show the version

Exit statuses, with the line on standard error:
  0  END was reached, or a text was asked for: none; a STOP statement was
     executed: STOP, STOP 7 or STOP TEXT
  1  a fault: FAULT F2 LINE 7
  2  a refused source, of which nothing is run: REFUSED K3 LINE 1
  3  a faulty command line: f77run: and what is wrong with it
  4  out of memory: NO MEMORY
  5  the source can't be read: FILE REFUSED; a write failed: WRITE REFUSED
";

/// What `--rule` shows without a name: of each rule and each fault the sentence that `rule_help`
/// has, which `checks/sentences` compares.
pub const NAMES: &str = "Rules, which a source is refused for breaking:
  C1   Columns 1 to 72 of a line that is no comment hold characters from the
       blank to the tilde alone; a tab is none of them.
  C2   Columns 1 to 5 of an initial line hold a statement label, which is one
       to five digits that are not all zero, or they are blank.
  C3   A continuation line is blank in columns 1 to 5, since the statement
       label stands on the initial line.
  C4   A continuation line stands behind the initial line of its statement: the
       first line that is no comment has a blank or a zero in column 6.
  C5   A statement has at most 19 continuation lines.
  C6   Each character constant ends with an apostrophe, so a statement has an
       even number of them over all its lines.
  C7   A source has at most 1,048,576 bytes and at most 65,535 lines, comment
       lines included.
  G1   A statement has the form of one of the language's statements; so no two
       arithmetic operators stand side by side, and 2*-3 is written 2*(-3).
  G2   A statement is none of those of FORTRAN 77 that are left out, as READ,
       CALL, COMMON or REAL, and output is not list-directed: records are
       written under a format.
  G3   At most 64 parentheses are open at once in a statement, outside
       character constants.
  N1   PROGRAM, where it stands, is the first statement; IMPLICIT comes before
       each type and DIMENSION statement, and these and PARAMETER before each
       statement function, DATA and executable statement.
  N2   END is the last statement of the program unit, and stands in it once.
  N3   ELSE IF, ELSE and END IF stand where a block IF is the innermost thing
       that is open, only END IF does behind its ELSE, and END IF closes it
       before END.
  N4   The range of a DO statement ends with a terminal statement that may
       stand there, or with END DO, before anything ends that holds the DO
       statement.
  N5   At most 32 DO statements, DO WHILE statements and block IFs are open at
       once.
  K1   No two statements of a program unit have the same statement label.
  K2   A transfer of control is to the label of an executable statement other
       than ELSE and ELSE IF, and never from outside into the range of a
       DO-loop, an IF-block, ELSE IF-block or ELSE-block.
  K3   A variable, array, constant, statement function or dummy argument is
       INTEGER or LOGICAL by a type statement, IMPLICIT or a first letter I to
       N, and under IMPLICIT NONE by a type statement.
  K4   A name gets a type, bounds, a value or an expression once, and is used
       as the constant, array, variable or function that it is; a letter has
       one IMPLICIT type, and IMPLICIT NONE stands alone.
  K5   An operand, argument, condition, subscript, bound, limit or assigned
       value has the type that its place asks for; INTEGER and LOGICAL are not
       converted into each other.
  K6   An integer constant is at most 2147483647, and a PARAMETER value and
       each bound of an array is a constant expression without a fault.
  K7   An array has one to seven dimensions, none with a lower bound above its
       upper bound, and all arrays together have at most 16,777,216 elements.
  K8   An array element has one subscript for each dimension, and a function
       reference as many arguments as the function takes; an array's name
       stands alone only in a type statement or as a list's item.
  K9   The variable of a DO statement or an implied DO is an INTEGER variable,
       and no assignment, DO or implied DO within its range sets it.
  K10  A DATA statement has one constant of the right type for each variable
       and element of its list, gives none of them a second value, and has
       constant expressions as subscripts and limits.
  K11  A unit is 6 or *, a format is a character constant or the label of a
       FORMAT statement, a FORMAT statement has a label, and formats have I, L,
       X, slashes, colons, texts and groups alone.
  K12  A statement function stands before all executable statements, has at
       most 16 dummy arguments with distinct names, uses only those before it,
       and has at most 32 levels and 65,536 parts in all.
  K13  A function is a statement function of the program unit or one of ABS,
       IABS, MOD, MAX, MAX0, MIN, MIN0, SIGN, ISIGN, DIM and IDIM.

Faults, which end a run:
  F1   The divisor of a quotient, or the second argument of MOD, is zero.
  F2   The result of an operation or a function, or the addition to a DO
       variable, lies outside -2147483648 to 2147483647.
  F3   A subscript lies outside the bounds of its dimension.
  F4   There is no turn left for a statement that was to be executed: the limit
       is the plan's, and a program that goes on for ever meets it.
  F5   The increment of a DO statement or of an implied DO is zero.
  F6   Zero is raised to the power of zero or of a negative number.
  F7   A value of an output list meets an edit descriptor of the other type, or
       the format has no edit descriptor for the values that are left.
  F8   An output list has more than 65,536 items, or the records of a WRITE or
       PRINT statement have more than 1,048,576 bytes, line feeds included.
";
