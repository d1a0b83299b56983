//! The rules and the faults, said to people: for each of them a sentence in the terms of ANSI
//! X3.9-1978, a program that meets it, and one that differs from that by as little as it can and
//! doesn't. docs/LANGUAGE.md has all that they ask; `checks/sentences` runs each program.
#![tactic(auto)]

ghost use Rattle.std.specs.Prelude.{◌≡◌, MatchOption};
ghost use Rattle.meaning.specs.Names.{fault_name, rule_name};
ghost use Rattle.rule_help.specs.Named.{IsNoFault, IsNoRule, Spells};

use meaning::ending::FaultKind;
use meaning::refusal::Rule;

/// A rule, said to people.
#[derive(Clone, Copy, Debug)]
pub struct RuleText {
    /// Which it is.
    pub rule: Rule,
    /// What the rule asks.
    pub sentence: &'static str,
    /// A program that is refused by this rule; none where that is a text of more than 65,535 lines
    /// or 1,048,576 bytes.
    pub breaks: Option<&'static str>,
    /// A program that keeps all rules, and ends at END or by a STOP statement.
    pub keeps: &'static str,
}

/// A fault, said to people.
#[derive(Clone, Copy, Debug)]
pub struct FaultText {
    /// Which it is.
    pub kind: FaultKind,
    /// What the fault is.
    pub sentence: &'static str,
    /// A program that ends with this fault.
    pub faults: &'static str,
    /// A program that ends at END or by a STOP statement.
    pub runs: &'static str,
}

/// Each rule, in the order of docs/LANGUAGE.md.
pub const RULES: &[Rule] = &[
    Rule::C1,
    Rule::C2,
    Rule::C3,
    Rule::C4,
    Rule::C5,
    Rule::C6,
    Rule::C7,
    Rule::G1,
    Rule::G2,
    Rule::G3,
    Rule::N1,
    Rule::N2,
    Rule::N3,
    Rule::N4,
    Rule::N5,
    Rule::K1,
    Rule::K2,
    Rule::K3,
    Rule::K4,
    Rule::K5,
    Rule::K6,
    Rule::K7,
    Rule::K8,
    Rule::K9,
    Rule::K10,
    Rule::K11,
    Rule::K12,
    Rule::K13,
];

const C1: RuleText = RuleText {
    rule: Rule::C1,
    sentence: "Columns 1 to 72 of a line that is no comment hold characters from the blank to the tilde alone; a tab is none of them.",
    breaks: Some("      I=\t1\n      END\n"),
    keeps: "      I= 1\n      END\n",
};

const C2: RuleText = RuleText {
    rule: Rule::C2,
    sentence: "Columns 1 to 5 of an initial line hold a statement label, which is one to five digits that are not all zero, or they are blank.",
    breaks: Some("   00 I=1\n      END\n"),
    keeps: "   10 I=1\n      END\n",
};

const C3: RuleText = RuleText {
    rule: Rule::C3,
    sentence: "A continuation line is blank in columns 1 to 5, since the statement label stands on the initial line.",
    breaks: Some("      I=1\n   101+2\n      END\n"),
    keeps: "      I=1\n     1+2\n      END\n",
};

const C4: RuleText = RuleText {
    rule: Rule::C4,
    sentence: "A continuation line stands behind the initial line of its statement: the first line that is no comment has a blank or a zero in column 6.",
    breaks: Some("     1I=1\n      END\n"),
    keeps: "      I=1\n      END\n",
};

const C5: RuleText = RuleText {
    rule: Rule::C5,
    sentence: "A statement has at most 19 continuation lines.",
    breaks: Some(concat!(
        "      I=1\n     1+1\n     1+1\n     1+1\n     1+1\n     1+1\n     1+1\n     1+1\n     1+1\n",
        "     1+1\n     1+1\n     1+1\n     1+1\n     1+1\n     1+1\n     1+1\n     1+1\n     1+1\n",
        "     1+1\n     1+1\n     1+1\n      END\n"
    )),
    keeps: concat!(
        "      I=1\n     1+1\n     1+1\n     1+1\n     1+1\n     1+1\n     1+1\n     1+1\n     1+1\n",
        "     1+1\n     1+1\n     1+1\n     1+1\n     1+1\n     1+1\n     1+1\n     1+1\n     1+1\n",
        "     1+1\n     1+1\n      END\n"
    ),
};

const C6: RuleText = RuleText {
    rule: Rule::C6,
    sentence: "Each character constant ends with an apostrophe, so a statement has an even number of them over all its lines.",
    breaks: Some("      STOP 'DONE\n      END\n"),
    keeps: "      STOP 'DONE'\n      END\n",
};

const C7: RuleText = RuleText {
    rule: Rule::C7,
    sentence: "A source has at most 1,048,576 bytes and at most 65,535 lines, comment lines included.",
    breaks: None,
    keeps: "      END\n",
};

const G1: RuleText = RuleText {
    rule: Rule::G1,
    sentence: "A statement has the form of one of the language's statements; so no two arithmetic operators stand side by side, and 2*-3 is written 2*(-3).",
    breaks: Some("      I=2*-3\n      END\n"),
    keeps: "      I=2*(-3)\n      END\n",
};

const G2: RuleText = RuleText {
    rule: Rule::G2,
    sentence: "A statement is none of those of FORTRAN 77 that are left out, as READ, CALL, COMMON or REAL, and output is not list-directed: records are written under a format.",
    breaks: Some("      PRINT *, 42\n      END\n"),
    keeps: "      PRINT '(I3)', 42\n      END\n",
};

const G3: RuleText = RuleText {
    rule: Rule::G3,
    sentence: "At most 64 parentheses are open at once in a statement, outside character constants.",
    breaks: Some(
        "      I=((((((((((((((((((((((((((((((((((((((((((((((((((((((((((((((((\n     1(1)\n     1))))))))))))))))))))))))))))))))))))))))))))))))))))))))))))))))\n      END\n",
    ),
    keeps: "      I=((((((((((((((((((((((((((((((((((((((((((((((((((((((((((((((((\n     11\n     1))))))))))))))))))))))))))))))))))))))))))))))))))))))))))))))))\n      END\n",
};

const N1: RuleText = RuleText {
    rule: Rule::N1,
    sentence: "PROGRAM, where it stands, is the first statement; IMPLICIT comes before each type and DIMENSION statement, and these and PARAMETER before each statement function, DATA and executable statement.",
    breaks: Some("      I=1\n      INTEGER A(2)\n      END\n"),
    keeps: "      INTEGER A(2)\n      I=1\n      END\n",
};

const N2: RuleText = RuleText {
    rule: Rule::N2,
    sentence: "END is the last statement of the program unit, and stands in it once.",
    breaks: Some("      I=1\n"),
    keeps: "      I=1\n      END\n",
};

const N3: RuleText = RuleText {
    rule: Rule::N3,
    sentence: "ELSE IF, ELSE and END IF stand where a block IF is the innermost thing that is open, only END IF does behind its ELSE, and END IF closes it before END.",
    breaks: Some("      IF (I.EQ.0) THEN\n      J=1\n      END\n"),
    keeps: "      IF (I.EQ.0) THEN\n      J=1\n      END IF\n      END\n",
};

const N4: RuleText = RuleText {
    rule: Rule::N4,
    sentence: "The range of a DO statement ends with a terminal statement that may stand there, or with END DO, before anything ends that holds the DO statement.",
    breaks: Some("      DO 10 I=1,2\n      J=J+I\n      END\n"),
    keeps: "      DO 10 I=1,2\n   10 J=J+I\n      END\n",
};

const N5: RuleText = RuleText {
    rule: Rule::N5,
    sentence: "At most 32 DO statements, DO WHILE statements and block IFs are open at once.",
    breaks: Some(concat!(
        "      DO 10 I1=1,1\n      DO 10 I2=1,1\n      DO 10 I3=1,1\n      DO 10 I4=1,1\n",
        "      DO 10 I5=1,1\n      DO 10 I6=1,1\n      DO 10 I7=1,1\n      DO 10 I8=1,1\n",
        "      DO 10 I9=1,1\n      DO 10 I10=1,1\n      DO 10 I11=1,1\n      DO 10 I12=1,1\n",
        "      DO 10 I13=1,1\n      DO 10 I14=1,1\n      DO 10 I15=1,1\n      DO 10 I16=1,1\n",
        "      DO 10 I17=1,1\n      DO 10 I18=1,1\n      DO 10 I19=1,1\n      DO 10 I20=1,1\n",
        "      DO 10 I21=1,1\n      DO 10 I22=1,1\n      DO 10 I23=1,1\n      DO 10 I24=1,1\n",
        "      DO 10 I25=1,1\n      DO 10 I26=1,1\n      DO 10 I27=1,1\n      DO 10 I28=1,1\n",
        "      DO 10 I29=1,1\n      DO 10 I30=1,1\n      DO 10 I31=1,1\n      DO 10 I32=1,1\n",
        "      DO 10 I33=1,1\n   10 CONTINUE\n      END\n"
    )),
    keeps: concat!(
        "      DO 10 I1=1,1\n      DO 10 I2=1,1\n      DO 10 I3=1,1\n      DO 10 I4=1,1\n",
        "      DO 10 I5=1,1\n      DO 10 I6=1,1\n      DO 10 I7=1,1\n      DO 10 I8=1,1\n",
        "      DO 10 I9=1,1\n      DO 10 I10=1,1\n      DO 10 I11=1,1\n      DO 10 I12=1,1\n",
        "      DO 10 I13=1,1\n      DO 10 I14=1,1\n      DO 10 I15=1,1\n      DO 10 I16=1,1\n",
        "      DO 10 I17=1,1\n      DO 10 I18=1,1\n      DO 10 I19=1,1\n      DO 10 I20=1,1\n",
        "      DO 10 I21=1,1\n      DO 10 I22=1,1\n      DO 10 I23=1,1\n      DO 10 I24=1,1\n",
        "      DO 10 I25=1,1\n      DO 10 I26=1,1\n      DO 10 I27=1,1\n      DO 10 I28=1,1\n",
        "      DO 10 I29=1,1\n      DO 10 I30=1,1\n      DO 10 I31=1,1\n      DO 10 I32=1,1\n",
        "   10 CONTINUE\n      END\n"
    ),
};

const K1: RuleText = RuleText {
    rule: Rule::K1,
    sentence: "No two statements of a program unit have the same statement label.",
    breaks: Some("   10 I=1\n   10 J=2\n      END\n"),
    keeps: "   10 I=1\n   20 J=2\n      END\n",
};

const K2: RuleText = RuleText {
    rule: Rule::K2,
    sentence: "A transfer of control is to the label of an executable statement other than ELSE and ELSE IF, and never from outside into the range of a DO-loop, an IF-block, ELSE IF-block or ELSE-block.",
    breaks: Some("      GO TO 10\n   20 DO 10 I=1,2\n   10 J=J+I\n      END\n"),
    keeps: "      GO TO 20\n   20 DO 10 I=1,2\n   10 J=J+I\n      END\n",
};

const K3: RuleText = RuleText {
    rule: Rule::K3,
    sentence: "A variable, array, constant, statement function or dummy argument is INTEGER or LOGICAL by a type statement, IMPLICIT or a first letter I to N, and under IMPLICIT NONE by a type statement.",
    breaks: Some("      X=1\n      END\n"),
    keeps: "      INTEGER X\n      X=1\n      END\n",
};

const K4: RuleText = RuleText {
    rule: Rule::K4,
    sentence: "A name gets a type, bounds, a value or an expression once, and is used as the constant, array, variable or function that it is; a letter has one IMPLICIT type, and IMPLICIT NONE stands alone.",
    breaks: Some("      PARAMETER (N=1)\n      N=2\n      END\n"),
    keeps: "      PARAMETER (N=1)\n      M=2\n      END\n",
};

const K5: RuleText = RuleText {
    rule: Rule::K5,
    sentence: "An operand, argument, condition, subscript, bound, limit or assigned value has the type that its place asks for; INTEGER and LOGICAL are not converted into each other.",
    breaks: Some("      I=1.EQ.1\n      END\n"),
    keeps: "      LOGICAL I\n      I=1.EQ.1\n      END\n",
};

const K6: RuleText = RuleText {
    rule: Rule::K6,
    sentence: "An integer constant is at most 2147483647, and a PARAMETER value and each bound of an array is a constant expression without a fault.",
    breaks: Some("      I=2147483648\n      END\n"),
    keeps: "      I=2147483647\n      END\n",
};

const K7: RuleText = RuleText {
    rule: Rule::K7,
    sentence: "An array has one to seven dimensions, none with a lower bound above its upper bound, and all arrays together have at most 16,777,216 elements.",
    breaks: Some("      INTEGER A(3:2)\n      END\n"),
    keeps: "      INTEGER A(2:3)\n      END\n",
};

const K8: RuleText = RuleText {
    rule: Rule::K8,
    sentence: "An array element has one subscript for each dimension, and a function reference as many arguments as the function takes; an array's name stands alone only in a type statement or as a list's item.",
    breaks: Some("      INTEGER A(2)\n      I=A+1\n      END\n"),
    keeps: "      INTEGER A(2)\n      I=A(1)+1\n      END\n",
};

const K9: RuleText = RuleText {
    rule: Rule::K9,
    sentence: "The variable of a DO statement or an implied DO is an INTEGER variable, and no assignment, DO or implied DO within its range sets it.",
    breaks: Some("      DO 10 I=1,2\n   10 I=3\n      END\n"),
    keeps: "      DO 10 I=1,2\n   10 J=3\n      END\n",
};

const K10: RuleText = RuleText {
    rule: Rule::K10,
    sentence: "A DATA statement has one constant of the right type for each variable and element of its list, gives none of them a second value, and has constant expressions as subscripts and limits.",
    breaks: Some("      DATA I/1,2/\n      END\n"),
    keeps: "      DATA I,J/1,2/\n      END\n",
};

const K11: RuleText = RuleText {
    rule: Rule::K11,
    sentence: "A unit is 6 or *, a format is a character constant or the label of a FORMAT statement, a FORMAT statement has a label, and formats have I, L, X, slashes, colons, texts and groups alone.",
    breaks: Some("      WRITE (5,10) 42\n   10 FORMAT (I3)\n      END\n"),
    keeps: "      WRITE (6,10) 42\n   10 FORMAT (I3)\n      END\n",
};

const K12: RuleText = RuleText {
    rule: Rule::K12,
    sentence: "A statement function stands before all executable statements, has at most 16 dummy arguments with distinct names, uses only those before it, and has at most 32 levels and 65,536 parts in all.",
    breaks: Some("      I=1\n      M(J)=J+1\n      END\n"),
    keeps: "      M(J)=J+1\n      I=1\n      END\n",
};

const K13: RuleText = RuleText {
    rule: Rule::K13,
    sentence: "A function is a statement function of the program unit or one of ABS, IABS, MOD, MAX, MAX0, MIN, MIN0, SIGN, ISIGN, DIM and IDIM.",
    breaks: Some("      I=ISQRT(4)\n      END\n"),
    keeps: "      I=IABS(4)\n      END\n",
};

/// Each fault, in the order of docs/LANGUAGE.md.
pub const FAULTS: &[FaultKind] = &[
    FaultKind::F1,
    FaultKind::F2,
    FaultKind::F3,
    FaultKind::F4,
    FaultKind::F5,
    FaultKind::F6,
    FaultKind::F7,
    FaultKind::F8,
];

const F1: FaultText = FaultText {
    kind: FaultKind::F1,
    sentence: "The divisor of a quotient, or the second argument of MOD, is zero.",
    faults: "      J=0\n      I=6/J\n      END\n",
    runs: "      J=2\n      I=6/J\n      END\n",
};

const F2: FaultText = FaultText {
    kind: FaultKind::F2,
    sentence: "The result of an operation or a function, or the addition to a DO variable, lies outside -2147483648 to 2147483647.",
    faults: "      I=2147483647\n      I=I+1\n      END\n",
    runs: "      I=2147483646\n      I=I+1\n      END\n",
};

const F3: FaultText = FaultText {
    kind: FaultKind::F3,
    sentence: "A subscript lies outside the bounds of its dimension.",
    faults: "      INTEGER A(2)\n      A(3)=1\n      END\n",
    runs: "      INTEGER A(2)\n      A(2)=1\n      END\n",
};

const F4: FaultText = FaultText {
    kind: FaultKind::F4,
    sentence: "There is no turn left for a statement that was to be executed: the limit is the plan's, and a program that goes on for ever meets it.",
    faults: "   10 I=1\n      GO TO 10\n   20 CONTINUE\n      END\n",
    runs: "   10 I=1\n      GO TO 20\n   20 CONTINUE\n      END\n",
};

const F5: FaultText = FaultText {
    kind: FaultKind::F5,
    sentence: "The increment of a DO statement or of an implied DO is zero.",
    faults: "      DO 10 I=1,3,0\n   10 J=J+I\n      END\n",
    runs: "      DO 10 I=1,3,1\n   10 J=J+I\n      END\n",
};

const F6: FaultText = FaultText {
    kind: FaultKind::F6,
    sentence: "Zero is raised to the power of zero or of a negative number.",
    faults: "      I=0**0\n      END\n",
    runs: "      I=0**1\n      END\n",
};

const F7: FaultText = FaultText {
    kind: FaultKind::F7,
    sentence: "A value of an output list meets an edit descriptor of the other type, or the format has no edit descriptor for the values that are left.",
    faults: "      WRITE (6,10) 42\n   10 FORMAT (L3)\n      END\n",
    runs: "      WRITE (6,10) 42\n   10 FORMAT (I3)\n      END\n",
};

const F8: FaultText = FaultText {
    kind: FaultKind::F8,
    sentence: "An output list has more than 65,536 items, or the records of a WRITE or PRINT statement have more than 1,048,576 bytes, line feeds included.",
    faults: "      INTEGER A(65537)\n      PRINT '(I2)', A\n      END\n",
    runs: "      INTEGER A(65536)\n      PRINT '(I2)', A\n      END\n",
};

/// The texts of a rule.
pub fn text_of_rule(rule: Rule) -> RuleText
    ensures { result.rule ≡ rule }
{
    match rule {
        Rule::C1 => C1,
        Rule::C2 => C2,
        Rule::C3 => C3,
        Rule::C4 => C4,
        Rule::C5 => C5,
        Rule::C6 => C6,
        Rule::C7 => C7,
        Rule::G1 => G1,
        Rule::G2 => G2,
        Rule::G3 => G3,
        Rule::N1 => N1,
        Rule::N2 => N2,
        Rule::N3 => N3,
        Rule::N4 => N4,
        Rule::N5 => N5,
        Rule::K1 => K1,
        Rule::K2 => K2,
        Rule::K3 => K3,
        Rule::K4 => K4,
        Rule::K5 => K5,
        Rule::K6 => K6,
        Rule::K7 => K7,
        Rule::K8 => K8,
        Rule::K9 => K9,
        Rule::K10 => K10,
        Rule::K11 => K11,
        Rule::K12 => K12,
        Rule::K13 => K13,
    }
}

/// The texts of a fault.
pub fn text_of_fault(kind: FaultKind) -> FaultText
    ensures { result.kind ≡ kind }
{
    match kind {
        FaultKind::F1 => F1,
        FaultKind::F2 => F2,
        FaultKind::F3 => F3,
        FaultKind::F4 => F4,
        FaultKind::F5 => F5,
        FaultKind::F6 => F6,
        FaultKind::F7 => F7,
        FaultKind::F8 => F8,
    }
}

/// The texts of the rule that has this name, as `K3` or `k3`; none where no rule has it.
pub fn rule_named(name: &str) -> Option<RuleText>
    ensures { MatchOption result
        (IsNoRule name.now)
        (λ row. Spells name.now (rule_name row.rule)) }
{
    for rule in RULES {
        if rule.name().eq_ignore_ascii_case(name) {
            return Some(text_of_rule(*rule));
        }
    }
    None
}

/// The texts of the fault that has this name, as `F2` or `f2`; none where no fault has it.
pub fn fault_named(name: &str) -> Option<FaultText>
    ensures { MatchOption result
        (IsNoFault name.now)
        (λ row. Spells name.now (fault_name row.kind)) }
{
    for kind in FAULTS {
        if kind.name().eq_ignore_ascii_case(name) {
            return Some(text_of_fault(*kind));
        }
    }
    None
}
