use super::{Hint, hint_of, hint_of_fault};
use meaning::ending::FaultKind;
use meaning::refusal::Rule;
use std::test::Fail;

/// Lines with what the program refuses them by, and statements that it accepts or that have none of
/// the forms.
const LINES: &[(&str, Rule, Option<Hint>)] = &[
    ("\tI=1", Rule::C1, Some(Hint::Tab)),
    ("   10\tI=1", Rule::C1, Some(Hint::Tab)),
    ("!     SUM OF I", Rule::C2, Some(Hint::CommentMark)),
    ("!SUM OF I", Rule::C3, Some(Hint::CommentMark)),
    ("#include 'SIZES'", Rule::C3, Some(Hint::Preprocessor)),
    ("D     WRITE (6,10) I", Rule::C2, Some(Hint::DebugLine)),
    ("d     J=I", Rule::C2, Some(Hint::DebugLine)),
    ("PROGRAM SIEVE", Rule::C3, Some(Hint::Columns)),
    ("  integer i", Rule::C3, Some(Hint::Columns)),
    ("X     I=1", Rule::C2, Some(Hint::Columns)),
    ("     PROGRAM P", Rule::C4, Some(Hint::Columns)),
    ("      I=1 ! DON'T", Rule::C6, Some(Hint::Comment)),
    ("   10 FORMAT (6H DON'T)", Rule::C6, Some(Hint::Hollerith)),
    ("      PRINT \"(I5)\", I'", Rule::C6, Some(Hint::Quotes)),
    (
        "      STOP 'THIS LINE IS SO LONG THAT ITS LAST APOSTROPHE IS IN COLUMN 80 EXACTLY    '",
        Rule::C6,
        Some(Hint::Behind72),
    ),
    ("      I = J ! THE SUM", Rule::G1, Some(Hint::Comment)),
    ("      WRITE (6,\"(I5)\") I", Rule::G1, Some(Hint::Quotes)),
    (
        "      WRITE (6,10) (IA(I),I=1,100),(IB(I),I=1,100),(IC(I),I=1,100),(ID(I),I=1,100)",
        Rule::G1,
        Some(Hint::Behind72),
    ),
    ("   10 FORMAT (1X,I5", Rule::G1, Some(Hint::Format)),
    ("   10 FORMAT (3HA)B,I5)", Rule::G1, Some(Hint::Hollerith)),
    ("      DATA ITEXT/5HHELLO/", Rule::G1, Some(Hint::Hollerith)),
    ("      IF (I.EQ.1HA) J=1", Rule::G1, Some(Hint::Hollerith)),
    (
        "      WRITE (6,10) 12H HELLO WORLD",
        Rule::G1,
        Some(Hint::Hollerith),
    ),
    ("      I = J + &", Rule::G1, Some(Hint::Ampersand)),
    ("      I = 1; J = 2", Rule::G1, Some(Hint::Semicolon)),
    ("      INTEGER :: I", Rule::G1, Some(Hint::Colons)),
    (
        "      INTEGER, PARAMETER :: N = 5",
        Rule::G1,
        Some(Hint::Colons),
    ),
    ("      IF (I == 1) J = 2", Rule::G1, Some(Hint::Relation)),
    ("      IF (I /= J) GO TO 10", Rule::G1, Some(Hint::Relation)),
    ("      IF (I >= J) THEN", Rule::G1, Some(Hint::Relation)),
    ("      IF (A(I) < 0) STOP", Rule::G1, Some(Hint::Relation)),
    ("      I_MAX = 1", Rule::G1, Some(Hint::NameCharacter)),
    (
        "      INTEGER*4 FUNCTION IFACT(N)",
        Rule::G1,
        Some(Hint::Function),
    ),
    (
        "      INTEGER FUNCTION IFACT(N)",
        Rule::K6,
        Some(Hint::Function),
    ),
    (
        "      LOGICAL FUNCTION PRIME(X)",
        Rule::K3,
        Some(Hint::Function),
    ),
    (
        "      INTEGER FUNCTION IFACT(N)",
        Rule::N1,
        Some(Hint::Function),
    ),
    ("      REAL FUNCTION F(X)", Rule::G2, Some(Hint::Function)),
    ("      FUNCTION F(X)", Rule::G2, Some(Hint::Function)),
    ("      INTEGER*4 I", Rule::G1, Some(Hint::Length)),
    ("      LOGICAL*1 L", Rule::G1, Some(Hint::Length)),
    (
        "      IMPLICIT INTEGER*4 (A-Z)",
        Rule::G1,
        Some(Hint::Length),
    ),
    (
        "      INTEGER A(2)/1,2/",
        Rule::G1,
        Some(Hint::InitialValue),
    ),
    (
        "      LOGICAL L/.TRUE./",
        Rule::G1,
        Some(Hint::InitialValue),
    ),
    ("      PARAMETER N=5", Rule::K3, Some(Hint::Parameter)),
    ("      PARAMETER N=5, M=6", Rule::G1, Some(Hint::Parameter)),
    (
        "      WRITE (6,FMT=*) I",
        Rule::G1,
        Some(Hint::ListDirected),
    ),
    ("      WRITE (3,*) I", Rule::G1, Some(Hint::ListDirected)),
    ("      WRITE (6) I", Rule::G1, Some(Hint::ListDirected)),
    ("      PRINT *, 'HELLO'", Rule::G2, Some(Hint::ListDirected)),
    (
        "      WRITE (*,*) (I,J=1,5)",
        Rule::G2,
        Some(Hint::ListDirected),
    ),
    (
        "      IF (I.GT.0) PRINT *, I",
        Rule::G1,
        Some(Hint::ListDirected),
    ),
    ("      WRITE (6,10,ERR=99) I", Rule::G1, Some(Hint::Control)),
    ("      CALL SOLVE (A,N)", Rule::G2, Some(Hint::Subroutine)),
    (
        "      IF (N.GT.0) CALL SOLVE (A,N)",
        Rule::G1,
        Some(Hint::Subroutine),
    ),
    (
        "      SUBROUTINE SOLVE (A,N)",
        Rule::G2,
        Some(Hint::Subroutine),
    ),
    ("      CALL EXIT", Rule::G2, Some(Hint::Exit)),
    ("      IF (N.EQ.0) RETURN", Rule::G1, Some(Hint::Return)),
    ("      READ (5,10) (A(I),I=1,N)", Rule::G2, Some(Hint::Read)),
    (
        "      IF (N.EQ.0) READ (5,10) N",
        Rule::G1,
        Some(Hint::Read),
    ),
    ("      REWIND 7", Rule::G2, Some(Hint::Files)),
    ("      IF (N.EQ.0) EXIT", Rule::G1, Some(Hint::Leave)),
    ("      CYCLE", Rule::G1, Some(Hint::Leave)),
    ("      ASSIGN 10 TO L", Rule::G2, Some(Hint::Assigned)),
    ("      GO TO L,(10,20)", Rule::G1, Some(Hint::Assigned)),
    ("      DO", Rule::G1, Some(Hint::Forever)),
    ("      END PROGRAM P", Rule::G1, Some(Hint::End)),
    (
        "      PROGRAM P(INPUT,OUTPUT)",
        Rule::G1,
        Some(Hint::Program),
    ),
    (
        "      WRITE (6,10) 'N =',N",
        Rule::G1,
        Some(Hint::Characters),
    ),
    (
        "      WRITE (6,10) N,'ITEMS'",
        Rule::G1,
        Some(Hint::Characters),
    ),
    ("      IF (C.EQ.'A') STOP", Rule::G1, Some(Hint::Characters)),
    ("      CHARACTER*80 LINE", Rule::G2, Some(Hint::Characters)),
    ("      X=1.5", Rule::G1, Some(Hint::RealConstant)),
    ("      X=1.", Rule::G1, Some(Hint::RealConstant)),
    ("      X=Y*.5D0", Rule::G1, Some(Hint::RealConstant)),
    ("      EPS=1E-6", Rule::G1, Some(Hint::RealConstant)),
    ("      X=10D3", Rule::G1, Some(Hint::RealConstant)),
    (
        "      PARAMETER (PI=3.14159)",
        Rule::G1,
        Some(Hint::RealConstant),
    ),
    ("      DO 10 X=0.,1.,.1", Rule::G1, Some(Hint::RealConstant)),
    ("      REAL X(100)", Rule::G2, Some(Hint::Real)),
    ("      DOUBLE PRECISION D", Rule::G2, Some(Hint::Real)),
    (
        "      IMPLICIT REAL*8 (A-H,O-Z)",
        Rule::G2,
        Some(Hint::Real),
    ),
    ("      COMMON /BLK/ A,B", Rule::G2, Some(Hint::Common)),
    ("      EQUIVALENCE (A,B)", Rule::G2, Some(Hint::Equivalence)),
    ("      SAVE", Rule::G2, Some(Hint::Needless)),
    ("      EXTERNAL F", Rule::G2, Some(Hint::Needless)),
    ("      PAUSE 7", Rule::G2, Some(Hint::Pause)),
    ("      IF (I.EQ.1) THEN X=1", Rule::K3, Some(Hint::Then)),
    ("      DO 10 I=1 10", Rule::K3, Some(Hint::Limits)),
    ("      DO 10 X=1,10", Rule::K3, Some(Hint::Declare)),
    ("      X=1", Rule::K3, Some(Hint::Declare)),
    ("   10 FORMAT (1H1,I5)", Rule::K11, Some(Hint::Hollerith)),
    ("   10 FORMAT (1X,F10.3)", Rule::K11, Some(Hint::RealEdit)),
    ("   10 FORMAT (1P3E12.4)", Rule::K11, Some(Hint::RealEdit)),
    ("   10 FORMAT (20A4)", Rule::K11, Some(Hint::Characters)),
    ("   10 FORMAT (T10,I5)", Rule::K11, Some(Hint::TabEdit)),
    ("   10 FORMAT (1X I5)", Rule::K11, Some(Hint::EditComma)),
    ("      WRITE (3,10) I", Rule::K11, Some(Hint::Unit)),
    ("      I=IFIX(J)", Rule::K13, Some(Hint::Conversion)),
    ("      I=SQRT(J)", Rule::K13, Some(Hint::Root)),
    ("      I=2*-3", Rule::G1, None),
    ("      GO TO 10.", Rule::G1, None),
    (
        "      I=2*(3                                                            SEQ00010",
        Rule::G1,
        None,
    ),
    ("      STOP 'A == 1.5 & 5HELLO ! ; B'", Rule::G1, None),
    ("      IF (I.EQ.1.AND.J.EQ.2) K=3", Rule::G1, None),
    ("      DO 10 E5=1,10", Rule::G1, None),
    ("      GO TO (10,20),I1", Rule::G1, None),
    ("      WRITE (6,'(F5.1,5HHELLO)') I", Rule::G1, None),
    ("      PRINT '(I5)', I", Rule::G1, None),
    ("      DATA A/5*1/,I/2/", Rule::G1, None),
    ("      INTEGER A(10,5),E2", Rule::G1, None),
    ("      LOGICAL L1", Rule::G1, None),
    ("      PARAMETER (N=5)", Rule::G1, None),
    ("      IF (L) GO TO 10", Rule::G1, None),
    ("      CALLS=2", Rule::G1, None),
    ("      IF (L) CALLS=2", Rule::G1, None),
    ("      PROGRAM P", Rule::G1, None),
    ("      END", Rule::G1, None),
    ("      F(N)=N*2", Rule::G1, None),
    ("      X1=E5", Rule::G1, None),
    ("      WRITE (6,10) (A(I),I=1,N)", Rule::G1, None),
    ("      DO WHILE (I.LT.10)", Rule::G1, None),
    ("      READ=2*-3", Rule::G2, None),
    ("      CALLS=I", Rule::G2, None),
    ("   10 CONTINUE", Rule::K1, None),
    ("      GO TO 10", Rule::K2, None),
    ("      INTEGER A(N)", Rule::K6, None),
    ("      WRITE (6,10) I", Rule::K11, None),
    ("      WRITE (UNIT=6,FMT=10) I", Rule::K11, None),
    ("   10 FORMAT (1X,'F5.1 5HELLO',I5)", Rule::K11, None),
    ("      I=NINT(J)", Rule::K13, None),
    ("   00 I=1", Rule::C2, None),
    ("      I=~", Rule::C1, None),
    ("   101+2", Rule::C3, None),
    ("      STOP 'A ! B", Rule::C6, None),
];

const FAULTS: &[(&str, FaultKind, Option<Hint>)] = &[
    ("      GO TO 10", FaultKind::F4, Some(Hint::Turns)),
    (
        "      IX = mod (IX*16807, 2147483647)",
        FaultKind::F2,
        Some(Hint::Product),
    ),
    (
        "      IF (L) IR(1)=MOD(IR(1)*25173+13849,65536)",
        FaultKind::F2,
        Some(Hint::Product),
    ),
    ("      I=MOD(J*K,M)+IABS(L)", FaultKind::F2, None),
    ("      I=MOD(J+K,M)", FaultKind::F2, None),
    ("      I=J*K", FaultKind::F2, None),
    ("      I=MOD(J*K,M)", FaultKind::F1, None),
];

#[test]
fn lines_have_their_hints(rt: HostRuntime) -> Result<(), Fail> {
    for (line, rule, hint) in LINES {
        assert_eq!(rt;
            hint_of(rt.alloc(), line.as_bytes(), *rule, 1)?,
            *hint,
            "{line}"
        );
    }
    Ok(())
}

#[test]
fn faults_have_their_hints(rt: HostRuntime) -> Result<(), Fail> {
    for (line, kind, hint) in FAULTS {
        assert_eq!(rt;
            hint_of_fault(rt.alloc(), line.as_bytes(), *kind, 1)?,
            *hint,
            "{line}"
        );
    }
    Ok(())
}
