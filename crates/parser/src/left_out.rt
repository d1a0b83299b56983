//! The statements of FORTRAN 77 that are left out.

ghost use Rattle.std.specs.Prelude.{◌≡◌, nat_eq};
ghost use Rattle.std.specs.List.{starts_with, list_any};
ghost use Rattle.meaning.specs.Reading.{is_left_out};

use lexer::begins;

/// Whether a text begins with one of the words.
fn begins_with_any(text: &[u8], words: &[&[u8]]) -> bool
    ensures { result ≡ list_any (λ w. starts_with nat_eq text.now w.now) words.now }
{
    words.iter().any(|word| begins(text, word))
}

/// The beginnings of the FORTRAN 77 statements that are left out.
const LEFT_OUT: [&[u8]; 31] = [
    b"READ",
    b"OPEN",
    b"CLOSE",
    b"INQUIRE",
    b"BACKSPACE",
    b"REWIND",
    b"ENDFILE",
    b"REAL",
    b"DOUBLEPRECISION",
    b"COMPLEX",
    b"CHARACTER",
    b"SUBROUTINE",
    b"FUNCTION",
    b"CALL",
    b"RETURN",
    b"COMMON",
    b"EQUIVALENCE",
    b"SAVE",
    b"EXTERNAL",
    b"INTRINSIC",
    b"BLOCKDATA",
    b"ENTRY",
    b"ASSIGN",
    b"PAUSE",
    b"IMPLICITREAL",
    b"IMPLICITDOUBLEPRECISION",
    b"IMPLICITCOMPLEX",
    b"IMPLICITCHARACTER",
    b"PRINT*",
    b"WRITE(*,*)",
    b"WRITE(6,*)",
];

/// Whether a text begins as a statement that is left out.
#[tactic(auto, unfolding(meaning::specs::Reading::is_left_out))]
pub fn begins_left_out(text: &[u8]) -> bool
    ensures { result ≡ is_left_out text.now }
{
    begins_with_any(text, &LEFT_OUT)
}
