//! How far one has come in the characters of a statement (ANSI X3.9-1978, 3.1 and 4.8).

ghost use Rattle.std.specs.Prelude.{◌≡◌, ◌+◌, ◌<◌, ◌^◌};
ghost use Rattle.meaning.specs.Characters.{is_alphanumeric as is_alphanumeric_code};
ghost use Rattle.word_places.specs.Columns.{scan_behind, scan_start};

/// How far one has come in a statement.
#[derive(Clone, Copy)]
pub struct Scan {
    /// In a character constant.
    pub quoted: bool,
    /// Between the periods of an operator.
    pub dotted: bool,
    /// The letters and digits directly before begin the statement, or stand behind a closing
    /// parenthesis.
    pub leads: bool,
    /// The place at which they begin.
    pub start: usize,
}

/// Whether a character is a letter or a digit.
pub fn is_alphanumeric(code: u8) -> bool
    ensures { result ≡ is_alphanumeric_code code }
{
    code.is_ascii_uppercase() || code.is_ascii_digit()
}

impl Scan {
    /// In front of a statement.
    pub fn new() -> Scan
        ensures { result ≡ scan_start }
    {
        Scan {
            quoted: false,
            dotted: false,
            leads: true,
            start: 0,
        }
    }

    /// Behind a character at a place.
    pub fn behind(self, place: usize, code: u8) -> Scan
        requires { place + 1 < 2 ^ 64 }
        ensures { result ≡ scan_behind place code self }
    {
        if self.quoted {
            return Scan {
                quoted: code != b'\'',
                dotted: self.dotted,
                leads: false,
                start: place + 1,
            };
        }
        if is_alphanumeric(code) {
            return self;
        }
        Scan {
            quoted: code == b'\'',
            dotted: if code == b'.' {
                !self.dotted
            } else {
                self.dotted
            },
            leads: code == b')',
            start: place + 1,
        }
    }
}
