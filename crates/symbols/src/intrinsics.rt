//! The names of intrinsic functions (ANSI X3.9-1978, 15.3 and table 5).

ghost use Rattle.std.specs.Prelude.{◌≡◌, ◌∷◌, [], is_some};
ghost use Rattle.std.specs.List.{list_any};
ghost use Rattle.std.specs.Str.{bytes_eq};
ghost use Rattle.meaning.specs.Intrinsics.{intrinsic_named};

/// Whether a name is one of two.
fn is_either(name: &[u8], one: &[u8], other: &[u8]) -> bool
    ensures { result ≡ list_any (bytes_eq name.now) (one.now ∷ (other.now ∷ [])) }
{
    name == one || name == other
}

/// Whether a name is that of an intrinsic function of INTEGER (ANSI X3.9-1978, table 5).
pub fn is_intrinsic(name: &[u8]) -> bool
    ensures { result ≡ is_some (intrinsic_named name.now) }
{
    is_either(name, b"ABS", b"IABS")
        || name == b"MOD".as_slice()
        || is_either(name, b"MAX", b"MAX0")
        || is_either(name, b"MIN", b"MIN0")
        || is_either(name, b"SIGN", b"ISIGN")
        || is_either(name, b"DIM", b"IDIM")
}
