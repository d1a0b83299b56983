//! The intrinsic functions of INTEGER (ANSI X3.9-1978, 15.3, 15.10 and table 5).

ghost use Rattle.std.specs.Prelude.{◌≡◌, ℤ, List, [], ◌∷◌, option_map, FitsSigned, SomeIff};
ghost use Rattle.std.specs.Int.{w32};
ghost use Rattle.meaning.specs.Intrinsics.{intrinsic_named, magnitude as magnitude_of};
ghost use Rattle.meaning.specs.Intrinsics.{greater as greater_of, lesser as lesser_of};
ghost use Rattle.meaning.specs.Intrinsics.{with_sign_of, remainder as remainder_function};
ghost use Rattle.meaning.specs.Intrinsics.{positive_difference as difference_function};
ghost use Rattle.meaning.specs.Intrinsics.{of_two as value_of_two};
ghost use Rattle.expressions.specs.Functions.{intrinsic, value_from};

use crate::integer_of;
use meaning::ending::{FaultKind, Value};

/// An intrinsic function.
#[derive(Clone, Copy, Debug, PartialEq, Eq)]
pub enum Intrinsic {
    /// `ABS` and `IABS`.
    Absolute,
    /// `MOD`.
    Remainder,
    /// `MAX` and `MAX0`.
    Greatest,
    /// `MIN` and `MIN0`.
    Least,
    /// `SIGN` and `ISIGN`.
    SignTransfer,
    /// `DIM` and `IDIM`.
    PositiveDifference,
}

impl Intrinsic {
    /// The intrinsic function that a name is the name of.
    pub fn named(name: &[u8]) -> Option<Intrinsic>
        ensures { option_map intrinsic result ≡ intrinsic_named name.now }
    {
        if name == b"ABS".as_slice() || name == b"IABS".as_slice() {
            return Some(Intrinsic::Absolute);
        }
        if name == b"MOD".as_slice() {
            return Some(Intrinsic::Remainder);
        }
        if name == b"MAX".as_slice() || name == b"MAX0".as_slice() {
            return Some(Intrinsic::Greatest);
        }
        if name == b"MIN".as_slice() || name == b"MIN0".as_slice() {
            return Some(Intrinsic::Least);
        }
        if name == b"SIGN".as_slice() || name == b"ISIGN".as_slice() {
            return Some(Intrinsic::SignTransfer);
        }
        if name == b"DIM".as_slice() || name == b"IDIM".as_slice() {
            return Some(Intrinsic::PositiveDifference);
        }
        None
    }

    // The value of two arguments.
    fn of_two(self, a: i32, b: i32) -> Result<Value, FaultKind>
        ensures { result ≡ value_of_two (intrinsic self) a b }
    {
        match self {
            Intrinsic::Absolute => integer_of(magnitude(a)),
            Intrinsic::Remainder => remainder(a, b),
            Intrinsic::Greatest => integer_of(Some(greater(a, b))),
            Intrinsic::Least => integer_of(Some(lesser(a, b))),
            Intrinsic::SignTransfer => integer_of(sign_transfer(a, b)),
            Intrinsic::PositiveDifference => positive_difference(a, b),
        }
    }
}

// A number without its sign.
fn magnitude(a: i32) -> Option<i32>
    ensures { SomeIff result (FitsSigned w32 (magnitude_of a)) (magnitude_of a) }
{
    if a < 0 { a.checked_neg() } else { Some(a) }
}

// What a quotient towards zero leaves.
fn remainder(a: i32, b: i32) -> Result<Value, FaultKind>
    ensures { result ≡ value_of_two remainder_function a b }
{
    if b == 0 {
        return Err(FaultKind::F1);
    }
    integer_of(Some(a.wrapping_rem(b)))
}

// The first number with the sign of the second; a second of 0 is positive.
fn sign_transfer(a: i32, b: i32) -> Option<i32>
    ensures { SomeIff result (FitsSigned w32 (with_sign_of a b)) (with_sign_of a b) }
{
    if b < 0 {
        if a < 0 { Some(a) } else { a.checked_neg() }
    } else {
        magnitude(a)
    }
}

fn greater(a: i32, b: i32) -> i32
    ensures { result ≡ greater_of a b }
{
    if a < b { b } else { a }
}

fn lesser(a: i32, b: i32) -> i32
    ensures { result ≡ lesser_of a b }
{
    if b < a { b } else { a }
}

// How far the first number stands above the second, or 0.
fn positive_difference(a: i32, b: i32) -> Result<Value, FaultKind>
    ensures { result ≡ value_of_two difference_function a b }
{
    if b < a {
        integer_of(a.checked_sub(b))
    } else {
        Ok(Value::Int(0))
    }
}

/// What an intrinsic function keeps of its arguments so far: none, one or the extreme of all, or
/// the first two.
#[derive(Clone, Copy, Debug, PartialEq, Eq)]
pub enum Arguments {
    None,
    One(i32),
    Two(i32, i32),
}

impl Arguments {
    /// One argument more.
    pub fn with(self, function: Intrinsic, x: i32) -> Arguments
        ensures { (zs : List ℤ) → value_from (intrinsic function) result zs
            ≡ value_from (intrinsic function) self (x ∷ zs) }
    {
        match self {
            Arguments::None => Arguments::One(x),
            Arguments::One(a) => match function {
                Intrinsic::Greatest => Arguments::One(greater(a, x)),
                Intrinsic::Least => Arguments::One(lesser(a, x)),
                Intrinsic::Absolute => Arguments::Two(a, x),
                Intrinsic::Remainder => Arguments::Two(a, x),
                Intrinsic::SignTransfer => Arguments::Two(a, x),
                Intrinsic::PositiveDifference => Arguments::Two(a, x),
            },
            Arguments::Two(a, b) => Arguments::Two(a, b),
        }
    }

    /// The value of the function where these are all.
    #[cold]
    #[inline(never)]
    pub fn value(self, function: Intrinsic) -> Result<Value, FaultKind>
        ensures { result ≡ value_from (intrinsic function) self [] }
    {
        match self {
            Arguments::None => integer_of(Some(0)),
            Arguments::One(a) => function.of_two(a, a),
            Arguments::Two(a, b) => function.of_two(a, b),
        }
    }
}
