//! How many instructions the codes of expressions have.

use crate::kept::sources::program_of;
use postfix::Code;
use program::{Action, Program};
use std::test::*;

/// The code of the value of the assignment at a line.
fn value_at(program: &Program, line: u32) -> Option<&Code> {
    match program.action(line) {
        Some(Action::Assign(_, code)) => Some(code),
        _ => None,
    }
}

/// Constants and operators are an instruction each, but for an operator with a constant or a
/// variable behind it, and `+`, `-` and `*` with an element of the last kind behind it, which are
/// one together, unless it is `**` with a constant; and an operator on two variables, or on a
/// variable and a constant, is one. A variable is one alone or as a subscript, and so is an element
/// whose subscripts, up to three, are variables, or sums or differences of a variable and a
/// constant behind it. Of more such subscripts the first three are one, and the others one for each
/// two, or for one that is left; the load of the element is one more. `MOD` of a constant takes
/// that along. An operator on two constants is a constant, and constants that are added and
/// subtracted one after another are one instruction.
const LENGTHS: &[(&[u8], usize)] = &[
    (b"I=1", 1),
    (b"I=J", 1),
    (b"I=J+K", 1),
    (b"I=J+7", 1),
    (b"I=J+K*7", 3),
    (b"I=7*K+J", 3),
    (b"I=J**7", 3),
    (b"I=-J", 2),
    (b"I=A(J)", 1),
    (b"I=B(J,K)", 1),
    (b"I=A(J+1)", 1),
    (b"I=B(J-1,K+2)", 1),
    (b"I=C(J,K,L)", 1),
    (b"I=C(J-1,K,L+2)", 1),
    (b"I=C(J,K,L*2)", 4),
    (b"I=C(J,K*2,L)", 5),
    (b"I=D(J,K,L,I-1)", 3),
    (b"I=E(J,K,L,I,J+1)", 3),
    (b"I=F(J,K,L,I,J,K+1)", 4),
    (b"I=G(J,K,L,I,J+1,K,L-1)", 4),
    (b"I=A(2+J)", 5),
    (b"I=A(J*2)", 4),
    (b"I=A(J)+B(I,J)*B(J,K)", 4),
    (b"I=J-A(K)/A(J)", 5),
    (b"I=MOD(J,7)", 2),
    (b"I=MOD(7,J)", 3),
    (b"I=6*7-8+9", 1),
    (b"I=2147483647+1", 2),
    (b"I=J*K-8+9", 2),
    (b"I=J*K+6*7-8+9", 2),
    (b"I=J*K/7-8*9+10-11*J", 6),
    (b"I=J*K-8-2147483647", 3),
    (
        b"K=I+1-I*2+I-3+I*1-4+5-I+6*7-8+9-I+10*2-11+12-13+I-14+15-I+16-I/17",
        18,
    ),
];

const VECTORS: &[u8] = b"INTEGER A(9),B(9,9),C(9,9,9),D(2,2,2,2)";

const ARRAYS: &[u8] = b"INTEGER E(2,2,2,2,2),F(2,2,2,2,2,2),G(2,2,2,2,2,2,2)";

#[test]
fn lengths(rt: HostRuntime) {
    for &(text, length) in LENGTHS {
        let program = program_of(&rt, rt.alloc(), &[VECTORS, ARRAYS, text]);
        let found = value_at(&program, 3).map(|code| code.len());
        assert!(rt; found == Some(length), "{text:?}");
        drop(program);
    }
}

/// 440 times 1 with `**` between: 1,320 characters with `I=`, on 20 lines. Each 1 and each `**` is
/// an instruction.
#[test]
fn powers(rt: HostRuntime) -> Result<(), Fail> {
    let mut text = Vec::new(rt.alloc());
    text.extend_from_slice(b"I=1".as_slice())?;
    for _ in 1..440 {
        text.extend_from_slice(b"**1".as_slice())?;
    }
    assert!(rt; text.len() == 1320);
    let program = program_of(&rt, rt.alloc(), &[text.as_slice()]);
    let found = value_at(&program, 1).map(|code| code.len());
    assert!(rt; found == Some(879));
    Ok(())
}
