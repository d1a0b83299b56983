//! Programs from the texts of their statements.

use in_order::program_in;
use program::Program;
use std::alloc::{AllocError, Global};
use std::process::Abort;

/// Adds a statement, on an initial line and as many continuation lines as it needs.
fn add_statement(source: &mut Vec<u8>, statement: &[u8]) -> Result<(), AllocError> {
    let mut rest = statement;
    for at in 0..20 {
        if at == 0 {
            source.extend_from_slice(b"      ".as_slice())?;
        } else {
            source.extend_from_slice(b"     1".as_slice())?;
        }
        let (line, more) = rest.split_at(rest.len().min(66));
        source.extend_from_slice(line)?;
        source.push(b'\n')?;
        if more.is_empty() {
            return Ok(());
        }
        rest = more;
    }
    Ok(())
}

/// The source of statements, and of END behind them.
pub fn source_of(alloc: Global, texts: &[&[u8]]) -> Result<Vec<u8>, AllocError> {
    let mut source = Vec::new(alloc);
    for text in texts {
        add_statement(&mut source, text)?;
    }
    add_statement(&mut source, b"END".as_slice())?;
    Ok(source)
}

/// The program of statements, each of which begins on the line behind the one before.
pub fn program_of(rt: &impl Abort, alloc: Global, texts: &[&[u8]]) -> Program {
    let source = source_of(alloc, texts).expect(rt, "memory");
    program_in(alloc, &source).expect(rt, "a program that breaks no rule")
}
