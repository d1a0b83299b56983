//! The codes of a program's statement functions (ANSI X3.9-1978, 15.4).

ghost use Rattle.std.specs.Prelude.{◌≡◌, ◌≤◌, IfOk, [], length, option_map};
ghost use Rattle.meaning.specs.Syntax.{expr_tree, shape_tree};
ghost use Rattle.storage.specs.Checked.{items_in, names_in, tree_of};
ghost use Rattle.symbols.specs.Listed.{trees_at};
ghost use Rattle.compiler.specs.Ruly.{IsRuly};
ghost use Rattle.program.specs.Kept.{AreFunctions};
ghost use Rattle.ruly_laws.specs.Statements.{AreFunctionsCodable};
ghost use Rattle.lowering.specs.Functions.{AddsOwn, AreFirst, IsBodyCode, name_shown};
ghost use Rattle.lowering.specs.Functions.{setting_within};

use crate::codes::made;
use compiler::{Scene, code_of};
use expressions::{Function, Numbering};
use meaning::syntax::{Item, Shape};
use postfix::Code;
use std::alloc::{AllocError, Global};
use storage::CheckedProgram;

// The name that a statement may define a statement function by.
fn name_in(shape: &Shape) -> Option<&[u8]>
    ensures { option_map (λ n. n.now) result ≡ name_shown (shape_tree shape.now) }
{
    match shape {
        Shape::Assignment {
            name,
            subscripts: _,
            value: _,
        } => Some(name),
        Shape::Definition(name, _) => Some(name),
        _ => None,
    }
}

// The code of a statement function's expression. Of which kind its value is depends on its
// arguments, so the code doesn't tell.
fn function_code(
    alloc: Global,
    function: Function<'_>,
    program: &CheckedProgram,
) -> Result<Code, AllocError>
    requires { IsRuly (setting_within program.now function) (expr_tree function.body.now) }
    ensures { IfOk result (IsBodyCode program.now function.entry) }
{
    let scene = Scene {
        dummies: function.dummies,
        callable: function.at,
        cells: program.starts().len(),
    };
    made(code_of(alloc, function.body, false, scene, program))
}

// Puts the code of a statement function behind those of all before it; of another one none.
fn add_function(
    alloc: Global,
    codes: &mut Vec<Code>,
    name: &[u8],
    program: &CheckedProgram,
) -> Result<(), AllocError>
    requires codable { AreFunctionsCodable (tree_of program.now) }
    requires first { AreFirst program.now codes.old.items }
    ensures first { IfOk result (λ _. AreFirst program.now codes.new.items) }
    ensures own { IfOk result (λ _. AddsOwn program.now name.now
        (length codes.old.items) (length codes.new.items)) }
{
    match program.function(name) {
        Some(function) => {
            if function.at == codes.len() {
                codes.push(function_code(alloc, function, program)?)?;
            }
            Ok(())
        }
        None => Ok(()),
    }
}

// Puts the codes of the statement functions that statements define behind those of all before them.
fn add_functions(
    alloc: Global,
    codes: &mut Vec<Code>,
    items: &[&Item],
    program: &CheckedProgram,
) -> Result<(), AllocError>
    requires codable { AreFunctionsCodable (tree_of program.now) }
    requires none { codes.old.items ≡ [] }
    requires all { trees_at items.now ≡ items_in program.now }
    ensures first { IfOk result (λ _. AreFirst program.now codes.new.items) }
    ensures all { IfOk result (λ _.
        length (names_in program.now).definitions ≤ length codes.new.items) }
{
    for item in items {
        match name_in(&*item.form.shape) {
            Some(name) => add_function(alloc, codes, name, program)?,
            None => {}
        }
    }
    Ok(())
}

/// The codes of the statement functions, first to last.
pub(crate) fn functions_of(
    alloc: Global,
    items: &[&Item],
    program: &CheckedProgram,
) -> Result<Vec<Code>, AllocError>
    requires codable { AreFunctionsCodable (tree_of program.now) }
    requires all { trees_at items.now ≡ items_in program.now }
    ensures { IfOk result (λ codes. AreFunctions program.now codes.items) }
{
    let mut codes = Vec::new(alloc);
    match add_functions(alloc, &mut codes, items, program) {
        Ok(()) => Ok(codes),
        Err(AllocError) => {
            drop(codes);
            Err(AllocError)
        }
    }
}
