//! What a fault was about, as text: `A(2,11,..), BOUNDS 1 TO 10`, `7/0`, `-(-2147483648)`,
//! `MOD(7,0)`, `STEP 0`, `5, EDIT DESCRIPTOR L3` or `5, NO EDIT DESCRIPTOR`.

ghost use Rattle.std.specs.Prelude.{◌≡◌, ◌≤◌, ◌++◌, OnOk, codes, length};
ghost use Rattle.std.specs.Fmt.{decimal, signed_decimal};
ghost use Rattle.meaning.specs.Records.{logical_text};
ghost use Rattle.meaning.specs.Spelling.{operator_text};
ghost use Rattle.fault_details.specs.Subscripts.{subscripts_of};
ghost use Rattle.fault_details.specs.Texts.{arguments_text, bounds_text, detail_text, element_text};
ghost use Rattle.fault_details.specs.Texts.{field_text, further_text, last_text, least_text};
ghost use Rattle.fault_details.specs.Texts.{operand_text, passed_text, sign_text, value_text};

use crate::detail::{Detail, Field, Subscripts};
use expressions::{Arguments, Dimension};
use itoa::Buffer;
use meaning::ending::Value;
use meaning::syntax::{Operator, Sign};
use std::alloc::AllocError;

// Puts a text behind others.
fn add(bytes: &mut Vec<u8>, text: &str) -> Result<(), AllocError>
    ensures { OnOk result (bytes.new.items ≡ bytes.old.items ++ text.now) }
{
    bytes.extend_from_slice(text.as_bytes())
}

// Puts a number.
fn add_number(bytes: &mut Vec<u8>, number: i32) -> Result<(), AllocError>
    ensures { OnOk result (bytes.new.items ≡ bytes.old.items ++ signed_decimal number) }
{
    add(bytes, Buffer::new().format(number))
}

// Puts an operand, a negative one in parentheses.
fn add_operand(bytes: &mut Vec<u8>, operand: i32) -> Result<(), AllocError>
    ensures { OnOk result (bytes.new.items ≡ bytes.old.items ++ operand_text operand) }
{
    if operand < 0 {
        add(bytes, "(")?;
        add_number(bytes, operand)?;
        add(bytes, ")")
    } else {
        add_number(bytes, operand)
    }
}

// How an operator is written.
fn symbol(operator: Operator) -> &'static str
    ensures { result.now ≡ operator_text operator }
{
    match operator {
        Operator::Power => "**",
        Operator::Multiply => "*",
        Operator::Divide => "/",
        Operator::Add => "+",
        Operator::Subtract => "-",
        Operator::Less => ".LT.",
        Operator::LessOrEqual => ".LE.",
        Operator::Equal => ".EQ.",
        Operator::NotEqual => ".NE.",
        Operator::GreaterOrEqual => ".GE.",
        Operator::Greater => ".GT.",
        Operator::And => ".AND.",
        Operator::Or => ".OR.",
        Operator::Equivalent => ".EQV.",
        Operator::NotEquivalent => ".NEQV.",
    }
}

// How a sign is written.
fn sign_symbol(sign: Sign) -> &'static str
    ensures { result.now ≡ sign_text sign }
{
    match sign {
        Sign::Plus => "+",
        Sign::Minus => "-",
    }
}

// Puts an operator between its operands.
fn add_operands(
    bytes: &mut Vec<u8>,
    operator: Operator,
    left: i32,
    right: i32,
) -> Result<(), AllocError>
    ensures { OnOk result (bytes.new.items ≡
        bytes.old.items ++ operand_text left ++ operator_text operator ++ operand_text right) }
{
    add_operand(bytes, left)?;
    add(bytes, symbol(operator))?;
    add_operand(bytes, right)
}

// Puts a sign in front of its operand.
fn add_signed(bytes: &mut Vec<u8>, sign: Sign, operand: i32) -> Result<(), AllocError>
    ensures { OnOk result
        (bytes.new.items ≡ bytes.old.items ++ sign_text sign ++ operand_text operand) }
{
    add(bytes, sign_symbol(sign))?;
    add_operand(bytes, operand)
}

// Puts arguments.
fn add_arguments(bytes: &mut Vec<u8>, arguments: Arguments) -> Result<(), AllocError>
    ensures { OnOk result (bytes.new.items ≡ bytes.old.items ++ arguments_text arguments) }
{
    match arguments {
        Arguments::None => Ok(()),
        Arguments::One(a) => add_number(bytes, a),
        Arguments::Two(a, b) => {
            add_number(bytes, a)?;
            add(bytes, ",")?;
            add_number(bytes, b)
        }
    }
}

// Puts a function with its arguments.
fn add_function(bytes: &mut Vec<u8>, name: &[u8], arguments: Arguments) -> Result<(), AllocError>
    ensures { OnOk result (bytes.new.items ≡
        bytes.old.items ++ name.now ++ codes "(" ++ arguments_text arguments ++ codes ")") }
{
    bytes.extend_from_slice(name)?;
    add(bytes, "(")?;
    add_arguments(bytes, arguments)?;
    add(bytes, ")")
}

// Puts subscripts in front of another one.
fn add_passed(bytes: &mut Vec<u8>, values: &[i32]) -> Result<(), AllocError>
    ensures { OnOk result (bytes.new.items ≡ bytes.old.items ++ passed_text values.now) }
{
    for value in values {
        add_number(bytes, *value)?;
        add(bytes, ",")?;
    }
    Ok(())
}

// Puts two points where subscripts weren't evaluated.
fn add_further(bytes: &mut Vec<u8>, further: bool) -> Result<(), AllocError>
    ensures { OnOk result (bytes.new.items ≡ bytes.old.items ++ further_text further) }
{
    if further { add(bytes, ",..") } else { Ok(()) }
}

// Puts the last subscript that was evaluated.
fn add_last(bytes: &mut Vec<u8>, subscript: i32, further: bool) -> Result<(), AllocError>
    ensures { OnOk result (bytes.new.items ≡ bytes.old.items ++ last_text subscript further) }
{
    add_number(bytes, subscript)?;
    add_further(bytes, further)
}

// Puts an element.
fn add_element(
    bytes: &mut Vec<u8>,
    array: &[u8],
    before: Subscripts,
    subscript: i32,
    further: bool,
) -> Result<(), AllocError>
    ensures { OnOk result (bytes.new.items ≡
        bytes.old.items ++ element_text array.now (subscripts_of before) subscript further) }
{
    bytes.extend_from_slice(array)?;
    add(bytes, "(")?;
    add_passed(bytes, before.values())?;
    add_last(bytes, subscript, further)?;
    add(bytes, ")")
}

// Puts bounds.
fn add_bounds(bytes: &mut Vec<u8>, bounds: Dimension) -> Result<(), AllocError>
    ensures { OnOk result (bytes.new.items ≡ bytes.old.items ++ bounds_text bounds) }
{
    add(bytes, ", BOUNDS ")?;
    add_number(bytes, bounds.lower)?;
    add(bytes, " TO ")?;
    add_number(bytes, bounds.upper)
}

// How a logical value is written.
fn truth_text(truth: bool) -> &'static str
    ensures { result.now ≡ logical_text truth }
{
    if truth { "T" } else { "F" }
}

// Puts a value of an output list.
fn add_value(bytes: &mut Vec<u8>, value: Value) -> Result<(), AllocError>
    ensures { OnOk result (bytes.new.items ≡ bytes.old.items ++ value_text value) }
{
    match value {
        Value::Int(number) => add_number(bytes, number),
        Value::Bool(truth) => add(bytes, truth_text(truth)),
    }
}

// Puts a width or a number of digits.
fn add_count(bytes: &mut Vec<u8>, count: u16) -> Result<(), AllocError>
    ensures { OnOk result (bytes.new.items ≡ bytes.old.items ++ decimal count) }
{
    add(bytes, Buffer::new().format(count))
}

// Puts the least number of digits of an integer, where it isn't 1.
fn add_least(bytes: &mut Vec<u8>, least: u16) -> Result<(), AllocError>
    ensures { OnOk result (bytes.new.items ≡ bytes.old.items ++ least_text least) }
{
    if least == 1 {
        Ok(())
    } else {
        add(bytes, ".")?;
        add_count(bytes, least)
    }
}

// Puts an edit descriptor.
fn add_field(bytes: &mut Vec<u8>, field: Field) -> Result<(), AllocError>
    ensures { OnOk result (bytes.new.items ≡ bytes.old.items ++ field_text field) }
{
    match field {
        Field::Integer { width, least } => {
            add(bytes, "I")?;
            add_count(bytes, width)?;
            add_least(bytes, least)
        }
        Field::Logical { width } => {
            add(bytes, "L")?;
            add_count(bytes, width)
        }
    }
}

// Puts a value and the edit descriptor that it meets.
fn add_clash(bytes: &mut Vec<u8>, value: Value, field: Field) -> Result<(), AllocError>
    ensures { OnOk result (bytes.new.items ≡
        bytes.old.items ++ value_text value ++ codes ", EDIT DESCRIPTOR " ++ field_text field) }
{
    add_value(bytes, value)?;
    add(bytes, ", EDIT DESCRIPTOR ")?;
    add_field(bytes, field)
}

// Puts a value that no edit descriptor edits.
fn add_unedited(bytes: &mut Vec<u8>, value: Value) -> Result<(), AllocError>
    ensures { OnOk result (bytes.new.items ≡
        bytes.old.items ++ value_text value ++ codes ", NO EDIT DESCRIPTOR") }
{
    add_value(bytes, value)?;
    add(bytes, ", NO EDIT DESCRIPTOR")
}

/// Puts what a fault was about behind a text. Where memory was refused, a beginning of it may stand
/// there.
pub fn add_text(bytes: &mut Vec<u8>, detail: Detail) -> Result<(), AllocError>
    ensures { OnOk result (bytes.new.items ≡ bytes.old.items ++ detail_text detail.entry) }
{
    match detail {
        Detail::Outside {
            array,
            before,
            subscript,
            bounds,
            further,
        } => {
            add_element(bytes, array, before, subscript, further)?;
            add_bounds(bytes, bounds)
        }
        Detail::Operands {
            operator,
            left,
            right,
        } => add_operands(bytes, operator, left, right),
        Detail::Signed { sign, operand } => add_signed(bytes, sign, operand),
        Detail::Function {
            name,
            function: _,
            arguments,
        } => add_function(bytes, name, arguments),
        Detail::Step => add(bytes, "STEP 0"),
        Detail::Clash { value, field } => add_clash(bytes, value, field),
        Detail::Unedited { value } => add_unedited(bytes, value),
    }
}
