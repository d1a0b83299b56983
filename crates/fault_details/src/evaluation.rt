//! Expressions, evaluated from the left up to the first fault (ANSI X3.9-1978, 5.4, 6.1, 6.6 and
//! 15.3).

ghost use Rattle.std.specs.Prelude.{◌≡◌, Some, map, IfErr};
ghost use Rattle.meaning.specs.Intrinsics.{intrinsic_named};
ghost use Rattle.expressions.specs.Dimensions.{dimension};
ghost use Rattle.expressions.specs.Functions.{intrinsic};
ghost use Rattle.expressions.specs.Places.{left};
ghost use Rattle.storage.specs.Checked.{names_in};
ghost use Rattle.fault_details.specs.Details.{IsStop};

use crate::detail::{Detail, Stop, Subscripts};
use crate::given::{Given, dummy_value};
use expressions::{
    Arguments, Cells, Dimension, Intrinsic, Named, Numbering, as_integer, as_logical, callable,
    operated, signed,
};
use meaning::ending::{FaultKind, Value};
use meaning::number::number;
use meaning::syntax::{DataType, Expr, Exprs, Operator, Sign};
use storage::CheckedProgram;

/// Where an expression stands, and the values of the program's cells.
#[derive(Clone, Copy)]
pub(crate) struct Scene<'a> {
    pub program: &'a CheckedProgram,
    pub cells: &'a [i32],
    /// How many statement functions may be called there, the first so many.
    pub callable: usize,
    /// The dummy arguments of the statement function whose expression it stands in, and their
    /// values.
    pub dummies: Option<&'a Exprs>,
    pub arguments: Given,
}

/// How far a subscript list was evaluated: the subscripts, the cell that they lead to among those
/// of the array, and how many cells the next value of the next subscript is further.
#[derive(Clone, Copy)]
struct Passed {
    subscripts: Subscripts,
    cell: usize,
    stride: usize,
}

// The value that a number in a cell stands for.
fn typed(data_type: Option<DataType>, number: i32) -> Value {
    match data_type {
        Some(DataType::Logical) => Value::Bool(number != 0),
        Some(DataType::Integer) => Value::Int(number),
        None => Value::Int(number),
    }
}

/// The value of a cell.
pub(crate) fn cell_value<'a>(
    data_type: Option<DataType>,
    at: usize,
    scene: &Scene<'a>,
) -> Result<Value, Stop<'a>>
    ensures { IfErr result (IsStop scene.now.program.now) }
{
    match scene.cells.get(at) {
        Some(number) => Ok(typed(data_type, *number)),
        None => Err(Stop::Unknown),
    }
}

// The value of an integer constant.
fn number_value<'a>(digits: &[u8], scene: &Scene<'a>) -> Result<Value, Stop<'a>>
    ensures { IfErr result (IsStop scene.now.program.now) }
{
    match i32::try_from(number(digits)) {
        Ok(x) => Ok(Value::Int(x)),
        Err(_) => Err(Stop::Unknown),
    }
}

/// The value of a variable or a constant.
pub(crate) fn named_value<'a>(name: &[u8], scene: &Scene<'a>) -> Result<Value, Stop<'a>>
    ensures { IfErr result (IsStop scene.now.program.now) }
{
    match scene.program.named(name) {
        Named::Constant(x) => Ok(x),
        Named::Variable(cells) => match cells.place.cell() {
            Some(cell) => cell_value(cells.data_type, cell.0, scene),
            None => Err(Stop::Unknown),
        },
    }
}

// The value of a dummy argument.
fn argument_named(name: &[u8], scene: &Scene) -> Option<Value> {
    match scene.dummies {
        Some(dummies) => dummy_value(dummies, name, scene.arguments.values()),
        None => None,
    }
}

// The value of a name, which is a dummy argument's first.
fn name_value<'a>(name: &[u8], scene: &Scene<'a>) -> Result<Value, Stop<'a>>
    ensures { IfErr result (IsStop scene.now.program.now) }
{
    match argument_named(name, scene) {
        Some(x) => Ok(x),
        None => named_value(name, scene),
    }
}

// A sign and its operand.
fn with_sign<'a>(sign: Sign, operand: i32, scene: &Scene<'a>) -> Result<Value, Stop<'a>>
    ensures { IfErr result (IsStop scene.now.program.now) }
{
    match signed(sign, operand) {
        Ok(x) => Ok(x),
        Err(kind) => Err(Stop::Fault {
            kind,
            detail: Detail::Signed { sign, operand },
        }),
    }
}

/// An operator and its operands. As an operand of a logical operator a LOGICAL stands as 0 or 1.
pub(crate) fn with_operands<'a>(
    operator: Operator,
    left: i32,
    right: i32,
    scene: &Scene<'a>,
) -> Result<Value, Stop<'a>>
    ensures { IfErr result (IsStop scene.now.program.now) }
{
    match operated(operator, Value::Int(left), Value::Int(right)) {
        Ok(x) => Ok(x),
        Err(kind) => Err(Stop::Fault {
            kind,
            detail: Detail::Operands {
                operator,
                left,
                right,
            },
        }),
    }
}

// An intrinsic function and all of its arguments.
fn with_arguments<'a>(
    name: &'a [u8],
    function: Intrinsic,
    arguments: Arguments,
    scene: &Scene<'a>,
) -> Result<Value, Stop<'a>>
    requires { intrinsic_named name.now ≡ Some (intrinsic function) }
    ensures { IfErr result (IsStop scene.now.program.now) }
{
    match arguments.value(function) {
        Ok(x) => Ok(x),
        Err(kind) => Err(Stop::Fault {
            kind,
            detail: Detail::Function {
                name,
                function,
                arguments,
            },
        }),
    }
}

// Whether the left operand decides the value, which is that operand then.
fn is_decided(operator: Operator, left: Value) -> bool {
    match operator {
        Operator::And => !as_logical(left),
        Operator::Or => as_logical(left),
        _ => false,
    }
}

/// The value of an expression, or why there is none.
#[cycle(evaluation)]
pub(crate) fn value_in<'a>(expression: &'a Expr, scene: &Scene<'a>) -> Result<Value, Stop<'a>>
    ensures { IfErr result (IsStop scene.now.program.now) }
{
    match expression {
        Expr::Number(digits) => number_value(digits, scene),
        Expr::Truth(truth) => Ok(Value::Bool(*truth)),
        Expr::Name(name) => name_value(name, scene),
        Expr::Signed(sign, operand) => {
            let x = value_in(operand, scene)?;
            with_sign(*sign, as_integer(x), scene)
        }
        Expr::Not(operand) => {
            let x = value_in(operand, scene)?;
            Ok(Value::Bool(!as_logical(x)))
        }
        Expr::Binary(operator, left, right) => {
            let x = value_in(left, scene)?;
            if is_decided(*operator, x) {
                return Ok(x);
            }
            let y = value_in(right, scene)?;
            with_operands(*operator, as_integer(x), as_integer(y), scene)
        }
        Expr::Paren(operand) => value_in(operand, scene),
        Expr::Element(name, list) => match scene.program.array(name) {
            Some(array) => element_in(name, array, list, scene),
            None => reference_in(name, list, scene),
        },
        Expr::Call(name) => call_in(name, Given::none(), scene),
    }
}

/// The value of an element, or why there is none.
#[cycle(evaluation)]
pub(crate) fn element_in<'a>(
    name: &'a [u8],
    array: Cells<'a>,
    list: &'a Exprs,
    scene: &Scene<'a>,
) -> Result<Value, Stop<'a>>
    requires { (names_in scene.now.program.now).arrays name.now ≡ Some (left array.place) }
    ensures { IfErr result (IsStop scene.now.program.now) }
{
    let dimensions = array.place.dimensions();
    let passed = Passed {
        subscripts: Subscripts::none(),
        cell: array.place.first().unwrap_or(0),
        stride: 1,
    };
    let at = cell_in(name, dimensions, passed, list, scene)?;
    cell_value(array.data_type, at, scene)
}

// The cell of an element, its subscripts first to last behind those that were passed, or why there
// is none.
#[cycle(evaluation)]
fn cell_in<'a>(
    name: &'a [u8],
    dimensions: &'a [Dimension],
    passed: Passed,
    list: &'a Exprs,
    scene: &Scene<'a>,
) -> Result<usize, Stop<'a>>
    requires { (names_in scene.now.program.now).arrays name.now
        ≡ Some (map dimension dimensions.now) }
    ensures { IfErr result (IsStop scene.now.program.now) }
{
    match list {
        Exprs::Empty => Ok(passed.cell),
        Exprs::More(first, rest) => {
            let x = as_integer(value_in(first, scene)?);
            let next = subscripted(name, dimensions, passed, x, is_more(rest), scene)?;
            cell_in(name, dimensions, next, rest, scene)
        }
    }
}

// Whether there are expressions.
fn is_more(list: &Exprs) -> bool {
    match list {
        Exprs::Empty => false,
        Exprs::More(_, _) => true,
    }
}

// One subscript more, or why there is no cell: it is outside its bounds.
fn subscripted<'a>(
    array: &'a [u8],
    dimensions: &[Dimension],
    passed: Passed,
    subscript: i32,
    further: bool,
    scene: &Scene<'a>,
) -> Result<Passed, Stop<'a>>
    requires { (names_in scene.now.program.now).arrays array.now
        ≡ Some (map dimension dimensions.now) }
    ensures { IfErr result (IsStop scene.now.program.now) }
{
    let before = passed.subscripts;
    let bounds = match dimensions.get(before.values().len()) {
        Some(bounds) => *bounds,
        None => return Err(Stop::Unknown),
    };
    match bounds.above(subscript) {
        Some(above) => behind(passed, bounds, subscript, above, scene),
        None => Err(Stop::Fault {
            kind: FaultKind::F3,
            detail: Detail::Outside {
                array,
                before,
                subscript,
                bounds,
                further,
            },
        }),
    }
}

// What was passed behind a subscript, which stands so far above its lower bound.
fn behind<'a>(
    passed: Passed,
    bounds: Dimension,
    subscript: i32,
    above: u64,
    scene: &Scene<'a>,
) -> Result<Passed, Stop<'a>>
    ensures { IfErr result (IsStop scene.now.program.now) }
{
    match passed.subscripts.with(subscript) {
        Some(subscripts) => Ok(Passed {
            subscripts,
            cell: passed
                .cell
                .saturating_add(passed.stride.saturating_mul(above as usize)),
            stride: passed.stride.saturating_mul(bounds.extent() as usize),
        }),
        None => Err(Stop::Unknown),
    }
}

// The value of a function with arguments, or why there is none.
#[cycle(evaluation)]
fn reference_in<'a>(name: &'a [u8], list: &'a Exprs, scene: &Scene<'a>) -> Result<Value, Stop<'a>>
    ensures { IfErr result (IsStop scene.now.program.now) }
{
    if scene.program.function(name).is_some() {
        let given = arguments_in(Given::none(), list, scene)?;
        return call_in(name, given, scene);
    }
    match Intrinsic::named(name) {
        Some(function) => intrinsic_in(name, function, Arguments::None, list, scene),
        None => Err(Stop::Unknown),
    }
}

// The values of arguments, first to last behind those so far, or why there are none.
#[cycle(evaluation)]
fn arguments_in<'a>(so_far: Given, list: &'a Exprs, scene: &Scene<'a>) -> Result<Given, Stop<'a>>
    ensures { IfErr result (IsStop scene.now.program.now) }
{
    match list {
        Exprs::Empty => Ok(so_far),
        Exprs::More(first, rest) => {
            let x = value_in(first, scene)?;
            match so_far.with(x) {
                Some(more) => arguments_in(more, rest, scene),
                None => Err(Stop::Unknown),
            }
        }
    }
}

// The value of a statement function. A fault within it isn't told.
#[cycle(evaluation)]
fn call_in<'a>(name: &[u8], arguments: Given, scene: &Scene<'a>) -> Result<Value, Stop<'a>>
    ensures { IfErr result (IsStop scene.now.program.now) }
{
    match callable(name, scene.callable, scene.program) {
        Some(function) => {
            let inside = Scene {
                program: scene.program,
                cells: scene.cells,
                callable: function.at,
                dummies: Some(function.dummies),
                arguments,
            };
            match value_in(function.body, &inside) {
                Ok(x) => Ok(x),
                Err(_) => Err(Stop::Unknown),
            }
        }
        None => Err(Stop::Unknown),
    }
}

// The value of an intrinsic function, its arguments first to last behind those so far, or why there
// is none.
#[cycle(evaluation)]
fn intrinsic_in<'a>(
    name: &'a [u8],
    function: Intrinsic,
    so_far: Arguments,
    list: &'a Exprs,
    scene: &Scene<'a>,
) -> Result<Value, Stop<'a>>
    requires { intrinsic_named name.now ≡ Some (intrinsic function) }
    ensures { IfErr result (IsStop scene.now.program.now) }
{
    match list {
        Exprs::Empty => with_arguments(name, function, so_far, scene),
        Exprs::More(first, rest) => {
            let x = as_integer(value_in(first, scene)?);
            intrinsic_in(name, function, so_far.with(function, x), rest, scene)
        }
    }
}
