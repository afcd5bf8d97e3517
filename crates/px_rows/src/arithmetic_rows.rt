//! Rows of C arithmetic: words with spaces between them, the call first and what it gives last.
ghost use Rattle.std.specs.Prelude.{◌≢◌};
ghost use Rattle.px_base.specs.declared.c_types.CType.TheVariants.{Bint};
ghost use Rattle.px_ctypes.specs.Operators.{IsOperand};
ghost use Rattle.px_ctypes.specs.Types.{IsInRange};

use crate::rows::{Row, Unjudged};
use px_base::{BinOp, CType, CmpOp, Fault, Kind, Said, UnOp};
use px_ctypes::{binary, common, compare, convert, from_object, promoted, size_of, unary, wrap};

/// Reads a number.
fn number(row: &mut Row) -> i128 {
    match row.field().parse::<i128>() {
        Ok(number) => number,
        Err(_) => {
            row.leave(Unjudged::NoRow);
            0
        }
    }
}

/// The words of the types.
const TYPES: [(&str, CType); 14] = [
    ("schar", CType::SChar),
    ("uchar", CType::UChar),
    ("char", CType::Char),
    ("short", CType::Short),
    ("ushort", CType::UShort),
    ("int", CType::Int),
    ("uint", CType::UInt),
    ("long", CType::Long),
    ("ulong", CType::ULong),
    ("longlong", CType::LongLong),
    ("ulonglong", CType::ULongLong),
    ("ssize", CType::SsizeT),
    ("size", CType::SizeT),
    ("bint", CType::Bint),
];

/// Reads a type.
fn c_type(row: &mut Row) -> CType {
    row.one_of(&TYPES, CType::Int)
}

/// Reads a type other than `bint`.
fn arithmetic_type(row: &mut Row) -> CType
    ensures { result ≢ Bint }
{
    let t = c_type(row);
    if t == CType::Bint {
        row.leave(Unjudged::NoRow);
        return CType::Int;
    }
    t
}

/// Gives the word of a type.
fn show_type(row: &mut Row, t: CType) {
    for (word, other) in TYPES.iter() {
        if *other == t {
            row.word(word);
        }
    }
}

/// Reads a value of a type.
fn value(row: &mut Row, t: CType) -> i128
    requires { t ≢ Bint }
    ensures { IsInRange t result }
{
    let number = number(row);
    let wrapped = wrap(t, number);
    if wrapped != number {
        row.leave(Unjudged::NoRow);
    }
    wrapped
}

/// Reads a right operand.
fn operand(row: &mut Row, op: BinOp, t: CType) -> i128
    requires { t ≢ Bint }
    ensures { IsOperand op t result }
{
    match op {
        BinOp::Shl | BinOp::Shr => number(row),
        _ => value(row, t),
    }
}

/// The word of a fault: the row of its text, where it has the kind of that row.
fn fault_word(fault: &Fault) -> &'static str {
    match (fault.kind, &fault.said) {
        (Kind::ZeroDivisionError, Said::Row(1)) => "row1",
        (Kind::OverflowError, Said::Row(2)) => "row2",
        (Kind::OverflowError, Said::Row(3)) => "row3",
        (Kind::ValueError, Said::Row(5)) => "row5",
        _ => "another fault",
    }
}

/// Gives an outcome: a number, or the row of a fault.
fn outcome(row: &mut Row, outcome: Result<i128, Fault>) {
    match outcome {
        Ok(number) => row.whole_number(number),
        Err(fault) => row.word(fault_word(&fault)),
    }
}

/// The words of the binary operators.
const BINARY_OPERATORS: [(&str, BinOp); 10] = [
    ("+", BinOp::Add),
    ("-", BinOp::Sub),
    ("*", BinOp::Mul),
    ("//", BinOp::FloorDiv),
    ("%", BinOp::Mod),
    ("<<", BinOp::Shl),
    (">>", BinOp::Shr),
    ("&", BinOp::BitAnd),
    ("|", BinOp::BitOr),
    ("^", BinOp::BitXor),
];

/// What a word says of a setting.
const SETTINGS: [(&str, bool); 2] = [("on", true), ("off", false)];

/// `binary TYPE OPERATOR LEFT RIGHT CDIVISION`
fn binary_row(row: &mut Row) {
    let t = arithmetic_type(row);
    let op = row.one_of(&BINARY_OPERATORS, BinOp::Add);
    let a = value(row, t);
    let b = operand(row, op, t);
    let cdivision = row.one_of(&SETTINGS, false);
    outcome(row, binary(op, t, a, b, cdivision));
}

/// The words of the unary operators.
const UNARY_OPERATORS: [(&str, UnOp); 3] = [
    ("+", UnOp::Plus),
    ("-", UnOp::Minus),
    ("~", UnOp::Invert),
];

/// `unary TYPE OPERATOR OPERAND`
fn unary_row(row: &mut Row) {
    let t = arithmetic_type(row);
    let op = row.one_of(&UNARY_OPERATORS, UnOp::Plus);
    let a = value(row, t);
    row.whole_number(unary(op, t, a));
}

/// The words of the comparisons.
const COMPARISONS: [(&str, CmpOp); 6] = [
    ("<", CmpOp::Lt),
    (">", CmpOp::Gt),
    ("<=", CmpOp::Le),
    (">=", CmpOp::Ge),
    ("==", CmpOp::Eq),
    ("!=", CmpOp::Ne),
];

/// `compare TYPE LEFT OPERATOR TYPE RIGHT`; both operands are converted to their common type.
fn compare_row(row: &mut Row) {
    let left = c_type(row);
    let a = number(row);
    let op = row.one_of(&COMPARISONS, CmpOp::Lt);
    let right = c_type(row);
    let b = number(row);
    let t = common(left, right);
    let holds = compare(op, convert(t, a), convert(t, b));
    row.whole_number(i128::from(holds));
}

/// `wrap TYPE NUMBER`
fn wrap_row(row: &mut Row) {
    let t = arithmetic_type(row);
    let number = number(row);
    row.whole_number(wrap(t, number));
}

/// `convert TYPE NUMBER`
fn convert_row(row: &mut Row) {
    let t = c_type(row);
    let number = number(row);
    row.whole_number(convert(t, number));
}

/// `object TYPE NUMBER`
fn object_row(row: &mut Row) {
    let t = arithmetic_type(row);
    let number = number(row);
    outcome(row, from_object(t, number));
}

/// `size TYPE`
fn size_row(row: &mut Row) {
    let size = size_of(c_type(row));
    row.whole_number(size as i128);
}

/// `promoted TYPE`
fn promoted_row(row: &mut Row) {
    let t = c_type(row);
    show_type(row, promoted(t));
}

/// `common TYPE TYPE`
fn common_row(row: &mut Row) {
    let left = c_type(row);
    let right = c_type(row);
    show_type(row, common(left, right));
}

/// A call of the arithmetic.
#[derive(Clone, Copy)]
enum Call {
    Binary,
    Unary,
    Compare,
    Wrap,
    Convert,
    Object,
    Size,
    Promoted,
    Common,
}

/// The words of the calls.
const CALLS: [(&str, Call); 9] = [
    ("binary", Call::Binary),
    ("unary", Call::Unary),
    ("compare", Call::Compare),
    ("wrap", Call::Wrap),
    ("convert", Call::Convert),
    ("object", Call::Object),
    ("size", Call::Size),
    ("promoted", Call::Promoted),
    ("common", Call::Common),
];

/// A call of the arithmetic, and what it gives.
pub fn arithmetic_row(row: &mut Row) {
    match row.one_of(&CALLS, Call::Size) {
        Call::Binary => binary_row(row),
        Call::Unary => unary_row(row),
        Call::Compare => compare_row(row),
        Call::Wrap => wrap_row(row),
        Call::Convert => convert_row(row),
        Call::Object => object_row(row),
        Call::Size => size_row(row),
        Call::Promoted => promoted_row(row),
        Call::Common => common_row(row),
    }
}
