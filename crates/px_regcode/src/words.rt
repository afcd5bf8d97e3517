//! How the operands of instructions are spelled.

ghost use Rattle.std.specs.Prelude.{◌≡◌};
ghost use Rattle.px_base.specs.Lines.{kind_name};
ghost use Rattle.px_regcode.specs.Words.{binary_word, builtin_word, compare_word, flag_word, method_word, order_word, stop_word, type_word, unary_word};

use crate::operands::{Order, StopKind};
use px_base::{BinOp, Builtin, CType, CmpOp, Kind, Method, UnOp};

/// A binary operator.
pub(crate) fn binary_word(op: BinOp) -> &'static str
    ensures { result.now ≡ binary_word op }
{
    match op {
        BinOp::Add => "+",
        BinOp::Sub => "-",
        BinOp::Mul => "*",
        BinOp::FloorDiv => "//",
        BinOp::Mod => "%",
        BinOp::Shl => "<<",
        BinOp::Shr => ">>",
        BinOp::BitAnd => "&",
        BinOp::BitOr => "|",
        BinOp::BitXor => "^",
    }
}

/// A unary operator.
pub(crate) fn unary_word(op: UnOp) -> &'static str
    ensures { result.now ≡ unary_word op }
{
    match op {
        UnOp::Plus => "+",
        UnOp::Minus => "-",
        UnOp::Invert => "~",
    }
}

/// A comparison.
pub(crate) fn compare_word(op: CmpOp) -> &'static str
    ensures { result.now ≡ compare_word op }
{
    match op {
        CmpOp::Lt => "<",
        CmpOp::Gt => ">",
        CmpOp::Le => "<=",
        CmpOp::Ge => ">=",
        CmpOp::Eq => "==",
        CmpOp::Ne => "!=",
    }
}

/// A C type, with `_` for each space.
pub(crate) fn type_word(t: CType) -> &'static str
    ensures { result.now ≡ type_word t }
{
    match t {
        CType::SChar => "signed_char",
        CType::UChar => "unsigned_char",
        CType::Char => "char",
        CType::Short => "short",
        CType::UShort => "unsigned_short",
        CType::Int => "int",
        CType::UInt => "unsigned_int",
        CType::Long => "long",
        CType::ULong => "unsigned_long",
        CType::LongLong => "long_long",
        CType::ULongLong => "unsigned_long_long",
        CType::SsizeT => "Py_ssize_t",
        CType::SizeT => "size_t",
        CType::Bint => "bint",
    }
}

/// The name of a method.
pub(crate) fn method_word(method: Method) -> &'static str
    ensures { result.now ≡ method_word method }
{
    match method {
        Method::Append => "append",
        Method::Pop => "pop",
        Method::Extend => "extend",
        Method::Reverse => "reverse",
        Method::Get => "get",
        Method::Keys => "keys",
        Method::Values => "values",
        Method::Items => "items",
        Method::Split => "split",
        Method::Join => "join",
        Method::Strip => "strip",
        Method::Other => "other",
    }
}

/// The name of a builtin.
pub(crate) fn builtin_word(builtin: Builtin) -> &'static str
    ensures { result.now ≡ builtin_word builtin }
{
    match builtin {
        Builtin::Print => "print",
        Builtin::Input => "input",
        Builtin::Len => "len",
        Builtin::Int => "int",
        Builtin::Str => "str",
        Builtin::Repr => "repr",
        Builtin::Bool => "bool",
        Builtin::List => "list",
        Builtin::Tuple => "tuple",
        Builtin::Abs => "abs",
        Builtin::Min => "min",
        Builtin::Max => "max",
        Builtin::Range => "range",
    }
}

/// An order of cells.
pub(crate) fn order_word(order: Order) -> &'static str
    ensures { result.now ≡ order_word order }
{
    match order {
        Order::C => "c",
        Order::Fortran => "fortran",
    }
}

/// How an iteration stops.
pub(crate) fn stop_word(kind: StopKind) -> &'static str
    ensures { result.now ≡ stop_word kind }
{
    match kind {
        StopKind::Break => "break",
        StopKind::Return => "return",
    }
}

/// The kind of a fault.
pub(crate) fn kind_word(kind: Kind) -> &'static str
    ensures { result.now ≡ kind_name kind }
{
    match kind {
        Kind::IndexError => "IndexError",
        Kind::ValueError => "ValueError",
        Kind::ZeroDivisionError => "ZeroDivisionError",
        Kind::OverflowError => "OverflowError",
        Kind::TypeError => "TypeError",
        Kind::KeyError => "KeyError",
        Kind::EOFError => "EOFError",
        Kind::NameError => "NameError",
        Kind::UnboundLocalError => "UnboundLocalError",
        Kind::AttributeError => "AttributeError",
        Kind::RuntimeError => "RuntimeError",
        Kind::RecursionError => "RecursionError",
        Kind::OverlapError => "OverlapError",
        Kind::LimitError => "LimitError",
    }
}

/// A flag.
pub(crate) fn flag_word(holds: bool) -> &'static str
    ensures { result.now ≡ flag_word holds }
{
    if holds { "1" } else { "0" }
}
