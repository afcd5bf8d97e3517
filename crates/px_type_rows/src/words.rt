//! The words of the text of a typed module.

use px_base::{BinOp, Builtin, CType, CmpOp, Constant, UnOp};
use px_tree::{Comparing, Conversion, Lock, TypedHead, ValueType};

fn c_type(t: CType) -> &'static str {
    match t {
        CType::SChar => "signed_char",
        CType::UChar => "unsigned_char",
        CType::Char => "char",
        CType::Short => "short",
        CType::UShort => "unsigned_short",
        CType::Int => "int",
        CType::UInt => "unsigned_int",
        CType::Long => "long",
        CType::ULong => "unsigned_long",
        CType::LongLong => "long_long",
        CType::ULongLong => "unsigned_long_long",
        CType::SsizeT => "Py_ssize_t",
        CType::SizeT => "size_t",
        CType::Bint => "bint",
    }
}

pub(crate) fn value_type(t: ValueType) -> &'static str {
    match t {
        ValueType::C(t) => c_type(t),
        ValueType::Object => "object",
        ValueType::View(_) => "view",
        ValueType::Void => "void",
    }
}

fn binary(op: BinOp) -> &'static str {
    match op {
        BinOp::Add => "+",
        BinOp::Sub => "-",
        BinOp::Mul => "*",
        BinOp::FloorDiv => "//",
        BinOp::Mod => "%25",
        BinOp::Shl => "<<",
        BinOp::Shr => ">>",
        BinOp::BitAnd => "&",
        BinOp::BitOr => "%7C",
        BinOp::BitXor => "^",
    }
}

fn unary(op: UnOp) -> &'static str {
    match op {
        UnOp::Plus => "+",
        UnOp::Minus => "-",
        UnOp::Invert => "~",
    }
}

fn compared(op: CmpOp) -> &'static str {
    match op {
        CmpOp::Lt => "<",
        CmpOp::Gt => ">",
        CmpOp::Le => "<=",
        CmpOp::Ge => ">=",
        CmpOp::Eq => "==",
        CmpOp::Ne => "!=",
    }
}

fn conversion(how: Conversion) -> &'static str {
    match how {
        Conversion::ToC(_) => "to",
        Conversion::ToObject(_) => "box",
        Conversion::FromObject(_) => "unbox",
        Conversion::Truth => "truth",
        Conversion::ViewOfObject(_) => "view",
        Conversion::ViewOfView(_) => "fit",
    }
}

/// The name of a form.
pub(crate) fn name(head: TypedHead) -> &'static str {
    match head {
        TypedHead::Literal(_, _) => "literal",
        TypedHead::Sizeof(_) => "sizeof",
        TypedHead::Local(_, _) => "local",
        TypedHead::Given(_) => "given",
        TypedHead::Kept(_) => "kept",
        TypedHead::Converted(_) => "converted",
        TypedHead::Cast(_) => "cast",
        TypedHead::Steps(_) => "steps",
        TypedHead::Unary(_, _) => "unary",
        TypedHead::Binary(_, _, _) => "binary",
        TypedHead::Compare(_) => "compare",
        TypedHead::Comparisons => "comparisons",
        TypedHead::Not => "not",
        TypedHead::And(_) => "and",
        TypedHead::Or(_) => "or",
        TypedHead::Conditional(_) => "conditional",
        TypedHead::Call(_, _) => "call",
        TypedHead::Abs(_) => "abs",
        TypedHead::Min(_) => "min",
        TypedHead::Max(_) => "max",
        TypedHead::Builtin(_) => "builtin",
        TypedHead::Expression => "expression",
        TypedHead::Assign => "assign",
        TypedHead::AssignEach => "assign_each",
        TypedHead::Augment(_) => "augment",
        TypedHead::Declare => "declare",
        TypedHead::Declarator(_, _) => "declarator",
        TypedHead::Pass => "pass",
        TypedHead::Break => "break",
        TypedHead::Continue => "continue",
        TypedHead::Return => "return",
        TypedHead::Global => "global",
        TypedHead::If(_, _) => "if",
        TypedHead::Arm => "arm",
        TypedHead::While => "while",
        TypedHead::Range(_) => "range",
        _ => "other",
    }
}

/// The sign of an operator, or the word of a conversion or a builtin.
pub(crate) fn sign(head: TypedHead) -> &'static str {
    match head {
        TypedHead::Unary(op, _) => unary(op),
        TypedHead::Binary(op, _, _) => binary(op),
        TypedHead::Augment(op) => binary(op),
        TypedHead::Compare(Comparing::C(op, _)) => compared(op),
        TypedHead::Converted(how) => conversion(how),
        TypedHead::Builtin(Builtin::Print) => "print",
        _ => "-",
    }
}

/// The type at which a comparison works or a variable is declared, or else that of what a form gives.
pub(crate) fn type_word(head: TypedHead) -> &'static str {
    match head {
        TypedHead::Compare(Comparing::C(_, t)) => c_type(t),
        TypedHead::Sizeof(t) => c_type(t),
        TypedHead::Declarator(_, t) => value_type(t),
        _ => value_type(head.value_type()),
    }
}

fn flag(holds: bool) -> i128 {
    if holds { 1 } else { 0 }
}

/// A count as a number.
pub(crate) fn whole(count: usize) -> i128 {
    i128::try_from(count).unwrap_or(-1)
}

/// The value of a literal, a slot, the place of a function, or a count; whether `//` and `%` truncate; whether an `else` stands there.
pub(crate) fn number(head: TypedHead) -> (i128, i128) {
    match head {
        TypedHead::Literal(_, n) => (n, 0),
        TypedHead::Local(slot, _) => (whole(slot), 0),
        TypedHead::Declarator(slot, _) => (whole(slot), 0),
        TypedHead::Call(place, _) => (whole(place), 0),
        TypedHead::Binary(_, _, truncates) => (0, flag(truncates)),
        TypedHead::If(arms, has_else) => (whole(arms), flag(has_else)),
        TypedHead::Range(arguments) => (whole(arguments), 0),
        _ => (0, 0),
    }
}

pub(crate) fn lock(lock: Lock) -> &'static str {
    match lock {
        Lock::Unwritten => "-",
        Lock::Nogil => "nogil",
        Lock::WithGil => "gil",
    }
}

pub(crate) fn exceptions(is_noexcept: bool) -> &'static str {
    if is_noexcept { "noexcept" } else { "-" }
}

pub(crate) fn constant(constant: &Constant) -> &'static str {
    match constant {
        Constant::None => " None",
        _ => " other",
    }
}
