//! The parts of the text of an expression and of a type.
use crate::parts::{Part, Parts, Shown, show_list, show_one, show_three, show_two};
use px_base::{BinOp, CType, Chars, Sequence, UnOp};
use px_tree::{
    Argument, Axis, BaseType, CompareOp, Comparison, Entry, Expr, ExprForm, Item, Link, Trailer,
    Type,
};

impl Shown for Sequence<Chars> {
    fn show<'a>(&'a self, parts: &mut Parts<'a>) {
        show_list(parts, self.as_slice())
    }
}

impl Shown for i128 {
    fn show<'a>(&'a self, parts: &mut Parts<'a>) {
        parts.push(Part::Number(*self))
    }
}

impl Shown for Expr {
    fn show<'a>(&'a self, parts: &mut Parts<'a>) {
        parts.push(Part::Expr(self))
    }
}

/// Adds the parts of an expression.
pub fn expr_parts<'a>(parts: &mut Parts<'a>, tree: &'a Expr) {
    parts.node(tree.number, tree.at);
    form_parts(parts, &tree.form)
}

/// Adds the parts of a form of expression.
fn form_parts<'a>(parts: &mut Parts<'a>, form: &'a ExprForm) {
    match form {
        ExprForm::Name(name) => show_one(parts, "Name(", name),
        ExprForm::Number(number) => show_one(parts, "Number(", number),
        ExprForm::Text(texts) => show_one(parts, "Text(", texts),
        ExprForm::True => parts.word("True"),
        ExprForm::False => parts.word("False"),
        ExprForm::None => parts.word("None"),
        ExprForm::Sizeof(typing) => show_one(parts, "Sizeof(", typing),
        ExprForm::Tuple(items) => show_one(parts, "Tuple(", items),
        ExprForm::List(items) => show_one(parts, "List(", items),
        ExprForm::Dict(entries) => show_one(parts, "Dict(", entries),
        ExprForm::Row(atom, trailers) => show_two(parts, "Row(", atom, trailers),
        ExprForm::Unary(op, operand) => show_two(parts, "Unary(", op, operand),
        ExprForm::Cast(typing, operand) => show_two(parts, "Cast(", typing, operand),
        ExprForm::Chain(first, links) => show_two(parts, "Chain(", first, links),
        ExprForm::Compare(first, links) => show_two(parts, "Compare(", first, links),
        ExprForm::Not(operand) => show_one(parts, "Not(", operand),
        ExprForm::And(operands) => show_one(parts, "And(", operands),
        ExprForm::Or(operands) => show_one(parts, "Or(", operands),
        ExprForm::Conditional(value, test, otherwise) => {
            show_three(parts, "Conditional(", value, test, otherwise)
        }
    }
}

impl Shown for Entry {
    fn show<'a>(&'a self, parts: &mut Parts<'a>) {
        self.key.show(parts);
        parts.word(" = ");
        self.value.show(parts)
    }
}

impl Shown for Trailer {
    fn show<'a>(&'a self, parts: &mut Parts<'a>) {
        match self {
            Trailer::Attribute(name) => show_one(parts, "Attribute(", name),
            Trailer::Call(arguments) => show_one(parts, "Call(", arguments),
            Trailer::Subscript(items, comma) => show_two(parts, "Subscript(", items, comma),
        }
    }
}

impl Shown for Argument {
    fn show<'a>(&'a self, parts: &mut Parts<'a>) {
        self.name.show(parts);
        parts.word(" = ");
        self.value.show(parts)
    }
}

impl Shown for Item {
    fn show<'a>(&'a self, parts: &mut Parts<'a>) {
        match self {
            Item::Index(index) => show_one(parts, "Index(", index),
            Item::Slice(from, to, step) => show_three(parts, "Slice(", from, to, step),
            Item::Ellipsis => parts.word("Ellipsis"),
        }
    }
}

impl Shown for Link {
    fn show<'a>(&'a self, parts: &mut Parts<'a>) {
        self.op.show(parts);
        parts.word(" ");
        self.operand.show(parts)
    }
}

impl Shown for Comparison {
    fn show<'a>(&'a self, parts: &mut Parts<'a>) {
        self.op.show(parts);
        parts.word(" ");
        self.operand.show(parts)
    }
}

impl Shown for Type {
    fn show<'a>(&'a self, parts: &mut Parts<'a>) {
        parts.node(self.number, self.at);
        self.is_const.show(parts);
        parts.word(" ");
        self.base.show(parts);
        parts.word(" ");
        show_list(parts, self.axes.as_slice())
    }
}

impl Shown for BaseType {
    fn show<'a>(&'a self, parts: &mut Parts<'a>) {
        match self {
            BaseType::C(number) => show_one(parts, "C(", number),
            BaseType::Object => parts.word("Object"),
            BaseType::List => parts.word("List"),
            BaseType::Dict => parts.word("Dict"),
            BaseType::Tuple => parts.word("Tuple"),
            BaseType::Str => parts.word("Str"),
        }
    }
}

impl Shown for CType {
    fn show<'a>(&'a self, parts: &mut Parts<'a>) {
        parts.word(match self {
            CType::SChar => "SChar",
            CType::UChar => "UChar",
            CType::Char => "Char",
            CType::Short => "Short",
            CType::UShort => "UShort",
            CType::Int => "Int",
            CType::UInt => "UInt",
            CType::Long => "Long",
            CType::ULong => "ULong",
            CType::LongLong => "LongLong",
            CType::ULongLong => "ULongLong",
            CType::SsizeT => "SsizeT",
            CType::SizeT => "SizeT",
            CType::Bint => "Bint",
        })
    }
}

impl Shown for Axis {
    fn show<'a>(&'a self, parts: &mut Parts<'a>) {
        parts.word(match self {
            Axis::Strided => "Strided",
            Axis::Contiguous => "Contiguous",
        })
    }
}

impl Shown for BinOp {
    fn show<'a>(&'a self, parts: &mut Parts<'a>) {
        parts.word(match self {
            BinOp::Add => "Add",
            BinOp::Sub => "Sub",
            BinOp::Mul => "Mul",
            BinOp::FloorDiv => "FloorDiv",
            BinOp::Mod => "Mod",
            BinOp::Shl => "Shl",
            BinOp::Shr => "Shr",
            BinOp::BitAnd => "BitAnd",
            BinOp::BitOr => "BitOr",
            BinOp::BitXor => "BitXor",
        })
    }
}

impl Shown for UnOp {
    fn show<'a>(&'a self, parts: &mut Parts<'a>) {
        parts.word(match self {
            UnOp::Plus => "Plus",
            UnOp::Minus => "Minus",
            UnOp::Invert => "Invert",
        })
    }
}

impl Shown for CompareOp {
    fn show<'a>(&'a self, parts: &mut Parts<'a>) {
        parts.word(match self {
            CompareOp::Less => "Less",
            CompareOp::Greater => "Greater",
            CompareOp::LessEqual => "LessEqual",
            CompareOp::GreaterEqual => "GreaterEqual",
            CompareOp::Equal => "Equal",
            CompareOp::NotEqual => "NotEqual",
            CompareOp::In => "In",
            CompareOp::NotIn => "NotIn",
            CompareOp::Is => "Is",
            CompareOp::IsNot => "IsNot",
        })
    }
}
