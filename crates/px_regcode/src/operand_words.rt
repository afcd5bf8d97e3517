use crate::operands::{Order, Register, StopKind};
use px_base::{BinOp, Builtin, CType, CmpOp, Kind, Method, UnOp};

/// An operand of an instruction, as a listing spells it.
#[derive(Clone, Copy)]
pub(crate) enum Operand<'a> {
    Register(Register),
    RegisterOrNone(Option<Register>),
    Registers(&'a [Register]),
    Target(u32),
    Constant(u32),
    Number(u32),
    Small(u8),
    Whole(i128),
    Flag(bool),
    Binary(BinOp),
    Unary(UnOp),
    Compare(CmpOp),
    Type(CType),
    TypeOrNone(Option<CType>),
    Method(Method),
    Builtin(Builtin),
    Order(Order),
    Stop(StopKind),
    Kind(Kind),
    Kinds(&'a [Kind]),
}

/// The operands of an instruction, in their order.
#[derive(Clone, Copy)]
pub(crate) enum Row<'a> {
    Nothing,
    One(Operand<'a>),
    Two(Operand<'a>, Operand<'a>),
    Three(Operand<'a>, Operand<'a>, Operand<'a>),
    Four(Operand<'a>, Operand<'a>, Operand<'a>, Operand<'a>),
    Five(Operand<'a>, Operand<'a>, Operand<'a>, Operand<'a>, Operand<'a>),
    Six(Operand<'a>, Operand<'a>, Operand<'a>, Operand<'a>, Operand<'a>, Operand<'a>),
}
