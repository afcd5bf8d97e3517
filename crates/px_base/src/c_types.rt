/// A C integer type, or Cython's `bint`. Widths are those of LP64.
#[derive(Clone, Copy, PartialEq, Eq)]
pub enum CType {
    /// `signed char`, 8 bits.
    SChar,
    /// `unsigned char`, 8 bits.
    UChar,
    /// `char`, 8 bits, signed.
    Char,
    /// `short`, 16 bits.
    Short,
    /// `unsigned short`, 16 bits.
    UShort,
    /// `int`, 32 bits.
    Int,
    /// `unsigned int`, 32 bits.
    UInt,
    /// `long`, 64 bits.
    Long,
    /// `unsigned long`, 64 bits.
    ULong,
    /// `long long`, 64 bits.
    LongLong,
    /// `unsigned long long`, 64 bits.
    ULongLong,
    /// `Py_ssize_t`, 64 bits, signed.
    SsizeT,
    /// `size_t`, 64 bits.
    SizeT,
    /// `bint`, 32 bits, which holds 0 or 1.
    Bint,
}

/// A binary operator on whole numbers.
#[derive(Clone, Copy, PartialEq, Eq)]
pub enum BinOp {
    Add,
    Sub,
    Mul,
    /// `//`
    FloorDiv,
    /// `%`
    Mod,
    /// `<<`
    Shl,
    /// `>>`
    Shr,
    BitAnd,
    BitOr,
    BitXor,
}

/// A unary operator on whole numbers.
#[derive(Clone, Copy, PartialEq, Eq)]
pub enum UnOp {
    Plus,
    Minus,
    /// `~`
    Invert,
}

/// A comparison of two whole numbers.
#[derive(Clone, Copy, PartialEq, Eq)]
pub enum CmpOp {
    Lt,
    Gt,
    Le,
    Ge,
    Eq,
    Ne,
}

/// How the iterations of a `prange` are dealt to the members of a team.
#[derive(Clone, Copy, PartialEq, Eq)]
pub enum Schedule {
    Static,
    Dynamic,
    Guided,
}
