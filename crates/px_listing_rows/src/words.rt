//! The words of rows: names of variants, each at the number of its variant.

use px_base::{BinOp, Builtin, CType, CmpOp, Kind, Method, UnOp};
use px_regcode::{Order, StopKind};

/// The number of a word in a list of words; their count where it isn't there.
pub fn place(words: &str, word: &str) -> usize {
    let mut at = 0usize;
    for other in words.split(' ') {
        if other == word {
            return at;
        }
        at = at.saturating_add(1);
    }
    at
}

/// The element of a table at the place that a word has in a list of words; the first one where it isn't there.
fn chosen<T: Copy>(table: &[T], words: &str, word: &str, first: T) -> T {
    table.get(place(words, word)).copied().unwrap_or(first)
}

pub fn binary(word: &str) -> BinOp {
    let table = [
        BinOp::Add,
        BinOp::Sub,
        BinOp::Mul,
        BinOp::FloorDiv,
        BinOp::Mod,
        BinOp::Shl,
        BinOp::Shr,
        BinOp::BitAnd,
        BinOp::BitOr,
        BinOp::BitXor,
    ];
    chosen(
        &table,
        "Add Sub Mul FloorDiv Mod Shl Shr BitAnd BitOr BitXor",
        word,
        BinOp::Add,
    )
}

pub fn unary(word: &str) -> UnOp {
    let table = [UnOp::Plus, UnOp::Minus, UnOp::Invert];
    chosen(&table, "Plus Minus Invert", word, UnOp::Plus)
}

pub fn compare(word: &str) -> CmpOp {
    let table = [
        CmpOp::Lt,
        CmpOp::Gt,
        CmpOp::Le,
        CmpOp::Ge,
        CmpOp::Eq,
        CmpOp::Ne,
    ];
    chosen(&table, "Lt Gt Le Ge Eq Ne", word, CmpOp::Lt)
}

pub fn ctype(word: &str) -> CType {
    let table = [
        CType::SChar,
        CType::UChar,
        CType::Char,
        CType::Short,
        CType::UShort,
        CType::Int,
        CType::UInt,
        CType::Long,
        CType::ULong,
        CType::LongLong,
        CType::ULongLong,
        CType::SsizeT,
        CType::SizeT,
        CType::Bint,
    ];
    chosen(
        &table,
        "SChar UChar Char Short UShort Int UInt Long ULong LongLong ULongLong SsizeT SizeT Bint",
        word,
        CType::SChar,
    )
}

pub fn method(word: &str) -> Method {
    let table = [
        Method::Append,
        Method::Pop,
        Method::Extend,
        Method::Reverse,
        Method::Get,
        Method::Keys,
        Method::Values,
        Method::Items,
        Method::Split,
        Method::Join,
        Method::Strip,
        Method::Other,
    ];
    chosen(
        &table,
        "Append Pop Extend Reverse Get Keys Values Items Split Join Strip Other",
        word,
        Method::Append,
    )
}

pub fn builtin(word: &str) -> Builtin {
    let table = [
        Builtin::Print,
        Builtin::Input,
        Builtin::Len,
        Builtin::Int,
        Builtin::Str,
        Builtin::Repr,
        Builtin::Bool,
        Builtin::List,
        Builtin::Tuple,
        Builtin::Abs,
        Builtin::Min,
        Builtin::Max,
        Builtin::Range,
    ];
    chosen(
        &table,
        "Print Input Len Int Str Repr Bool List Tuple Abs Min Max Range",
        word,
        Builtin::Print,
    )
}

pub fn kind(word: &str) -> Kind {
    let table = [
        Kind::IndexError,
        Kind::ValueError,
        Kind::ZeroDivisionError,
        Kind::OverflowError,
        Kind::TypeError,
        Kind::KeyError,
        Kind::EOFError,
        Kind::NameError,
        Kind::UnboundLocalError,
        Kind::AttributeError,
        Kind::RuntimeError,
        Kind::RecursionError,
        Kind::OverlapError,
        Kind::LimitError,
    ];
    chosen(
        &table,
        "IndexError ValueError ZeroDivisionError OverflowError TypeError KeyError EOFError NameError UnboundLocalError \
         AttributeError RuntimeError RecursionError OverlapError LimitError",
        word,
        Kind::IndexError,
    )
}

pub fn order(word: &str) -> Order {
    if word == "C" {
        Order::C
    } else {
        Order::Fortran
    }
}

pub fn stop(word: &str) -> StopKind {
    if word == "Break" {
        StopKind::Break
    } else {
        StopKind::Return
    }
}
