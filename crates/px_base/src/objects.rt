use crate::sequences::Chars;

/// A method of an object, by its name.
#[derive(Clone, Copy, PartialEq, Eq)]
pub enum Method {
    Append,
    Pop,
    Extend,
    Reverse,
    Get,
    Keys,
    Values,
    Items,
    Split,
    Join,
    Strip,
    /// Every other name: no object has such a method.
    Other,
}

/// A builtin function.
#[derive(Clone, Copy, PartialEq, Eq)]
pub enum Builtin {
    Print,
    Input,
    Len,
    Int,
    Str,
    Repr,
    Bool,
    List,
    Tuple,
    Abs,
    Min,
    Max,
    Range,
}

/// A constant that the code of a module names.
#[derive(Drop)]
pub enum Constant {
    Text(Chars),
    /// A whole number of 2^63 or more, below 2^127.
    Wide(i128),
    None,
}
