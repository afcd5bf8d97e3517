/// A word that is no identifier (Python Language Reference, 2.3.1 Keywords).
#[derive(Clone, Copy, PartialEq, Eq)]
pub enum Keyword {
    False,
    None,
    True,
    And,
    As,
    Break,
    Cdef,
    Cimport,
    Continue,
    Cpdef,
    Def,
    Elif,
    Else,
    Except,
    For,
    From,
    Global,
    If,
    Import,
    In,
    Inline,
    Is,
    Not,
    Or,
    Pass,
    Raise,
    Return,
    Sizeof,
    While,
    With,
}

/// An operator or a delimiter (Python Language Reference, 2.5 Operators and 2.6 Delimiters).
#[derive(Clone, Copy, PartialEq, Eq)]
pub enum Operator {
    /// `+`
    Plus,
    /// `-`
    Minus,
    /// `*`
    Star,
    /// `//`
    DoubleSlash,
    /// `%`
    Percent,
    /// `<<`
    LeftShift,
    /// `>>`
    RightShift,
    /// `&`
    Ampersand,
    /// `|`
    Bar,
    /// `^`
    Caret,
    /// `~`
    Tilde,
    /// `<`
    Less,
    /// `>`
    Greater,
    /// `<=`
    LessEqual,
    /// `>=`
    GreaterEqual,
    /// `==`
    DoubleEqual,
    /// `!=`
    NotEqual,
    /// `(`
    OpenParenthesis,
    /// `)`
    CloseParenthesis,
    /// `[`
    OpenBracket,
    /// `]`
    CloseBracket,
    /// `{`
    OpenBrace,
    /// `}`
    CloseBrace,
    /// `,`
    Comma,
    /// `:`
    Colon,
    /// `.`
    Point,
    /// `;`
    Semicolon,
    /// `@`
    At,
    /// `=`
    Equal,
    /// `?`
    Question,
    /// `...`
    Ellipsis,
    /// `+=`
    PlusEqual,
    /// `-=`
    MinusEqual,
    /// `*=`
    StarEqual,
    /// `//=`
    DoubleSlashEqual,
    /// `%=`
    PercentEqual,
    /// `&=`
    AmpersandEqual,
    /// `|=`
    BarEqual,
    /// `^=`
    CaretEqual,
    /// `<<=`
    LeftShiftEqual,
    /// `>>=`
    RightShiftEqual,
}
