use px_base::{BinOp, Chars, Span, UnOp};
use px_tree::{Axis, BaseType, CompareOp, FunctionKind, Lock};

/// How a function says what it gives; its type, where one is written, is a part.
#[derive(Clone, Copy, PartialEq, Eq)]
pub enum ResultKind {
    /// No type is written.
    Unwritten,
    Void,
    Typed,
}

/// What a function says of exceptions; its value, where one is written, is a part.
#[derive(Clone, Copy, PartialEq, Eq)]
pub enum ExceptionKind {
    /// Nothing is written.
    Unwritten,
    Noexcept,
    /// `except value`
    Except,
    /// `except ? value`
    Maybe,
    /// `except *`
    Any,
}

/// A function without its parts.
#[derive(Clone, Copy)]
pub struct FunctionHead<'a> {
    /// The place of its `def`, `cdef` or `cpdef`.
    pub header_at: Span,
    pub kind: FunctionKind,
    pub is_inline: bool,
    pub gives: ResultKind,
    pub name: &'a [char],
    pub exception: ExceptionKind,
    pub lock: Lock,
    /// How many decorators it has.
    pub decorators: usize,
    /// How many parameters it has.
    pub params: usize,
}

/// A node of the parse tree without its parts. Each variant says which parts it has, in the order of the text.
#[derive(Clone, Copy)]
pub enum Head<'a> {
    /// So many leading comments, and what stands in the module.
    Module(usize),
    /// A leading comment line, which has the number 0.
    Comment(&'a [u8]),
    /// `import a.b`, or `import a.b as c`; by `cimport` where the flag is set. It has no parts.
    Import(bool, &'a [Chars], Option<&'a [char]>),
    /// `from a.b import c`; by `cimport` where the flag is set. The imported names.
    ImportFrom(bool, &'a [Chars]),
    /// A name that `from` imports, and the one that `as` gives it. It has no parts.
    ImportedName(&'a [char], Option<&'a [char]>),
    /// The decorators, the type of the result where one is written, the parameters, the value of the exception where one is
    /// written, and the statements of the body.
    Function(FunctionHead<'a>),
    /// `@name.name(value)`, the place of its first name, and its value. It has no parts.
    Decorator(&'a [Chars], Span, bool),
    /// A parameter, and whether `not None` stands behind it: its type, where one is written.
    Param(&'a [char], bool),
    /// Whether it is `const`, its base and its axes. It has no parts.
    Type(bool, BaseType, &'a [Axis]),
    /// So many targets, and the value.
    Assign(usize),
    /// The target and the value.
    Augment(BinOp),
    Pass,
    Break,
    Continue,
    /// The value, where there is one.
    Return,
    /// The kind of the exception: its text, where there is one.
    Raise(&'a [char]),
    /// The names, which have no places of their own. It has no parts.
    Global(&'a [Chars]),
    /// So many arms, and the statements of `else`, where the flag says that there is one.
    If(usize, bool),
    /// The test and the statements.
    While,
    /// The target, the value and the statements.
    For,
    /// The statements.
    WithGil,
    /// The statements.
    WithNogil,
    /// The declaration.
    Declare,
    /// The declarations.
    DeclareGroup,
    /// The test and the statements.
    Arm,
    /// The type and the declarators.
    Declaration,
    /// A declared variable: its value, where it is given one.
    Declarator(&'a [char]),
    Name(&'a [char]),
    Number(i128),
    /// The contents of adjacent strings.
    Text(&'a [Chars]),
    True,
    False,
    None,
    /// The type.
    Sizeof,
    /// The items.
    Tuple,
    /// The items.
    ListDisplay,
    /// The entries.
    Dict,
    /// The atom and its trailers.
    Row,
    /// The operand.
    Unary(UnOp),
    /// The type and the operand.
    Cast,
    /// The first operand and the links.
    Chain,
    /// The first operand and the comparisons.
    Compare,
    /// The operand.
    Not,
    /// The operands.
    And,
    /// The operands.
    Or,
    /// The value, the test and the other value.
    Conditional,
    /// The key and the value. It has the number 0 and the place of its key.
    Entry,
    /// `.name`. It has no parts, the number 0 and the place of its row.
    Attribute(&'a [char]),
    /// The arguments. It has the number 0 and the place of its row.
    Call,
    /// The items, and whether a comma stands behind the last. It has the number 0 and the place of its row.
    Subscript(bool),
    /// The name of a keyword argument: the value. It has the number 0 and the place of its value.
    Argument(Option<&'a [char]>),
    /// The index. It has the number 0 and the place of its row.
    Index,
    /// Whether `from`, `to` and `step` are written: those that are. It has the number 0 and the place of its row.
    Slice(bool, bool, bool),
    /// It has no parts, the number 0 and the place of its row.
    Ellipsis,
    /// The right operand. It has the number 0 and the place of its operand.
    Link(BinOp),
    /// The right operand. It has the number 0 and the place of its operand.
    Comparison(CompareOp),
}
