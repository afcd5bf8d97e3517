use crate::letting_go::let_go;
use crate::typings::Type;
use px_base::{BinOp, Chars, Sequence, Span, UnOp};
use sqlite_items::{Boxed, Items};

/// The contents of adjacent strings, in the order of the text.
pub type Texts = Sequence<Chars>;

/// A comparison (Python Language Reference, 6.10 Comparisons).
#[derive(Clone, Copy, PartialEq, Eq)]
pub enum CompareOp {
    /// `<`
    Less,
    /// `>`
    Greater,
    /// `<=`
    LessEqual,
    /// `>=`
    GreaterEqual,
    /// `==`
    Equal,
    /// `!=`
    NotEqual,
    In,
    /// `not in`
    NotIn,
    Is,
    /// `is not`
    IsNot,
}

/// An expression, and what stands where the grammar has targets or a list of expressions (Python Language Reference, 6).
#[cycle(expression)]
pub struct Expr {
    pub number: u32,
    pub at: Span,
    pub form: ExprForm,
}

impl Drop for Expr {
    #[cycle(expression)]
    fn drop(self) {
        let Expr { number, at, form } = self;
        let_go(form);
    }
}

#[cycle(expression)]
#[derive(Drop)]
pub enum ExprForm {
    Name(Chars),
    /// A whole number from 0 to 2^127 - 1.
    Number(i128),
    /// Adjacent strings, one or more.
    Text(Texts),
    True,
    False,
    None,
    Sizeof(Type),
    /// `()`, `(a,)`, `(a, b)`, or the same without parentheses where the grammar has a list of expressions or targets.
    Tuple(Items<Expr>),
    /// `[a, b]`
    List(Items<Expr>),
    /// `{a: b}`
    Dict(Items<Entry>),
    /// An atom, and the attributes, calls and subscripts behind it, one or more.
    Row(Boxed<Expr>, Items<Trailer>),
    Unary(UnOp, Boxed<Expr>),
    /// `<type> a`
    Cast(Type, Boxed<Expr>),
    /// A chain of binary operators of one level, which group from the left: the first operand, and each operator with its right
    /// operand, one or more.
    Chain(Boxed<Expr>, Items<Link>),
    /// A chain of comparisons: the first operand, and each comparison with its right operand, one or more.
    Compare(Boxed<Expr>, Items<Comparison>),
    Not(Boxed<Expr>),
    /// The operands of a chain of `and`, two or more.
    And(Items<Expr>),
    /// The operands of a chain of `or`, two or more.
    Or(Items<Expr>),
    /// `value if test else otherwise`, in this order.
    Conditional(Boxed<Expr>, Boxed<Expr>, Boxed<Expr>),
}

/// `key: value` in a dict.
#[cycle(expression)]
#[derive(Drop)]
pub struct Entry {
    pub key: Expr,
    pub value: Expr,
}

/// What stands behind an atom.
#[cycle(expression)]
#[derive(Drop)]
pub enum Trailer {
    /// `.name`
    Attribute(Chars),
    /// `(a, name=b)`
    Call(Items<Argument>),
    /// `[a, b:c]`, and whether a comma stands behind the last item, as in `[a,]`.
    Subscript(Items<Item>, bool),
}

/// An argument of a call, with its name where it is a keyword argument.
#[cycle(expression)]
#[derive(Drop)]
pub struct Argument {
    pub name: Option<Chars>,
    pub value: Expr,
}

/// An item of a subscript.
#[cycle(expression)]
#[derive(Drop)]
pub enum Item {
    Index(Expr),
    /// `from:to:step`, each where it is written; `from:to:` and `from:to` are one.
    Slice(Option<Boxed<Expr>>, Option<Boxed<Expr>>, Option<Boxed<Expr>>),
    /// `...`
    Ellipsis,
}

/// A binary operator and its right operand.
#[cycle(expression)]
#[derive(Drop)]
pub struct Link {
    pub op: BinOp,
    pub operand: Expr,
}

/// A comparison and its right operand.
#[cycle(expression)]
#[derive(Drop)]
pub struct Comparison {
    pub op: CompareOp,
    pub operand: Expr,
}
