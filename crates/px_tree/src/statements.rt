use crate::expressions::Expr;
use crate::letting_go::let_go;
use crate::names::Names;
use crate::typings::Type;
use px_base::{BinOp, Chars, Span};
use sqlite_items::{Boxed, Items};

/// A statement (Python Language Reference, 7 and 8; Cython user guide, Language Basics).
#[cycle(statement)]
pub struct Stmt {
    pub number: u32,
    pub at: Span,
    pub form: StmtForm,
}

impl Drop for Stmt {
    #[cycle(statement)]
    fn drop(self) {
        let Stmt { number, at, form } = self;
        let_go(form);
    }
}

#[cycle(statement)]
#[derive(Drop)]
pub enum StmtForm {
    /// `targets = .. = value`, each list of targets in the order of the text; without targets an expression alone.
    Assign(Items<Expr>, Expr),
    /// `target op= value`
    Augment(Expr, BinOp, Boxed<Expr>),
    Pass,
    Break,
    Continue,
    Return(Option<Expr>),
    /// `raise Kind` or `raise Kind()`, or `raise Kind(text)`.
    Raise(Chars, Option<Boxed<Expr>>),
    Global(Names),
    /// The arms of `if` and `elif`, one or more, and `else`.
    If(Items<Arm>, Option<Items<Stmt>>),
    While(Expr, Items<Stmt>),
    /// `for target in value`
    For(Expr, Boxed<Expr>, Items<Stmt>),
    WithGil(Items<Stmt>),
    WithNogil(Items<Stmt>),
    /// `cdef` and variables of one type.
    Declare(Declaration),
    /// The lines of a `cdef:` group, one or more.
    DeclareGroup(Items<Declaration>),
}

/// A test and the block that it guards, at its `if` or `elif`.
#[cycle(statement)]
#[derive(Drop)]
pub struct Arm {
    pub number: u32,
    pub at: Span,
    pub test: Expr,
    pub block: Items<Stmt>,
}

/// Variables that are declared with one type: at the `cdef` of their line, and in a group at the first token of their line.
pub struct Declaration {
    pub number: u32,
    pub at: Span,
    pub typing: Type,
    pub names: Items<Declarator>,
}

impl Drop for Declaration {
    fn drop(self) {
        let Declaration {
            number,
            at,
            typing,
            names,
        } = self;
    }
}

/// A declared variable, and the value that it is given.
pub struct Declarator {
    pub number: u32,
    pub at: Span,
    pub name: Chars,
    pub value: Option<Expr>,
}

impl Drop for Declarator {
    fn drop(self) {
        let Declarator {
            number,
            at,
            name,
            value,
        } = self;
    }
}
