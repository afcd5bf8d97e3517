use crate::expressions::Expr;
use crate::names::{FunctionName, Names};
use crate::statements::Stmt;
use crate::typings::Type;
use px_base::{Bytes, Chars, Sequence, Span};
use sqlite_items::{Boxed, Items};

/// A comment line before the first token, from its `#` to before its line end.
pub struct Comment {
    pub at: Span,
    pub text: Bytes,
}

impl Drop for Comment {
    fn drop(self) {
        let Comment { at, text } = self;
    }
}

/// The leading comment lines of a module, in its order.
pub type Comments = Sequence<Comment>;

/// A name that `from` imports, at its own token, and the name that it has here where `as` gives one.
pub struct ImportedName {
    pub number: u32,
    pub at: Span,
    pub name: Chars,
    pub alias: Option<Chars>,
}

impl Drop for ImportedName {
    fn drop(self) {
        let ImportedName {
            number,
            at,
            name,
            alias,
        } = self;
    }
}

/// Imported names, in the order of the text.
pub type ImportedNames = Sequence<ImportedName>;

/// What an import brings in; a dotted name by its parts.
pub enum ImportForm {
    /// `import a.b`, or `import a.b as c`.
    Whole(Names, Option<Chars>),
    /// `from a.b import c, d as e`
    Parts(Names, ImportedNames),
}

impl Drop for ImportForm {
    fn drop(self) {
        match self {
            ImportForm::Whole(first, second) => {}
            ImportForm::Parts(first, second) => {}
        }
    }
}

/// An import (Python Language Reference, 7.11; Cython user guide, Sharing Declarations Between Cython Modules).
pub struct Import {
    pub number: u32,
    pub at: Span,
    /// By `cimport`.
    pub is_cimport: bool,
    pub form: ImportForm,
}

impl Drop for Import {
    fn drop(self) {
        let Import {
            number,
            at,
            is_cimport,
            form,
        } = self;
    }
}

/// A decorator `@name.name(value)`, and the place of its first name.
pub struct Decorator {
    pub number: u32,
    pub at: Span,
    pub name: Names,
    pub name_at: Span,
    pub value: bool,
}

impl Drop for Decorator {
    fn drop(self) {
        let Decorator {
            number,
            at,
            name,
            name_at,
            value,
        } = self;
    }
}

/// The decorators of a function, in the order of the text.
pub type Decorators = Sequence<Decorator>;

/// The word that a function begins with.
#[derive(Clone, Copy, PartialEq, Eq)]
pub enum FunctionKind {
    Def,
    Cdef,
    Cpdef,
}

/// What a function gives, as it is written.
#[derive(Drop)]
pub enum ResultType {
    /// No type is written.
    Unwritten,
    Void,
    Of(Type),
}

/// What a function says of exceptions (Cython user guide, Error return values).
pub enum ExceptionForm {
    /// Nothing is written.
    Unwritten,
    Noexcept,
    /// `except value`
    Except(Expr),
    /// `except ? value`
    Maybe(Expr),
    /// `except *`
    Any,
}

impl Drop for ExceptionForm {
    fn drop(self) {
        match self {
            ExceptionForm::Unwritten => {}
            ExceptionForm::Noexcept => {}
            ExceptionForm::Except(part) => {}
            ExceptionForm::Maybe(part) => {}
            ExceptionForm::Any => {}
        }
    }
}

/// What a function says of the interpreter lock (Cython user guide, Cython and the GIL).
#[derive(Clone, Copy, PartialEq, Eq)]
pub enum Lock {
    /// Nothing is written.
    Unwritten,
    Nogil,
    WithGil,
}

/// A parameter.
pub struct Param {
    pub number: u32,
    pub at: Span,
    pub typing: Option<Type>,
    pub name: Chars,
    /// `not None` is written behind it.
    pub is_not_none: bool,
}

impl Drop for Param {
    fn drop(self) {
        let Param {
            number,
            at,
            typing,
            name,
            is_not_none,
        } = self;
    }
}

/// The parameters of a function, in the order of the text.
pub type Params = Sequence<Param>;

/// A function, at its first decorator where it has one, and the place of its `def`, `cdef` or `cpdef`.
pub struct Function {
    pub number: u32,
    pub at: Span,
    pub header_at: Span,
    pub decorators: Decorators,
    pub kind: FunctionKind,
    pub is_inline: bool,
    pub gives: ResultType,
    pub name: FunctionName,
    pub params: Params,
    pub exception: ExceptionForm,
    pub lock: Lock,
    pub body: Items<Stmt>,
}

impl Drop for Function {
    fn drop(self) {
        let Function {
            number,
            at,
            header_at,
            decorators,
            kind,
            is_inline,
            gives,
            name,
            params,
            exception,
            lock,
            body,
        } = self;
    }
}

/// Functions, in the order of the text.
pub type Functions = Sequence<Function>;

/// What stands in a module.
pub enum ModuleItem {
    Import(Import),
    Function(Boxed<Function>),
    Statement(Stmt),
}

impl Drop for ModuleItem {
    fn drop(self) {
        match self {
            ModuleItem::Import(part) => {}
            ModuleItem::Function(part) => {}
            ModuleItem::Statement(part) => {}
        }
    }
}

/// What stands in a module, in the order of the text.
pub type ModuleItems = Sequence<ModuleItem>;

/// A module, at its first token, and its leading comment lines.
pub struct Module {
    pub number: u32,
    pub at: Span,
    pub items: ModuleItems,
    pub comments: Comments,
}

impl Drop for Module {
    fn drop(self) {
        let Module {
            number,
            at,
            items,
            comments,
        } = self;
    }
}
