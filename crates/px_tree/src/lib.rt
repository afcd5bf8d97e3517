//! The data of a parsed module: a node for each form of the grammar, with its parts in the order of the text.
//!
//! A chain of operators of one level is one node with a list of operands, and a row of attributes, calls and subscripts behind
//! one atom is one node. Each node has a place, that of its first token, and a number, which no other node of its module has: the
//! index of a token that is its own. That token is the first operator of a chain or a conditional, the bracket or the first comma
//! of a list of expressions, the first token behind the atom of a row, the name of a parameter, of a declared variable, of a
//! function and of what `from` imports, the `:` of the header of a compound statement (of its first arm) or of a `cdef:` group,
//! the NEWLINE or `;` that ends any other statement and a line of a group, END for a module, and otherwise the first token.
//! Entries, arguments, items, trailers, links and comparisons are parts of their nodes.
//!
//! The typed tree stands above it: what a module means, with a type for each value.
#![tactic(auto)]

mod classes;
mod expressions;
mod letting_go;
mod lists;
mod modules;
mod names;
mod statements;
mod typed_heads;
mod typed_modules;
mod typed_trees;
mod typed_values;
mod typings;

pub use classes::{Class, ClassOf, Classes};
pub use expressions::{
    Argument, CompareOp, Comparison, Entry, Expr, ExprForm, Item, Link, Texts, Trailer,
};
pub use lists::room_for_one;
pub use modules::{
    Comment, Comments, Decorator, Decorators, ExceptionForm, Function, FunctionKind, Functions,
    Import, ImportForm, ImportedName, ImportedNames, Lock, Module, ModuleItem, ModuleItems, Param,
    Params, ResultType,
};
pub use names::{FunctionName, Names};
pub use statements::{Arm, Declaration, Declarator, Stmt, StmtForm};
pub use typed_heads::{ArrayKeyword, TypedHead};
pub use typed_modules::{
    Constants, Local, Locals, NodeNumbers, Typed, TypedFunction, TypedFunctions,
};
pub use typed_trees::TypedTree;
pub use typed_values::{Comparing, Conversion, Layout, ValueType, ViewType};
pub use typings::{Axes, Axis, BaseType, Type};
