use crate::modules::{FunctionKind, Lock, Module};
use crate::names::{FunctionName, Names};
use crate::typed_trees::TypedTree;
use crate::typed_values::ValueType;
use px_base::{Chars, Constant, Sequence, Span};
use sqlite_items::Items;

/// A variable of a function: the number and the place of its declaration, its name and its type. The declaration of a variable that
/// is only assigned is the first name of the function that stands for it.
pub struct Local {
    pub number: u32,
    pub at: Span,
    pub name: Chars,
    pub value_type: ValueType,
}

impl Drop for Local {
    fn drop(self) {
        let Local {
            number,
            at,
            name,
            value_type,
        } = self;
    }
}

/// The variables of a function: its parameters, and behind them the others in the order of their declarations.
pub type Locals = Sequence<Local>;

/// A function with its types, at its first decorator where it has one, and the place of its `def`, `cdef` or `cpdef`.
pub struct TypedFunction {
    pub number: u32,
    pub at: Span,
    pub header_at: Span,
    pub kind: FunctionKind,
    pub name: FunctionName,
    /// How many of the variables are parameters.
    pub params: usize,
    pub locals: Locals,
    /// The type of its result.
    pub gives: ValueType,
    /// Its faults are swallowed.
    pub is_noexcept: bool,
    pub lock: Lock,
    pub body: Items<TypedTree>,
}

impl Drop for TypedFunction {
    fn drop(self) {
        let TypedFunction {
            number,
            at,
            header_at,
            kind,
            name,
            params,
            locals,
            gives,
            is_noexcept,
            lock,
            body,
        } = self;
    }
}

/// The functions of a module, in the order of the text.
pub type TypedFunctions = Sequence<TypedFunction>;

/// Constants that the code of a module names: its texts, its numbers from 2^63 on, and `None` where the code names it.
pub type Constants = Sequence<Constant>;

/// The numbers of nodes, in the order of the text.
pub type NodeNumbers = Sequence<u32>;

/// A module that breaks no rule of names and types, with its types.
pub struct Typed {
    pub module: Module,
    /// The statements of module code.
    pub code: Items<TypedTree>,
    pub functions: TypedFunctions,
    /// The names of the module, in the order in which it first names them.
    pub names: Names,
    /// The texts, the wide numbers and the `None` that the module's code names, in the order in which it first names them.
    pub constants: Constants,
    /// The parallel loops.
    pub pranges: NodeNumbers,
}

impl Drop for Typed {
    fn drop(self) {
        let Typed {
            module,
            code,
            functions,
            names,
            constants,
            pranges,
        } = self;
    }
}
