use px_environments::CodeEnvironment;
use std::alloc::Global;

/// What finds the types of the expressions of a function, or of module code.
#[derive(Clone, Copy)]
pub struct ExpressionTyper<'a> {
    /// Where the trees are made.
    pub alloc: Global,
    /// What the names of the code stand for, and their types.
    pub code: CodeEnvironment<'a>,
}
