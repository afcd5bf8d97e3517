use px_base::{BinOp, Sequence};

/// What a variable of the body of a parallel loop is (Cython user guide, Using Parallelism).
#[derive(Clone, Copy, PartialEq, Eq)]
pub enum Class {
    /// The loop's index.
    Index,
    /// A reduction by this operator.
    Reduction(BinOp),
    /// A private variable that has its value of the last iteration after the loop.
    Last,
    /// A private variable whose value after the loop is indeterminate.
    Private,
    Shared,
}

/// The class of a variable, which is named by the number of its declaration.
#[derive(Clone, Copy, PartialEq, Eq)]
pub struct ClassOf {
    pub variable: u32,
    pub class: Class,
}

/// The classes of the variables that a body names, in the order of their first occurrence.
pub type Classes = Sequence<ClassOf>;
