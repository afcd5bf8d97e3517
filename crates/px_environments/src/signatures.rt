use px_base::Sequence;
use px_tree::ValueType;

/// A variable of a function: its place among the locals, and its type.
#[derive(Clone, Copy)]
pub struct Variable {
    pub slot: usize,
    pub value_type: ValueType,
}

/// Types, in the order of what has them.
pub type ValueTypes = Sequence<ValueType>;

/// A function as calls see it.
#[derive(Drop)]
pub struct Signature {
    /// Its place among the functions of the module.
    pub place: usize,
    /// It is a `def` function.
    pub is_def: bool,
    /// The types of its parameters.
    pub params: ValueTypes,
    /// The type of its result.
    pub gives: ValueType,
}
