use px_base::{Builtin, Method};

/// What a call calls, as far as its arguments hang on it.
#[derive(Clone, Copy, PartialEq, Eq)]
pub enum Callee {
    /// A value, of which nothing is known.
    Value,
    /// A function of the module with so many parameters.
    Function(usize),
    Builtin(Builtin),
    /// A method, whatever it stands on.
    Method(Method),
    Prange,
    Array,
}
