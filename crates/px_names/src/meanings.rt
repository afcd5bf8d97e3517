use px_base::Builtin;

/// How a function comes by a name of its own.
#[derive(Clone, Copy, PartialEq, Eq)]
pub enum LocalKind {
    Parameter,
    /// Declared by `cdef`.
    Variable,
    /// Assigned, and neither a parameter nor declared.
    Assigned,
}

/// What an import gives.
#[derive(Clone, Copy, PartialEq, Eq)]
pub enum Imported {
    /// `cython`
    Cython,
    /// `cython.parallel`
    Parallel,
    /// `cython.view`
    View,
    /// `cython.parallel.prange`
    Prange,
    /// `cython.view.array`
    Array,
}

/// What a name stands for.
#[derive(Clone, Copy, PartialEq, Eq)]
pub enum Meaning {
    /// A local of the function, by the number of its parameter, its declared variable, or the first name that assigns it.
    Local(u32, LocalKind),
    /// A name of the module.
    Module,
    /// A function of the module, by its number, and how many parameters it has.
    Function(u32, usize),
    Import(Imported),
    Builtin(Builtin),
}
