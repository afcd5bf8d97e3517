/// A setting of the compiler that changes what code means.
#[derive(Clone, Copy, PartialEq, Eq)]
pub enum Directive {
    Boundscheck,
    Wraparound,
    Cdivision,
}

/// The settings of a piece of code (Cython user guide, Compiler directives).
#[derive(Clone, Copy, PartialEq, Eq)]
pub struct Directives {
    pub boundscheck: bool,
    pub wraparound: bool,
    pub cdivision: bool,
}
