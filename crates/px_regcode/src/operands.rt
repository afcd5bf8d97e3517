use px_base::Sequence;

/// A register of a frame, by its number from 0.
#[derive(Clone, Copy, PartialEq, Eq)]
pub struct Register {
    pub number: u32,
}

/// Registers in the order in which an instruction names them.
pub type RegisterList = Sequence<Register>;

/// What a register is asked to hold, a parameter of a function, or its result.
#[derive(Clone, Copy, PartialEq, Eq)]
pub enum RegKind {
    /// A whole number.
    Whole,
    /// A reference to an object.
    Object,
    /// A view with so many axes, 1 to 3.
    View(u8),
    /// Nothing; as the kind of a result, that there is none.
    Empty,
    /// A fault.
    Fault,
}

/// The order of the cells of a view that has to be contiguous (Cython user guide, Typed Memoryviews).
#[derive(Clone, Copy)]
pub enum Order {
    /// Row-major: the last index changes first.
    C,
    /// Column-major: the first index changes first.
    Fortran,
}

/// By which statement an iteration of a parallel loop stops the loop.
#[derive(Clone, Copy)]
pub enum StopKind {
    Break,
    Return,
}
