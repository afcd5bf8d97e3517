use px_base::{CType, CmpOp};

/// How the elements of a view lie in its buffer, as far as its type says it.
#[derive(Clone, Copy, PartialEq, Eq)]
pub enum Layout {
    /// In any way.
    Strided,
    /// In row-major order: `::1` on the last axis.
    RowMajor,
    /// In column-major order: `::1` on the first of several axes.
    ColumnMajor,
}

/// The type of a view (Cython user guide, Typed Memoryviews).
#[derive(Clone, Copy, PartialEq, Eq)]
pub struct ViewType {
    pub element: CType,
    /// The number of axes, from 1 to 3.
    pub rank: u8,
    pub is_const: bool,
    pub layout: Layout,
}

/// The type of an expression, a variable or a result.
#[derive(Clone, Copy, PartialEq, Eq)]
pub enum ValueType {
    /// A C integer type or `bint`.
    C(CType),
    Object,
    View(ViewType),
    /// No value.
    Void,
}

/// A conversion of a value into another type.
#[derive(Clone, Copy, PartialEq, Eq)]
pub enum Conversion {
    /// A C value into a C type: it wraps, and into `bint` it is whether it isn't 0.
    ToC(CType),
    /// A value of a C type into an int, of `bint` into a bool.
    ToObject(CType),
    /// An int or a bool into a C type other than `bint`.
    FromObject(CType),
    /// An object into `bint`, by its truth.
    Truth,
    /// An array into a view of that type.
    ViewOfObject(ViewType),
    /// A view into a view type of the same rank and element type.
    ViewOfView(ViewType),
}

/// How two values are compared.
#[derive(Clone, Copy, PartialEq, Eq)]
pub enum Comparing {
    /// Two values of a C type.
    C(CmpOp, CType),
    /// Two objects.
    Objects(CmpOp),
    /// Whether the right object has the left one in it.
    In,
    NotIn,
    /// Whether an object is None, which is one of the two.
    Is,
    IsNot,
}
