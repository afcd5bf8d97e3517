use px_base::{CType, Sequence, Span};

/// What a type is of, without its axes.
#[derive(Clone, Copy, PartialEq, Eq)]
pub enum BaseType {
    /// A C integer type or `bint`.
    C(CType),
    Object,
    List,
    Dict,
    Tuple,
    Str,
}

/// An axis of a view type (Cython user guide, Typed Memoryviews).
#[derive(Clone, Copy, PartialEq, Eq)]
pub enum Axis {
    /// `:`
    Strided,
    /// `::1`
    Contiguous,
}

/// The axes of a view type, in the order of the text.
pub type Axes = Sequence<Axis>;

/// A type as it is written: `const`, its base, and the axes of a view; without axes it is no view.
pub struct Type {
    pub number: u32,
    pub at: Span,
    pub is_const: bool,
    pub base: BaseType,
    pub axes: Axes,
}

impl Drop for Type {
    fn drop(self) {
        let Type {
            number,
            at,
            is_const,
            base,
            axes,
        } = self;
    }
}
