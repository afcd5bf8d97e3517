use px_tree::Conversion;

/// What makes a value of one type a value of another.
#[derive(Clone, Copy)]
pub enum Fitting {
    /// The types are one.
    Equal,
    By(Conversion),
    /// Nothing.
    Never,
}
