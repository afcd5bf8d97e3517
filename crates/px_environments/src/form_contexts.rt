use px_base::Span;

/// What a node is for what holds it, as far as it tells whether its form is built.
#[derive(Clone, Copy, PartialEq, Eq)]
pub enum FormRole {
    Other,
    /// An expression alone, as a statement.
    Alone,
    /// What a `for` goes over.
    Head,
    /// In an `except` clause of a function, where nothing is tested.
    Untested,
}

/// The role of a node, and the place of the innermost import, function, declaration or statement round it.
#[derive(Clone, Copy)]
pub struct FormContext {
    pub at: Span,
    pub role: FormRole,
}
