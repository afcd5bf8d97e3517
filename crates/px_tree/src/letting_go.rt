/// Lets a value go. A function that lets a tree go by this calls the drop of its type, where it would else hold a copy of the code for
/// each of its forms.
pub(crate) fn let_go<T: Drop>(_: T) {}
