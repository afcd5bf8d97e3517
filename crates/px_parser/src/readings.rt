/// What was read: its tree, and the index of the token behind it.
#[derive(Drop)]
pub(crate) struct Found<T> {
    pub(crate) tree: T,
    pub(crate) to: usize,
}
