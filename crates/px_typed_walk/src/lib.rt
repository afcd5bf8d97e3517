//! The walk through the typed tree. Contracts see the tree as plain data, `TypedRose`.
#![tactic(auto)]

mod trees;
mod typed_node;
mod typed_nodes;

pub use trees::{at_of, number_of, tree_of, type_of};
pub use typed_node::TypedNode;
