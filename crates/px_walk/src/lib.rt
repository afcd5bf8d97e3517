//! The walk through a tree that all checking phases share: each node with its context, in the order of the text, and the first
//! rule that a node breaks. Contracts see a tree as plain data (`Rose`), whatever its nodes are; for the parse tree that view
//! is made here.
#![tactic(auto)]

mod dispatch;
mod expr_nodes;
mod forms;
mod heads;
mod laws;
mod lists;
mod module_nodes;
mod node;
mod nodes;
mod row_nodes;
mod rules;
mod stmt_nodes;
mod tree_node;
mod walk;

pub use forms::TreeForm;
pub use heads::{ExceptionKind, FunctionHead, Head, ResultKind};
pub use laws::{first_findings_are_unique, nodes_of_parts_occur};
pub use node::Node;
pub use rules::{Rules, Visitor};
pub use tree_node::TreeNode;
pub use walk::{first_broken, visit};
