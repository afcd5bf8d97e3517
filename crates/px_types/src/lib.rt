//! The phase of types: the typed tree of a module, in which each conversion, each resolved name and each step of an operator is a node.
//! Built are the forms on C values; a module with another form is refused at its place.
#![tactic(auto)]

mod laws;
mod statements;
mod typed_functions;
mod typer;
mod typing;

pub use laws::typed_trees_are_unique;
pub use typing::types;
