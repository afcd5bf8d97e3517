//! The types of expressions: the typed tree of each expression on C values, in which each conversion, each resolved name and each step of
//! an operator is a node, or E12 at its place.
#![tactic(auto)]

mod calls;
mod expressions;
mod typer;

pub use typer::ExpressionTyper;
