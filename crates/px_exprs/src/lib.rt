//! The grammar of expressions, and the reader of them.
#![tactic(auto)]

mod atoms;
mod chains;
pub mod grammar;
pub mod laws;
mod lists;
pub mod nodes;
pub mod operators;
pub mod reader;
pub mod readings;
mod trailers;
pub mod typings;
pub mod words;
