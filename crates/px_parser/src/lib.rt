//! The grammar of statements, functions, imports and modules, and the reader of modules.
#![tactic(auto)]

mod blocks;
mod compound;
mod exprs;
mod foreign;
mod functions;
mod imports;
pub mod laws;
mod modules;
mod names;
mod parser;
mod readings;
mod simple;
mod targets;
mod typed;
mod variables;
mod words;

pub use parser::parse;
