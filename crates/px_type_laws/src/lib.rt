//! What holds between a typed tree and the parse tree that it is made of, as the contract of a function that does nothing.
#![tactic(auto)]

mod laws;

pub use laws::erasing_gives_the_parse_tree_back;
