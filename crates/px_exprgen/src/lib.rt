//! The code of expressions.
#![tactic(auto)]

mod expressions;
mod place_numbers;
mod widths;

pub use expressions::{expression, part};
pub use place_numbers::places;
pub use widths::{widest, width};
