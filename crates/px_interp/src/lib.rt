//! The object runtime: what registers hold, and the objects and the output of a run, on which object instructions work.
#![tactic(auto)]

mod interp;
mod registers;
mod texts;

pub use interp::Interp;
pub use registers::{Registers, Slot};
