//! The calls that the program makes.
#![tactic(auto)]

mod arithmetic;
mod expressions;
mod laws;
mod listings;
mod phases;
mod replies;
mod running;
mod statements;
mod top_call;
mod variables;
mod words;
mod writing;

pub use laws::{answers_are_unique, calls_are_complete, listings_mean_their_modules};
pub use top_call::{Report, check_main, cython_main, tell_no_memory};
