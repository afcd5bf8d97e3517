//! One member's machine: it runs the instructions of an image, one at a time.
#![tactic(auto)]

mod beginning;
mod calls;
mod frames;
mod member;
mod numbers;
mod objects;
mod order;

pub use frames::Frame;
pub use member::{Member, Step};
