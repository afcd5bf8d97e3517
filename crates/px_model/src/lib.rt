//! The data of what modules mean, and the definitions that several layers stand on: the cells of views, Python's rules
//! for sequences, the table of chunks of a parallel loop, objects and their store, journals, and outcomes.
//!
//! What a run is made of is used so: `Store` and `ObjectValue` by the definitions of object steps and by the object runtime, whose
//! heap stands for such a store; `Cells` by worlds, which machines, teams and the run of a module hand to one another; `Journal` by the
//! teams, which keep one for each loop, and by the meaning along journals; `LoopEnd` by what a team reports; `Outcome` by the run of a
//! module and the top call.
#![tactic(auto)]

mod cells;
mod journals;
mod outcomes;
mod stores;

pub use cells::{Cell, Cells, ViewCells};
pub use journals::{Journal, Journals, Ran, RanList};
pub use outcomes::{End, LoopEnd, Outcome};
pub use stores::{ArrayObject, ObjectValue, Store};
