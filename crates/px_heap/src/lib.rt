//! Counted objects: the values that running code names by serials, each with the number of references to it.
#![tactic(auto)]

mod calls;
mod freeing;
mod heap;
mod laws;
mod slots;
mod values;

pub use calls::{held_laws, store_laws};
pub use heap::{Heap, heap_laws};
pub use laws::{
    dropped_in_store, held_once_dropped, held_once_made, held_once_shared, held_once_written,
    made_in_store, shared_in_store, written_in_store,
};
pub use values::{ArrayInfo, Pairs, Serial, Serials, Value};
