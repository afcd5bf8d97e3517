//! The chunks of a parallel loop: how its iterations are dealt to the members of a team.
#![tactic(auto)]

mod chunk_list;
mod cuts;
mod laws;

pub use chunk_list::ChunkList;
pub use laws::{
    chunks_hold_each_place_once, guided_chunks_are_shares, guided_chunks_never_grow,
    number_of_chunks, static_chunks_have_one_owner,
};
