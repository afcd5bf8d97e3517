//! Strided views: the cells of a view by an offset and a stride for each axis.
#![tactic(auto)]

mod arrays;
mod axes;
mod faults;
mod laws;
mod slices;
mod strided;
mod triples;

pub use laws::{cells_are_apart, index_of_a_slice, strided_views_are_views, transposed_twice};
pub use strided::StridedView;
