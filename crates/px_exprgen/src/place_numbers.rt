//! The places of variables and functions that trees name.

ghost use Rattle.std.specs.Prelude.{◌≡◌, ◌+◌};
ghost use Rattle.px_typed_walk.specs.TypedView.{rose_of_typed};
ghost use Rattle.px_exprgen.specs.Places.{capped, place_by, places};

use px_tree::{TypedHead, TypedTree};
use px_typed_walk::TypedNode;
use px_walk::Node;

/// One more than a place, or 2^32 where it is more.
fn behind(place: usize) -> u64
    ensures { result ≡ capped (place + 1) }
{
    place.min(4_294_967_295) as u64 + 1
}

fn place_of(head: TypedHead) -> u64
    ensures { result ≡ capped (place_by head) }
{
    match head {
        TypedHead::Local(slot, _) => behind(slot),
        TypedHead::Declarator(slot, _) => behind(slot),
        TypedHead::Call(function, _) => behind(function),
        _ => 0,
    }
}

/// One more than the greatest place of a variable or of a function that a tree names, or 2^32 where it is more; 0 where it names none.
#[cycle(places)]
pub fn places(tree: &TypedTree) -> u64
    ensures { result ≡ capped (places (rose_of_typed tree.now)) }
{
    let node = TypedNode { tree };
    let mut most = place_of(node.head());
    for k in 0..node.count() {
        most = places(node.part(k).tree).max(most);
    }
    most
}
