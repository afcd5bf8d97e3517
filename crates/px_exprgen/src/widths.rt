//! How many registers expressions take.

ghost use Rattle.std.specs.Prelude.{◌≡◌};
ghost use Rattle.px_walk.specs.Roses.{gathered, parts_of};
ghost use Rattle.px_typed_walk.specs.TypedView.{rose_of_typed};
ghost use Rattle.px_exprgen.specs.ExpressionCode.{width, widths, widest};
ghost use Rattle.px_exprgen.specs.Places.{capped};

use px_tree::{TypedHead, TypedTree};
use px_typed_walk::TypedNode;
use px_walk::Node;

/// How many registers an expression takes, or 2^32 where it takes more.
#[cycle(width)]
pub fn width(tree: &TypedTree) -> u64
    ensures { result ≡ capped (width (rose_of_typed tree.now)) }
{
    let node = TypedNode { tree };
    match node.head() {
        TypedHead::Steps(_) => widest(tree).max(1),
        _ => widths(node).max(1),
    }
}

/// How many registers the parts of a node take that stand in the same ones, or 2^32 where it is more.
#[cycle(width)]
pub fn widest(tree: &TypedTree) -> u64
    ensures { result ≡ capped (widest (gathered (parts_of (rose_of_typed tree.now)))) }
{
    let node = TypedNode { tree };
    let mut most = 0;
    for k in 0..node.count() {
        most = width(node.part(k).tree).max(most);
    }
    most
}

/// How many registers the parts of a node take that stand behind one another, or 2^32 where it is more.
#[cycle(width)]
fn widths(node: TypedNode<'_>) -> u64
    ensures { result ≡ capped (widths (gathered (parts_of (rose_of_typed node.entry.tree.now)))) }
{
    let mut most = 0;
    for k in 0..node.count() {
        let behind = width(node.part(k).tree).saturating_add(k as u64);
        most = behind.max(most);
    }
    (node.count() as u64).max(most).min(4_294_967_296)
}
