//! Trees by what contracts see of them.

ghost use Rattle.std.specs.Prelude.{◌≡◌, map};
ghost use Rattle.px_walk.specs.Roses.{number_of, at_of};
ghost use Rattle.px_typed_walk.specs.TypedView.{rose_of_typed, typed_node, type_of};

use px_base::Span;
use px_tree::{TypedHead, TypedTree, ValueType};
use sqlite_items::Items;

/// The node with these parts.
pub fn tree_of(head: TypedHead, number: u32, at: Span, parts: Items<TypedTree>) -> TypedTree
    ensures { rose_of_typed result ≡ typed_node head number at (map rose_of_typed parts) }
{
    TypedTree::new(number, at, head, parts)
}

/// The type of a tree's value.
pub fn type_of(tree: &TypedTree) -> ValueType
    ensures { result ≡ type_of (rose_of_typed tree.now) }
{
    tree.value_type()
}

/// The number of a tree.
pub fn number_of(tree: &TypedTree) -> u32
    ensures { result ≡ number_of (rose_of_typed tree.now) }
{
    tree.number
}

/// The place of a tree.
pub fn at_of(tree: &TypedTree) -> Span
    ensures { result ≡ at_of (rose_of_typed tree.now) }
{
    tree.at
}
