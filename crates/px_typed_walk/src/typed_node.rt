ghost use Rattle.std.specs.Prelude.{◌≡◌, option_map};
ghost use Rattle.std.specs.List.{slice_get};
ghost use Rattle.px_walk.specs.Roses.{head_of, parts_of};
ghost use Rattle.px_typed_walk.specs.TypedView.{rose_of_typed};

use px_tree::{TypedHead, TypedTree};

/// A node of the typed tree.
#[derive(Clone, Copy)]
pub struct TypedNode<'a> {
    pub tree: &'a TypedTree,
}

impl<'a> TypedNode<'a> {
    /// What the node is without its parts.
    pub fn head(self) -> TypedHead
        ensures { result ≡ head_of (rose_of_typed self.entry.tree.now) }
    {
        self.tree.head
    }

    /// A part of the node, of which the first has number 0; none behind the last.
    pub fn get(self, k: usize) -> Option<TypedNode<'a>>
        ensures { option_map (λ node. rose_of_typed node.tree.now) result ≡ slice_get (parts_of (rose_of_typed self.entry.tree.now)) k }
    {
        match self.tree.parts.get(k) {
            Some(tree) => Some(TypedNode { tree }),
            None => None,
        }
    }
}
