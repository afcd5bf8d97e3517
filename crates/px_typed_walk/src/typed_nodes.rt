use crate::typed_node::TypedNode;
use px_base::Span;
use px_tree::TypedHead;
use px_walk::Node;

impl<'a> Node for TypedNode<'a> {
    ghost use Rattle.px_typed_walk.specs.TypedView.{rose_of_typed};

    type Form = TypedHead;

    ghost seen = { λ node. rose_of_typed node.tree.now };

    fn number(self) -> u32 {
        self.tree.number
    }

    fn at(self) -> Span {
        self.tree.at
    }

    fn count(self) -> usize {
        self.tree.parts.len()
    }

    fn part(self, k: usize) -> TypedNode<'a> {
        let Some(part) = self.get(k) else {
            unreachable!()
        };
        part
    }
}
