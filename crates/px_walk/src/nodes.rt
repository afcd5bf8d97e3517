use crate::forms::TreeForm;
use crate::node::Node;
use crate::tree_node::TreeNode;
use px_base::Span;

impl<'a> Node for TreeNode<'a> {
    ghost use Rattle.px_walk.specs.Nodes.{rose_of};

    type Form = TreeForm;

    ghost seen = { rose_of };

    fn number(self) -> u32 {
        TreeNode::number(self)
    }

    fn at(self) -> Span {
        TreeNode::at(self)
    }

    fn count(self) -> usize {
        TreeNode::count(self)
    }

    fn part(self, k: usize) -> TreeNode<'a> {
        let Some(part) = self.get(k) else {
            unreachable!()
        };
        part
    }
}
