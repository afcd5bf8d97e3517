ghost use Rattle.std.specs.Prelude.{◌≡◌};
ghost use Rattle.px_tree.specs.TypedTypes.{greatest, type_of_head};
ghost use Rattle.px_tree.specs.declared.typed_trees.TypedTree.{out-TypedTree};

use crate::letting_go::let_go;
use crate::typed_heads::TypedHead;
use crate::typed_values::ValueType;
use px_base::Span;
use sqlite_items::Items;

/// A node of the typed tree: a form of the language in which names are resolved and each conversion and each step of an operator is a
/// node. It has the number and the place of the node of the parse tree that it stems from, and its parts. The node that a number
/// means is the first one with it from the root.
#[cycle(typed)]
pub struct TypedTree {
    pub number: u32,
    pub at: Span,
    /// The greatest number of a node in the tree. The statements of a block are in the order of the text, and so a node is found by its
    /// number.
    pub last: u32,
    pub head: TypedHead,
    pub parts: Items<TypedTree>,
}

impl Drop for TypedTree {
    #[cycle(typed)]
    fn drop(self) {
        let TypedTree {
            number,
            at,
            last,
            head,
            parts,
        } = self;
        let_go(parts);
    }
}

impl TypedTree {
    /// The node with these parts.
    pub fn new(number: u32, at: Span, head: TypedHead, parts: Items<TypedTree>) -> TypedTree
        ensures number { (out-TypedTree result).number ≡ number }
        ensures at { (out-TypedTree result).at ≡ at }
        ensures last { (out-TypedTree result).last ≡ greatest number (out-TypedTree result).parts }
        ensures head { (out-TypedTree result).head ≡ head }
        ensures parts { (out-TypedTree result).parts ≡ parts }
    {
        let mut last = number;
        for part in parts.as_slice() {
            last = last.max(part.last);
        }
        TypedTree {
            number,
            at,
            last,
            head,
            parts,
        }
    }

    /// The type of the node's value.
    pub fn value_type(&self) -> ValueType
        ensures { result ≡ type_of_head (out-TypedTree self.now).head }
    {
        self.head.value_type()
    }
}
