ghost use Rattle.std.specs.Prelude.{◌≡◌, ◌<◌, length, slice_get, Some};
ghost use Rattle.px_walk.specs.Roses.{number_of, at_of, parts_of};

use px_base::Span;

/// A node of a tree. Contracts see the tree below it as plain data.
pub trait Node: Copy {
    ghost use Rattle.px_walk.specs.Roses.{Rose};

    /// What a node is without its parts, as contracts see it.
    type Form;

    ghost seen: { Self → Rose Self.Form };

    /// The node's number, which no other node has that has one of its own.
    fn number(self) -> u32
        ensures { result ≡ number_of (seen self) };

    /// The place of the node.
    fn at(self) -> Span
        ensures { result ≡ at_of (seen self) };

    /// How many parts the node has.
    fn count(self) -> usize
        ensures { result ≡ length (parts_of (seen self)) };

    /// A part of the node; the first has number 0.
    fn part(self, k: usize) -> Self
        requires { k < length (parts_of (seen self)) }
        ensures { slice_get (parts_of (seen self)) k ≡ Some (seen result) };
}
