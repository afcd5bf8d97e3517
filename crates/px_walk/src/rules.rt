ghost use Rattle.std.specs.Prelude.{◌≡◌, ◌<◌, length, OnOk};
ghost use Rattle.px_walk.specs.Roses.{parts_of};

use crate::node::Node;
use px_base::{NoMemory, Refusal};

/// The rules of a phase, which are judged at each node of a tree in its context.
pub trait Rules<N: Node> {
    ghost use Rattle.std.specs.Prelude.{ℕ, Option};
    ghost use Rattle.px_base.specs.declared.refusals.Refusal.{Refusal};
    ghost use Rattle.px_walk.specs.Roses.{Rose};

    /// What a node's rules hang on besides the node.
    type Context: Copy;

    ghost down: { Self → Self.Context → Rose N.Form → ℕ → Self.Context };

    ghost judges: { Self → Self.Context → Rose N.Form → Option Refusal };

    /// The context of a part of a node.
    fn down(&self, context: Self::Context, node: N, k: usize) -> Self::Context
        requires { k < length (parts_of (N.seen node)) }
        ensures { result ≡ down self.now context (N.seen node) k };

    /// The first of the rules that a node breaks.
    fn judge(&self, context: Self::Context, node: N) -> Option<Refusal>
        ensures { result ≡ judges self.now context (N.seen node) };
}

/// What goes through a tree node by node and keeps a state.
pub trait Visitor<N: Node> {
    ghost use Rattle.std.specs.Prelude.{ℕ, Option};
    ghost use Rattle.px_walk.specs.Roses.{Rose};

    /// What hangs on the nodes round a node.
    type Context: Copy;

    ghost State: { Type 0 };

    ghost state: { Self → State };

    ghost down: { Self → Self.Context → Rose N.Form → ℕ → Self.Context };

    ghost step: { State → Self.Context → Rose N.Form → State };

    /// The context of a part of a node.
    fn down(&self, context: Self::Context, node: N, k: usize) -> Self::Context
        requires { k < length (parts_of (N.seen node)) }
        ensures { result ≡ down self.now context (N.seen node) k };

    /// Comes to a node.
    ///
    /// # Errors
    /// `NoMemory` where there is no memory for the new state.
    fn visit(&mut self, context: Self::Context, node: N) -> Result<(), NoMemory>
        ensures step { OnOk result (state self.new ≡ step (state self.old) context (N.seen node)) }
        ensures kept { OnOk result (down self.new ≡ down self.old) };
}
