ghost use Rattle.std.specs.Prelude.{◌≡◌, OnOk};
ghost use Rattle.px_base.specs.Findings.{IsFirst};
ghost use Rattle.px_walk.specs.Roses.{occurrences};
ghost use Rattle.px_walk.specs.Findings.{Breaks, finding, visited};

use crate::node::Node;
use crate::rules::{Rules, Visitor};
use px_base::{NoMemory, Refusal, earlier};

/// The first finding below a node.
#[cycle(found)]
fn found<N: Node, R: Rules<N>>(rules: &R, context: R::Context, node: N) -> Option<Refusal>
    ensures { result ≡ finding (R.judges rules.now) (occurrences (R.down rules.now) context (N.seen node)) }
{
    let mut first = rules.judge(context, node);
    for k in 0..node.count() {
        first = earlier(
            first,
            found(rules, rules.down(context, node, k), node.part(k)),
        );
    }
    first
}

/// The first rule that a node of a tree breaks, by its place and its number; none where no node breaks one.
pub fn first_broken<N: Node, R: Rules<N>>(
    rules: &R,
    context: R::Context,
    root: N,
) -> Option<Refusal>
    ensures { IsFirst (Breaks (R.judges rules.now) (occurrences (R.down rules.now) context (N.seen root))) result }
{
    found(rules, context, root)
}

/// Goes through a tree: each node before its parts, and these in the order of the text.
///
/// # Errors
/// `NoMemory` where the visitor had no memory for a state.
#[cycle(visit)]
pub fn visit<N: Node, V: Visitor<N>>(
    visitor: &mut V,
    context: V::Context,
    root: N,
) -> Result<(), NoMemory>
    ensures visited { OnOk result (V.state visitor.new ≡
        visited V.step (V.state visitor.old) (occurrences (V.down visitor.old) context (N.seen root))) }
    ensures kept { OnOk result (V.down visitor.new ≡ V.down visitor.old) }
{
    visitor.visit(context, root)?;
    for k in 0..root.count() {
        let below = visitor.down(context, root, k);
        visit(visitor, below, root.part(k))?;
    }
    Ok(())
}
