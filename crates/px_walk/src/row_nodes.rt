//! The heads and the parts of what stands behind an atom.

ghost use Rattle.std.specs.Prelude.{◌≡◌, ◌++◌, length};
ghost use Rattle.std.specs.List.{slice_get};
ghost use Rattle.std.specs.Option.{option_map};
ghost use Rattle.px_base.specs.declared.refusals.Span.{Span};
ghost use Rattle.px_walk.specs.ExprView.{if_written, rose_of_expr, trailer_parts, item_parts};
ghost use Rattle.px_walk.specs.HeadForms.{form_of};
ghost use Rattle.px_walk.specs.Nodes.{rose_of};

use crate::heads::Head;
use crate::lists::{count_of, nth_argument, nth_item, only, written_boxed};
use crate::tree_node::TreeNode;
use px_base::Span;
use px_tree::{Expr, Item, Trailer};
use sqlite_items::Boxed;

/// What a trailer is without its parts.
pub(crate) fn trailer_head<'a>(trailer: &'a Trailer) -> Head<'a>
    ensures { (at : Span) → form_of result ≡ (trailer_parts trailer.now at).0 }
{
    match trailer {
        Trailer::Attribute(name) => Head::Attribute(name.as_slice()),
        Trailer::Call(_) => Head::Call,
        Trailer::Subscript(_, comma) => Head::Subscript(*comma),
    }
}

/// How many parts a trailer has.
pub(crate) fn trailer_count(trailer: &Trailer) -> usize
    ensures { (at : Span) → result ≡ length (trailer_parts trailer.now at).1 }
{
    match trailer {
        Trailer::Attribute(_) => 0,
        Trailer::Call(arguments) => arguments.len(),
        Trailer::Subscript(items, _) => items.len(),
    }
}

/// A part of a trailer in a row at this place; none behind the last.
pub(crate) fn trailer_part<'a>(trailer: &'a Trailer, at: Span, k: usize) -> Option<TreeNode<'a>>
    ensures { option_map rose_of result ≡ slice_get (trailer_parts trailer.now at).1 k }
{
    match trailer {
        Trailer::Attribute(_) => None,
        Trailer::Call(arguments) => nth_argument(arguments.as_slice(), k),
        Trailer::Subscript(items, _) => nth_item(items.as_slice(), at, k),
    }
}

/// What an item of a subscript is without its parts.
pub(crate) fn item_head<'a>(item: &'a Item) -> Head<'a>
    ensures { form_of result ≡ (item_parts item.now).0 }
{
    match item {
        Item::Index(_) => Head::Index,
        Item::Slice(from, to, step) => Head::Slice(from.is_some(), to.is_some(), step.is_some()),
        Item::Ellipsis => Head::Ellipsis,
    }
}

/// How many parts an item of a subscript has.
pub(crate) fn item_count(item: &Item) -> usize
    ensures { result ≡ length (item_parts item.now).1 }
{
    match item {
        Item::Index(_) => 1,
        Item::Slice(from, to, step) => count_of(from) + (count_of(to) + count_of(step)),
        Item::Ellipsis => 0,
    }
}

/// A bound of a slice, of those that are written; none behind the last.
fn bound<'a>(
    from: &'a Option<Boxed<Expr>>,
    to: &'a Option<Boxed<Expr>>,
    step: &'a Option<Boxed<Expr>>,
    k: usize,
) -> Option<TreeNode<'a>>
    ensures { option_map rose_of result ≡ slice_get
        (if_written rose_of_expr from.now ++ (if_written rose_of_expr to.now ++ if_written rose_of_expr step.now)) k }
{
    let before_to = count_of(from);
    let before_step = count_of(to);
    if k < before_to {
        written_boxed(from, k)
    } else if k - before_to < before_step {
        written_boxed(to, k - before_to)
    } else {
        written_boxed(step, k - before_to - before_step)
    }
}

/// A part of an item of a subscript; none behind the last.
pub(crate) fn item_part<'a>(item: &'a Item, k: usize) -> Option<TreeNode<'a>>
    ensures { option_map rose_of result ≡ slice_get (item_parts item.now).1 k }
{
    match item {
        Item::Index(index) => only(TreeNode::Expr(index), k),
        Item::Slice(from, to, step) => bound(from, to, step, k),
        Item::Ellipsis => None,
    }
}
