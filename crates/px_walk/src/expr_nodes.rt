//! The heads and the parts of expressions.

ghost use Rattle.std.specs.Prelude.{◌≡◌, length};
ghost use Rattle.std.specs.List.{slice_get};
ghost use Rattle.std.specs.Option.{option_map};
ghost use Rattle.px_walk.specs.ExprView.{expr_parts};
ghost use Rattle.px_walk.specs.HeadForms.{form_of};
ghost use Rattle.px_walk.specs.Nodes.{rose_of};

use crate::heads::Head;
use crate::lists::{either, nth_comparison, nth_entry, nth_expr, nth_link, nth_trailer, only};
use crate::tree_node::TreeNode;
use px_tree::{Expr, ExprForm};

/// What an expression is without its parts.
pub(crate) fn expr_head<'a>(form: &'a ExprForm) -> Head<'a>
    ensures { form_of result ≡ (expr_parts form.now).0 }
{
    match form {
        ExprForm::Name(name) => Head::Name(name.as_slice()),
        ExprForm::Number(n) => Head::Number(*n),
        ExprForm::Text(contents) => Head::Text(contents.as_slice()),
        ExprForm::True => Head::True,
        ExprForm::False => Head::False,
        ExprForm::None => Head::None,
        ExprForm::Sizeof(_) => Head::Sizeof,
        ExprForm::Tuple(_) => Head::Tuple,
        ExprForm::List(_) => Head::ListDisplay,
        ExprForm::Dict(_) => Head::Dict,
        ExprForm::Row(_, _) => Head::Row,
        ExprForm::Unary(op, _) => Head::Unary(*op),
        ExprForm::Cast(_, _) => Head::Cast,
        ExprForm::Chain(_, _) => Head::Chain,
        ExprForm::Compare(_, _) => Head::Compare,
        ExprForm::Not(_) => Head::Not,
        ExprForm::And(_) => Head::And,
        ExprForm::Or(_) => Head::Or,
        ExprForm::Conditional(_, _, _) => Head::Conditional,
    }
}

/// How many parts an expression has.
pub(crate) fn expr_count(form: &ExprForm) -> usize
    ensures { result ≡ length (expr_parts form.now).1 }
{
    match form {
        ExprForm::Name(_) => 0,
        ExprForm::Number(_) => 0,
        ExprForm::Text(_) => 0,
        ExprForm::True => 0,
        ExprForm::False => 0,
        ExprForm::None => 0,
        ExprForm::Sizeof(_) => 1,
        ExprForm::Tuple(items) => items.len(),
        ExprForm::List(items) => items.len(),
        ExprForm::Dict(entries) => entries.len(),
        ExprForm::Row(_, trailers) => 1 + trailers.as_slice().len(),
        ExprForm::Unary(_, _) => 1,
        ExprForm::Cast(_, _) => 2,
        ExprForm::Chain(_, links) => 1 + links.as_slice().len(),
        ExprForm::Compare(_, comparisons) => 1 + comparisons.as_slice().len(),
        ExprForm::Not(_) => 1,
        ExprForm::And(operands) => operands.len(),
        ExprForm::Or(operands) => operands.len(),
        ExprForm::Conditional(_, _, _) => 3,
    }
}

/// A part of an expression; none behind the last.
pub(crate) fn expr_part<'a>(form: &'a ExprForm, k: usize) -> Option<TreeNode<'a>>
    ensures { option_map rose_of result ≡ slice_get (expr_parts form.now).1 k }
{
    match form {
        ExprForm::Name(_) => None,
        ExprForm::Number(_) => None,
        ExprForm::Text(_) => None,
        ExprForm::True => None,
        ExprForm::False => None,
        ExprForm::None => None,
        ExprForm::Sizeof(typing) => only(TreeNode::Type(typing), k),
        ExprForm::Tuple(items) => nth_expr(items.as_slice(), k),
        ExprForm::List(items) => nth_expr(items.as_slice(), k),
        ExprForm::Dict(entries) => nth_entry(entries.as_slice(), k),
        ExprForm::Row(atom, _) if k == 0 => Some(TreeNode::Expr(atom.get())),
        ExprForm::Row(atom, trailers) => nth_trailer(trailers.as_slice(), atom.get().at, k - 1),
        ExprForm::Unary(_, operand) => only(TreeNode::Expr(operand.get()), k),
        ExprForm::Cast(typing, operand) => {
            either(TreeNode::Type(typing), TreeNode::Expr(operand.get()), k)
        }
        ExprForm::Chain(first, _) if k == 0 => Some(TreeNode::Expr(first.get())),
        ExprForm::Chain(_, links) => nth_link(links.as_slice(), k - 1),
        ExprForm::Compare(first, _) if k == 0 => Some(TreeNode::Expr(first.get())),
        ExprForm::Compare(_, comparisons) => nth_comparison(comparisons.as_slice(), k - 1),
        ExprForm::Not(operand) => only(TreeNode::Expr(operand.get()), k),
        ExprForm::And(operands) => nth_expr(operands.as_slice(), k),
        ExprForm::Or(operands) => nth_expr(operands.as_slice(), k),
        ExprForm::Conditional(value, _, _) if k == 0 => Some(TreeNode::Expr(value.get())),
        ExprForm::Conditional(_, test, otherwise) => either(
            TreeNode::Expr(test.get()),
            TreeNode::Expr(otherwise.get()),
            k - 1,
        ),
    }
}
