//! The heads and the parts of statements.

ghost use Rattle.std.specs.Prelude.{◌≡◌, [], ◌∷◌, ◌++◌, length, map};
ghost use Rattle.std.specs.List.{slice_get};
ghost use Rattle.std.specs.Option.{option_map};
ghost use Rattle.px_walk.specs.ExprView.{rose_of_expr};
ghost use Rattle.px_walk.specs.StmtView.{block_of, stmt_parts, rose_of_stmt, rose_of_arm};
ghost use Rattle.px_walk.specs.HeadForms.{form_of};
ghost use Rattle.px_walk.specs.Nodes.{rose_of};

use crate::heads::Head;
use crate::lists::{
    count_of, either, nth_arm, nth_declaration, nth_expr, nth_stmt, only, written, written_boxed,
};
use crate::tree_node::TreeNode;
use px_tree::{Arm, Expr, Stmt, StmtForm};
use sqlite_items::Items;

/// The statements of a block that may be left out.
fn block_of<'a>(block: &'a Option<Items<Stmt>>) -> &'a [Stmt]
    ensures { result.now ≡ block_of block.now }
{
    match block {
        Some(block) => block.as_slice(),
        None => &[],
    }
}

/// What a statement is without its parts.
pub(crate) fn stmt_head<'a>(form: &'a StmtForm) -> Head<'a>
    ensures { form_of result ≡ (stmt_parts form.now).0 }
{
    match form {
        StmtForm::Assign(targets, _) => Head::Assign(targets.len()),
        StmtForm::Augment(_, op, _) => Head::Augment(*op),
        StmtForm::Pass => Head::Pass,
        StmtForm::Break => Head::Break,
        StmtForm::Continue => Head::Continue,
        StmtForm::Return(_) => Head::Return,
        StmtForm::Raise(kind, _) => Head::Raise(kind.as_slice()),
        StmtForm::Global(names) => Head::Global(names.as_slice()),
        StmtForm::If(arms, otherwise) => Head::If(arms.len(), otherwise.is_some()),
        StmtForm::While(_, _) => Head::While,
        StmtForm::For(_, _, _) => Head::For,
        StmtForm::WithGil(_) => Head::WithGil,
        StmtForm::WithNogil(_) => Head::WithNogil,
        StmtForm::Declare(_) => Head::Declare,
        StmtForm::DeclareGroup(_) => Head::DeclareGroup,
    }
}

/// How many parts a statement has.
pub(crate) fn stmt_count(form: &StmtForm) -> usize
    ensures { result ≡ length (stmt_parts form.now).1 }
{
    match form {
        StmtForm::Assign(targets, _) => targets.as_slice().len() + 1,
        StmtForm::Augment(_, _, _) => 2,
        StmtForm::Pass => 0,
        StmtForm::Break => 0,
        StmtForm::Continue => 0,
        StmtForm::Return(value) => count_of(value),
        StmtForm::Raise(_, text) => count_of(text),
        StmtForm::Global(_) => 0,
        StmtForm::If(arms, otherwise) => arms.as_slice().len() + block_of(otherwise).len(),
        StmtForm::While(_, block) => 1 + block.as_slice().len(),
        StmtForm::For(_, _, block) => 2 + block.as_slice().len(),
        StmtForm::WithGil(block) => block.len(),
        StmtForm::WithNogil(block) => block.len(),
        StmtForm::Declare(_) => 1,
        StmtForm::DeclareGroup(declarations) => declarations.len(),
    }
}

/// A target of an assignment, or behind them its value.
fn assign_part<'a>(targets: &'a [Expr], value: &'a Expr, k: usize) -> Option<TreeNode<'a>>
    ensures { option_map rose_of result ≡
        slice_get (map rose_of_expr targets.now ++ rose_of_expr value.now ∷ []) k }
{
    if k < targets.len() {
        nth_expr(targets, k)
    } else {
        only(TreeNode::Expr(value), k - targets.len())
    }
}

/// An arm of an `if`, or behind them a statement of its `else`.
fn if_part<'a>(arms: &'a [Arm], otherwise: &'a [Stmt], k: usize) -> Option<TreeNode<'a>>
    ensures { option_map rose_of result ≡
        slice_get (map rose_of_arm arms.now ++ map rose_of_stmt otherwise.now) k }
{
    if k < arms.len() {
        nth_arm(arms, k)
    } else {
        nth_stmt(otherwise, k - arms.len())
    }
}

/// A part of a statement; none behind the last.
pub(crate) fn stmt_part<'a>(form: &'a StmtForm, k: usize) -> Option<TreeNode<'a>>
    ensures { option_map rose_of result ≡ slice_get (stmt_parts form.now).1 k }
{
    match form {
        StmtForm::Assign(targets, value) => assign_part(targets.as_slice(), value, k),
        StmtForm::Augment(target, _, value) => {
            either(TreeNode::Expr(target), TreeNode::Expr(value.get()), k)
        }
        StmtForm::Pass => None,
        StmtForm::Break => None,
        StmtForm::Continue => None,
        StmtForm::Return(value) => written(value, k),
        StmtForm::Raise(_, text) => written_boxed(text, k),
        StmtForm::Global(_) => None,
        StmtForm::If(arms, otherwise) => if_part(arms.as_slice(), block_of(otherwise), k),
        StmtForm::While(test, _) if k == 0 => Some(TreeNode::Expr(test)),
        StmtForm::While(_, block) => nth_stmt(block.as_slice(), k - 1),
        StmtForm::For(target, _, _) if k == 0 => Some(TreeNode::Expr(target)),
        StmtForm::For(_, value, _) if k == 1 => Some(TreeNode::Expr(value.get())),
        StmtForm::For(_, _, block) => nth_stmt(block.as_slice(), k - 2),
        StmtForm::WithGil(block) => nth_stmt(block.as_slice(), k),
        StmtForm::WithNogil(block) => nth_stmt(block.as_slice(), k),
        StmtForm::Declare(declaration) => only(TreeNode::Declaration(declaration), k),
        StmtForm::DeclareGroup(declarations) => nth_declaration(declarations.as_slice(), k),
    }
}
