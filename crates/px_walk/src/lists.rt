//! The k-th of some parts as a node; none behind the last.

ghost use Rattle.std.specs.Prelude.{◌≡◌, [], ◌∷◌, ◌++◌, map, length};
ghost use Rattle.std.specs.List.{slice_get};
ghost use Rattle.std.specs.Option.{option_map};
ghost use Rattle.px_walk.specs.ExprView.{if_written, count_written, rose_of_type, rose_of_expr, rose_of_entry, rose_of_trailer, rose_of_argument, rose_of_item, rose_of_link, rose_of_comparison};
ghost use Rattle.px_walk.specs.StmtView.{rose_of_stmt, rose_of_arm, rose_of_declaration, rose_of_declarator};
ghost use Rattle.px_walk.specs.ModuleView.{rose_of_comment, rose_of_imported_name, rose_of_decorator, rose_of_param, rose_of_item as rose_of_module_item};
ghost use Rattle.px_walk.specs.Nodes.{rose_of};

use crate::tree_node::TreeNode;
use px_base::Span;
use px_tree::{
    Argument, Arm, Comment, Comparison, Declaration, Declarator, Decorator, Entry, Expr,
    ImportedName, Item, Link, ModuleItem, Param, Stmt, Trailer, Type,
};
use sqlite_items::Boxed;

pub(crate) fn nth_expr<'a>(exprs: &'a [Expr], k: usize) -> Option<TreeNode<'a>>
    ensures { option_map rose_of result ≡ slice_get (map rose_of_expr exprs.now) k }
{
    match exprs.get(k) {
        Some(e) => Some(TreeNode::Expr(e)),
        None => None,
    }
}

pub(crate) fn nth_entry<'a>(entries: &'a [Entry], k: usize) -> Option<TreeNode<'a>>
    ensures { option_map rose_of result ≡ slice_get (map rose_of_entry entries.now) k }
{
    match entries.get(k) {
        Some(entry) => Some(TreeNode::Entry(entry)),
        None => None,
    }
}

pub(crate) fn nth_argument<'a>(arguments: &'a [Argument], k: usize) -> Option<TreeNode<'a>>
    ensures { option_map rose_of result ≡ slice_get (map rose_of_argument arguments.now) k }
{
    match arguments.get(k) {
        Some(argument) => Some(TreeNode::Argument(argument)),
        None => None,
    }
}

pub(crate) fn nth_link<'a>(links: &'a [Link], k: usize) -> Option<TreeNode<'a>>
    ensures { option_map rose_of result ≡ slice_get (map rose_of_link links.now) k }
{
    match links.get(k) {
        Some(link) => Some(TreeNode::Link(link)),
        None => None,
    }
}

pub(crate) fn nth_comparison<'a>(comparisons: &'a [Comparison], k: usize) -> Option<TreeNode<'a>>
    ensures { option_map rose_of result ≡ slice_get (map rose_of_comparison comparisons.now) k }
{
    match comparisons.get(k) {
        Some(comparison) => Some(TreeNode::Comparison(comparison)),
        None => None,
    }
}

pub(crate) fn nth_stmt<'a>(block: &'a [Stmt], k: usize) -> Option<TreeNode<'a>>
    ensures { option_map rose_of result ≡ slice_get (map rose_of_stmt block.now) k }
{
    match block.get(k) {
        Some(s) => Some(TreeNode::Stmt(s)),
        None => None,
    }
}

pub(crate) fn nth_arm<'a>(arms: &'a [Arm], k: usize) -> Option<TreeNode<'a>>
    ensures { option_map rose_of result ≡ slice_get (map rose_of_arm arms.now) k }
{
    match arms.get(k) {
        Some(arm) => Some(TreeNode::Arm(arm)),
        None => None,
    }
}

pub(crate) fn nth_declaration<'a>(declarations: &'a [Declaration], k: usize) -> Option<TreeNode<'a>>
    ensures { option_map rose_of result ≡ slice_get (map rose_of_declaration declarations.now) k }
{
    match declarations.get(k) {
        Some(declaration) => Some(TreeNode::Declaration(declaration)),
        None => None,
    }
}

pub(crate) fn nth_declarator<'a>(declarators: &'a [Declarator], k: usize) -> Option<TreeNode<'a>>
    ensures { option_map rose_of result ≡ slice_get (map rose_of_declarator declarators.now) k }
{
    match declarators.get(k) {
        Some(declarator) => Some(TreeNode::Declarator(declarator)),
        None => None,
    }
}

pub(crate) fn nth_comment<'a>(comments: &'a [Comment], k: usize) -> Option<TreeNode<'a>>
    ensures { option_map rose_of result ≡ slice_get (map rose_of_comment comments.now) k }
{
    match comments.get(k) {
        Some(comment) => Some(TreeNode::Comment(comment)),
        None => None,
    }
}

pub(crate) fn nth_imported_name<'a>(names: &'a [ImportedName], k: usize) -> Option<TreeNode<'a>>
    ensures { option_map rose_of result ≡ slice_get (map rose_of_imported_name names.now) k }
{
    match names.get(k) {
        Some(name) => Some(TreeNode::ImportedName(name)),
        None => None,
    }
}

pub(crate) fn nth_decorator<'a>(decorators: &'a [Decorator], k: usize) -> Option<TreeNode<'a>>
    ensures { option_map rose_of result ≡ slice_get (map rose_of_decorator decorators.now) k }
{
    match decorators.get(k) {
        Some(decorator) => Some(TreeNode::Decorator(decorator)),
        None => None,
    }
}

pub(crate) fn nth_param<'a>(params: &'a [Param], k: usize) -> Option<TreeNode<'a>>
    ensures { option_map rose_of result ≡ slice_get (map rose_of_param params.now) k }
{
    match params.get(k) {
        Some(param) => Some(TreeNode::Param(param)),
        None => None,
    }
}

pub(crate) fn nth_trailer<'a>(trailers: &'a [Trailer], at: Span, k: usize) -> Option<TreeNode<'a>>
    ensures { option_map rose_of result ≡ slice_get (map (λ trailer. rose_of_trailer trailer at) trailers.now) k }
{
    match trailers.get(k) {
        Some(trailer) => Some(TreeNode::Trailer(trailer, at)),
        None => None,
    }
}

pub(crate) fn nth_item<'a>(items: &'a [Item], at: Span, k: usize) -> Option<TreeNode<'a>>
    ensures { option_map rose_of result ≡ slice_get (map (λ item. rose_of_item item at) items.now) k }
{
    match items.get(k) {
        Some(item) => Some(TreeNode::Item(item, at)),
        None => None,
    }
}

pub(crate) fn nth_module_item<'a>(items: &'a [ModuleItem], k: usize) -> Option<TreeNode<'a>>
    ensures { option_map rose_of result ≡ slice_get (map rose_of_module_item items.now) k }
{
    match items.get(k) {
        Some(item) => Some(item_node(item)),
        None => None,
    }
}

fn item_node<'a>(item: &'a ModuleItem) -> TreeNode<'a>
    ensures { rose_of result ≡ rose_of_module_item item.now }
{
    match item {
        ModuleItem::Import(import) => TreeNode::Import(import),
        ModuleItem::Function(function) => TreeNode::Function(function.get()),
        ModuleItem::Statement(s) => TreeNode::Stmt(s),
    }
}

/// The only part.
pub(crate) fn only<'a>(part: TreeNode<'a>, k: usize) -> Option<TreeNode<'a>>
    ensures { option_map rose_of result ≡ slice_get (rose_of part.entry ∷ []) k }
{
    if k == 0 { Some(part) } else { None }
}

/// The first of two parts or the second.
pub(crate) fn either<'a>(
    first: TreeNode<'a>,
    second: TreeNode<'a>,
    k: usize,
) -> Option<TreeNode<'a>>
    ensures { option_map rose_of result ≡ slice_get (rose_of first.entry ∷ rose_of second.entry ∷ []) k }
{
    match k {
        0 => Some(first),
        1 => Some(second),
        _ => None,
    }
}

/// What may be left out.
pub(crate) fn written<'a>(e: &'a Option<Expr>, k: usize) -> Option<TreeNode<'a>>
    ensures { option_map rose_of result ≡ slice_get (if_written rose_of_expr e.now) k }
{
    match e {
        Some(e) => only(TreeNode::Expr(e), k),
        None => None,
    }
}

/// What may be left out.
pub(crate) fn written_boxed<'a>(e: &'a Option<Boxed<Expr>>, k: usize) -> Option<TreeNode<'a>>
    ensures { option_map rose_of result ≡ slice_get (if_written rose_of_expr e.now) k }
{
    match e {
        Some(e) => only(TreeNode::Expr(e.get()), k),
        None => None,
    }
}

/// How many parts stand there of one that may be left out.
pub(crate) fn count_of<T>(part: &Option<T>) -> usize
    ensures { result ≡ count_written part.now }
{
    match part {
        Some(_) => 1,
        None => 0,
    }
}

/// What may be left out.
pub(crate) fn written_type<'a>(typing: &'a Option<Type>, k: usize) -> Option<TreeNode<'a>>
    ensures { option_map rose_of result ≡ slice_get (if_written rose_of_type typing.now) k }
{
    match typing {
        Some(typing) => only(TreeNode::Type(typing), k),
        None => None,
    }
}
