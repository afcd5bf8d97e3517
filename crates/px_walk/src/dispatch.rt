//! What each node of the parse tree shows.

ghost use Rattle.std.specs.Prelude.{◌≡◌, length};
ghost use Rattle.std.specs.List.{slice_get};
ghost use Rattle.std.specs.Option.{option_map};
ghost use Rattle.px_walk.specs.Roses.{head_of, number_of, at_of, parts_of};
ghost use Rattle.px_walk.specs.HeadForms.{form_of};
ghost use Rattle.px_walk.specs.Nodes.{rose_of};

use crate::expr_nodes::{expr_count, expr_head, expr_part};
use crate::heads::Head;
use crate::lists::{count_of, either, nth_declarator, nth_stmt, only, written, written_type};
use crate::module_nodes::{
    chars_of, function_count, function_head, function_part, import_count, import_head, import_part,
    module_count, module_part,
};
use crate::row_nodes::{
    item_count, item_head, item_part, trailer_count, trailer_head, trailer_part,
};
use crate::stmt_nodes::{stmt_count, stmt_head, stmt_part};
use crate::tree_node::TreeNode;
use px_base::Span;

impl<'a> TreeNode<'a> {
    /// What the node is without its parts.
    pub fn head(self) -> Head<'a>
        ensures { form_of result ≡ head_of (rose_of self.entry) }
    {
        match self {
            TreeNode::Module(m) => Head::Module(m.comments.len()),
            TreeNode::Comment(comment) => Head::Comment(comment.text.as_slice()),
            TreeNode::Import(import) => import_head(import),
            TreeNode::ImportedName(imported) => {
                Head::ImportedName(imported.name.as_slice(), chars_of(&imported.alias))
            }
            TreeNode::Function(f) => Head::Function(function_head(f)),
            TreeNode::Decorator(decorator) => {
                Head::Decorator(
                    decorator.name.as_slice(),
                    decorator.name_at,
                    decorator.value,
                )
            }
            TreeNode::Param(param) => Head::Param(param.name.as_slice(), param.is_not_none),
            TreeNode::Type(typing) => {
                Head::Type(typing.is_const, typing.base, typing.axes.as_slice())
            }
            TreeNode::Stmt(s) => stmt_head(&s.form),
            TreeNode::Arm(_) => Head::Arm,
            TreeNode::Declaration(_) => Head::Declaration,
            TreeNode::Declarator(declarator) => Head::Declarator(declarator.name.as_slice()),
            TreeNode::Expr(e) => expr_head(&e.form),
            TreeNode::Entry(_) => Head::Entry,
            TreeNode::Trailer(trailer, _) => trailer_head(trailer),
            TreeNode::Argument(argument) => Head::Argument(chars_of(&argument.name)),
            TreeNode::Item(item, _) => item_head(item),
            TreeNode::Link(link) => Head::Link(link.op),
            TreeNode::Comparison(comparison) => Head::Comparison(comparison.op),
        }
    }

    /// The node's number; 0 where it has none of its own.
    pub fn number(self) -> u32
        ensures { result ≡ number_of (rose_of self.entry) }
    {
        match self {
            TreeNode::Module(m) => m.number,
            TreeNode::Comment(_) => 0,
            TreeNode::Import(import) => import.number,
            TreeNode::ImportedName(imported) => imported.number,
            TreeNode::Function(f) => f.number,
            TreeNode::Decorator(decorator) => decorator.number,
            TreeNode::Param(param) => param.number,
            TreeNode::Type(typing) => typing.number,
            TreeNode::Stmt(s) => s.number,
            TreeNode::Arm(arm) => arm.number,
            TreeNode::Declaration(declaration) => declaration.number,
            TreeNode::Declarator(declarator) => declarator.number,
            TreeNode::Expr(e) => e.number,
            TreeNode::Entry(_) => 0,
            TreeNode::Trailer(_, _) => 0,
            TreeNode::Argument(_) => 0,
            TreeNode::Item(_, _) => 0,
            TreeNode::Link(_) => 0,
            TreeNode::Comparison(_) => 0,
        }
    }

    /// The place of the node.
    pub fn at(self) -> Span
        ensures { result ≡ at_of (rose_of self.entry) }
    {
        match self {
            TreeNode::Module(m) => m.at,
            TreeNode::Comment(comment) => comment.at,
            TreeNode::Import(import) => import.at,
            TreeNode::ImportedName(imported) => imported.at,
            TreeNode::Function(f) => f.at,
            TreeNode::Decorator(decorator) => decorator.at,
            TreeNode::Param(param) => param.at,
            TreeNode::Type(typing) => typing.at,
            TreeNode::Stmt(s) => s.at,
            TreeNode::Arm(arm) => arm.at,
            TreeNode::Declaration(declaration) => declaration.at,
            TreeNode::Declarator(declarator) => declarator.at,
            TreeNode::Expr(e) => e.at,
            TreeNode::Entry(entry) => entry.key.at,
            TreeNode::Trailer(_, at) => at,
            TreeNode::Argument(argument) => argument.value.at,
            TreeNode::Item(_, at) => at,
            TreeNode::Link(link) => link.operand.at,
            TreeNode::Comparison(comparison) => comparison.operand.at,
        }
    }

    /// How many parts the node has.
    pub fn count(self) -> usize
        ensures { result ≡ length (parts_of (rose_of self.entry)) }
    {
        match self {
            TreeNode::Module(m) => module_count(m),
            TreeNode::Comment(_) => 0,
            TreeNode::Import(import) => import_count(import),
            TreeNode::ImportedName(_) => 0,
            TreeNode::Function(f) => function_count(f),
            TreeNode::Decorator(_) => 0,
            TreeNode::Param(param) => count_of(&param.typing),
            TreeNode::Type(_) => 0,
            TreeNode::Stmt(s) => stmt_count(&s.form),
            TreeNode::Arm(arm) => 1 + arm.block.as_slice().len(),
            TreeNode::Declaration(declaration) => 1 + declaration.names.as_slice().len(),
            TreeNode::Declarator(declarator) => count_of(&declarator.value),
            TreeNode::Expr(e) => expr_count(&e.form),
            TreeNode::Entry(_) => 2,
            TreeNode::Trailer(trailer, _) => trailer_count(trailer),
            TreeNode::Argument(_) => 1,
            TreeNode::Item(item, _) => item_count(item),
            TreeNode::Link(_) => 1,
            TreeNode::Comparison(_) => 1,
        }
    }

    /// A part of the node, of which the first has number 0; none behind the last.
    pub fn get(self, k: usize) -> Option<TreeNode<'a>>
        ensures { option_map rose_of result ≡ slice_get (parts_of (rose_of self.entry)) k }
    {
        match self {
            TreeNode::Module(m) => module_part(m, k),
            TreeNode::Comment(_) => None,
            TreeNode::Import(import) => import_part(import, k),
            TreeNode::ImportedName(_) => None,
            TreeNode::Function(f) => function_part(f, k),
            TreeNode::Decorator(_) => None,
            TreeNode::Param(param) => written_type(&param.typing, k),
            TreeNode::Type(_) => None,
            TreeNode::Stmt(s) => stmt_part(&s.form, k),
            TreeNode::Arm(arm) if k == 0 => Some(TreeNode::Expr(&arm.test)),
            TreeNode::Arm(arm) => nth_stmt(arm.block.as_slice(), k - 1),
            TreeNode::Declaration(d) if k == 0 => Some(TreeNode::Type(&d.typing)),
            TreeNode::Declaration(d) => nth_declarator(d.names.as_slice(), k - 1),
            TreeNode::Declarator(declarator) => written(&declarator.value, k),
            TreeNode::Expr(e) => expr_part(&e.form, k),
            TreeNode::Entry(entry) => {
                either(TreeNode::Expr(&entry.key), TreeNode::Expr(&entry.value), k)
            }
            TreeNode::Trailer(trailer, at) => trailer_part(trailer, at, k),
            TreeNode::Argument(argument) => only(TreeNode::Expr(&argument.value), k),
            TreeNode::Item(item, _) => item_part(item, k),
            TreeNode::Link(link) => only(TreeNode::Expr(&link.operand), k),
            TreeNode::Comparison(comparison) => only(TreeNode::Expr(&comparison.operand), k),
        }
    }
}
