//! The rules of names, judged at each node.

ghost use Rattle.std.specs.Prelude.{◌≡◌, IfOk, option_map};
ghost use Rattle.px_walk.specs.HeadForms.{form_of};
ghost use Rattle.px_walk.specs.Nodes.{rose_of};
ghost use Rattle.px_walk.specs.Roses.{head_of, at_of, parts_of};
ghost use Rattle.px_names.specs.Kept.{names_in};
ghost use Rattle.px_names.specs.Rules.{is_declaration, is_definition, is_identity_operator, is_identity, is_none_form, is_none_at, is_chain_right, is_value, known_refusal, name_refusal, meaning_of_atom, row_rule, short_rule, broken_by, rule_of};

use crate::calls::unless;
use crate::comments::is_comment_known;
use crate::contexts::{Context, Role, down};
use crate::decorators::decorator_refusal;
use crate::imports::are_parts_known;
use crate::lookups::Lookup;
use crate::meanings::Meaning;
use crate::rows::row_refusal;
use crate::words::{imported_module, is_kind};
use px_base::{NoMemory, Refusal, Span, earlier};
use px_tree::CompareOp;
use px_walk::{Head, Node, TreeNode, Visitor};
use std::alloc::Global;

/// The first broken rule of the nodes so far.
#[derive(Drop)]
pub(crate) struct Judge<'t, 'a> {
    pub(crate) alloc: Global,
    pub(crate) lookup: &'t Lookup<'a>,
    pub(crate) first: Option<Refusal>,
}

/// Whether a name that stands for this is a value.
fn is_value(meaning: Meaning) -> bool
    ensures { result ≡ is_value meaning }
{
    match meaning {
        Meaning::Local(_, _) => true,
        Meaning::Module => true,
        _ => false,
    }
}

/// What a name breaks by itself where it is used.
fn use_refusal(role: Role, meaning: Meaning, at: Span) -> Option<Refusal>
    ensures { result ≡ known_refusal role meaning at }
{
    match role {
        Role::Atom => None,
        _ => unless(is_value(meaning), 27, at),
    }
}

/// What a name breaks by itself: a target is no use, and at the head of a row it is used as the row says.
fn name_refusal(role: Role, meaning: Option<Meaning>, at: Span) -> Option<Refusal>
    ensures { result ≡ name_refusal role meaning at }
{
    match role {
        Role::Target => None,
        _ => match meaning {
            Some(meaning) => use_refusal(role, meaning, at),
            None => unless(false, 10, at),
        },
    }
}

fn is_none_form(head: Head<'_>) -> bool
    ensures { result ≡ is_none_form (form_of head.entry) }
{
    match head {
        Head::None => true,
        _ => false,
    }
}

fn is_none_at(node: Option<TreeNode<'_>>) -> bool
    ensures { result ≡ is_none_at (option_map rose_of node.entry) }
{
    match node {
        Some(node) => is_none_form(node.head()),
        None => false,
    }
}

fn is_identity_operator(op: CompareOp) -> bool
    ensures { result ≡ is_identity_operator op }
{
    match op {
        CompareOp::Is => true,
        CompareOp::IsNot => true,
        _ => false,
    }
}

fn is_identity(comparison: Head<'_>) -> bool
    ensures { result ≡ is_identity (form_of comparison.entry) }
{
    match comparison {
        Head::Comparison(op) => is_identity_operator(op),
        _ => false,
    }
}

/// Whether each `is` of a chain of comparisons has the literal None on one side.
fn is_chain_right(chain: TreeNode<'_>) -> bool
    ensures { result ≡ is_chain_right (parts_of (rose_of chain.entry)) }
{
    let mut left = is_none_at(chain.get(0));
    for k in 1..chain.count() {
        let comparison = chain.part(k);
        let right = is_none_at(comparison.get(0));
        if is_identity(comparison.head()) && !left && !right {
            return false;
        }
        left = right;
    }
    true
}

impl<'t, 'a> Judge<'t, 'a> {
    /// What the name at the head of a row stands for.
    fn meaning_of_atom(&self, function: Option<u32>, atom: Head<'_>) -> Option<Meaning>
        ensures { result ≡ meaning_of_atom (names_in self.now.lookup.now) function (form_of atom.entry) }
    {
        match atom {
            Head::Name(name) => self.lookup.meaning(function, name),
            _ => None,
        }
    }

    /// What a row breaks.
    fn row_rule(&self, context: Context, row: TreeNode<'_>) -> Result<Option<Refusal>, NoMemory>
        ensures { IfOk result (λ found. found ≡
            row_rule (names_in self.now.lookup.now) context (at_of (rose_of row.entry)) (parts_of (rose_of row.entry))) }
    {
        match row.get(0) {
            Some(atom) => {
                let meaning = self.meaning_of_atom(context.function, atom.head());
                row_refusal(self.alloc, context.role, meaning, row)
            }
            None => Ok(None),
        }
    }

    /// Whether the first declaration of a name there has the number.
    fn is_declaration(&self, function: Option<u32>, name: &[char], number: u32) -> bool
        ensures { result ≡ is_declaration ((names_in self.now.lookup.now).declared function name.now) number }
    {
        match self.lookup.declaration(function, name) {
            Some(declared) => declared.number == number,
            None => false,
        }
    }

    /// Whether the first function of a name has the number.
    fn is_definition(&self, name: &[char], number: u32) -> bool
        ensures { result ≡ is_definition ((names_in self.now.lookup.now).functions name.now) number }
    {
        match self.lookup.function(name) {
            Some(defined) => defined.number == number,
            None => false,
        }
    }

    /// What a node breaks that isn't untested.
    ///
    /// # Errors
    /// `NoMemory` where there is no memory to judge a comment or a row.
    fn tested_refusal(
        &self,
        context: Context,
        node: TreeNode<'_>,
    ) -> Result<Option<Refusal>, NoMemory>
        ensures { IfOk result (λ found. found ≡
            broken_by (names_in self.now.lookup.now) context (head_of (rose_of node.entry)) (rose_of node.entry)) }
    {
        match node.head() {
            Head::Comment(text) => {
                Ok(unless(is_comment_known(self.alloc, text)?, 27, node.at()))
            }
            Head::Row => self.row_rule(context, node),
            _ => Ok(self.short_refusal(context, node)),
        }
    }

    /// What a node breaks that is neither a comment nor a row.
    fn short_refusal(&self, context: Context, node: TreeNode<'_>) -> Option<Refusal>
        ensures { result ≡ short_rule (names_in self.now.lookup.now) context (head_of (rose_of node.entry)) (rose_of node.entry) }
    {
        let at = node.at();
        let number = node.number();
        let function = context.function;
        match node.head() {
            Head::Import(_, names, _) => unless(imported_module(names).is_some(), 27, at),
            Head::ImportFrom(_, names) => unless(are_parts_known(names, node), 27, at),
            Head::Function(f) => unless(self.is_definition(f.name, number), 11, at),
            Head::Param(name, _) => unless(self.is_declaration(function, name, number), 11, at),
            Head::Declarator(name) => unless(self.is_declaration(function, name, number), 11, at),
            Head::Decorator(names, name_at, _) => {
                decorator_refusal(self.lookup, names, name_at, at)
            }
            Head::Raise(name) => unless(is_kind(name), 27, at),
            Head::Declare => unless(context.role == Role::Body, 27, at),
            Head::DeclareGroup => unless(context.role == Role::Body, 27, at),
            Head::Name(name) => {
                name_refusal(context.role, self.lookup.meaning(function, name), at)
            }
            Head::Compare => unless(is_chain_right(node), 27, at),
            _ => None,
        }
    }

    /// The first rule that a node breaks.
    fn refusal(&self, context: Context, node: TreeNode<'_>) -> Result<Option<Refusal>, NoMemory>
        ensures { IfOk result (λ found. found ≡ rule_of (names_in self.now.lookup.now) context (rose_of node.entry)) }
    {
        match context.role {
            Role::Untested => Ok(None),
            _ => self.tested_refusal(context, node),
        }
    }
}

/// Judges each node.
impl<'t, 'a> Visitor<TreeNode<'a>> for Judge<'t, 'a> {
    ghost use Rattle.px_names.specs.Contexts.{down};
    ghost use Rattle.px_names.specs.Kept.{names_in};
    ghost use Rattle.px_names.specs.Steps.{Judged, judged_after};

    type Context = Context;

    ghost State = { Judged };

    ghost state = { λ judge. (names_in judge.lookup.now, judge.first) };

    ghost down = { λ _. down };

    ghost step = { judged_after };

    fn down(&self, context: Context, node: TreeNode<'a>, k: usize) -> Context {
        down(context, node, k)
    }

    fn visit(&mut self, context: Context, node: TreeNode<'a>) -> Result<(), NoMemory> {
        let found = self.refusal(context, node)?;
        self.first = earlier(self.first, found);
        Ok(())
    }
}
