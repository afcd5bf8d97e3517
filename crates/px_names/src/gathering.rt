//! What the names of one piece of code stand for.

ghost use Rattle.std.specs.Prelude.{◌≡◌, IfOk, OnOk};
ghost use Rattle.px_walk.specs.Nodes.{rose_of};
ghost use Rattle.px_walk.specs.Roses.{head_of, number_of, occurrences};
ghost use Rattle.px_names.specs.Contexts.{module_code, down};
ghost use Rattle.px_names.specs.Kept.{names_in, meanings_kept};
ghost use Rattle.px_names.specs.Meanings.{meaning_of};
ghost use Rattle.px_names.specs.NamedModule.{is_there, meaning_use, name_use, use_numbered, uses_in};
ghost use Rattle.px_names.specs.Steps.{with_use};

use crate::contexts::{Context, MODULE_CODE, Role, down};
use crate::lookups::Lookup;
use crate::named::Scope;
use px_base::NoMemory;
use px_walk::{Head, TreeNode, Visitor, visit};
use std::alloc::Global;

/// The names so far that stand in one function, or else in module code.
#[derive(Drop)]
pub(crate) struct Gatherer<'t, 'a> {
    pub(crate) lookup: &'t Lookup<'a>,
    pub(crate) function: Option<u32>,
    pub(crate) scope: Scope,
}

/// Whether a node in this context is judged, and stands in the function, or else in module code.
fn is_there(function: Option<u32>, context: Context) -> bool
    ensures { result ≡ is_there function context }
{
    match context.role {
        Role::Untested => false,
        _ => function == context.function,
    }
}

/// Takes in a name that stands in a function, or else in module code.
fn take_name(
    scope: &mut Scope,
    lookup: &Lookup<'_>,
    function: Option<u32>,
    name: &[char],
    number: u32,
) -> Result<(), NoMemory>
    ensures { OnOk result (meanings_kept scope.new ≡
        with_use (meaning_use number (meaning_of (names_in lookup.now) function name.now)) (meanings_kept scope.old)) }
{
    match lookup.meaning(function, name) {
        Some(meaning) => scope.set(number, meaning),
        None => Ok(()),
    }
}

/// Takes in a node that stands in a function, or else in module code.
fn take(
    scope: &mut Scope,
    lookup: &Lookup<'_>,
    function: Option<u32>,
    node: TreeNode<'_>,
) -> Result<(), NoMemory>
    ensures { OnOk result (meanings_kept scope.new ≡
        with_use (name_use (names_in lookup.now) function (number_of (rose_of node.entry)) (head_of (rose_of node.entry))) (meanings_kept scope.old)) }
{
    match node.head() {
        Head::Name(name) => take_name(scope, lookup, function, name, node.number()),
        _ => Ok(()),
    }
}

/// Gathers the names.
impl<'t, 'a> Visitor<TreeNode<'a>> for Gatherer<'t, 'a> {
    ghost use Rattle.px_names.specs.Contexts.{down};
    ghost use Rattle.px_names.specs.Kept.{names_in, meanings_kept};
    ghost use Rattle.px_names.specs.Steps.{Gathered, gathered_after};

    type Context = Context;

    ghost State = { Gathered };

    ghost state = { λ gatherer. (names_in gatherer.lookup.now, gatherer.function, meanings_kept gatherer.scope) };

    ghost down = { λ _. down };

    ghost step = { gathered_after };

    fn down(&self, context: Context, node: TreeNode<'a>, k: usize) -> Context {
        down(context, node, k)
    }

    fn visit(&mut self, context: Context, node: TreeNode<'a>) -> Result<(), NoMemory> {
        if is_there(self.function, context) {
            take(&mut self.scope, self.lookup, self.function, node)
        } else {
            Ok(())
        }
    }
}

/// What the names stand for that stand in a function, or else in module code, among the nodes of a tree.
///
/// # Errors
/// `NoMemory` where there is no memory for them.
pub(crate) fn scope_of<'a>(
    alloc: Global,
    lookup: &Lookup<'a>,
    function: Option<u32>,
    node: TreeNode<'a>,
) -> Result<Scope, NoMemory>
    ensures { IfOk result (λ scope. meanings_kept scope ≡
        use_numbered (uses_in (names_in lookup.now) function (occurrences down module_code (rose_of node.entry)))) }
{
    let scope = Scope::new(alloc);
    let mut gatherer = Gatherer {
        lookup,
        function,
        scope,
    };
    visit(&mut gatherer, MODULE_CODE, node)?;
    Ok(gatherer.scope)
}
