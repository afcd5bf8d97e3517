//! The first form of a module whose types aren't built.

ghost use Rattle.std.specs.Prelude.{◌≡◌, IfOk, List, filter_map, map, option_and_then, option_copied, zip};
ghost use Rattle.px_tree.specs.declared.modules.Function.{Function};
ghost use Rattle.px_names.specs.NamedModule.{functions_of};
ghost use Rattle.px_environments.specs.Signatures.{function_in, statement_item};
ghost use Rattle.px_environments.specs.BuiltForms.{first_in, unbuilt_below, unbuilt_in_function, unbuilt_in_known, unbuilt_in};
ghost use Rattle.px_environments.specs.Kept.{signatures_kept, environment_kept};
ghost use Rattle.px_walk.specs.StmtView.{rose_of_stmt};

use crate::code_environments::{CodeEnvironment, code_environment};
use crate::locals::locals_of;
use crate::variables::{Signatures, Variables, gives_of};
use px_base::{NoMemory, Refusal, earlier};
use px_names::{Named, NamedCode, function_item};
use px_tree::{Function, ModuleItem};
use px_walk::TreeNode;
use std::alloc::Global;

/// The first form of a function that isn't built.
fn unbuilt_in_function(
    alloc: Global,
    signatures: &Signatures,
    function: &Function,
    code: &NamedCode,
) -> Result<Option<Refusal>, NoMemory>
    ensures { (functions : List Function) → signatures_kept signatures.now ≡ function_in 0 functions
        → IfOk result (λ found. found ≡ unbuilt_in_function functions (function.now, code.now)) }
{
    let locals = locals_of(alloc, function)?;
    let variables = Variables::new(alloc, locals.as_slice())?;
    let gives = Some(gives_of(function));
    let environment = code_environment(signatures, &variables, code, gives);
    Ok(environment.unbuilt_below(TreeNode::Function(function)))
}

/// The first form of a function that isn't built, where what its names stand for is known.
fn unbuilt_in_known(
    alloc: Global,
    signatures: &Signatures,
    function: &Function,
    code: Option<&NamedCode>,
) -> Result<Option<Refusal>, NoMemory>
    ensures { (functions : List Function) → signatures_kept signatures.now ≡ function_in 0 functions
        → IfOk result (λ found. found ≡ unbuilt_in_known functions function.now (option_copied code.entry)) }
{
    match code {
        Some(code) => unbuilt_in_function(alloc, signatures, function, code),
        None => Ok(None),
    }
}

/// The first form of the functions that isn't built.
fn unbuilt_in_functions(
    alloc: Global,
    signatures: &Signatures,
    named: &Named,
) -> Result<Option<Refusal>, NoMemory>
    ensures { (functions : List Function) → signatures_kept signatures.now ≡ function_in 0 functions
        → IfOk result (λ found. found ≡ first_in (map (unbuilt_in_function functions) (zip (functions_of named.now.«module») named.now.functions))) }
{
    let mut first = None;
    let mut place = 0;
    for item in named.module.items.as_slice() {
        if let Some(function) = function_item(item) {
            let code = named.functions.as_slice().get(place);
            first = earlier(first, unbuilt_in_known(alloc, signatures, function, code)?);
            place += 1;
        }
    }
    Ok(first)
}

/// The first form of what stands in a module that isn't built, where it is a statement.
fn unbuilt_in_item(environment: &CodeEnvironment<'_>, item: &ModuleItem) -> Option<Refusal>
    ensures { result ≡ option_and_then (λ s. unbuilt_below (environment_kept environment.now) (rose_of_stmt s)) (statement_item item.now) }
{
    match item {
        ModuleItem::Statement(statement) => environment.unbuilt_below(TreeNode::Stmt(statement)),
        _ => None,
    }
}

/// The first form of module code that isn't built.
fn unbuilt_in_code(environment: &CodeEnvironment<'_>, items: &[ModuleItem]) -> Option<Refusal>
    ensures { result ≡ first_in (map (λ s. unbuilt_below (environment_kept environment.now) (rose_of_stmt s)) (filter_map statement_item items.now)) }
{
    let mut first = None;
    for item in items {
        first = earlier(first, unbuilt_in_item(environment, item));
    }
    first
}

/// The first form of a module whose types aren't built, as its refusal by E27 at the innermost import, function, declaration or
/// statement that has it.
///
/// # Errors
/// `NoMemory` where there is no memory for the tables of its functions and variables.
pub fn unbuilt_in(alloc: Global, named: &Named) -> Result<Option<Refusal>, NoMemory>
    ensures { IfOk result (λ found. found ≡ unbuilt_in named.now) }
{
    let signatures = Signatures::new(alloc, &named.module)?;
    let variables = Variables::new(alloc, &[])?;
    let code = code_environment(&signatures, &variables, &named.code, None);
    let in_code = unbuilt_in_code(&code, named.module.items.as_slice());
    let in_functions = unbuilt_in_functions(alloc, &signatures, named)?;
    Ok(earlier(in_code, in_functions))
}
