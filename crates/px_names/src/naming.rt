//! The phase of names.

ghost use Rattle.std.specs.Prelude.{◌≡◌, ◌++◌, List, Some, None, IfOk, OnOk, option_copied};
ghost use Rattle.std.specs.List.{AllZip};
ghost use Rattle.std.specs.Option.{option_to_list};
ghost use Rattle.px_tree.specs.declared.modules.Function.{Function};
ghost use Rattle.px_base.specs.Findings.{IsFirst};
ghost use Rattle.px_base.specs.Troubles.{IfRefused};
ghost use Rattle.px_walk.specs.Findings.{finding};
ghost use Rattle.px_names.specs.Contexts.{nodes_of};
ghost use Rattle.px_names.specs.Declarations.{names_of};
ghost use Rattle.px_names.specs.Kept.{names_kept, names_in};
ghost use Rattle.px_names.specs.NamedModule.{IsCode, IsFunctionCode, IsNamed, function_item, functions_of, module_directives};
ghost use Rattle.px_names.specs.Rules.{rule_of, BreaksNames};
ghost use Rattle.px_names.specs.Steps.{unshared};

use crate::contexts::MODULE_CODE;
use crate::directives::{function_directives, module_directives};
use crate::gathering::scope_of;
use crate::judging::Judge;
use crate::lookups::Lookup;
use crate::named::{Named, NamedCode, NamedFunctions};
use crate::settings::Directives;
use crate::tables::Tables;
use indexmap::IndexSet;
use px_base::{NoMemory, Refusal, Trouble};
use px_tree::{Function, Module, ModuleItem};
use px_walk::{TreeNode, visit};
use std::alloc::Global;

/// The tables of a module.
fn tables_of<'a>(alloc: Global, module: &'a Module) -> Result<Tables<'a>, NoMemory>
    ensures { IfOk result (λ tables. names_kept tables ≡ unshared (names_of (nodes_of «module».now))) }
{
    let mut tables = Tables::new(alloc);
    visit(&mut tables, MODULE_CODE, TreeNode::Module(module))?;
    Ok(tables)
}

/// All that the text of a module says of its names.
fn lookup_of<'a>(alloc: Global, module: &'a Module) -> Result<Lookup<'a>, NoMemory>
    ensures { IfOk result (λ lookup. names_in lookup ≡ names_of (nodes_of «module».now)) }
{
    let tables = tables_of(alloc, module)?;
    let shared = IndexSet::new(alloc);
    let mut lookup = Lookup { tables, shared };
    visit(&mut lookup, MODULE_CODE, TreeNode::Module(module))?;
    Ok(lookup)
}

/// The first rule of names that a module breaks.
fn first_broken<'a>(
    alloc: Global,
    lookup: &Lookup<'a>,
    module: &'a Module,
) -> Result<Option<Refusal>, NoMemory>
    ensures { IfOk result (λ found. found ≡ finding (rule_of (names_in lookup.now)) (nodes_of «module».now)) }
{
    let mut judge = Judge {
        alloc,
        lookup,
        first: None,
    };
    visit(&mut judge, MODULE_CODE, TreeNode::Module(module))?;
    Ok(judge.first)
}

/// The names and the directives of a function, in a module with these directives.
fn function_code<'a>(
    alloc: Global,
    lookup: &Lookup<'a>,
    directives: Directives,
    function: &'a Function,
) -> Result<NamedCode, NoMemory>
    ensures { IfOk result (λ code. IsFunctionCode (names_in lookup.now) directives function.now code) }
{
    let node = TreeNode::Function(function);
    let scope = scope_of(alloc, lookup, Some(function.number), node)?;
    let directives = function_directives(lookup, directives, function);
    Ok(NamedCode { scope, directives })
}

/// The function that stands in a module.
pub fn function_item(item: &ModuleItem) -> Option<&Function>
    ensures { option_copied result ≡ function_item item.now }
{
    match item {
        ModuleItem::Function(function) => Some(function.get()),
        _ => None,
    }
}

/// Adds the names and the directives of what stands in a module, where it is a function, to those of the functions before it.
fn push_code<'a>(
    alloc: Global,
    lookup: &Lookup<'a>,
    directives: Directives,
    item: &'a ModuleItem,
    functions: &mut NamedFunctions,
) -> Result<(), NoMemory>
    ensures { OnOk result ((before : List Function) → AllZip (IsFunctionCode (names_in lookup.now) directives) before functions.old
        → AllZip (IsFunctionCode (names_in lookup.now) directives) (before ++ option_to_list (function_item item.now)) functions.new) }
{
    match function_item(item) {
        Some(function) => {
            let code = function_code(alloc, lookup, directives, function)?;
            functions.push(code)?;
            Ok(())
        }
        None => Ok(()),
    }
}

/// The names and the directives of the functions of a module, which has these directives.
fn functions_of<'a>(
    alloc: Global,
    lookup: &Lookup<'a>,
    directives: Directives,
    module: &'a Module,
) -> Result<NamedFunctions, NoMemory>
    ensures { IfOk result (λ functions. AllZip (IsFunctionCode (names_in lookup.now) directives) (functions_of «module».now) functions) }
{
    let mut functions = NamedFunctions::new(alloc);
    for item in module.items.as_slice() {
        push_code(alloc, lookup, directives, item, &mut functions)?;
    }
    Ok(functions)
}

/// What is found in a module: its code and its functions.
#[derive(Drop)]
struct NamedParts {
    code: NamedCode,
    functions: NamedFunctions,
}

/// The names and the directives of a module.
fn parts_of(alloc: Global, lookup: &Lookup<'_>, module: &Module) -> Result<NamedParts, NoMemory>
    ensures code { IfOk result (λ parts. IsCode (names_in lookup.now) None (nodes_of «module».now) (module_directives «module».now) parts.code) }
    ensures functions { IfOk result (λ parts. AllZip (IsFunctionCode (names_in lookup.now) (module_directives «module».now)) (functions_of «module».now) parts.functions) }
{
    let directives = module_directives(alloc, module)?;
    let functions = functions_of(alloc, lookup, directives, module)?;
    let scope = scope_of(alloc, lookup, None, TreeNode::Module(module))?;
    let code = NamedCode { scope, directives };
    Ok(NamedParts { code, functions })
}

/// The names and the directives of a module that breaks no rule of names, by what its text says of its names.
fn checked_by(alloc: Global, lookup: &Lookup<'_>, module: &Module) -> Result<NamedParts, Trouble>
    requires { names_in lookup.now ≡ names_of (nodes_of «module».now) }
    ensures code { IfOk result (λ parts. IsCode (names_of (nodes_of «module».now)) None (nodes_of «module».now) (module_directives «module».now) parts.code) }
    ensures functions { IfOk result (λ parts. AllZip (IsFunctionCode (names_of (nodes_of «module».now)) (module_directives «module».now)) (functions_of «module».now) parts.functions) }
    ensures refused { IfRefused result (λ refusal. IsFirst (BreaksNames «module».now) (Some refusal)) }
    ensures clean { OnOk result (IsFirst (BreaksNames «module».now) None) }
{
    match first_broken(alloc, lookup, module)? {
        Some(refusal) => Err(Trouble::Refused(refusal)),
        None => {
            let parts = parts_of(alloc, lookup, module)?;
            Ok(parts)
        }
    }
}

/// The names and the directives of a module that breaks no rule of names.
fn checked(alloc: Global, module: &Module) -> Result<NamedParts, Trouble>
    ensures code { IfOk result (λ parts. IsCode (names_of (nodes_of «module».now)) None (nodes_of «module».now) (module_directives «module».now) parts.code) }
    ensures functions { IfOk result (λ parts. AllZip (IsFunctionCode (names_of (nodes_of «module».now)) (module_directives «module».now)) (functions_of «module».now) parts.functions) }
    ensures refused { IfRefused result (λ refusal. IsFirst (BreaksNames «module».now) (Some refusal)) }
    ensures clean { OnOk result (IsFirst (BreaksNames «module».now) None) }
{
    let lookup = lookup_of(alloc, module)?;
    checked_by(alloc, &lookup, module)
}

/// What the names of a module stand for, and its directives.
///
/// # Errors
/// Exactly where the module breaks a rule of names: the first of E10, E11, E13 and E27 by place and number. `NoMemory` where there is
/// no memory for the answer.
pub fn names(alloc: Global, module: Module) -> Result<Named, Trouble>
    ensures accepted { IfOk result (λ named. IsNamed «module» named) }
    ensures refused { IfRefused result (λ refusal. IsFirst (BreaksNames «module») (Some refusal)) }
    ensures clean { OnOk result (IsFirst (BreaksNames «module») None) }
{
    let NamedParts { code, functions } = checked(alloc, &module)?;
    Ok(Named {
        module,
        code,
        functions,
    })
}
