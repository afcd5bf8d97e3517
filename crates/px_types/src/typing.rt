//! The phase of types.

ghost use Rattle.std.specs.Prelude.{◌≡◌, List, [], false, filter_map, map, zip, IfOk, OnOk, option_copied};
ghost use Rattle.std.specs.List.{cons_option, list_any};
ghost use Rattle.px_tree.specs.declared.modules.Function.{Function};
ghost use Rattle.px_walk.specs.StmtView.{rose_of_stmt};
ghost use Rattle.px_names.specs.NamedModule.{function_item, functions_of};
ghost use Rattle.px_operators.specs.Outcomes.{Gives, all_of, both};
ghost use Rattle.px_operators.specs.Kept.{trees_kept, gathers};
ghost use Rattle.px_environments.specs.Kept.{signatures_kept};
ghost use Rattle.px_environments.specs.Signatures.{function_in, statement_item};
ghost use Rattle.px_types.specs.Statements.{statement};
ghost use Rattle.px_types.specs.StatementsKept.{trees_gathered};
ghost use Rattle.px_types.specs.Typers.{environment_of};
ghost use Rattle.px_types.specs.TypedModule.{block, code_types, function_types, functions_types, gives_object, constants_of, function_kept, module_kept};
ghost use Rattle.px_types.specs.Types.{types_of};
ghost use Rattle.px_types.specs.ModuleKept.{parts_of_module, functions_gathered, pair_of, count_of_function, module_of_parts};

use crate::typed_functions::function_types;
use crate::typer::Typer;
use px_base::{Constant, NoMemory, Sequence, Trouble};
use px_environments::{Signatures, Variables, code_environment, unbuilt_in};
use px_names::{Named, NamedCode};
use px_operators::{Gathered, both};
use px_tree::{Constants, ModuleItem, Typed, TypedFunction, TypedFunctions, TypedTree, ValueType};
use px_walk::TreeNode;
use sqlite_items::{Items, at};
use std::alloc::Global;

/// Takes in the types of a statement of module code.
fn take_statement(
    typer: &Typer<'_>,
    item: &ModuleItem,
    all: &mut Gathered<TypedTree>,
) -> Result<(), NoMemory>
    ensures { OnOk result (trees_gathered all.new ≡ gathers (trees_gathered all.old) (map (λ s. statement (environment_of typer.now) false (rose_of_stmt s)) (cons_option (statement_item item.now) []))) }
{
    match item {
        ModuleItem::Statement(statement) => {
            all.take(typer.statement(false, TreeNode::Stmt(statement)))
        }
        ModuleItem::Import(_) => Ok(()),
        ModuleItem::Function(_) => Ok(()),
    }
}

/// The types of module code.
fn code_types(typer: &Typer<'_>, items: &[ModuleItem]) -> Result<Vec<TypedTree>, Trouble>
    ensures { Gives (λ all. trees_kept all.items) result (block (environment_of typer.now) (filter_map statement_item items.now)) }
{
    let mut all = Gathered::new(typer.alloc);
    for item in items {
        take_statement(typer, item, &mut all)?;
    }
    all.all()
}

/// Takes in the types of a function, whose names stand for this.
fn take_function(
    alloc: Global,
    signatures: &Signatures,
    item: &ModuleItem,
    code: Option<&NamedCode>,
    all: &mut Gathered<TypedFunction>,
) -> Result<(), NoMemory>
    ensures { (functions : List Function) → signatures_kept signatures.now ≡ function_in 0 functions
        → OnOk result (functions_gathered all.new ≡ gathers (functions_gathered all.old) (map (function_types functions) (pair_of (function_item item.now) (option_copied code.entry)))) }
{
    match (item, code) {
        (ModuleItem::Function(function), Some(code)) => {
            all.take(function_types(alloc, signatures, function.get(), code))
        }
        _ => Ok(()),
    }
}

/// 1 for a function, and else 0.
fn count_of_function(item: &ModuleItem) -> usize
    ensures { result ≡ count_of_function (function_item item.now) }
{
    match item {
        ModuleItem::Function(_) => 1,
        ModuleItem::Import(_) => 0,
        ModuleItem::Statement(_) => 0,
    }
}

/// The types of the functions.
fn functions_types(
    alloc: Global,
    signatures: &Signatures,
    named: &Named,
) -> Result<Vec<TypedFunction>, Trouble>
    ensures { (functions : List Function) → signatures_kept signatures.now ≡ function_in 0 functions
        → Gives (λ all. map function_kept all.items) result (all_of (map (function_types functions) (zip (functions_of named.now.«module») named.now.functions))) }
{
    let mut all = Gathered::new(alloc);
    let mut place = 0;
    for item in named.module.items.as_slice() {
        let code = at(named.functions.as_slice(), place);
        take_function(alloc, signatures, item, code, &mut all)?;
        place += count_of_function(item);
    }
    all.all()
}

/// The types of a module's code.
fn module_code_types(
    alloc: Global,
    signatures: &Signatures,
    named: &Named,
) -> Result<Vec<TypedTree>, Trouble>
    ensures { signatures_kept signatures.now ≡ function_in 0 (functions_of named.now.«module»)
        → Gives (λ all. trees_kept all.items) result (code_types named.now) }
{
    let variables = Variables::new(alloc, &[])?;
    let code = code_environment(signatures, &variables, &named.code, None);
    let typer = Typer { alloc, code };
    code_types(&typer, named.module.items.as_slice())
}

/// The types of a module: of its code, and of its functions.
fn module_types(
    alloc: Global,
    named: &Named,
) -> Result<(Vec<TypedTree>, Vec<TypedFunction>), Trouble>
    ensures { Gives parts_of_module result (both (code_types named.now) (functions_types named.now)) }
{
    let signatures = Signatures::new(alloc, &named.module)?;
    both(
        module_code_types(alloc, &signatures, named),
        functions_types(alloc, &signatures, named),
    )
}

fn gives_object(function: &TypedFunction) -> bool
    ensures { result ≡ gives_object function.now.gives }
{
    match function.gives {
        ValueType::Object => true,
        _ => false,
    }
}

/// Whether one of these functions gives an object.
fn gives_any_object(functions: &[TypedFunction]) -> bool
    ensures { result ≡ list_any (λ f. gives_object f.gives) (map function_kept functions.now) }
{
    for function in functions {
        if gives_object(function) {
            return true;
        }
    }
    false
}

/// The constants of a module with these functions: None where one gives an object, since it may end without a value.
fn constants_of(alloc: Global, functions: &[TypedFunction]) -> Result<Constants, NoMemory>
    ensures { IfOk result (λ constants. constants ≡ constants_of (map function_kept functions.now)) }
{
    let mut constants = Sequence::new(alloc);
    if gives_any_object(functions) {
        constants.push(Constant::None)?;
    }
    Ok(constants)
}

/// The code, the functions and the constants of a module.
fn typed_parts(
    alloc: Global,
    named: &Named,
) -> Result<(Items<TypedTree>, TypedFunctions, Constants), Trouble>
    ensures { Gives module_of_parts result (types_of named.now) }
{
    if let Some(refusal) = unbuilt_in(alloc, named)? {
        return Err(Trouble::Refused(refusal));
    }
    let (code, functions) = module_types(alloc, named)?;
    let constants = constants_of(alloc, functions.as_slice())?;
    Ok((
        Items::from_vec(code),
        Sequence::from_vec(functions),
        constants,
    ))
}

/// The typed tree of a module that breaks no rule of names.
///
/// # Errors
/// A refusal by E27 of the first form whose types aren't built, and else by E12 of the first place where types don't fit; `NoMemory`
/// where there is no memory for the tree.
pub fn types(alloc: Global, named: Named) -> Result<Typed, Trouble>
    ensures types { Gives module_kept result (types_of named) }
    ensures kept { IfOk result (λ typed. typed.«module» ≡ named.«module») }
{
    let (code, functions, constants) = typed_parts(alloc, &named)?;
    Ok(Typed {
        module: named.module,
        code,
        functions,
        names: Sequence::new(alloc),
        constants,
        pranges: Sequence::new(alloc),
    })
}
