//! The variables of functions.

ghost use Rattle.std.specs.Prelude.{◌≡◌, ◌++◌, [], ◌∷◌, IfOk, OnOk};
ghost use Rattle.std.specs.Option.{option_to_list};
ghost use Rattle.px_tree.specs.declared.modules.Function.{Function};
ghost use Rattle.px_walk.specs.HeadForms.{form_of};
ghost use Rattle.px_walk.specs.Nodes.{rose_of};
ghost use Rattle.px_environments.specs.Signatures.{local_of_param, local_of_part, is_declare, locals_of_statement, locals_of_declaration, locals_of};

use crate::variables::{or_object, value_type_of};
use crate::written_types::first_type;
use px_base::{NoMemory, Sequence, Span};
use px_tree::{Function, Local, Locals, Param, Stmt, ValueType};
use px_walk::{Head, Node, TreeNode};
use std::alloc::Global;

/// A variable.
fn local(
    alloc: Global,
    number: u32,
    at: Span,
    name: &[char],
    value_type: ValueType,
) -> Result<Local, NoMemory>
    ensures { IfOk result (λ made. made ≡ record { number = number; at = at; name = name.now; value_type = value_type }) }
{
    Ok(Local {
        number,
        at,
        name: Sequence::from_slice(alloc, name)?,
        value_type,
    })
}

fn add_param(alloc: Global, locals: &mut Locals, param: &Param) -> Result<(), NoMemory>
    ensures { OnOk result (locals.new ≡ locals.old ++ local_of_param param.now ∷ []) }
{
    let t = value_type_of(param);
    locals.push(local(alloc, param.number, param.at, param.name.as_slice(), t)?)?;
    Ok(())
}

/// Adds the variable of a part of a declaration, where it names one.
fn add_part(
    alloc: Global,
    locals: &mut Locals,
    t: ValueType,
    part: TreeNode<'_>,
) -> Result<(), NoMemory>
    ensures { OnOk result (locals.new ≡ locals.old ++ option_to_list (local_of_part t (rose_of part.entry))) }
{
    match part.head() {
        Head::Declarator(name) => {
            locals.push(local(alloc, part.number(), part.at(), name, t)?)?;
            Ok(())
        }
        _ => Ok(()),
    }
}

/// Adds the variables of a declaration.
fn add_declaration(alloc: Global, locals: &mut Locals, node: TreeNode<'_>) -> Result<(), NoMemory>
    ensures { OnOk result (locals.new ≡ locals.old ++ locals_of_declaration (rose_of node.entry)) }
{
    let t = or_object(first_type(node));
    for k in 0..node.count() {
        add_part(alloc, locals, t, node.part(k))?;
    }
    Ok(())
}

fn is_declare(head: Head<'_>) -> bool
    ensures { result ≡ is_declare (form_of head.entry) }
{
    match head {
        Head::Declare => true,
        Head::DeclareGroup => true,
        _ => false,
    }
}

/// Adds the variables that a statement declares.
fn add_statement(alloc: Global, locals: &mut Locals, node: TreeNode<'_>) -> Result<(), NoMemory>
    ensures { OnOk result (locals.new ≡ locals.old ++ locals_of_statement (rose_of node.entry)) }
{
    if !is_declare(node.head()) {
        return Ok(());
    }
    for k in 0..node.count() {
        add_declaration(alloc, locals, node.part(k))?;
    }
    Ok(())
}

/// The variables of a function: its parameters, and those that the statements of its own block declare.
///
/// # Errors
/// `NoMemory` where there is no memory for them.
pub fn locals_of(alloc: Global, function: &Function) -> Result<Locals, NoMemory>
    ensures { IfOk result (λ locals. locals ≡ locals_of function.now) }
{
    let mut locals = Sequence::new(alloc);
    for param in function.params.as_slice() {
        add_param(alloc, &mut locals, param)?;
    }
    for statement in function.body.as_slice() {
        add_statement(alloc, &mut locals, TreeNode::Stmt(statement))?;
    }
    Ok(locals)
}
