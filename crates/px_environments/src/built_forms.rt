//! Forms whose types aren't built: all that isn't on C values.

ghost use Rattle.std.specs.Prelude.{◌≡◌, drop, option_map, option_copied};
ghost use Rattle.px_walk.specs.HeadForms.{form_of, function_form};
ghost use Rattle.px_walk.specs.Nodes.{rose_of};
ghost use Rattle.px_walk.specs.Roses.{head_of, number_of, parts_of};
ghost use Rattle.px_environments.specs.Atoms.{c_comparison};
ghost use Rattle.px_environments.specs.BuiltForms.{is_c, is_plain, is_object, is_unlocked, is_plain_result, is_function_built, are_calls, is_alone, is_in_head, is_result_built, is_function_call_built, count_of_arguments, is_builtin_built, is_c_comparison, has_place, place_of, is_exception_part, role_where, tested_role, role_below, form_below, is_name_built, is_use_built, is_row_built, is_built, is_over_range, is_tested_built, unbuilt_below};
ghost use Rattle.px_environments.specs.Kept.{environment_kept};

use crate::atoms::{c_comparison, is_long};
use crate::code_environments::CodeEnvironment;
use crate::form_contexts::{FormContext, FormRole};
use crate::signatures::Signature;
use crate::written_types::{first_type, type_of_part};
use px_base::{Builtin, Refusal, Span};
use px_names::{Meaning, count_of_exception, count_of_result, is_call};
use px_tree::{CompareOp, Lock, ValueType};
use px_walk::{ExceptionKind, FunctionHead, Head, Node, ResultKind, Rules, TreeNode, first_broken};

fn is_c(t: Option<ValueType>) -> bool
    ensures { result ≡ is_c t }
{
    match t {
        Some(ValueType::C(_)) => true,
        _ => false,
    }
}

/// Whether a type is neither a view type nor none.
fn is_plain(t: Option<ValueType>) -> bool
    ensures { result ≡ is_plain t }
{
    match t {
        Some(ValueType::C(_)) => true,
        Some(ValueType::Object) => true,
        _ => false,
    }
}

fn is_object(t: Option<ValueType>) -> bool
    ensures { result ≡ is_object t }
{
    match t {
        Some(ValueType::Object) => true,
        _ => false,
    }
}

fn is_unlocked(lock: Lock) -> bool
    ensures { result ≡ is_unlocked lock }
{
    match lock {
        Lock::Unwritten => true,
        Lock::Nogil => false,
        Lock::WithGil => false,
    }
}

fn is_plain_result(gives: ResultKind, t: Option<ValueType>) -> bool
    ensures { result ≡ is_plain_result gives t }
{
    match gives {
        ResultKind::Unwritten => true,
        ResultKind::Void => true,
        ResultKind::Typed => is_plain(t),
    }
}

/// Whether a function has no lock clause and gives no view.
fn is_function_built(function: FunctionHead<'_>, node: TreeNode<'_>) -> bool
    ensures { result ≡ is_function_built (function_form function.entry) (parts_of (rose_of node.entry)) }
{
    is_unlocked(function.lock)
        && is_plain_result(function.gives, type_of_part(node.get(function.decorators)))
}

/// Whether all trailers of a row are calls.
fn are_calls(row: TreeNode<'_>) -> bool
    ensures { result ≡ are_calls (drop 1 (parts_of (rose_of row.entry))) }
{
    for k in 1..row.count() {
        if !is_call(row.part(k).head()) {
            return false;
        }
    }
    true
}

/// Whether a row of one trailer is a statement alone.
fn is_alone(role: FormRole, row: TreeNode<'_>) -> bool
    ensures { result ≡ is_alone role (drop 1 (parts_of (rose_of row.entry))) }
{
    match role {
        FormRole::Alone => row.count() == 2,
        _ => false,
    }
}

/// Whether a row of one trailer is what a `for` goes over.
fn is_in_head(role: FormRole, row: TreeNode<'_>) -> bool
    ensures { result ≡ is_in_head role (drop 1 (parts_of (rose_of row.entry))) }
{
    match role {
        FormRole::Head => row.count() == 2,
        _ => false,
    }
}

fn is_result_built(role: FormRole, row: TreeNode<'_>, is_def: bool, gives: ValueType) -> bool
    ensures { result ≡ is_result_built role (drop 1 (parts_of (rose_of row.entry))) is_def gives }
{
    match gives {
        ValueType::C(_) => are_calls(row),
        ValueType::Void => are_calls(row),
        ValueType::Object => is_def && is_alone(role, row),
        ValueType::View(_) => false,
    }
}

fn is_function_call_built(role: FormRole, row: TreeNode<'_>, function: Option<&Signature>) -> bool
    ensures { result ≡ is_function_call_built role (drop 1 (parts_of (rose_of row.entry))) (option_copied function.entry) }
{
    match function {
        Some(function) => is_result_built(role, row, function.is_def, function.gives),
        None => false,
    }
}

/// How many arguments the first call of a row has.
fn count_of_arguments(row: TreeNode<'_>) -> usize
    ensures { result ≡ count_of_arguments (drop 1 (parts_of (rose_of row.entry))) }
{
    match row.get(1) {
        Some(call) => call.count(),
        None => 0,
    }
}

fn is_builtin_built(role: FormRole, row: TreeNode<'_>, builtin: Builtin) -> bool
    ensures { result ≡ is_builtin_built role (drop 1 (parts_of (rose_of row.entry))) builtin }
{
    match builtin {
        Builtin::Print => is_alone(role, row),
        Builtin::Abs => are_calls(row),
        Builtin::Min => count_of_arguments(row) >= 2 && are_calls(row),
        Builtin::Max => count_of_arguments(row) >= 2 && are_calls(row),
        Builtin::Range => is_in_head(role, row),
        _ => false,
    }
}

fn is_c_comparison(op: CompareOp) -> bool
    ensures { result ≡ is_c_comparison (c_comparison op) }
{
    c_comparison(op).is_some()
}

/// Whether a node is an import, a function, a declaration or a statement.
fn has_place(head: Head<'_>) -> bool
    ensures { result ≡ has_place (form_of head.entry) }
{
    match head {
        Head::Import(_, _, _) => true,
        Head::ImportFrom(_, _) => true,
        Head::Function(_) => true,
        Head::Assign(_) => true,
        Head::Augment(_) => true,
        Head::Pass => true,
        Head::Break => true,
        Head::Continue => true,
        Head::Return => true,
        Head::Raise(_) => true,
        Head::Global(_) => true,
        Head::If(_, _) => true,
        Head::While => true,
        Head::For => true,
        Head::WithGil => true,
        Head::WithNogil => true,
        Head::Declare => true,
        Head::DeclareGroup => true,
        Head::Declaration => true,
        _ => false,
    }
}

/// The place of the innermost import, function, declaration or statement that a node is or stands in.
fn place_of(context: FormContext, node: TreeNode<'_>) -> Span
    ensures { result ≡ place_of context (rose_of node.entry) }
{
    if has_place(node.head()) {
        node.at()
    } else {
        context.at
    }
}

/// Whether a part of a function is the value of its `except` clause.
fn is_exception_part(function: FunctionHead<'_>, k: usize) -> bool
    ensures { result ≡ is_exception_part (function_form function.entry) k }
{
    let count = count_of_exception(function.exception);
    if k < function.decorators {
        return false;
    }
    let behind_decorators = k - function.decorators;
    let typed = count_of_result(function.gives);
    if behind_decorators < typed {
        return false;
    }
    let behind_type = behind_decorators - typed;
    if behind_type < function.params {
        return false;
    }
    behind_type - function.params < count
}

fn role_where(holds: bool, role: FormRole) -> FormRole
    ensures { result ≡ role_where holds role }
{
    if holds { role } else { FormRole::Other }
}

/// The role of a part of a node that is tested.
fn tested_role(head: Head<'_>, k: usize) -> FormRole
    ensures { result ≡ tested_role (form_of head.entry) k }
{
    match head {
        Head::Function(function) => role_where(is_exception_part(function, k), FormRole::Untested),
        Head::Assign(targets) => role_where(targets == 0, FormRole::Alone),
        Head::For => role_where(k == 1, FormRole::Head),
        _ => FormRole::Other,
    }
}

fn role_below(role: FormRole, head: Head<'_>, k: usize) -> FormRole
    ensures { result ≡ role_below role (form_of head.entry) k }
{
    match role {
        FormRole::Untested => FormRole::Untested,
        _ => tested_role(head, k),
    }
}

/// The context of a part of a node.
fn form_below(context: FormContext, node: TreeNode<'_>, k: usize) -> FormContext
    ensures { result ≡ form_below context (rose_of node.entry) k }
{
    FormContext {
        at: place_of(context, node),
        role: role_below(context.role, node.head(), k),
    }
}

impl<'a> CodeEnvironment<'a> {
    fn is_name_built(&self, meaning: Option<Meaning>) -> bool
        ensures { result ≡ is_name_built (environment_kept self.now) meaning }
    {
        match meaning {
            Some(Meaning::Local(declaration, _)) => match self.variable(declaration) {
                Some(variable) => is_c(Some(variable.value_type)),
                None => false,
            },
            Some(Meaning::Module) => false,
            _ => true,
        }
    }

    fn is_use_built(&self, role: FormRole, row: TreeNode<'_>, meaning: Option<Meaning>) -> bool
        ensures { result ≡ is_use_built (environment_kept self.now) role (drop 1 (parts_of (rose_of row.entry))) meaning }
    {
        match meaning {
            Some(Meaning::Function(function, _)) => {
                is_function_call_built(role, row, self.functions.get(function))
            }
            Some(Meaning::Builtin(builtin)) => is_builtin_built(role, row, builtin),
            Some(Meaning::Import(_)) => false,
            _ => are_calls(row),
        }
    }

    fn is_row_built(&self, role: FormRole, row: TreeNode<'_>) -> bool
        ensures { result ≡ is_row_built (environment_kept self.now) role (parts_of (rose_of row.entry)) }
    {
        match row.get(0) {
            Some(atom) => self.is_use_built(role, row, self.atom_meaning(atom)),
            None => false,
        }
    }

    fn is_over_range(&self, value: Option<TreeNode<'_>>) -> bool
        ensures { result ≡ is_over_range (environment_kept self.now) (option_map rose_of value.entry) }
    {
        match value {
            Some(value) => self.is_range_head(value),
            None => false,
        }
    }

    /// Whether a form is one on C values, as far as the node itself shows it.
    fn is_built(&self, role: FormRole, node: TreeNode<'_>) -> bool
        ensures { result ≡ is_built (environment_kept self.now) role (number_of (rose_of node.entry)) (head_of (rose_of node.entry)) (parts_of (rose_of node.entry)) }
    {
        match node.head() {
            Head::Function(f) => is_function_built(f, node),
            Head::Param(_, _) => is_c(first_type(node)),
            Head::Declaration => is_c(first_type(node)),
            Head::Return => node.count() == 0 || !is_object(self.gives),
            Head::Raise(_) => false,
            Head::For => self.is_over_range(node.get(1)),
            Head::WithGil => false,
            Head::WithNogil => false,
            Head::Name(_) => self.is_name_built(self.meaning(node.number())),
            Head::Number(n) => is_long(n),
            Head::Text(_) => false,
            Head::None => false,
            Head::Tuple => false,
            Head::ListDisplay => false,
            Head::Dict => false,
            Head::Row => self.is_row_built(role, node),
            Head::Cast => is_c(first_type(node)),
            Head::Comparison(op) => is_c_comparison(op),
            _ => true,
        }
    }

    fn is_tested_built(&self, role: FormRole, node: TreeNode<'_>) -> bool
        ensures { result ≡ is_tested_built (environment_kept self.now) role (number_of (rose_of node.entry)) (head_of (rose_of node.entry)) (parts_of (rose_of node.entry)) }
    {
        match role {
            FormRole::Untested => true,
            _ => self.is_built(role, node),
        }
    }

    /// The first form below a node that isn't built.
    pub fn unbuilt_below(&self, node: TreeNode<'_>) -> Option<Refusal>
        ensures { result ≡ unbuilt_below (environment_kept self.now) (rose_of node.entry) }
    {
        let at = node.at();
        let role = FormRole::Other;
        first_broken(self, FormContext { at, role }, node)
    }
}

impl<'a, 't> Rules<TreeNode<'t>> for CodeEnvironment<'a> {
    type Context = FormContext;

    ghost use Rattle.px_environments.specs.BuiltForms.{form_below, unbuilt_at};
    ghost use Rattle.px_environments.specs.Kept.{environment_kept};

    ghost down = { λ _. form_below };

    ghost judges = { λ code. unbuilt_at (environment_kept code) };

    fn down(&self, context: FormContext, node: TreeNode<'t>, k: usize) -> FormContext {
        form_below(context, node, k)
    }

    fn judge(&self, context: FormContext, node: TreeNode<'t>) -> Option<Refusal> {
        if self.is_tested_built(context.role, node) {
            return None;
        }
        let at = place_of(context, node);
        Some(Refusal {
            number: 27,
            line: at.line,
            column: at.column,
        })
    }
}
