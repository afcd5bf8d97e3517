//! What a row breaks: how the name at its head is used, and its calls.

ghost use Rattle.std.specs.Prelude.{◌≡◌, drop, IfOk, option_map};
ghost use Rattle.px_walk.specs.HeadForms.{form_of};
ghost use Rattle.px_walk.specs.Nodes.{rose_of};
ghost use Rattle.px_walk.specs.Roses.{at_of, parts_of};
ghost use Rattle.px_names.specs.Uses.{is_call_first, called, callee_of, attribute_in, import_called, import_used, use_of, is_loop, may_stand, values_of, header_refusal, unlisted_refusal, use_refusal, row_refusal};
ghost use Rattle.px_names.specs.UsesKept.{use_kept};

use crate::callees::Callee;
use crate::calls::{calls_refusal, is_call, unless, values_refusal};
use crate::contexts::Role;
use crate::meanings::{Imported, Meaning};
use crate::words::member;
use px_base::{Builtin, NoMemory, Refusal, earlier};
use px_walk::{Head, Node, TreeNode};
use std::alloc::Global;

/// What is called, and which part of the row is the call; for a value the first behind the atom.
#[derive(Clone, Copy)]
pub(crate) struct Use {
    pub(crate) callee: Callee,
    pub(crate) from: usize,
}

/// The use of a name that is called by this part of a row.
fn called(callee: Callee, row: TreeNode<'_>, from: usize) -> Option<Use>
    ensures { option_map (use_kept (parts_of (rose_of row.entry))) result ≡ called callee (drop from (parts_of (rose_of row.entry))) }
{
    if is_call_at(row, from) {
        Some(Use { callee, from })
    } else {
        None
    }
}

/// Whether a call stands there.
fn is_call_at(row: TreeNode<'_>, from: usize) -> bool
    ensures { result ≡ is_call_first (drop from (parts_of (rose_of row.entry))) }
{
    match row.get(from) {
        Some(trailer) => is_call(trailer.head()),
        None => false,
    }
}

/// What is called where an import is.
fn callee_of(imported: Imported) -> Option<Callee>
    ensures { result ≡ callee_of imported }
{
    match imported {
        Imported::Prange => Some(Callee::Prange),
        Imported::Array => Some(Callee::Array),
        _ => None,
    }
}

/// The thing of that attribute in what is imported.
fn attribute_in(imported: Imported, trailer: Head<'_>) -> Option<Imported>
    ensures { result ≡ attribute_in imported (form_of trailer.entry) }
{
    match trailer {
        Head::Attribute(name) => member(imported, name),
        _ => None,
    }
}

/// The call of what is imported, where it is called by this part of a row.
fn import_called(imported: Imported, row: TreeNode<'_>, from: usize) -> Option<Use>
    ensures { option_map (use_kept (parts_of (rose_of row.entry))) result ≡
        import_called imported (drop from (parts_of (rose_of row.entry))) }
{
    match callee_of(imported) {
        Some(callee) => called(callee, row, from),
        None => None,
    }
}

/// The listed use of what is imported, by dotted names.
fn import_used(imported: Imported, row: TreeNode<'_>) -> Option<Use>
    ensures { option_map (use_kept (parts_of (rose_of row.entry))) result ≡
        import_used imported (drop 1 (parts_of (rose_of row.entry))) }
{
    let mut imported = imported;
    for k in 1..row.count() {
        if let Some(used) = import_called(imported, row, k) {
            return Some(used);
        }
        let Some(inner) = attribute_in(imported, row.part(k).head()) else {
            return None;
        };
        imported = inner;
    }
    None
}

/// The listed use of the name at the head of a row, by what it stands for; values are used in any way.
fn use_of(meaning: Option<Meaning>, row: TreeNode<'_>) -> Option<Use>
    ensures { option_map (use_kept (parts_of (rose_of row.entry))) result ≡
        use_of meaning (drop 1 (parts_of (rose_of row.entry))) }
{
    match meaning {
        Some(Meaning::Function(_, params)) => called(Callee::Function(params), row, 1),
        Some(Meaning::Builtin(builtin)) => called(Callee::Builtin(builtin), row, 1),
        Some(Meaning::Import(imported)) => import_used(imported, row),
        _ => Some(Use {
            callee: Callee::Value,
            from: 1,
        }),
    }
}

/// Whether it is one of those that a `for` goes over.
fn is_loop(callee: Callee) -> bool
    ensures { result ≡ is_loop callee }
{
    match callee {
        Callee::Builtin(Builtin::Range) => true,
        Callee::Prange => true,
        _ => false,
    }
}

/// Whether `range` and `prange`, which are the whole head of a `for`, stand there.
fn may_stand(role: Role, used: Use, row: TreeNode<'_>) -> bool
    ensures { result ≡ may_stand role (use_kept (parts_of (rose_of row.entry)) used) }
{
    !is_loop(used.callee) || role == Role::Head && row.count().saturating_sub(used.from) == 1
}

/// What the values of a call break that stands there.
fn values_at(row: TreeNode<'_>, from: usize) -> Option<Refusal>
    ensures { result ≡ values_of (drop from (parts_of (rose_of row.entry))) }
{
    match row.get(from) {
        Some(call) => values_refusal(call),
        None => None,
    }
}

/// What the values of the keywords of prange break.
fn header_refusal(used: Use, row: TreeNode<'_>) -> Option<Refusal>
    ensures { result ≡ header_refusal (use_kept (parts_of (rose_of row.entry)) used) }
{
    match used.callee {
        Callee::Prange => values_at(row, used.from),
        _ => None,
    }
}

/// What a row breaks where the name at its head isn't used in a listed way.
fn unlisted_refusal(alloc: Global, row: TreeNode<'_>) -> Result<Option<Refusal>, NoMemory>
    ensures { IfOk result (λ found. found ≡ unlisted_refusal (at_of (rose_of row.entry)) (drop 1 (parts_of (rose_of row.entry)))) }
{
    let calls = calls_refusal(alloc, Callee::Value, row, 1)?;
    Ok(earlier(unless(false, 27, row.at()), calls))
}

/// What a row breaks with this use.
fn use_refusal(
    alloc: Global,
    role: Role,
    used: Use,
    row: TreeNode<'_>,
) -> Result<Option<Refusal>, NoMemory>
    ensures { IfOk result (λ found. found ≡ use_refusal (at_of (rose_of row.entry)) role (use_kept (parts_of (rose_of row.entry)) used)) }
{
    let calls = calls_refusal(alloc, used.callee, row, used.from)?;
    let behind = earlier(calls, header_refusal(used, row));
    Ok(earlier(unless(may_stand(role, used, row), 27, row.at()), behind))
}

/// The first rule that a row breaks, by what the name at its head stands for.
///
/// # Errors
/// `NoMemory` where there is no memory for the keywords of a call.
pub(crate) fn row_refusal(
    alloc: Global,
    role: Role,
    meaning: Option<Meaning>,
    row: TreeNode<'_>,
) -> Result<Option<Refusal>, NoMemory>
    ensures { IfOk result (λ found. found ≡
        (let trailers = drop 1 (parts_of (rose_of row.entry)) in
        row_refusal (at_of (rose_of row.entry)) role trailers (use_of meaning trailers))) }
{
    match use_of(meaning, row) {
        Some(used) => use_refusal(alloc, role, used, row),
        None => unlisted_refusal(alloc, row),
    }
}
