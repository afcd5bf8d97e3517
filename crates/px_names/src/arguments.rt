//! Numbers of arguments and keywords of calls.

ghost use Rattle.std.specs.Prelude.{◌≡◌, length, IfOk, OnOk, option_copied};
ghost use Rattle.px_walk.specs.HeadForms.{form_of};
ghost use Rattle.px_walk.specs.Nodes.{rose_of};
ghost use Rattle.px_walk.specs.Roses.{parts_of};
ghost use Rattle.px_names.specs.Kept.{is_seen, with_seen, is_second_of};
ghost use Rattle.px_names.specs.Tables.{is_among};
ghost use Rattle.px_names.specs.Arguments.{is_between, builtin_takes, method_takes, takes, keywords_of, keyword_of, count_of_keyword, keywords, number_of_arguments, is_keyword, has_keyword, has_needed, has_twice, is_number_wrong, is_wrong_keyword, is_keyword_wrong};

use crate::callees::Callee;
use crate::texts::{is_among, is_spelled};
use indexmap::IndexSet;
use px_base::{Builtin, Method, NoMemory};
use px_walk::{Head, Node, TreeNode};
use std::alloc::Global;

const PRANGE_KEYWORDS: [&[u8]; 4] = [b"nogil", b"schedule", b"chunksize", b"num_threads"];

const ARRAY_KEYWORDS: [&[u8]; 4] = [b"shape", b"itemsize", b"format", b"mode"];

fn is_between(least: usize, greatest: usize, n: usize) -> bool
    ensures { result ≡ is_between least greatest n }
{
    least <= n && n <= greatest
}

fn builtin_takes(builtin: Builtin, n: usize) -> bool
    ensures { result ≡ builtin_takes builtin n }
{
    match builtin {
        Builtin::Print => true,
        Builtin::Min => 1 <= n,
        Builtin::Max => 1 <= n,
        Builtin::Range => is_between(1, 3, n),
        Builtin::List => is_between(0, 1, n),
        Builtin::Tuple => is_between(0, 1, n),
        Builtin::Input => is_between(0, 1, n),
        _ => n == 1,
    }
}

fn method_takes(method: Method, n: usize) -> bool
    ensures { result ≡ method_takes method n }
{
    match method {
        Method::Append => n == 1,
        Method::Pop => is_between(0, 1, n),
        Method::Extend => n == 1,
        Method::Reverse => n == 0,
        Method::Get => is_between(1, 2, n),
        Method::Keys => n == 0,
        Method::Values => n == 0,
        Method::Items => n == 0,
        Method::Split => is_between(0, 1, n),
        Method::Join => n == 1,
        Method::Strip => n == 0,
        Method::Other => true,
    }
}

/// Whether a call of this has so many arguments.
fn takes(callee: Callee, n: usize) -> bool
    ensures { result ≡ takes callee n }
{
    match callee {
        Callee::Value => true,
        Callee::Function(params) => n == params,
        Callee::Builtin(builtin) => builtin_takes(builtin, n),
        Callee::Method(method) => method_takes(method, n),
        Callee::Prange => is_between(1, 3, n),
        Callee::Array => n == 0,
    }
}

/// Whether a call of this may have the keyword.
fn may_have(callee: Callee, name: &[char]) -> bool
    ensures { result ≡ is_among (keywords_of callee) name.now }
{
    match callee {
        Callee::Prange => is_among(&PRANGE_KEYWORDS, name),
        Callee::Array => is_among(&ARRAY_KEYWORDS, name),
        _ => false,
    }
}

/// The keyword of an argument.
pub(crate) fn keyword_of<'a>(argument: Head<'a>) -> Option<&'a [char]>
    ensures { option_copied result ≡ keyword_of (form_of argument.entry) }
{
    match argument {
        Head::Argument(name) => name,
        _ => None,
    }
}

/// 1 for an argument with a keyword, and else 0.
fn count_of_keyword(argument: Head<'_>) -> usize
    ensures { result ≡ count_of_keyword (keyword_of (form_of argument.entry)) }
{
    match keyword_of(argument) {
        Some(_) => 1,
        None => 0,
    }
}

/// How many keywords a call has.
fn count_of_keywords(call: TreeNode<'_>) -> usize
    ensures { result ≡ length (keywords (parts_of (rose_of call.entry))) }
{
    let mut count = 0;
    for k in 0..call.count() {
        count += count_of_keyword(call.part(k).head());
    }
    count
}

/// How many arguments of a call count as such.
fn number_of_arguments(callee: Callee, call: TreeNode<'_>) -> usize
    ensures { result ≡ number_of_arguments callee (parts_of (rose_of call.entry)) }
{
    match callee {
        Callee::Prange => call.count().saturating_sub(count_of_keywords(call)),
        Callee::Array => call.count().saturating_sub(count_of_keywords(call)),
        _ => call.count(),
    }
}

/// Whether an argument has this keyword.
fn has_name(argument: Head<'_>, spelling: &[u8]) -> bool
    ensures { result ≡ is_keyword spelling.now (form_of argument.entry) }
{
    match keyword_of(argument) {
        Some(name) => is_spelled(name, spelling),
        None => false,
    }
}

/// Whether a call has the keyword.
fn has_keyword(call: TreeNode<'_>, spelling: &[u8]) -> bool
    ensures { result ≡ has_keyword spelling.now (parts_of (rose_of call.entry)) }
{
    for k in 0..call.count() {
        if has_name(call.part(k).head(), spelling) {
            return true;
        }
    }
    false
}

/// Whether a call has the keywords that it must have.
fn has_needed(callee: Callee, call: TreeNode<'_>) -> bool
    ensures { result ≡ has_needed callee (parts_of (rose_of call.entry)) }
{
    match callee {
        Callee::Array => {
            has_keyword(call, b"shape")
                && has_keyword(call, b"itemsize")
                && has_keyword(call, b"format")
        }
        _ => true,
    }
}

/// Adds a keyword to those before it, and says whether it is among them.
fn is_second<'a>(seen: &mut IndexSet<&'a [char]>, argument: Head<'a>) -> Result<bool, NoMemory>
    ensures second { IfOk result (λ second. second ≡ is_second_of (keyword_of (form_of argument.entry)) (is_seen seen.old)) }
    ensures seen { OnOk result (is_seen seen.new ≡ with_seen (keyword_of (form_of argument.entry)) (is_seen seen.old)) }
{
    match keyword_of(argument) {
        Some(name) => Ok(!seen.insert(name)?),
        None => Ok(false),
    }
}

/// Whether a call has one keyword twice.
///
/// # Errors
/// `NoMemory` where there is no memory for the keywords.
fn has_twice(alloc: Global, call: TreeNode<'_>) -> Result<bool, NoMemory>
    ensures { IfOk result (λ twice. twice ≡ has_twice (keywords (parts_of (rose_of call.entry)))) }
{
    let mut seen = IndexSet::new(alloc);
    for k in 0..call.count() {
        let second = is_second(&mut seen, call.part(k).head())?;
        if second {
            return Ok(true);
        }
    }
    Ok(false)
}

/// Whether a call has another number of arguments, lacks a keyword that it must have, or has one keyword twice.
///
/// # Errors
/// `NoMemory` where there is no memory for the keywords.
pub(crate) fn is_number_wrong(
    alloc: Global,
    callee: Callee,
    call: TreeNode<'_>,
) -> Result<bool, NoMemory>
    ensures { IfOk result (λ wrong. wrong ≡ is_number_wrong callee (parts_of (rose_of call.entry))) }
{
    if !takes(callee, number_of_arguments(callee, call)) || !has_needed(callee, call) {
        return Ok(true);
    }
    has_twice(alloc, call)
}

/// Whether an argument has a keyword that it may not have.
fn is_wrong(callee: Callee, argument: Head<'_>) -> bool
    ensures { result ≡ is_wrong_keyword callee (form_of argument.entry) }
{
    match keyword_of(argument) {
        Some(name) => !may_have(callee, name),
        None => false,
    }
}

/// Whether a call has a keyword that it may not have.
pub(crate) fn is_keyword_wrong(callee: Callee, call: TreeNode<'_>) -> bool
    ensures { result ≡ is_keyword_wrong callee (parts_of (rose_of call.entry)) }
{
    for k in 0..call.count() {
        if is_wrong(callee, call.part(k).head()) {
            return true;
        }
    }
    false
}
