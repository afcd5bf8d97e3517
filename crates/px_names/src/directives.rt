//! The directives of a module and of its functions.

ghost use Rattle.std.specs.Prelude.{◌≡◌, IfOk, fold, map, filter_map};
ghost use Rattle.px_names.specs.Comments.{setting_of, with_setting};
ghost use Rattle.px_names.specs.Kept.{names_in};
ghost use Rattle.px_names.specs.NamedModule.{module_directives, function_directives};

use crate::comments::{Pair, pairs_of, setting_of};
use crate::decorators::directive_of;
use crate::lookups::Lookup;
use crate::settings::{Directive, Directives};
use px_base::NoMemory;
use px_tree::{Function, Module};
use std::alloc::Global;

/// The directives with one of them set.
fn with_setting(directives: Directives, directive: Directive, value: bool) -> Directives
    ensures { result ≡ with_setting directives (directive, value) }
{
    let mut directives = directives;
    match directive {
        Directive::Boundscheck => directives.boundscheck = value,
        Directive::Wraparound => directives.wraparound = value,
        Directive::Cdivision => directives.cdivision = value,
    }
    directives
}

/// The directives behind the pairs of a comment.
fn with_pairs(directives: Directives, pairs: &[Pair<'_>]) -> Directives
    ensures { result ≡ fold with_setting directives (filter_map setting_of (map (λ pair. (pair.name.now, pair.value.now)) pairs.now)) }
{
    let mut directives = directives;
    for pair in pairs {
        if let Some((directive, value)) = setting_of(*pair) {
            directives = with_setting(directives, directive, value);
        }
    }
    directives
}

/// The directives of a module, by its comments.
///
/// # Errors
/// `NoMemory` where there is no memory for the pairs of a comment.
pub(crate) fn module_directives(alloc: Global, module: &Module) -> Result<Directives, NoMemory>
    ensures { IfOk result (λ directives. directives ≡ module_directives «module».now) }
{
    let mut directives = Directives {
        boundscheck: true,
        wraparound: true,
        cdivision: false,
    };
    for comment in module.comments.as_slice() {
        let pairs = pairs_of(alloc, comment.text.as_slice())?;
        directives = with_pairs(directives, &pairs);
    }
    Ok(directives)
}

/// The directives of a function, by its decorators, in a module with these.
pub(crate) fn function_directives(
    lookup: &Lookup<'_>,
    directives: Directives,
    function: &Function,
) -> Directives
    ensures { result ≡ function_directives (names_in lookup.now) directives function.now }
{
    let mut directives = directives;
    for decorator in function.decorators.as_slice() {
        if let Some(directive) = directive_of(lookup, decorator.name.as_slice()) {
            directives = with_setting(directives, directive, decorator.value);
        }
    }
    directives
}
