//! Directives in decorators.

ghost use Rattle.std.specs.Prelude.{◌≡◌};
ghost use Rattle.px_names.specs.Kept.{names_in};
ghost use Rattle.px_names.specs.Rules.{directive_in, directive_of, is_import, is_unimported, decorator_refusal};

use crate::calls::unless;
use crate::lookups::Lookup;
use crate::meanings::{Imported, Meaning};
use crate::settings::Directive;
use crate::texts::is_spelled;
use crate::words::directive_named;
use px_base::{Chars, Refusal, Span};

/// The directive that a name in an import stands for.
fn directive_in(meaning: Option<Meaning>, name: &[char]) -> Option<Directive>
    ensures { result ≡ directive_in meaning name.now }
{
    match meaning {
        Some(Meaning::Import(Imported::Cython)) => directive_named(name),
        _ => None,
    }
}

/// The directive of a decorator, by what its first name stands for in module code.
pub(crate) fn directive_of(lookup: &Lookup<'_>, names: &[Chars]) -> Option<Directive>
    ensures { result ≡ directive_of (names_in lookup.now) names.now }
{
    match names {
        [first, name] => directive_in(lookup.module_meaning(first.as_slice()), name.as_slice()),
        _ => None,
    }
}

fn is_import(meaning: Option<Meaning>) -> bool
    ensures { result ≡ is_import meaning }
{
    match meaning {
        Some(Meaning::Import(_)) => true,
        _ => false,
    }
}

/// Whether it is spelled as a directive, and its first name isn't imported.
fn is_unimported(lookup: &Lookup<'_>, names: &[Chars]) -> bool
    ensures { result ≡ is_unimported (names_in lookup.now) names.now }
{
    match names {
        [first, name] => {
            is_spelled(first.as_slice(), b"cython")
                && directive_named(name.as_slice()).is_some()
                && !is_import(lookup.module_meaning(first.as_slice()))
        }
        _ => false,
    }
}

/// What a decorator breaks.
pub(crate) fn decorator_refusal(
    lookup: &Lookup<'_>,
    names: &[Chars],
    name_at: Span,
    at: Span,
) -> Option<Refusal>
    ensures { result ≡ decorator_refusal (names_in lookup.now) names.now name_at at }
{
    if is_unimported(lookup, names) {
        return unless(false, 10, name_at);
    }
    unless(directive_of(lookup, names).is_some(), 27, at)
}
