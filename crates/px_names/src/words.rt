//! The names that the language knows.

ghost use Rattle.std.specs.Prelude.{◌≡◌, unwrap_or, option_and_then};
ghost use Rattle.px_base.specs.declared.objects.Method.TheVariants as method;
ghost use Rattle.px_names.specs.Tables.{entry_of, is_among};
ghost use Rattle.px_names.specs.Meanings.{builtins};
ghost use Rattle.px_names.specs.Uses.{methods};
ghost use Rattle.px_names.specs.Comments.{directives};
ghost use Rattle.px_names.specs.Rules.{kinds};
ghost use Rattle.px_names.specs.Imports.{member, imported_module, top_modules};

use crate::meanings::Imported;
use crate::settings::Directive;
use crate::texts::{is_among, named};
use px_base::{Builtin, Chars, Method};

const BUILTINS: [(&[u8], Builtin); 13] = [
    (b"print", Builtin::Print),
    (b"input", Builtin::Input),
    (b"len", Builtin::Len),
    (b"int", Builtin::Int),
    (b"str", Builtin::Str),
    (b"repr", Builtin::Repr),
    (b"bool", Builtin::Bool),
    (b"list", Builtin::List),
    (b"tuple", Builtin::Tuple),
    (b"abs", Builtin::Abs),
    (b"min", Builtin::Min),
    (b"max", Builtin::Max),
    (b"range", Builtin::Range),
];

const METHODS: [(&[u8], Method); 11] = [
    (b"append", Method::Append),
    (b"pop", Method::Pop),
    (b"extend", Method::Extend),
    (b"reverse", Method::Reverse),
    (b"get", Method::Get),
    (b"keys", Method::Keys),
    (b"values", Method::Values),
    (b"items", Method::Items),
    (b"split", Method::Split),
    (b"join", Method::Join),
    (b"strip", Method::Strip),
];

pub(crate) const DIRECTIVES: [(&[u8], Directive); 3] = [
    (b"boundscheck", Directive::Boundscheck),
    (b"wraparound", Directive::Wraparound),
    (b"cdivision", Directive::Cdivision),
];

const KINDS: [&[u8]; 12] = [
    b"IndexError",
    b"ValueError",
    b"ZeroDivisionError",
    b"OverflowError",
    b"TypeError",
    b"KeyError",
    b"EOFError",
    b"NameError",
    b"UnboundLocalError",
    b"AttributeError",
    b"RuntimeError",
    b"RecursionError",
];

const TOP_MODULES: [(&[u8], Imported); 1] = [(b"cython", Imported::Cython)];

const PARTS_OF_CYTHON: [(&[u8], Imported); 2] = [
    (b"parallel", Imported::Parallel),
    (b"view", Imported::View),
];

const PARTS_OF_PARALLEL: [(&[u8], Imported); 1] = [(b"prange", Imported::Prange)];

const PARTS_OF_VIEW: [(&[u8], Imported); 1] = [(b"array", Imported::Array)];

/// The builtin of a name.
pub(crate) fn builtin_named(name: &[char]) -> Option<Builtin>
    ensures { result ≡ entry_of builtins name.now }
{
    named(&BUILTINS, name)
}

/// The method of a name.
pub(crate) fn method_named(name: &[char]) -> Method
    ensures { result ≡ unwrap_or (entry_of methods name.now) method.Other }
{
    named(&METHODS, name).unwrap_or(Method::Other)
}

/// The directive of a name that decorators set.
pub(crate) fn directive_named(name: &[char]) -> Option<Directive>
    ensures { result ≡ entry_of directives name.now }
{
    named(&DIRECTIVES, name)
}

/// Whether a name is that of a kind that `raise` may name.
pub(crate) fn is_kind(name: &[char]) -> bool
    ensures { result ≡ is_among kinds name.now }
{
    is_among(&KINDS, name)
}

/// The thing of that name in what is imported.
pub(crate) fn member(imported: Imported, name: &[char]) -> Option<Imported>
    ensures { result ≡ member imported name.now }
{
    match imported {
        Imported::Cython => named(&PARTS_OF_CYTHON, name),
        Imported::Parallel => named(&PARTS_OF_PARALLEL, name),
        Imported::View => named(&PARTS_OF_VIEW, name),
        Imported::Prange => None,
        Imported::Array => None,
    }
}

/// The thing of that name in what is imported, where something is.
pub(crate) fn member_of(whole: Option<Imported>, name: &[char]) -> Option<Imported>
    ensures { result ≡ option_and_then (λ imported. member imported name.now) whole }
{
    match whole {
        Some(imported) => member(imported, name),
        None => None,
    }
}

/// The module of a name without dots.
fn top_module(name: &[char]) -> Option<Imported>
    ensures { result ≡ entry_of top_modules name.now }
{
    named(&TOP_MODULES, name)
}

/// The module of a dotted name.
pub(crate) fn imported_module(names: &[Chars]) -> Option<Imported>
    ensures { result ≡ imported_module names.now }
{
    match names {
        [] => None,
        [top] => top_module(top.as_slice()),
        [top, name] => member_of(top_module(top.as_slice()), name.as_slice()),
        _ => None,
    }
}
