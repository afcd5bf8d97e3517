//! What imports give.

ghost use Rattle.std.specs.Prelude.{◌≡◌, option_map, option_copied};
ghost use Rattle.px_walk.specs.HeadForms.{form_of};
ghost use Rattle.px_walk.specs.Nodes.{rose_of};
ghost use Rattle.px_walk.specs.Roses.{parts_of};
ghost use Rattle.px_names.specs.Imports.{given_whole, whole_given, given_part, given_name, are_parts_known};

use crate::meanings::Imported;
use crate::words::{imported_module, member_of};
use px_base::Chars;
use px_walk::{Head, Node, TreeNode};

/// A name, and what it stands for by an import.
#[derive(Clone, Copy)]
pub(crate) struct Given<'a> {
    pub(crate) name: &'a [char],
    pub(crate) what: Imported,
}

/// The name that a dotted name of a known module begins with.
const CYTHON: &[char] = &['c', 'y', 't', 'h', 'o', 'n'];

/// What `import` gives: the first name with all below it, or the whole under another name.
pub(crate) fn given_whole<'a>(names: &[Chars], alias: Option<&'a [char]>) -> Option<Given<'a>>
    ensures { option_map (λ given. (given.name.now, given.what)) result ≡ given_whole names.now (option_copied alias.entry) }
{
    match imported_module(names) {
        Some(what) => Some(whole_given(what, alias)),
        None => None,
    }
}

/// A whole module under another name, or `cython`.
fn whole_given<'a>(what: Imported, alias: Option<&'a [char]>) -> Given<'a>
    ensures { (result.name.now, result.what) ≡ whole_given (option_copied alias.entry) what }
{
    match alias {
        Some(name) => Given { name, what },
        None => Given {
            name: CYTHON,
            what: Imported::Cython,
        },
    }
}

/// What an imported name of `from` gives.
pub(crate) fn given_part<'a>(names: &[Chars], part: Head<'a>) -> Option<Given<'a>>
    ensures { option_map (λ given. (given.name.now, given.what)) result ≡ given_part names.now (form_of part.entry) }
{
    match part {
        Head::ImportedName(name, alias) => given_name(names, name, alias),
        _ => None,
    }
}

/// What a name gives that is imported from a module, or the other name that it has here.
fn given_name<'a>(names: &[Chars], name: &'a [char], alias: Option<&'a [char]>) -> Option<Given<'a>>
    ensures { option_map (λ given. (given.name.now, given.what)) result ≡ given_name names.now name.now (option_copied alias.entry) }
{
    match member_of(imported_module(names), name) {
        Some(what) => Some(Given {
            name: alias.unwrap_or(name),
            what,
        }),
        None => None,
    }
}

/// Whether each name of `from` is known.
pub(crate) fn are_parts_known(names: &[Chars], node: TreeNode<'_>) -> bool
    ensures { result ≡ are_parts_known names.now (parts_of (rose_of node.entry)) }
{
    for k in 0..node.count() {
        if given_part(names, node.part(k).head()).is_none() {
            return false;
        }
    }
    true
}
