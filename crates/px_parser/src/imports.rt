//! Imports (Python Language Reference, 7.11 The import statement; Cython user guide, Sharing Declarations Between Cython Modules).

ghost use Rattle.std.specs.Prelude.{◌<◌, length};
ghost use Rattle.px_lexer.specs.declared.spelling.Operator.TheVariants as sign;
ghost use Rattle.px_lexer.specs.declared.token_list.TokenKind.TheVariants as kind;
ghost use Rattle.px_lexer.specs.Terminals.{terminals_of};
ghost use Rattle.px_parser.specs.Ends.{EndsAlias, IsBefore};
ghost use Rattle.px_parser.specs.Listings.{IsListing};
ghost use Rattle.px_parser.specs.ModuleGrammar.{Alias, ImportWord, Imported, WholeImport, PartImport, ImportLine};
ghost use Rattle.px_parser.specs.Readings.{ReadsFlat, ReadsTokens, Anywhere};
ghost use Rattle.px_parser.specs.Shapes.{Separated};

use crate::names::names;
use crate::readings::Found;
use crate::words::{identifier, is_newline, keyword, newline};
use px_base::{Chars, Sequence};
use px_exprs::readings::Unread;
use px_lexer::access::{is_keyword, is_operator, place};
use px_lexer::{Keyword, Operator, Tokens};
use px_tree::{Import, ImportForm, ImportedName, ImportedNames};
use std::alloc::Global;

/// The name behind `as`, if that stands at an index.
///
/// # Errors
/// As `import_line`.
fn alias(alloc: Global, tokens: &Tokens, from: usize) -> Result<Found<Option<Chars>>, Unread>
    requires input { IsListing tokens.now }
    requires inside { from < length tokens.now.list }
    ensures { ReadsFlat Alias EndsAlias (terminals_of tokens.now) from result }
{
    if !is_keyword(tokens, from, Keyword::As) {
        return Ok(Found {
            tree: None,
            to: from,
        });
    }
    let name = identifier(alloc, tokens, from + 1)?;
    if is_keyword(tokens, name.to, Keyword::As) {
        return Err(Unread::Stuck(name.to));
    }
    Ok(Found {
        tree: Some(name.tree),
        to: name.to,
    })
}

/// `import` or `cimport`, and whether it is the second.
///
/// # Errors
/// `Stuck` where neither stands there.
fn import_word(tokens: &Tokens, from: usize) -> Result<Found<bool>, Unread>
    requires input { IsListing tokens.now }
    requires inside { from < length tokens.now.list }
    ensures { ReadsTokens ImportWord Anywhere (terminals_of tokens.now) from result }
{
    if is_keyword(tokens, from, Keyword::Import) {
        Ok(Found {
            tree: false,
            to: from + 1,
        })
    } else if is_keyword(tokens, from, Keyword::Cimport) {
        Ok(Found {
            tree: true,
            to: from + 1,
        })
    } else {
        Err(Unread::Stuck(from))
    }
}

/// A name that is imported.
///
/// # Errors
/// As `import_line`.
fn imported_name(alloc: Global, tokens: &Tokens, from: usize) -> Result<Found<ImportedName>, Unread>
    requires input { IsListing tokens.now }
    requires inside { from < length tokens.now.list }
    ensures { ReadsFlat Imported EndsAlias (terminals_of tokens.now) from result }
{
    let name = identifier(alloc, tokens, from)?;
    let other = alias(alloc, tokens, name.to)?;
    Ok(Found {
        tree: ImportedName {
            number: from as u32,
            at: place(tokens, from),
            name: name.tree,
            alias: other.tree,
        },
        to: other.to,
    })
}

/// The names that are imported, up to the end of their line.
///
/// # Errors
/// As `import_line`.
fn imported_names(
    alloc: Global,
    tokens: &Tokens,
    from: usize,
) -> Result<Found<ImportedNames>, Unread>
    requires input { IsListing tokens.now }
    requires inside { from < length tokens.now.list }
    ensures { ReadsFlat (Separated (kind.Operator sign.Comma) Imported) (IsBefore kind.Newline) (terminals_of tokens.now) from result }
{
    let mut tree = Sequence::new(alloc);
    let first = imported_name(alloc, tokens, from)?;
    tree.push(first.tree)?;
    let mut to = first.to;
    while is_operator(tokens, to, Operator::Comma) {
        let next = imported_name(alloc, tokens, to + 1)?;
        tree.push(next.tree)?;
        to = next.to;
    }
    if is_newline(tokens, to) {
        Ok(Found { tree, to })
    } else {
        Err(Unread::Stuck(to))
    }
}

/// `import` or `cimport` with a module, up to the end of the line.
///
/// # Errors
/// As `import_line`.
fn whole_import(
    alloc: Global,
    tokens: &Tokens,
    from: usize,
) -> Result<Found<(bool, ImportForm)>, Unread>
    requires input { IsListing tokens.now }
    requires inside { from < length tokens.now.list }
    ensures { ReadsFlat WholeImport (IsBefore kind.Newline) (terminals_of tokens.now) from result }
{
    let word = import_word(tokens, from)?;
    let module = names(alloc, tokens, word.to, Operator::Point)?;
    let other = alias(alloc, tokens, module.to)?;
    if is_newline(tokens, other.to) {
        Ok(Found {
            tree: (word.tree, ImportForm::Whole(module.tree, other.tree)),
            to: other.to,
        })
    } else {
        Err(Unread::Stuck(other.to))
    }
}

/// `from` with a module and names of it, up to the end of the line.
///
/// # Errors
/// As `import_line`.
fn part_import(
    alloc: Global,
    tokens: &Tokens,
    from: usize,
) -> Result<Found<(bool, ImportForm)>, Unread>
    requires input { IsListing tokens.now }
    requires inside { from < length tokens.now.list }
    ensures { ReadsFlat PartImport (IsBefore kind.Newline) (terminals_of tokens.now) from result }
{
    let first = keyword(tokens, from, Keyword::From)?;
    let module = names(alloc, tokens, first.to, Operator::Point)?;
    let word = import_word(tokens, module.to)?;
    let found = imported_names(alloc, tokens, word.to)?;
    Ok(Found {
        tree: (word.tree, ImportForm::Parts(module.tree, found.tree)),
        to: found.to,
    })
}

/// The import from an index on.
///
/// # Errors
/// `Stuck` at the first token with which none begins; `NoMemory` where there is no memory for it.
pub(crate) fn import_line(
    alloc: Global,
    tokens: &Tokens,
    from: usize,
) -> Result<Found<Import>, Unread>
    requires input { IsListing tokens.now }
    requires inside { from < length tokens.now.list }
    ensures { ReadsFlat ImportLine Anywhere (terminals_of tokens.now) from result }
{
    let found = if is_keyword(tokens, from, Keyword::From) {
        part_import(alloc, tokens, from)?
    } else {
        whole_import(alloc, tokens, from)?
    };
    let number = found.to;
    let (is_cimport, form) = found.tree;
    let end = newline(tokens, number)?;
    Ok(Found {
        tree: Import {
            number: number as u32,
            at: place(tokens, from),
            is_cimport,
            form,
        },
        to: end.to,
    })
}
