//! Lists of names.

ghost use Rattle.std.specs.Prelude.{◌<◌, length};
ghost use Rattle.px_lexer.specs.Terminals.{terminals_of};
ghost use Rattle.px_parser.specs.Ends.{EndsNames};
ghost use Rattle.px_parser.specs.Listings.{IsListing};
ghost use Rattle.px_parser.specs.Parts.{NamesBy};
ghost use Rattle.px_parser.specs.Readings.{ReadsFlat};

use crate::readings::Found;
use crate::words::identifier;
use px_base::Sequence;
use px_exprs::readings::Unread;
use px_lexer::access::is_operator;
use px_lexer::{Operator, Tokens};
use px_tree::Names;
use std::alloc::Global;

/// The names from an index on, one or more, with this operator between them.
///
/// # Errors
/// `Stuck` at the first token with which none begin; `NoMemory` where there is no memory for them.
pub(crate) fn names(
    alloc: Global,
    tokens: &Tokens,
    from: usize,
    separator: Operator,
) -> Result<Found<Names>, Unread>
    requires input { IsListing tokens.now }
    requires inside { from < length tokens.now.list }
    ensures { ReadsFlat (NamesBy separator) (EndsNames separator) (terminals_of tokens.now) from result }
{
    let mut tree = Sequence::new(alloc);
    let first = identifier(alloc, tokens, from)?;
    tree.push(first.tree)?;
    let mut to = first.to;
    while is_operator(tokens, to, separator) {
        let next = identifier(alloc, tokens, to + 1)?;
        tree.push(next.tree)?;
        to = next.to;
    }
    Ok(Found { tree, to })
}
