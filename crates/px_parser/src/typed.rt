//! Names behind types.

ghost use Rattle.std.specs.Prelude.{◌≡◌, ◌⊎◌, ◌↔◌, ℕ, suc, ◌<◌, List, length, nat_lt, IsTrue, MatchOption, MatchResult};
ghost use Rattle.px_tree.specs.declared.typings.BaseType.{BaseType};
ghost use Rattle.px_lexer.specs.Terminals.{IsName, IsAt, terminals_of};
ghost use Rattle.px_exprs.specs.Typings.{IsBase};
ghost use Rattle.px_exprs.specs.TypeParts.{NoName};
ghost use Rattle.px_exprs.specs.Words.{IsStuckAt};
ghost use Rattle.px_parser.specs.Listings.{IsListing};
ghost use Rattle.px_parser.specs.Readings.{ReadsFlat};
ghost use Rattle.px_parser.specs.Parts.{BeginsType, GoesOn, TypedName, MaybeTypedName, ResultName};
ghost use Rattle.px_parser.specs.Ends.{EndsName};

use crate::readings::Found;
use px_base::Sequence;
use px_exprs::readings::Unread;
use px_exprs::typings::{axes, base_of, behind_const};
use px_exprs::words::is_word;
use px_lexer::access::{is_name, is_operator, place};
use px_lexer::{Operator, Tokens};
use px_tree::{Axes, BaseType, ResultType, Type};
use std::alloc::Global;

/// Whether a name behind a type can't end before the token at an index: that is an identifier, or opens axes.
fn goes_on(tokens: &Tokens, at: usize) -> bool
    ensures { IsTrue result ↔ (GoesOn (terminals_of tokens.now) at) }
{
    is_name(tokens, at) || is_operator(tokens, at, Operator::OpenBracket)
}

/// The name at an index, behind what was read before it.
///
/// # Errors
/// `Stuck` there where no identifier stands there, and behind it where a name behind a type can't end there.
fn name_behind<T: Drop>(tokens: &Tokens, tree: T, at: usize) -> Result<Found<(T, usize)>, Unread>
    requires input { IsListing tokens.now }
    ensures { MatchResult result
        (λ found. (found.tree ≡ (tree, at)) × (found.to ≡ suc at) × ((name : List ℕ) × IsName (terminals_of tokens.now) at name) × EndsName (terminals_of tokens.now) (suc at))
        (λ unread. (IsStuckAt at unread × NoName (terminals_of tokens.now) at)
        ⊎ (IsStuckAt (suc at) unread × ((name : List ℕ) × IsName (terminals_of tokens.now) at name) × (EndsName (terminals_of tokens.now) (suc at) → ⊥))) }
{
    if !is_name(tokens, at) {
        return Err(Unread::Stuck(at));
    }
    let to = at + 1;
    if goes_on(tokens, to) {
        Err(Unread::Stuck(to))
    } else {
        Ok(Found {
            tree: (tree, at),
            to,
        })
    }
}

/// The longest base from an index on, and the index behind it, if there is one.
fn longest(tokens: &Tokens, from: usize) -> Option<(BaseType, usize)>
    requires input { IsListing tokens.now }
    requires inside { from < length tokens.now.list }
    ensures { MatchOption result
        ((b : BaseType) → IsBase (terminals_of tokens.now) from b (suc from) → ⊥)
        (λ base. IsBase (terminals_of tokens.now) from base.0 base.1 × ((b : BaseType) → IsBase (terminals_of tokens.now) from b (suc base.1) → ⊥)) }
{
    let mut tree = base_of(tokens, from, from + 1)?;
    let mut to = from + 1;
    while let Some(longer) = base_of(tokens, from, to + 1) {
        tree = longer;
        to += 1;
    }
    Some((tree, to))
}

/// The type from an index on, of this base, which begins at another index, and of these axes.
fn typing(tokens: &Tokens, from: usize, base_from: usize, base: BaseType, axes: Axes) -> Type
    requires input { IsListing tokens.now }
    requires inside { from < length tokens.now.list }
    ensures number { result.number ≡ from }
    ensures placed { IsAt (terminals_of tokens.now) from result.at }
    ensures constness { result.is_const ≡ nat_lt from base_from }
    ensures base { result.base ≡ base }
    ensures axes { result.axes ≡ axes }
{
    Type {
        number: from as u32,
        at: place(tokens, from),
        is_const: from < base_from,
        base,
        axes,
    }
}

/// The type from an index on with a name behind it, and the index of the name.
///
/// # Errors
/// `Stuck` at the first token with which none begins; `NoMemory` where there is no memory for the axes.
pub(crate) fn typed_name(
    alloc: Global,
    tokens: &Tokens,
    from: usize,
) -> Result<Found<(Type, usize)>, Unread>
    requires input { IsListing tokens.now }
    requires inside { from < length tokens.now.list }
    ensures { ReadsFlat TypedName EndsName (terminals_of tokens.now) from result }
{
    let base_from = behind_const(tokens, from);
    let Some((base, to)) = longest(tokens, base_from) else {
        return Err(Unread::Stuck(base_from));
    };
    if is_operator(tokens, to, Operator::OpenBracket) {
        let axes = axes(alloc, tokens, to + 1)?;
        let tree = typing(tokens, from, base_from, base, axes.tree);
        return name_behind(tokens, tree, axes.to + 1);
    }
    if is_name(tokens, to) {
        let tree = typing(tokens, from, base_from, base, Sequence::new(alloc));
        return name_behind(tokens, tree, to);
    }
    if to == base_from + 1 {
        return Err(Unread::Stuck(to));
    }
    // The last of the words is the name.
    let at = to - 1;
    let Some(base) = base_of(tokens, base_from, at) else {
        unreachable!()
    };
    let tree = typing(tokens, from, base_from, base, Sequence::new(alloc));
    Ok(Found {
        tree: (tree, at),
        to,
    })
}

/// Whether a type with a name behind it begins at an index.
fn begins_typed(tokens: &Tokens, from: usize) -> bool
    requires input { IsListing tokens.now }
    requires inside { from < length tokens.now.list }
    ensures { IsTrue result ↔ (BeginsType (terminals_of tokens.now) from × GoesOn (terminals_of tokens.now) (suc from)) }
{
    (is_word(tokens, from, b"const") || base_of(tokens, from, from + 1).is_some())
        && goes_on(tokens, from + 1)
}

/// The type from an index on, if there is one, with a name behind it, and the index of the name.
///
/// # Errors
/// As `typed`; `Stuck` where no identifier stands too, and behind it where the name can't end there.
pub(crate) fn maybe_typed_name(
    alloc: Global,
    tokens: &Tokens,
    from: usize,
) -> Result<Found<(Option<Type>, usize)>, Unread>
    requires input { IsListing tokens.now }
    requires inside { from < length tokens.now.list }
    ensures { ReadsFlat MaybeTypedName EndsName (terminals_of tokens.now) from result }
{
    if !begins_typed(tokens, from) {
        return name_behind(tokens, None, from);
    }
    let found = typed_name(alloc, tokens, from)?;
    let (tree, at) = found.tree;
    Ok(Found {
        tree: (Some(tree), at),
        to: found.to,
    })
}

/// The result type of a function from an index on with the function's name behind it, and the index of the name.
///
/// # Errors
/// As `maybe_typed`.
pub(crate) fn result_name(
    alloc: Global,
    tokens: &Tokens,
    from: usize,
) -> Result<Found<(ResultType, usize)>, Unread>
    requires input { IsListing tokens.now }
    requires inside { from < length tokens.now.list }
    ensures { ReadsFlat ResultName EndsName (terminals_of tokens.now) from result }
{
    if is_word(tokens, from, b"void") && is_name(tokens, from + 1) {
        return name_behind(tokens, ResultType::Void, from + 1);
    }
    if !begins_typed(tokens, from) {
        return name_behind(tokens, ResultType::Unwritten, from);
    }
    let found = typed_name(alloc, tokens, from)?;
    let (tree, at) = found.tree;
    Ok(Found {
        tree: (ResultType::Of(tree), at),
        to: found.to,
    })
}
