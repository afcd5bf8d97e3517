ghost use Rattle.std.specs.Prelude.{◌≡◌, ◌<◌, ◌≤◌, map, length, IfOk};
ghost use Rattle.px_base.specs.declared.refusals.Trouble.TheVariants.{Refused};
ghost use Rattle.px_base.specs.declared.refusals.Refusal.{Refusal};
ghost use Rattle.px_base.specs.Troubles.{IfRefused};
ghost use Rattle.px_lexer.specs.Tokens.{IsTokens};
ghost use Rattle.px_lexer.specs.Terminals.{terminals_of};
ghost use Rattle.px_exprs.specs.Runs.{IsRefusalAt};
ghost use Rattle.px_parser.specs.Parsing.{IsModuleOf, IsModuleRefused, comment_of};

use crate::foreign::foreign;
use crate::modules::items;
use px_base::{Refusal, Sequence, Trouble};
use px_exprs::readings::Unread;
use px_lexer::Tokens;
use px_lexer::access::place;
use px_tree::{Comment, Comments, Module};
use std::alloc::{AllocError, Global};

/// The refusal with this number at the token with this index.
fn trouble_at(tokens: &Tokens, number: u8, at: usize) -> Trouble
    requires { at < length tokens.now.list }
    ensures { (refusal : Refusal) × (result ≡ Refused refusal) × IsRefusalAt (terminals_of tokens.now) number at refusal }
{
    let span = place(tokens, at);
    Trouble::Refused(Refusal {
        number,
        line: span.line,
        column: span.column,
    })
}

/// A comment line of a text.
fn comment(alloc: Global, text: &[u8], found: px_lexer::Comment) -> Result<Comment, AllocError>
    requires { (found.from ≤ found.to) × (found.to ≤ length text.now) }
    ensures { IfOk result (λ made. made ≡ comment_of text.now found) }
{
    let bytes = &text[found.from as usize..found.to as usize];
    let text = Sequence::from_slice(alloc, bytes)?;
    Ok(Comment { at: found.at, text })
}

/// The leading comment lines of a text.
fn comments(alloc: Global, tokens: &Tokens) -> Result<Comments, AllocError>
    requires { IsTokens tokens.now.text tokens.now.list tokens.now.comments }
    ensures { IfOk result (λ all. all ≡ map (comment_of tokens.now.text) tokens.now.comments) }
{
    let mut all = Sequence::new(alloc);
    for found in tokens.comments.as_slice() {
        all.push(comment(alloc, tokens.text.as_slice(), *found)?)?;
    }
    Ok(all)
}

/// The module that the tokens of a text are (Python Language Reference, 10 Full Grammar specification; Cython user guide, Language
/// Basics). Each import, function and statement is a node with its place and a number of its own.
///
/// # Errors
/// E27 at the first word or sign that this language leaves out; where there is none, E5 at the first token such that no module
/// begins with the tokens up to it, or E6 at the first bracket, operator or block with which a nesting is over 64, whichever comes
/// first. `NoMemory` where there is no memory for the tree.
pub fn parse(alloc: Global, tokens: &Tokens) -> Result<Module, Trouble>
    requires { IsTokens tokens.now.text tokens.now.list tokens.now.comments }
    ensures parsed { IfOk result (IsModuleOf tokens.now) }
    ensures refused { IfRefused result (IsModuleRefused (terminals_of tokens.now)) }
{
    if let Some(at) = foreign(tokens) {
        return Err(trouble_at(tokens, 27, at));
    }
    match items(alloc, tokens) {
        Ok(found) => Ok(Module {
            number: found.to as u32,
            at: place(tokens, 0),
            items: found.tree,
            comments: comments(alloc, tokens)?,
        }),
        Err(Unread::Stuck(at)) => Err(trouble_at(tokens, 5, at)),
        Err(Unread::TooDeep(at)) => Err(trouble_at(tokens, 6, at)),
        Err(Unread::NoMemory) => Err(Trouble::NoMemory),
    }
}
