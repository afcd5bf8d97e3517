ghost use Rattle.std.specs.Prelude.{◌≡◌, IfOk, OnOk, None, Some};
ghost use Rattle.px_base.specs.Troubles.{IfRefused};
ghost use Rattle.px_base.specs.Findings.{IsFirst};
ghost use Rattle.px_lexer.specs.Tokens.{IsTokens};
ghost use Rattle.px_lexer.specs.Refusals.{BreaksCharacters, BreaksText};
ghost use Rattle.px_lexer.specs.Reached.{IsSource};

use crate::characters::Characters;
use crate::places::Source;
use crate::reader::Reader;
use crate::token_list::Tokens;
use px_base::{Bytes, Refusal, Trouble};
use std::alloc::Global;

/// The greatest number of bytes of a text.
const SIZE_LIMIT: usize = 1_048_576;

/// E7 at 1:1, of a text that is too large.
const TOO_LARGE: Trouble = Trouble::Refused(Refusal {
    number: 7,
    line: 1,
    column: 1,
});

/// The tokens of a text, and its leading comment lines.
///
/// # Errors
/// Exactly where the text breaks a rule of the lexer: the first of E1, E2, E3, E4, E7, E8 and E9 by place and number.
/// `NoMemory` where there is no memory for the tokens.
pub fn tokens(alloc: Global, text: &[u8]) -> Result<Tokens, Trouble>
    ensures accepted { IfOk result (λ found. IsTokens text.now found.list found.comments) }
    ensures kept { IfOk result (λ found. found.text ≡ text.now) }
    ensures clean { OnOk result (IsFirst (BreaksText text.now) None) }
    ensures refused { IfRefused result (λ refusal. IsFirst (BreaksText text.now) (Some refusal)) }
{
    if text.len() > SIZE_LIMIT {
        return Err(TOO_LARGE);
    }
    let characters = Characters::read(alloc, text)?;
    let source = Source { text, characters };
    let Reader { list, comments, .. } = read_all(alloc, &source)?;
    let text = Bytes::from_slice(alloc, text)?;
    Ok(Tokens {
        text,
        list,
        comments,
    })
}

/// A reader at the end of a text, which it has read.
fn read_all(alloc: Global, source: &Source) -> Result<Reader, Trouble>
    requires { IsSource source.now }
    ensures accepted { IfOk result (λ reader. IsTokens source.now.text.now reader.list reader.comments) }
    ensures clean { OnOk result (IsFirst (BreaksCharacters source.now.characters) None) }
    ensures refused { IfRefused result (λ refusal. IsFirst (BreaksCharacters source.now.characters) (Some refusal)) }
{
    let mut reader = Reader::new(alloc, source);
    while reader.at.index < source.characters.len() {
        reader.read_piece(alloc, source)?;
    }
    reader.finish(source)?;
    Ok(reader)
}
