ghost use Rattle.std.specs.Prelude.{◌≡◌, ◌<◌, drop, length};
ghost use Rattle.px_lexer.specs.declared.forms.Form.TheVariants as form;
ghost use Rattle.px_lexer.specs.Pieces.{form_of};
ghost use Rattle.px_lexer.specs.Readers.{IsRefusedFor};

use crate::characters::{Characters, UNREADABLE};
use crate::readings::Breach;

/// The rule that the character at an index breaks, with which no piece begins: E1 where it can't be read, and else E2.
pub(crate) fn stray(cs: &Characters, from: usize) -> Breach
    requires stands { form_of (drop from cs.now) ≡ form.Stray }
    requires inside { from < length cs.now }
    ensures { IsRefusedFor form.Stray cs.now from result }
{
    if cs.code(from) == UNREADABLE {
        Breach { rule: 1, at: from }
    } else {
        Breach { rule: 2, at: from }
    }
}
