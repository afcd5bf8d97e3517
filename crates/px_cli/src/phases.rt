//! The phases of a text: its tokens, its module, what its names stand for, its types, and what a command writes.

ghost use Rattle.std.specs.Prelude.{◌≡◌, IfOk, IfSome, IfNone};
ghost use Rattle.px_base.specs.Troubles.{IfRefused};
ghost use Rattle.px_cli.specs.declared.words.Command.{Command};
ghost use Rattle.px_cli.specs.Phases.{Fits, IsAccepted, IsMistyped, IsModuleText, IsNamedText, IsNotRun, IsNotTaken, IsTextRefused, IsUntyped, Writes, WritesOk, WritesPrinted};

use crate::listings::listed;
use crate::running::run_module;
use crate::words::Command;
use px_base::{Bytes, NoMemory, Refusal, Trouble};
use px_lexer::lexing::tokens;
use px_names::{Named, names};
use px_parser::parse;
use px_tree::Module;
use px_types::types;
use std::alloc::Global;

/// The number of the rule that types fit.
const TYPES_FIT: u8 = 12;

/// The module that a text is. The tokens aren't kept.
///
/// # Errors
/// The refusal of the lexer or of the grammar; `NoMemory` where there is no memory for one of them.
fn module_of(alloc: Global, text: &[u8]) -> Result<Module, Trouble>
    ensures parsed { IfOk result (IsModuleText text.now) }
    ensures refused { IfRefused result (λ refusal. (command : Command) → IsTextRefused command text.now refusal) }
{
    let found = tokens(alloc, text)?;
    parse(alloc, &found)
}

/// The module that a text is, with what its names stand for.
///
/// # Errors
/// The refusal of the first phase whose rules the text breaks; `NoMemory` where there is no memory for a phase.
fn named_of(alloc: Global, text: &[u8]) -> Result<Named, Trouble>
    ensures named { IfOk result (IsNamedText text.now) }
    ensures refused { IfRefused result (λ refusal. (command : Command) → IsTextRefused command text.now refusal) }
{
    let module = module_of(alloc, text)?;
    names(alloc, module)
}

/// What `check` writes of a module that breaks no rule of names.
fn checked_line(alloc: Global, named: Named) -> Result<Bytes, Trouble>
    ensures done { IfOk result (WritesOk named) }
    ensures refused { IfRefused result (IsUntyped named) }
{
    match types(alloc, named) {
        Ok(_) => {
            let line = Bytes::from_slice(alloc, b"ok\n")?;
            Ok(line)
        }
        Err(trouble) => Err(trouble),
    }
}

/// The refusal of a module whose types don't fit; none where they do, as far as they are built.
fn mistyped(alloc: Global, named: Named) -> Result<Option<Refusal>, NoMemory>
    ensures found { IfOk result (λ found. IfSome found (IsMistyped named)) }
    ensures clean { IfOk result (λ found. IfNone found (Fits named)) }
{
    match types(alloc, named) {
        Ok(_) => Ok(None),
        Err(Trouble::NoMemory) => Err(NoMemory),
        Err(Trouble::Refused(refusal)) => {
            if refusal.number == TYPES_FIT {
                Ok(Some(refusal))
            } else {
                Ok(None)
            }
        }
    }
}

/// What `run` writes of a module that breaks no rule of names.
fn printed(alloc: Global, named: Named) -> Result<Bytes, Trouble>
    ensures done { IfOk result (WritesPrinted named) }
    ensures refused { IfRefused result (IsNotRun named) }
{
    let output = run_module(alloc, &named.module);
    match mistyped(alloc, named)? {
        Some(refusal) => Err(Trouble::Refused(refusal)),
        None => output,
    }
}

/// What a command writes of a module that breaks no rule of names.
fn output_for(alloc: Global, command: Command, named: Named) -> Result<Bytes, Trouble>
    ensures done { IfOk result (Writes command named) }
    ensures refused { IfRefused result (IsNotTaken command named) }
{
    match command {
        Command::Check => checked_line(alloc, named),
        Command::List => listed(alloc, named),
        Command::Run => printed(alloc, named),
    }
}

/// What a command writes of the module with this text.
///
/// # Errors
/// The refusal of the first phase whose rules the text breaks, and E27 behind all of them for what isn't built; `NoMemory` where
/// there is no memory for a phase or the output.
pub(crate) fn output_of(alloc: Global, command: Command, text: &[u8]) -> Result<Bytes, Trouble>
    ensures done { IfOk result (IsAccepted command text.now) }
    ensures refused { IfRefused result (IsTextRefused command text.now) }
{
    let named = named_of(alloc, text)?;
    output_for(alloc, command, named)
}
