//! What `list` writes of a module that breaks no rule of names: the listing of its code.

ghost use Rattle.std.specs.Prelude.{◌≡◌, IfOk, None, Some};
ghost use Rattle.px_base.specs.Troubles.{IfRefused};
ghost use Rattle.px_regcode.specs.Listing.{listing_of};
ghost use Rattle.px_types.specs.TypedModule.{module_kept};
ghost use Rattle.px_compile.specs.FitModules.{unbuilt_of};
ghost use Rattle.px_compile.specs.ModuleImage.{module_image};
ghost use Rattle.px_cli.specs.Phases.{IsNotListed, WritesListing};

use px_base::{Bytes, NoMemory, Trouble};
use px_compile::{codes, unbuilt};
use px_names::Named;
use px_regcode::write_listing;
use px_tree::Typed;
use px_types::types;
use std::alloc::Global;

/// The listing of the codes and constants of a module.
///
/// # Errors
/// `NoMemory` where there is no memory for them or for the text.
fn code_text(alloc: Global, typed: &Typed) -> Result<Bytes, NoMemory>
    ensures { IfOk result (λ text. text ≡ listing_of (module_image (module_kept typed.now)).codes typed.now.constants) }
{
    let found = codes(alloc, typed)?;
    write_listing(alloc, found.as_slice(), typed.constants.as_slice())
}

/// The listing of a module in which each statement and function has code.
///
/// # Errors
/// E27 of the first thing that has none; `NoMemory` where there is no memory for the code or the text.
fn listing_or_refusal(alloc: Global, typed: &Typed) -> Result<Bytes, Trouble>
    ensures built { IfOk result (λ text. unbuilt_of (module_kept typed.now) ≡ None) }
    ensures done { IfOk result (λ text. text ≡ listing_of (module_image (module_kept typed.now)).codes typed.now.constants) }
    ensures refused { IfRefused result (λ refusal. unbuilt_of (module_kept typed.now) ≡ Some refusal) }
{
    match unbuilt(typed) {
        Some(refusal) => Err(Trouble::Refused(refusal)),
        None => match code_text(alloc, typed) {
            Ok(text) => Ok(text),
            Err(NoMemory) => Err(Trouble::NoMemory),
        },
    }
}

/// What `list` writes of a module that breaks no rule of names.
///
/// # Errors
/// E12 where types don't fit, or E27 of what has no types or no code; `NoMemory` where there is no memory for a phase or the text.
pub(crate) fn listed(alloc: Global, named: Named) -> Result<Bytes, Trouble>
    ensures done { IfOk result (WritesListing named) }
    ensures refused { IfRefused result (IsNotListed named) }
{
    match types(alloc, named) {
        Ok(typed) => listing_or_refusal(alloc, &typed),
        Err(trouble) => Err(trouble),
    }
}
